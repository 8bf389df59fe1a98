//! The program from what the system hands it to its exit status.
ghost use Rattle.std.specs.Prelude.{◌≡◌, ◌≢◌, IfErr, OnOk};
ghost use Rattle.std.specs.IoError.{error_kind};
ghost use Rattle.rangerun_library.specs.Faults.{fault_number, status_of};

use crate::fault::{Cause, Fault};
use crate::session::run;
use std::env::{self, Env};
use std::io::{self, ErrorKind, Read, Write};

/// Runs the program with the arguments and the memory of `rt` over an input and an output, tells of a
/// fault on `errors`, and returns the exit status.
pub fn serve<S: AllocGlobal + Env, R: Read + Drop, W: Write + Drop, E: Write + Drop>(
    rt: &S,
    input: R,
    output: W,
    errors: E,
) -> u8 {
    let ended = match arguments(rt) {
        Ok(args) => run(rt.alloc(), &args, input, output),
        Err(error) => Err(arguments_fault(&error)),
    };
    report(ended, errors)
}

// The words after the program's name.
fn arguments<S: AllocGlobal + Env>(rt: &S) -> io::Result<Vec<String>> {
    Ok(env::args(rt)?.skip(1).collect(rt.alloc())?)
}

/// Returns the fault where the words after the program's name were not read.
pub fn arguments_fault(error: &io::Error) -> Fault
    ensures memory { error_kind error.now ≡ ErrorKind.OutOfMemory → result.number ≡ fault_number Cause.Memory }
    ensures other { error_kind error.now ≢ ErrorKind.OutOfMemory → result.number ≡ fault_number Cause.Arguments }
    ensures line { result.line ≡ 0 }
{
    match error.kind() {
        ErrorKind::OutOfMemory => Cause::Memory.at(0),
        _ => Cause::Arguments.at(0),
    }
}

/// Reports the fault that ended a run, if one did, by a line on `errors`, and returns the exit status.
pub fn report<W: Write + Drop>(ended: Result<(), Fault>, mut errors: W) -> u8
    ensures well { OnOk ended (result ≡ 0) }
    ensures fault { IfErr ended (λ fault. result ≡ status_of fault.number) }
{
    match ended {
        Ok(()) => 0,
        Err(fault) => {
            // Where `errors` can't be written either, the status alone tells of the fault.
            let _ = writeln!(errors, "{fault}");
            fault.status()
        }
    }
}
