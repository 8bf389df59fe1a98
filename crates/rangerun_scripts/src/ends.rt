//! Reports of how a run ended, without the run.
//!
//! `well` is a run without a fault, and `fault N M` one with fault N at line M. `arguments memory` and
//! `arguments other` are runs whose arguments could not be read, because memory ran out or for another reason.

use crate::fault::Fault;
use crate::outcome::Outcome;
use crate::script::Script;
use crate::text::first_word;
use rangerun_library::{Fault as Told, arguments_fault, report};
use std::io::{Error, ErrorKind};

/// Reports the end that the line of a script names, and compares what is told and the status.
pub fn run_report(script: &Script<'_>) -> Result<(), Fault> {
    let mut outcome = Outcome::new(script.alloc);
    let ended = ended(script.lines)?;
    outcome.status = report(ended, &mut outcome.told);
    outcome.check("", "", script.end)
}

// The end of a run that a text names.
fn ended(text: &str) -> Result<Result<(), Told>, Fault> {
    let (name, operands) = first_word(text);
    let (first, second) = first_word(operands);
    match (name, first) {
        ("well", "") => Ok(Ok(())),
        ("fault", number) => Ok(Err(Told {
            number: number.parse()?,
            line: second.parse()?,
        })),
        ("arguments", "memory") => Ok(Err(arguments_fault(&Error::from(ErrorKind::OutOfMemory)))),
        ("arguments", "other") => Ok(Err(arguments_fault(&Error::from(ErrorKind::Other)))),
        _ => Err(Fault::Misread),
    }
}
