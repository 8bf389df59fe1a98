//! The program `rangerun` once more, for a stored run that ends in a fault: a crate has one.
#![tactic(auto)]

use rangerun_library::serve;
use std::io;
use std::process::ExitCode;

fn main(rt: HostRuntime) -> ExitCode {
    ExitCode::from(serve(&rt, rt.reader(), io::writer(&rt), rt.stderr()))
}
