//! Runs the commands of standard input over a map, a set or a calendar of ranges.
//!
//! `rangerun KIND` reads commands line by line, carries each out, and prints its answer before it
//! reads the next line. It stops at the first fault, which it prints on standard error.
#![tactic(auto)]

use rangerun_library::serve;
use std::io;
use std::process::ExitCode;

fn main(rt: HostRuntime) -> ExitCode {
    ExitCode::from(serve(&rt, rt.reader(), io::writer(&rt), rt.stderr()))
}
