//! Runs scripts of the program `rangerun`.
//!
//! `rangerun_scripts FILE ..` reads the files and runs each script over texts in memory. It prints how many
//! scripts each file has. It also prints each script that ran otherwise than it says, and each line that can't
//! be read, with file and line; then the status is 1.
//!
//! A line of a file is empty, a comment that begins with `#`, a line for the scripts below it, or a script:
//!
//! ```text
//! for map, imap
//! given insert 0 10 a; insert 3 6 b
//! remove 3 6; len; get x; | -; 2 | 2: fault 3 at line 5
//! ```
//!
//! - `for` names the arguments of the program. Each script runs once for each list of arguments. A comma and a
//!   space divide the lists, and a space divides the arguments of a list. After a bare `for` the program runs
//!   without arguments.
//! - `given` names lines that come before each script. They print nothing.
//! - `with` says how the scripts run, as the table shows. The next `for` takes `given` and `with` back.
//! - A script has two or three parts. The first has its lines. A semicolon ends a line; the last line may lack
//!   it.
//! - The second part has the answer of each line, with a semicolon and a space between two answers. A dash
//!   stands for a line that prints nothing.
//! - The third part says how the run ends: the exit status, a colon, and the line on standard error. A script
//!   without it ends with status 0, and nothing on standard error.
//! - `\x0b` stands for the byte with this hexadecimal number. `\e` stands for nothing, and is an empty argument.
//!
//! | `with` | How a script runs | Third part |
//! |---|---|---|
//! | `writes of 0` | the writer takes at most this number of bytes at a time | as above |
//! | `failing reads of 3`, `failing writes of 3`, `failing flushes` | once for each call of the stream, which fails | the line of the fault of each run |
//! | `interrupted reads of 1`, `interrupted writes of 1` | once for each call of the stream, which is interrupted and has to be tried again | the number of runs |
//! | `refused memory` | once for each request for memory, which is refused | none |
//! | `calls` | the lines are calls of a `Calendar`, which `calls` describes | none |
//! | `report` | the line names how a run ended, which `ends` describes | as above |
#![tactic(auto)]

mod calls;
mod ends;
mod fault;
mod file;
mod outcome;
mod refused;
mod report;
mod runs;
mod script;
mod started;
mod streams;
mod text;

use file::run_file;
use report::Report;
use std::process::ExitCode;
use std::{env, fs, io};

fn serve(rt: &HostRuntime) -> io::Result<ExitCode> {
    let mut report = Report::new(rt.alloc());
    for name in env::args(rt)?.skip(1) {
        let text = fs::read_to_string(rt, name.as_str())?;
        run_file(name.as_str(), text.as_str(), &mut report)?;
    }
    print!(rt; "{}", report.text())?;
    Ok(report.status())
}

fn main(rt: HostRuntime) -> ExitCode {
    serve(&rt).unwrap_or(ExitCode::from(3))
}
