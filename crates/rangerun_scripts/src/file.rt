//! Files of scripts, read line by line.

use crate::calls::run_calls;
use crate::ends::run_report;
use crate::fault::Fault;
use crate::refused::run_refused;
use crate::report::Report;
use crate::runs::{run_failing, run_interrupted, run_plain};
use crate::script::Script;
use crate::streams::{Stream, Trouble};
use crate::text::first_word;
use std::alloc::{AllocError, Global};

// What a line of a file is.
enum Line<'t> {
    // It says nothing to be run.
    Silent,
    Script(Script<'t>),
    // It can't be read.
    None,
}

/// Runs the scripts of a file.
pub fn run_file(file: &str, text: &str, report: &mut Report) -> Result<(), AllocError> {
    let mut above = None;
    let (mut number, mut scripts) = (0u64, 0u64);
    for line in text.split('\n') {
        number = number.saturating_add(1);
        match read_line(report.alloc(), &mut above, line) {
            Line::Silent => {}
            Line::Script(script) => {
                scripts = scripts.saturating_add(1);
                run_script(file, number, line, &script, report)?;
            }
            Line::None => report.misread(file, number, line)?,
        }
    }
    report.ran(file, scripts)
}

// Reads a line. `above` is what the lines above say of a script, once there was a `for`.
fn read_line<'t>(alloc: Global, above: &mut Option<Script<'t>>, line: &'t str) -> Line<'t> {
    if line.is_empty() || line.starts_with('#') {
        return Line::Silent;
    }
    let (name, rest) = first_word(line);
    if name == "for" {
        *above = Some(Script::with(alloc, rest));
        return Line::Silent;
    }
    let Some(script) = *above else {
        return Line::None;
    };
    match name {
        "given" => *above = Some(Script {
            given: rest,
            ..script
        }),
        "with" => *above = Some(Script {
            with: rest,
            ..script
        }),
        _ => return own_parts(script, line),
    }
    Line::Silent
}

// The script of a line: it has two or three parts.
fn own_parts<'t>(above: Script<'t>, line: &'t str) -> Line<'t> {
    let Some((lines, rest)) = line.split_once('|') else {
        return Line::None;
    };
    let (answers, end) = rest.split_once('|').unwrap_or((rest, ""));
    Line::Script(Script {
        lines: lines.trim(),
        answers: answers.trim(),
        end: end.trim(),
        ..above
    })
}

// Runs a script once for each list of arguments.
fn run_script(
    file: &str,
    number: u64,
    line: &str,
    script: &Script<'_>,
    report: &mut Report,
) -> Result<(), AllocError> {
    for arguments in script.arguments.split(", ") {
        match run_with(script, arguments) {
            Ok(()) => {}
            Err(Fault::Differs { found, wanted }) => {
                report.differs(
                    file,
                    number,
                    arguments,
                    line,
                    found.as_str(),
                    wanted.as_str(),
                )?;
            }
            Err(Fault::Misread) => report.misread(file, number, line)?,
            Err(Fault::OutOfMemory) => return Err(AllocError),
        }
    }
    Ok(())
}

// Runs a script with a list of arguments.
fn run_with(script: &Script<'_>, arguments: &str) -> Result<(), Fault> {
    let (with, size) = script
        .with
        .split_once(" of ")
        .unwrap_or((script.with, "100"));
    let size = size.parse()?;
    match with {
        "" | "writes" => {
            let trouble = Trouble::pieces(Stream::Writes, size);
            run_plain(script, arguments, trouble, script.end)
        }
        "failing reads" => run_failing(script, arguments, Stream::Reads, size),
        "failing writes" => run_failing(script, arguments, Stream::Writes, size),
        "failing flushes" => run_failing(script, arguments, Stream::Flushes, size),
        "interrupted reads" => run_interrupted(script, arguments, Stream::Reads, size),
        "interrupted writes" => run_interrupted(script, arguments, Stream::Writes, size),
        "refused memory" => run_refused(script, arguments),
        "calls" => run_calls(script),
        "report" => run_report(script),
        _ => Err(Fault::Misread),
    }
}
