//! Runs of the program over texts in memory, and over streams that fail.

use crate::fault::Fault;
use crate::outcome::Outcome;
use crate::script::Script;
use crate::started::Started;
use crate::streams::{Sink, Source, Stream, Trouble};
use rangerun_library::serve;
use std::io::ErrorKind;

// Runs the program over the lines of a script.
fn run(script: &Script<'_>, arguments: &str, trouble: Trouble) -> Result<Outcome, Fault> {
    let alloc = script.alloc;
    let started = Started::with(alloc, arguments)?;
    let bytes = script.input()?;
    let mut lines = 0;
    let mut outcome = Outcome::new(alloc);
    outcome.status = serve(
        &(started, alloc),
        Source::new(bytes.as_slice(), trouble, &mut lines),
        Sink::new(&mut outcome.printed, trouble),
        &mut outcome.told,
    );
    Ok(outcome)
}

/// Runs a script, and compares what it prints and how it ends.
pub fn run_plain(
    script: &Script<'_>,
    arguments: &str,
    trouble: Trouble,
    end: &str,
) -> Result<(), Fault> {
    let outcome = run(script, arguments, trouble)?;
    let printed = script.printed_to(u64::MAX)?;
    outcome.check(printed.as_str(), printed.as_str(), end)
}

/// Fails each call of a stream in turn, with two kinds of errors. The end of the script has the line at
/// which each of them is told.
pub fn run_failing(
    script: &Script<'_>,
    arguments: &str,
    stream: Stream,
    size: usize,
) -> Result<(), Fault> {
    let mut passed = 0u64;
    for line in script.end.split(' ') {
        let line = line.parse()?;
        let trouble = Trouble {
            stream,
            size,
            passed,
            kind: ErrorKind::Other,
        };
        run_failed(script, arguments, trouble, line)?;
        let trouble = Trouble {
            kind: ErrorKind::OutOfMemory,
            ..trouble
        };
        run_failed(script, arguments, trouble, line)?;
        passed = passed.saturating_add(1);
    }
    Ok(())
}

// Runs a script with one failure, which is told at a line.
fn run_failed(
    script: &Script<'_>,
    arguments: &str,
    trouble: Trouble,
    line: u64,
) -> Result<(), Fault> {
    let outcome = run(script, arguments, trouble)?;
    let before = script.printed_to(line.saturating_sub(1))?;
    let with_it = script.printed_to(line)?;
    // Of an answer that is not written to its end a beginning may be written; one that is flushed was
    // written.
    let (least, most) = match trouble.stream {
        Stream::Reads => (&before, &before),
        Stream::Writes => (&before, &with_it),
        Stream::Flushes => (&with_it, &with_it),
    };
    let end = format!(in script.alloc; "3: fault 6 at line {line}")?;
    outcome.check(least.as_str(), most.as_str(), end.as_str())
}

/// Interrupts each call of a stream in turn, as often as the end of the script says, which has to change
/// nothing.
pub fn run_interrupted(
    script: &Script<'_>,
    arguments: &str,
    stream: Stream,
    size: usize,
) -> Result<(), Fault> {
    let times: u64 = script.end.parse()?;
    for passed in 0..times {
        let trouble = Trouble {
            stream,
            size,
            passed,
            kind: ErrorKind::Interrupted,
        };
        run_plain(script, arguments, trouble, "")?;
    }
    Ok(())
}
