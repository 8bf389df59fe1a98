//! Runs of which each request for memory is refused in its turn.

use crate::fault::{Fault, check_same};
use crate::outcome::Outcome;
use crate::script::Script;
use crate::streams::{Sink, Source, Stream, Trouble};
use rangerun_library::{report, run_in};
use rows_text::Refusing;

// A number of requests that no script makes.
const MANY: u64 = 1000;

/// Runs a script with each request refused in its turn, until there is none to refuse.
pub fn run_refused(script: &Script<'_>, arguments: &str) -> Result<(), Fault> {
    let mut line = 0;
    for granted in 0..MANY {
        let Some(next) = refused_line(script, arguments, granted)? else {
            // The text of the first answer had to ask for room.
            return check_that(script, script.silent() < line, "no answer was refused");
        };
        // The first request is that for the reader's room, and a later one falls no earlier.
        let is_room = next == 0;
        check_that(
            script,
            is_room == (granted == 0),
            "the first is not of line 0",
        )?;
        check_that(script, line <= next, "a later one is of an earlier line")?;
        line = next;
    }
    check_that(script, false, "it asks for memory without an end")
}

// Runs a script with the request refused that comes after `granted` others, and compares how it ends and
// what it prints. Returns the line at which the request fell, or none where there are no more.
fn refused_line(script: &Script<'_>, arguments: &str, granted: u64) -> Result<Option<u64>, Fault> {
    let alloc = script.alloc;
    let mut args = Vec::new(alloc);
    args.push(String::from_str(alloc, arguments)?)?;
    let bytes = script.input()?;
    let heap = Refusing::new(alloc, granted);
    let mut line = 0;
    let mut outcome = Outcome::new(alloc);
    let trouble = Trouble::pieces(Stream::Reads, 1);
    let input = Source::new(bytes.as_slice(), trouble, &mut line);
    let output = Sink::new(&mut outcome.printed, trouble);
    let ended = run_in(&heap, alloc, args.as_slice(), input, output);
    outcome.status = report(ended, &mut outcome.told);
    check_that(script, heap.held() == 0, "a block is still held")?;
    if !heap.has_refused() {
        let printed = script.printed_to(u64::MAX)?;
        outcome.check(printed.as_str(), printed.as_str(), script.end)?;
        return Ok(None);
    }
    let printed = script.printed_to(line.saturating_sub(1))?;
    let end = format!(in alloc; "4: fault 7 at line {line}")?;
    outcome.check(printed.as_str(), printed.as_str(), end.as_str())?;
    Ok(Some(line))
}

// Tells what is wrong where something does not hold.
fn check_that(script: &Script<'_>, holds: bool, wrong: &str) -> Result<(), Fault> {
    if holds {
        return Ok(());
    }
    check_same(script.alloc, wrong, "")
}
