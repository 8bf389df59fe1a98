//! Calls of a `Calendar`, one after another.
//!
//! | Call | Makes or asks |
//! |---|---|
//! | `book F L G`, `cancel F L` | these calls |
//! | `days F L fb G` | `book_days` of a range that was iterated: by `next` for each `f`, by `next_back` for each `b`; a dash takes nothing |
//! | `make book F L G` | `make` of a call |
//! | `replay book F L G, cancel F L` | `replay` of a list of calls |
//! | `stretches N` | books N stretches of five days that begin on the days 0, 10, 20 .., each for another guest |
//! | `refuse book F L G` | one of the calls above, whose first request for memory is refused |
//! | `holder D`, `free F L`, `held` | the guest of a day; the first free stretch; what `iter` gives |
//!
//! A call that changes the calendar answers `done`, or what its error prints.

use crate::fault::{Fault, check_same};
use crate::script::Script;
use crate::text::first_word;
use calendar::{BookError, Calendar, Call, replay};
use rows_text::Refusing;
use std::alloc::{AllocError, Global};
use std::fmt::Debug;

// What the calendar has its memory from.
type Heap = Refusing<Global>;

/// Makes the calls of a script on an empty calendar, and compares their answers.
pub fn run_calls(script: &Script<'_>) -> Result<(), Fault> {
    let alloc = script.alloc;
    let heap = Refusing::new(alloc, u64::MAX);
    let mut calendar = Calendar::new(&heap);
    let mut answers = String::new(alloc);
    for call in script.lines.split("; ") {
        if !answers.is_empty() {
            answers.push_str("; ")?;
        }
        let (granted, call) = match call.strip_prefix("refuse ") {
            Some(call) => (0, call),
            None => (u64::MAX, call),
        };
        answer(&heap, granted, &mut calendar, call, &mut answers)?;
    }
    check_same(alloc, answers.as_str(), script.answers)
}

// Makes a call, whose request is refused that comes after `granted` others, and appends its answer.
fn answer<'h>(
    heap: &'h Heap,
    granted: u64,
    calendar: &mut Calendar<&'h Heap>,
    call: &str,
    out: &mut String,
) -> Result<(), Fault> {
    let (name, mut operands) = first_word(call);
    match name {
        "days" => book_days(heap, granted, calendar, operands, out),
        "make" => {
            let call = call_of(operands)?;
            heap.refuse_after(granted);
            Ok(write_answer(calendar.make(call), out)?)
        }
        "replay" => replay_all(heap, granted, calendar, operands, out),
        "stretches" => book_stretches(calendar, operands.parse()?, out),
        "holder" => Ok(write_or_none(calendar.holder(operands.parse()?), out)?),
        "free" => {
            let days = take_number(&mut operands)?..=take_number(&mut operands)?;
            let first = calendar.free(&days).try_next()?;
            Ok(write_or_none(first, out)?)
        }
        "held" => write_held(calendar, out),
        _ => match call_of(call)? {
            Call::Book { first, last, guest } => {
                heap.refuse_after(granted);
                Ok(write_answer(calendar.book(first, last, guest), out)?)
            }
            Call::Cancel { first, last } => {
                heap.refuse_after(granted);
                Ok(write_answer(calendar.cancel(first, last), out)?)
            }
        },
    }
}

// Takes a number off a text of words.
fn take_number(rest: &mut &str) -> Result<u32, Fault> {
    let (word, behind) = first_word(*rest);
    *rest = behind;
    Ok(word.parse()?)
}

// The call that a text names.
fn call_of(text: &str) -> Result<Call, Fault> {
    let (name, mut rest) = first_word(text);
    let first = take_number(&mut rest)?;
    let last = take_number(&mut rest)?;
    match name {
        "book" => {
            let guest = take_number(&mut rest)?;
            Ok(Call::Book { first, last, guest })
        }
        "cancel" => Ok(Call::Cancel { first, last }),
        _ => Err(Fault::Misread),
    }
}

// Appends what a call answers.
fn write_answer(answer: Result<(), BookError>, out: &mut String) -> Result<(), AllocError> {
    match answer {
        Ok(()) => out.push_str("done"),
        Err(error) => write!(out, "{error}"),
    }
}

// Appends what was found, if something was.
fn write_or_none<T: Debug + Drop>(found: Option<T>, out: &mut String) -> Result<(), AllocError> {
    match found {
        Some(found) => write!(out, "{found:?}"),
        None => out.push_str("none"),
    }
}

// Books a range of which some days were taken.
fn book_days(
    heap: &Heap,
    granted: u64,
    calendar: &mut Calendar<&Heap>,
    operands: &str,
    out: &mut String,
) -> Result<(), Fault> {
    let mut rest = operands;
    let mut days = take_number(&mut rest)?..=take_number(&mut rest)?;
    let (taken, guest) = first_word(rest);
    for letter in taken.chars() {
        match letter {
            'f' => drop(days.next()),
            'b' => drop(days.next_back()),
            _ => {}
        }
    }
    let guest = guest.parse()?;
    heap.refuse_after(granted);
    Ok(write_answer(calendar.book_days(days, guest), out)?)
}

// Replays calls, and appends the answer of each, or that all were refused.
fn replay_all<'h>(
    heap: &'h Heap,
    granted: u64,
    calendar: &mut Calendar<&'h Heap>,
    operands: &str,
    out: &mut String,
) -> Result<(), Fault> {
    let calls = calls_of(heap, operands)?;
    heap.refuse_after(granted);
    let Ok(answers) = replay(heap, calendar, calls) else {
        return Ok(write_answer(Err(BookError::OutOfMemory), out)?);
    };
    let mut is_first = true;
    for answer in answers.iter() {
        if !is_first {
            out.push_str(", ")?;
        }
        is_first = false;
        write_answer(*answer, out)?;
    }
    Ok(())
}

// The calls of a list.
fn calls_of<'h>(heap: &'h Heap, list: &str) -> Result<Vec<Call, &'h Heap>, Fault> {
    let mut calls = Vec::new(heap);
    for call in list.split(", ") {
        calls.push(call_of(call)?)?;
    }
    Ok(calls)
}

// Books stretches of five days, each with a guest of its own.
fn book_stretches(
    calendar: &mut Calendar<&Heap>,
    count: u32,
    out: &mut String,
) -> Result<(), Fault> {
    for guest in 0..count {
        let first = guest.saturating_mul(10);
        if let Err(error) = calendar.book(first, first.saturating_add(4), guest) {
            write_answer(Err(error), out)?;
        }
    }
    Ok(out.push_str("done")?)
}

// Appends the stretches that guests hold.
fn write_held(calendar: &Calendar<&Heap>, out: &mut String) -> Result<(), Fault> {
    let mut is_first = true;
    out.push('{')?;
    for (days, guest) in calendar.iter() {
        if !is_first {
            out.push_str(", ")?;
        }
        is_first = false;
        write!(out, "{days:?}: {guest}")?;
    }
    Ok(out.push('}')?)
}
