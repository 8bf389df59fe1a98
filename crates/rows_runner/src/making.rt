//! The calls of a row, made on an empty container.

use crate::row::{Row, name_of};
use rows_text::{Fault, Heap, Question, Subject, first_word};

/// A number of requests that no call here makes.
pub const MANY: u64 = 1000;

/// Makes the calls of a row on an empty container. Returns how many requests were refused. `found` says
/// where texts take their memory from.
pub fn make<T: Subject>(
    heap: &Heap,
    subject: &mut T,
    row: &Row<'_>,
    found: &String,
) -> Result<u64, Fault> {
    subject.renew();
    let given = make_all(heap, subject, row.given, found)?;
    let made = make_all(heap, subject, row.calls, found)?;
    Ok(given.saturating_add(made))
}

// Makes calls, with commas between them.
fn make_all<T: Subject>(
    heap: &Heap,
    subject: &mut T,
    calls: &str,
    found: &String,
) -> Result<u64, Fault> {
    let mut refused = 0u64;
    for call in calls.split(", ") {
        if let Some(call) = call.strip_prefix("refuse ") {
            let requests = make_refused(heap, subject, call, found)?;
            refused = refused.saturating_add(requests);
        } else if let Some(operand) = call.strip_prefix("many ") {
            insert_many(subject, operand, found)?;
        } else if !call.is_empty() {
            subject.change(call, u64::MAX)?;
        }
    }
    Ok(refused)
}

// Inserts so many ranges, with gaps between them.
fn insert_many<T: Subject>(subject: &mut T, operand: &str, found: &String) -> Result<(), Fault> {
    let (count, item) = first_word(operand);
    let (dots, value) = first_word(item);
    let count = count.parse::<u32>().ok().ok_or(Fault::NoOperand)?;
    let mut call = String::new(*found.allocator());
    for at in 0..count {
        let start = at.wrapping_mul(3);
        call.clear();
        write!(
            call,
            "insert {start}{dots}{} {value}",
            start.wrapping_add(1)
        )?;
        subject.change(call.trim_end(), u64::MAX)?;
    }
    Ok(())
}

// Makes a call, whose requests are refused one after another until it is accepted.
fn make_refused<T: Subject>(
    heap: &Heap,
    subject: &mut T,
    call: &str,
    found: &String,
) -> Result<u64, Fault> {
    for granted in 0..MANY {
        if is_call_accepted(heap, subject, call, granted, found)? {
            return Ok(granted);
        }
    }
    Err(Fault::TooManyRequests)
}

/// Makes a call of which a request is refused. Where the call is refused all is as before, but for one
/// that keeps a beginning of what it is given.
pub fn is_call_accepted<T: Subject>(
    heap: &Heap,
    subject: &mut T,
    call: &str,
    granted: u64,
    found: &String,
) -> Result<bool, Fault> {
    let before = held(subject, found)?;
    let blocks = heap.held();
    match subject.change(call, granted) {
        Ok(()) => Ok(true),
        Err(Fault::Refused) => {
            let is_same = heap.held() == blocks
                && held(subject, found)?.as_str() == before.as_str();
            if is_same || matches!(name_of(call).0, "extend" | "insert_pairs" | "update") {
                Ok(false)
            } else {
                Err(Fault::Differs)
            }
        }
        Err(fault) => Err(fault),
    }
}

/// What a container holds.
pub fn held<T: Subject>(subject: &T, found: &String) -> Result<String, Fault> {
    let mut list = String::new(*found.allocator());
    ask(subject, "iter", &mut list)?;
    Ok(list)
}

/// Asks, with no request refused.
pub fn ask<T: Subject>(subject: &T, question: &str, out: &mut String) -> Result<(), Fault> {
    subject.ask(&Question::of(question, u64::MAX), out)
}
