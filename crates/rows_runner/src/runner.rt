//! A row, run on a container.

use crate::making::{ask, make};
use crate::open::{write_blocks, write_counted};
use crate::refusals::refuse;
use crate::report::Report;
use crate::row::{Row, name_of};
use rows_text::{Fault, Heap, Question, Subject, last_item, take_item};
use std::alloc::AllocError;

/// Runs a row, and reports it where it is answered otherwise. Returns how many requests were refused.
pub fn run_row<T: Subject>(
    heap: &Heap,
    name: &str,
    subject: &mut T,
    row: &Row<'_>,
    report: &mut Report,
) -> Result<u64, AllocError> {
    let mut found = String::new(report.alloc());
    let mut wanted = String::new(report.alloc());
    let answered = answer(heap, subject, row, &mut found, &mut wanted);
    let refused = match answered {
        Ok(refused) => refused,
        Err(fault) => {
            write!(found, " {fault:?}")?;
            0
        }
    };
    subject.renew();
    if heap.held() > 0 {
        found.push_str(" and a block is still held")?;
    }
    let (found, wanted) = (found.trim_end(), wanted.trim_end());
    if found != wanted {
        report.differs(name, row, found, wanted)?;
    }
    Ok(refused)
}

// Asks a question with an operand, and appends a semicolon.
fn ask_of<T: Subject>(
    subject: &T,
    name: &str,
    operand: &str,
    out: &mut String,
) -> Result<(), Fault> {
    let question = Question {
        name,
        operand,
        script: "",
        granted: u64::MAX,
    };
    subject.ask(&question, out)?;
    Ok(out.push_str("; ")?)
}

// Makes the calls of a row, and asks. Some words ask several questions. Returns how many requests were
// refused.
fn answer<T: Subject>(
    heap: &Heap,
    subject: &mut T,
    row: &Row<'_>,
    found: &mut String,
    wanted: &mut String,
) -> Result<u64, Fault> {
    let (name, operand) = name_of(row.question);
    if name == "refuse" {
        let mut counted = String::new(*found.allocator());
        let refused = refuse(heap, subject, row, operand, &mut counted)?;
        wanted.push_str(row.answer)?;
        write_counted(counted.as_str(), row.answer, found)?;
        return Ok(refused);
    }
    let refused = make(heap, subject, row, found)?;
    match name {
        "holds" => {
            want_held(row.answer, wanted)?;
            ask_held(subject, found)?;
        }
        "overlapping" => ask_overlapping(subject, row, found, wanted)?,
        "at" => ask_at(subject, row, found, wanted)?,
        "blocks" => {
            wanted.push_str(row.answer)?;
            write_blocks(heap.held(), row.answer, found)?;
        }
        _ => {
            wanted.push_str(row.answer)?;
            ask(subject, row.question, found)?;
        }
    }
    Ok(refused)
}

// What a container that holds the items of a list is to answer.
fn want_held(list: &str, wanted: &mut String) -> Result<(), Fault> {
    let mut rest = list;
    let first = take_item(&mut rest).unwrap_or("-");
    let last = last_item(list).unwrap_or("-");
    let count = if list.is_empty() {
        0
    } else {
        list.split(", ").count()
    };
    write!(wanted, "{list}; {count} {}; {first}, {last}; ", count == 0)?;
    Ok(())
}

// What a container holds, by all calls that tell it.
fn ask_held<T: Subject>(subject: &T, found: &mut String) -> Result<(), Fault> {
    ask_of(subject, "iter", "", found)?;
    ask_of(subject, "len", "", found)?;
    ask_of(subject, "ends", "", found)
}

// Whether a range overlaps something, and what. A script that takes nothing doesn't tell the first.
fn ask_overlapping<T: Subject>(
    subject: &T,
    row: &Row<'_>,
    found: &mut String,
    wanted: &mut String,
) -> Result<(), Fault> {
    let (_, operand) = name_of(row.question);
    let (range, script) = operand.split_once("; ").unwrap_or((operand, "f"));
    if script.contains('f') || script.contains('b') {
        write!(wanted, "{}; ", row.answer.contains(".."))?;
        ask_of(subject, "overlaps", range, found)?;
    }
    wanted.push_str(row.answer)?;
    ask(subject, row.question, found)
}

// The item that has a key, if one has.
fn ask_at<T: Subject>(
    subject: &T,
    row: &Row<'_>,
    found: &mut String,
    wanted: &mut String,
) -> Result<(), Fault> {
    wanted.push_str(if row.answer.is_empty() {
        "-"
    } else {
        row.answer
    })?;
    ask(subject, row.question, found)
}
