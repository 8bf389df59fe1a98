//! Calls and questions of which each request for memory is refused, one after another, until none is.
//!
//! What is refused has to leave all as it was: what the container holds, and the blocks that are held.

use crate::making::{MANY, held, is_call_accepted, make};
use crate::row::{Row, name_of};
use crate::words::is_call;
use rows_text::{Fault, Heap, Question, Subject};

/// Refuses each request of what a text names, and appends how many there are and what comes of it.
/// Returns how many were refused.
pub fn refuse<T: Subject>(
    heap: &Heap,
    subject: &mut T,
    row: &Row<'_>,
    text: &str,
    found: &mut String,
) -> Result<u64, Fault> {
    let (name, _) = name_of(text);
    match name {
        "extend" | "update" => refuse_kept(heap, subject, row, text, found),
        "run" | "replay" => refuse_commands(heap, subject, row, text, found),
        "gaps" | "union" | "intersection" | "difference" | "symmetric_difference" => refuse_items(
            heap, subject, row, text, found,
        ),
        _ if is_call(name) => refuse_call(heap, subject, row, text, found),
        _ => refuse_question(heap, subject, row, text, found),
    }
}

// How many requests were granted when a call was accepted first, and what came of it.
#[derive(Drop)]
struct Accepted {
    granted: u64,
    outcome: String,
}

// Appends the number of requests, behind a plus those that a call does without, and the outcome.
fn write_counts(
    accepted: &Option<Accepted>,
    granted: u64,
    outcome: &str,
    found: &mut String,
) -> Result<(), Fault> {
    let first = match accepted {
        Some(accepted) => accepted.granted,
        None => granted,
    };
    write!(found, "{first}")?;
    if first < granted {
        write!(found, " + {}", granted.saturating_sub(first))?;
    }
    if outcome.is_empty() {
        found.push(':')?;
    } else {
        write!(found, ": {outcome}")?;
    }
    Ok(())
}

// Notes an outcome, which has to be the same each time.
fn note(accepted: &mut Option<Accepted>, granted: u64, outcome: String) -> Result<(), Fault> {
    match accepted {
        Some(first) if first.outcome.as_str() != outcome.as_str() => Err(Fault::Differs),
        Some(_) => Ok(()),
        None => {
            *accepted = Some(Accepted { granted, outcome });
            Ok(())
        }
    }
}

// Refuses the requests of a call.
fn refuse_call<T: Subject>(
    heap: &Heap,
    subject: &mut T,
    row: &Row<'_>,
    call: &str,
    found: &mut String,
) -> Result<u64, Fault> {
    let mut accepted = None;
    for granted in 0..MANY {
        make(heap, subject, row, found)?;
        let is_accepted = is_call_accepted(heap, subject, call, granted, found)?;
        let has_refused = heap.has_refused();
        if is_accepted {
            let outcome = held(subject, found)?;
            if !has_refused {
                write_counts(&accepted, granted, outcome.as_str(), found)?;
                return Ok(granted);
            }
            note(&mut accepted, granted, outcome)?;
        } else if accepted.is_some() {
            return Err(Fault::Differs);
        }
    }
    Err(Fault::TooManyRequests)
}

// Asks a question of which a request is refused.
fn ask_refused<T: Subject>(
    subject: &T,
    question: &Question<'_>,
    found: &String,
) -> Result<Option<String>, Fault> {
    let mut answer = String::new(*found.allocator());
    match subject.ask(question, &mut answer) {
        Ok(()) => Ok(Some(answer)),
        Err(Fault::Refused) => Ok(None),
        Err(fault) => Err(fault),
    }
}

// Refuses the requests of a question.
fn refuse_question<T: Subject>(
    heap: &Heap,
    subject: &mut T,
    row: &Row<'_>,
    text: &str,
    found: &mut String,
) -> Result<u64, Fault> {
    make(heap, subject, row, found)?;
    let (before, blocks) = (held(subject, found)?, heap.held());
    let mut accepted = None;
    for granted in 0..MANY {
        let answer = ask_refused(subject, &Question::of(text, granted), found)?;
        let has_refused = heap.has_refused();
        if heap.held() != blocks || held(subject, found)?.as_str() != before.as_str() {
            return Err(Fault::Differs);
        }
        match answer {
            Some(answer) if !has_refused => {
                write_counts(&accepted, granted, answer.as_str(), found)?;
                return Ok(granted);
            }
            Some(answer) => note(&mut accepted, granted, answer)?,
            None if accepted.is_some() => return Err(Fault::Differs),
            None => {}
        }
    }
    Err(Fault::TooManyRequests)
}

// Refuses the requests of commands or of a replay, and appends what each number of granted ones comes
// to, with slashes between them; an exclamation mark where all was refused.
fn refuse_commands<T: Subject>(
    heap: &Heap,
    subject: &mut T,
    row: &Row<'_>,
    text: &str,
    found: &mut String,
) -> Result<u64, Fault> {
    let mut outcomes = String::new(*found.allocator());
    make(heap, subject, row, found)?;
    for granted in 0..MANY {
        let answer = ask_refused(subject, &Question::of(text, granted), found)?;
        if granted > 0 {
            outcomes.push_str(" / ")?;
        }
        match answer {
            Some(answer) => outcomes.push_str(answer.trim_end())?,
            None => outcomes.push('!')?,
        }
        if !heap.has_refused() {
            write!(found, "{granted}: {outcomes}")?;
            return Ok(granted);
        }
    }
    Err(Fault::TooManyRequests)
}

// Refuses the requests of an `extend` or an `update`, and appends what the container then holds for each
// number of granted ones. Such a call keeps what it did before the refusal.
fn refuse_kept<T: Subject>(
    heap: &Heap,
    subject: &mut T,
    row: &Row<'_>,
    text: &str,
    found: &mut String,
) -> Result<u64, Fault> {
    let mut outcomes = String::new(*found.allocator());
    let mut accepted = None;
    for granted in 0..MANY {
        let (is_accepted, has_refused) = keep(heap, subject, row, text, granted, &mut outcomes)?;
        if is_accepted && !has_refused {
            write_counts(&accepted, granted, outcomes.as_str(), found)?;
            return Ok(granted);
        }
        if is_accepted && accepted.is_none() {
            let outcome = String::new(*found.allocator());
            accepted = Some(Accepted { granted, outcome });
        }
        outcomes.push_str("; ")?;
    }
    Err(Fault::TooManyRequests)
}

// Makes an `extend` or an `update` on the container of a row, and appends what it then holds. Answers
// whether the call was accepted, and whether a request was refused.
fn keep<T: Subject>(
    heap: &Heap,
    subject: &mut T,
    row: &Row<'_>,
    text: &str,
    granted: u64,
    out: &mut String,
) -> Result<(bool, bool), Fault> {
    let call = name_of(text);
    if call.0 == "extend" {
        return extend_alike(heap, subject, row, call.1, granted, out);
    }
    let made = made_by(heap, subject, row, call, granted, out)?;
    out.push_str(made.list.as_str())?;
    Ok(made.answers())
}

// Extends a container by `extend` and, made anew, by `insert_pairs`, and appends what it then holds,
// which has to be the same. `from_iter` makes all or nothing. Answers as `keep` does.
fn extend_alike<T: Subject>(
    heap: &Heap,
    subject: &mut T,
    row: &Row<'_>,
    items: &str,
    granted: u64,
    out: &mut String,
) -> Result<(bool, bool), Fault> {
    let extended = made_by(heap, subject, row, ("extend", items), granted, out)?;
    let inserted = made_by(heap, subject, row, ("insert_pairs", items), granted, out)?;
    let made = made_by(heap, subject, row, ("from_iter", items), granted, out)?;
    if !extended.is_as(&inserted) || !made.is_all_or_nothing_of(&extended, row) {
        return Err(Fault::Differs);
    }
    out.push_str(extended.list.as_str())?;
    Ok(extended.answers())
}

// What came of a call.
#[derive(Drop)]
struct Made {
    is_accepted: bool,
    has_refused: bool,
    list: String,
}

impl Made {
    // Whether it was accepted, and whether a request was refused.
    fn answers(&self) -> (bool, bool) {
        (self.is_accepted, self.has_refused)
    }

    // Whether the same came of it as of another call.
    fn is_as(&self, other: &Made) -> bool {
        self.list.as_str() == other.list.as_str() && self.answers() == other.answers()
    }

    // Whether a container was made of all that an `extend` of an empty one took, or else nothing was,
    // and all is as the row leaves it. Of one that is not empty nothing is said.
    fn is_all_or_nothing_of(&self, extended: &Made, row: &Row<'_>) -> bool {
        if !row.given.is_empty() || !row.calls.is_empty() {
            return true;
        }
        let list = if self.is_accepted {
            extended.list.as_str()
        } else {
            ""
        };
        self.list.as_str() == list && self.answers() == extended.answers()
    }
}

// Makes a call on the container of a row.
fn made_by<T: Subject>(
    heap: &Heap,
    subject: &mut T,
    row: &Row<'_>,
    call: (&str, &str),
    granted: u64,
    out: &String,
) -> Result<Made, Fault> {
    make(heap, subject, row, out)?;
    let text = format!(in *out.allocator(); "{} {}", call.0, call.1)?;
    let is_accepted = match subject.change(text.as_str(), granted) {
        Ok(()) => true,
        Err(Fault::Refused) => false,
        Err(fault) => return Err(fault),
    };
    let has_refused = heap.has_refused();
    let list = held(subject, out)?;
    Ok(Made {
        is_accepted,
        has_refused,
        list,
    })
}

// Refuses the requests of items that are made when they are asked for, and appends how many requests
// each item takes. By `try_next` a refused one is asked for again; by `next` none comes behind it.
fn refuse_items<T: Subject>(
    heap: &Heap,
    subject: &mut T,
    row: &Row<'_>,
    text: &str,
    found: &mut String,
) -> Result<u64, Fault> {
    make(heap, subject, row, found)?;
    let mut counts: Vec<u64> = Vec::new(*found.allocator());
    for granted in 0..MANY {
        let tried = items(subject, text, "T", granted, found)?;
        let has_refused = heap.has_refused();
        let taken = items(subject, text, "N", granted, found)?;
        if !has_refused {
            if taken.as_str() != tried.as_str() {
                return Err(Fault::Differs);
            }
            write_item_counts(counts.as_slice(), tried.as_str(), found)?;
            return Ok(granted);
        }
        let (before, _) = tried.split_once('!').ok_or(Fault::Differs)?;
        let place = before.split(", ").count().saturating_sub(1);
        if taken.split_once('!') != Some((before, "")) {
            return Err(Fault::Differs);
        }
        count(&mut counts, place)?;
    }
    Err(Fault::TooManyRequests)
}

// What a script takes of items, of which a request is refused.
fn items<'t, T: Subject>(
    subject: &T,
    text: &'t str,
    script: &'t str,
    granted: u64,
    found: &String,
) -> Result<String, Fault> {
    let mut out = String::new(*found.allocator());
    let asked = Question::of(text, granted);
    let question = Question {
        name: asked.name,
        operand: asked.operand,
        script,
        granted,
    };
    subject.ask(&question, &mut out)?;
    Ok(out)
}

// Counts one more request of the item at a place.
fn count(counts: &mut Vec<u64>, place: usize) -> Result<(), Fault> {
    for _ in counts.len()..place.saturating_add(1) {
        counts.push(0)?;
    }
    if let Some(count) = counts.get_mut(place) {
        *count = count.saturating_add(1);
    }
    Ok(())
}

// Appends how many requests the items take, one after another, and the items.
fn write_item_counts(counts: &[u64], items: &str, found: &mut String) -> Result<(), Fault> {
    if counts.is_empty() {
        found.push('0')?;
    }
    for (place, count) in counts.iter().enumerate() {
        let plus = if place == 0 { "" } else { " + " };
        write!(found, "{plus}{count}")?;
    }
    if items.is_empty() {
        found.push(':')?;
    } else {
        write!(found, ": {items}")?;
    }
    Ok(())
}
