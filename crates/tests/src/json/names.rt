//! What tells the answers of the JSON form apart, their debug text and `==`; and what the errors print.

use super::Fault::{self, NoMemory, NoNumber, NoText};
use crate::checks::{check_same, check_text, check_that};
use rangemap::{Form, Part, ReadError, WriteError};
use std::alloc::Global;
use std::error::Error;
use std::fmt::Debug;
use std::test::Fail;

// Compares the debug texts of answers, each of which is equal to itself and to no other.
fn check_told<T: Debug + Eq>(alloc: Global, all: &[T], texts: &str) -> Result<(), Fail> {
    for (place, one) in all.iter().enumerate() {
        let is_told = equals_that_at(place, one, all);
        check_that(is_told, "an answer equals another, or not itself")?;
    }
    check_text(alloc, &all, texts)
}

// Whether one is equal to that at this place, and to no other.
fn equals_that_at<T: Eq>(place: usize, one: &T, all: &[T]) -> bool {
    for (at, other) in all.iter().enumerate() {
        let is_same = place == at;
        if (*one == *other, *one != *other) != (is_same, !is_same) {
            return false;
        }
    }
    true
}

// The same of two values and of copies of them.
fn check_copied<T: Copy + Debug + Eq>(alloc: Global, all: [T; 2], texts: &str) -> Result<(), Fail> {
    let [first, second] = all;
    check_told(alloc, &[first, second.clone()?], texts)?;
    check_told(alloc, &all, texts)
}

// A key that is refused.
fn bad_key<E>(at: usize, part: Part, fault: E) -> ReadError<E> {
    ReadError::BadKey { at, part, fault }
}

// A value that is refused.
fn bad_value<E>(at: usize, fault: E) -> ReadError<E> {
    ReadError::BadValue { at, fault }
}

#[test]
fn answers_are_told_apart(rt: HostRuntime) -> Result<(), Fail> {
    let alloc = rt.alloc();
    check_copied(alloc, [Form::Any, Form::Canonical], "[Any, Canonical]")?;
    check_copied(alloc, [Part::Start, Part::End], "[Start, End]")?;
    check_told(
        alloc,
        &[
            WriteError::Caller(Fault::Unwritable),
            WriteError::Caller(NoMemory),
            WriteError::OutOfMemory,
        ],
        "[Caller(Unwritable), Caller(NoMemory), OutOfMemory]",
    )?;
    check_told(
        alloc,
        &[
            ReadError::NotAList,
            ReadError::BadEntry { at: 0 },
            ReadError::BadEntry { at: 1 },
            bad_key(1, Part::Start, NoNumber),
            bad_key(2, Part::Start, NoNumber),
            bad_key(2, Part::End, NoNumber),
            bad_key(2, Part::End, NoMemory),
            bad_value(2, NoMemory),
            bad_value(2, NoText),
            bad_value(3, NoText),
            ReadError::EmptyRange { at: 3 },
            ReadError::EmptyRange { at: 4 },
            ReadError::OutOfOrder { at: 4 },
            ReadError::OutOfOrder { at: 5 },
            ReadError::Uncoalesced { at: 5 },
            ReadError::Uncoalesced { at: 6 },
            ReadError::OutOfMemory,
        ],
        "[NotAList, BadEntry { at: 0 }, BadEntry { at: 1 }, \
            BadKey { at: 1, part: Start, fault: NoNumber }, \
            BadKey { at: 2, part: Start, fault: NoNumber }, \
            BadKey { at: 2, part: End, fault: NoNumber }, \
            BadKey { at: 2, part: End, fault: NoMemory }, \
            BadValue { at: 2, fault: NoMemory }, BadValue { at: 2, fault: NoText }, \
            BadValue { at: 3, fault: NoText }, EmptyRange { at: 3 }, EmptyRange { at: 4 }, \
            OutOfOrder { at: 4 }, OutOfOrder { at: 5 }, Uncoalesced { at: 5 }, \
            Uncoalesced { at: 6 }, OutOfMemory]",
    )
}

// Compares what an error prints.
fn check_words<E: Error>(alloc: Global, error: &E, words: &str) -> Result<(), Fail> {
    let written = format!(in alloc; "{error}")?;
    check_same(written.as_str(), words)
}

// The caller's fault is a number here.
#[test]
fn errors_print_what_is_wrong_and_where(rt: HostRuntime) -> Result<(), Fail> {
    let alloc = rt.alloc();
    let told: [(ReadError<u8>, &str); 9] = [
        (ReadError::NotAList, "the value is not a list"),
        (
            ReadError::BadEntry { at: 0 },
            "entry 0 has the wrong layout",
        ),
        (bad_key(12, Part::Start, 7), "the start of entry 12: 7"),
        (bad_key(3, Part::End, 0), "the end of entry 3: 0"),
        (bad_value(3, 8), "the value of entry 3: 8"),
        (
            ReadError::EmptyRange { at: 4 },
            "the range of entry 4 is empty",
        ),
        (
            ReadError::OutOfOrder { at: 5 },
            "entry 5 does not lie behind the one before",
        ),
        (
            ReadError::Uncoalesced { at: 6 },
            "entry 6 touches the one before and has an equal value",
        ),
        (ReadError::OutOfMemory, "out of memory"),
    ];
    for (error, words) in &told {
        check_words(alloc, error, words)?;
    }
    check_words(alloc, &WriteError::Caller(7u8), "7")?;
    check_words(alloc, &WriteError::<u8>::OutOfMemory, "out of memory")
}
