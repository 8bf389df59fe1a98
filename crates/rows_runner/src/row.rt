//! The parts of a row.

use crate::words::{Known, call_of};
use rows_text::first_word;

/// A row, in its parts.
#[derive(Clone, Copy)]
pub struct Row<'t> {
    /// The file that has it.
    pub file: &'t str,
    /// Its line.
    pub line: usize,
    /// The containers that it is for: beginnings of their names, with commas between them.
    pub containers: &'t str,
    /// The calls that are made first on an empty container, with commas between them.
    pub given: &'t str,
    /// The calls that are made then.
    pub calls: &'t str,
    /// What the container is asked.
    pub question: &'t str,
    /// What it answers.
    pub answer: &'t str,
    /// The subjects that know all words of the row.
    pub known: Known,
}

impl<'t> Row<'t> {
    /// Whether it is for a container: the words of a beginning begin the name.
    pub fn is_for(&self, name: &str) -> bool {
        for beginning in self.containers.split(", ") {
            if begins(name, beginning) {
                return true;
            }
        }
        false
    }

    /// Whether a word stands in it as the name of a call or a question.
    pub fn has(&self, word: &str) -> bool {
        has_call(self.given, word) || has_call(self.calls, word) || asks(self.question, word)
    }
}

// Whether a name begins with these words.
fn begins(name: &str, words: &str) -> bool {
    match name.strip_prefix(words) {
        Some(rest) => rest.is_empty() || rest.starts_with(' '),
        None => false,
    }
}

// Whether one of some calls has this name.
fn has_call(calls: &str, name: &str) -> bool {
    for call in calls.split(", ") {
        if first_word(call).0 == name || call_of(call) == name {
            return true;
        }
    }
    false
}

// Whether a question has this name, or refuses memory to what has it.
fn asks(question: &str, name: &str) -> bool {
    let (first, operand) = name_of(question);
    first == name || (first == "refuse" && name_of(operand).0 == name)
}

/// The name that a question begins with, and what stands behind it.
pub fn name_of(question: &str) -> (&str, &str) {
    let (name, operand) = first_word(question);
    (name.trim_end_matches(';'), operand)
}
