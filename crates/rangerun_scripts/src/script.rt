//! The parts of a script.

use crate::fault::Fault;
use crate::text::push_lines;
use std::alloc::{AllocError, Global};

/// A script in its parts, with what holds for it of the lines above.
#[derive(Clone, Copy)]
pub struct Script<'t> {
    /// What the memory of its runs comes from.
    pub alloc: Global,
    /// The lists of arguments that the program runs with, with commas between them.
    pub arguments: &'t str,
    /// What else is done.
    pub with: &'t str,
    /// The lines that come first.
    pub given: &'t str,
    /// Its own lines.
    pub lines: &'t str,
    /// What each of its own lines prints.
    pub answers: &'t str,
    /// How the run ends.
    pub end: &'t str,
}

impl<'t> Script<'t> {
    /// A script for these arguments, of which nothing else is known.
    pub fn with(alloc: Global, arguments: &'t str) -> Script<'t> {
        Script {
            alloc,
            arguments,
            with: "",
            given: "",
            lines: "",
            answers: "",
            end: "",
        }
    }

    /// The bytes that a run reads.
    pub fn input(&self) -> Result<Vec<u8>, Fault> {
        let mut bytes = Vec::new(self.alloc);
        if !self.given.is_empty() {
            push_lines(self.given, &mut bytes)?;
            bytes.push(b'\n')?;
        }
        push_lines(self.lines, &mut bytes)?;
        Ok(bytes)
    }

    /// What the lines print up to this one, which counts from 1 with those that come first.
    pub fn printed_to(&self, line: u64) -> Result<String, AllocError> {
        let mut printed = String::new(self.alloc);
        let mut left = line.saturating_sub(self.first_lines());
        for answer in self.answers.split("; ") {
            if left > 0 && answer != "-" && !answer.is_empty() {
                printed.push_str(answer)?;
                printed.push('\n')?;
            }
            left = left.saturating_sub(1);
        }
        Ok(printed)
    }

    // The number of lines that come first.
    fn first_lines(&self) -> u64 {
        let lines = self.given.split("; ");
        lines.filter(|line| !line.is_empty()).count() as u64
    }

    /// The number of its own lines before the first that has an answer.
    pub fn silent(&self) -> u64 {
        let answers = self.answers.split("; ");
        answers.take_while(|answer| *answer == "-").count() as u64
    }
}
