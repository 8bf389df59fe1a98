//! What was found, as text.

use crate::file::Misread;
use crate::row::Row;
use crate::words::Group;
use std::alloc::{AllocError, Global};

/// What was found.
#[derive(Drop)]
pub struct Report {
    text: String,
    is_good: bool,
}

impl Report {
    /// Nothing was found yet.
    pub fn new(alloc: Global) -> Report {
        Report {
            text: String::new(alloc),
            is_good: true,
        }
    }

    /// What its memory comes from.
    pub fn alloc(&self) -> Global {
        *self.text.allocator()
    }

    /// What is to be printed.
    pub fn text(&self) -> &str {
        self.text.as_str()
    }

    /// Whether all rows were read, and answered as they say.
    pub fn is_good(&self) -> bool {
        self.is_good
    }

    /// A line is no row.
    pub fn misread(&mut self, line: &Misread<'_>) -> Result<(), AllocError> {
        self.is_good = false;
        let Misread { file, line, text } = *line;
        write!(self.text, "{file}:{line}: no row: {text}\n")
    }

    /// A row is answered otherwise by a container.
    pub fn differs(
        &mut self,
        name: &str,
        row: &Row<'_>,
        found: &str,
        wanted: &str,
    ) -> Result<(), AllocError> {
        self.is_good = false;
        let (file, line, calls, question) = (row.file, row.line, row.calls, row.question);
        write!(
            self.text,
            "{file}:{line}: {name}: {calls} | {question} | {}\n",
            row.answer
        )?;
        if !row.given.is_empty() {
            write!(self.text, "  given {}\n", row.given)?;
        }
        write!(self.text, "  found:  {found}\n  wanted: {wanted}\n")
    }

    /// A row was run on no container.
    pub fn unrun(&mut self, row: &Row<'_>) -> Result<(), AllocError> {
        self.is_good = false;
        let (file, line) = (row.file, row.line);
        write!(self.text, "{file}:{line}: run on no container\n")
    }

    /// No row has a word.
    pub fn unused(&mut self, word: &str) -> Result<(), AllocError> {
        self.is_good = false;
        write!(self.text, "no row has the word {word}\n")
    }

    /// So many rows were run on a container as this subject, in which so many requests were refused.
    pub fn ran(
        &mut self,
        name: &str,
        group: Group,
        rows: u64,
        refused: u64,
    ) -> Result<(), AllocError> {
        self.is_good &= rows > 0;
        let subject = group.name();
        write!(
            self.text,
            "{name}, {subject}: {rows} rows, {refused} requests refused\n"
        )
    }
}
