//! Files of rows, read line by line.

use crate::row::Row;
use crate::words::{known_asked, known_calls};
use std::alloc::{AllocError, Global};

/// A file of rows.
#[derive(Drop)]
pub struct File {
    /// Its name.
    pub name: String,
    /// What it has.
    pub text: String,
}

/// A line that is no row, no comment and no direction.
#[derive(Clone, Copy)]
pub struct Misread<'t> {
    /// The file that has it.
    pub file: &'t str,
    /// Its number.
    pub line: usize,
    /// What it is.
    pub text: &'t str,
}

/// What stands in files.
#[derive(Drop)]
pub struct Read<'t> {
    /// The rows.
    pub rows: Vec<Row<'t>>,
    /// The lines that could not be read.
    pub misread: Vec<Misread<'t>>,
}

// What a row has of the lines above it.
#[derive(Clone, Copy)]
struct Above<'t> {
    file: &'t str,
    line: usize,
    containers: &'t str,
    given: &'t str,
}

impl<'t> Read<'t> {
    /// Nothing was read yet.
    pub fn new(alloc: Global) -> Read<'t> {
        Read {
            rows: Vec::new(alloc),
            misread: Vec::new(alloc),
        }
    }

    /// Reads the lines of a file.
    pub fn add(&mut self, file: &'t File) -> Result<(), AllocError> {
        let mut above = Above {
            file: file.name.as_str(),
            line: 0,
            containers: "",
            given: "",
        };
        for line in file.text.split('\n') {
            above.line = above.line.saturating_add(1);
            self.add_line(&mut above, line)?;
        }
        Ok(())
    }

    // Reads a line: a comment, the containers that the rows below are for, the calls that they begin
    // with, or a row.
    fn add_line(&mut self, above: &mut Above<'t>, line: &'t str) -> Result<(), AllocError> {
        if line.is_empty() || line.starts_with('#') {
            return Ok(());
        }
        if let Some(containers) = line.strip_prefix("for ") {
            above.containers = containers;
            above.given = "";
            return Ok(());
        }
        if let Some(given) = line.strip_prefix("given") {
            if known_calls(given.trim()).is_some() {
                above.given = given.trim();
                return Ok(());
            }
        } else if let Some(row) = row_of(*above, line) {
            self.rows.push(row)?;
            return Ok(());
        }
        self.misread.push(Misread {
            file: above.file,
            line: above.line,
            text: line,
        })?;
        Ok(())
    }
}

// The row of a line that is one: it has three parts between two bars, and all its words are known.
fn row_of<'t>(above: Above<'t>, line: &'t str) -> Option<Row<'t>> {
    let (calls, rest) = line.split_once('|')?;
    let (question, answer) = rest.split_once('|')?;
    let (calls, question, answer) = (calls.trim(), question.trim(), answer.trim());
    if above.containers.is_empty() || answer.contains('|') {
        return None;
    }
    let given = known_calls(above.given)?;
    let made = known_calls(calls)?;
    let asked = known_asked(question)?;
    Some(Row {
        file: above.file,
        line: above.line,
        containers: above.containers,
        given: above.given,
        calls,
        question,
        answer,
        known: given.and(made).and(asked),
    })
}
