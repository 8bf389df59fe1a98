//! Rows, run on one container after another.

use crate::report::Report;
use crate::row::Row;
use crate::runner::run_row;
use crate::words::{Group, Known};
use rows_text::{Heap, Subject};
use std::alloc::AllocError;

/// Rows that are run on containers, and what was found.
#[derive(Drop)]
pub struct Session<'s> {
    heap: &'s Heap,
    rows: &'s [Row<'s>],
    // Whether each row was run on a container.
    ran: Vec<bool>,
    report: Report,
}

impl<'s> Session<'s> {
    /// None of the rows was run yet.
    pub fn new(
        heap: &'s Heap,
        rows: &'s [Row<'s>],
        report: Report,
    ) -> Result<Session<'s>, AllocError> {
        Ok(Session {
            heap,
            rows,
            ran: Vec::from_elem(report.alloc(), false, rows.len())?,
            report,
        })
    }

    /// Makes the name of a container in a store.
    pub fn name(&self, kind: &str, store: &str) -> Result<String, AllocError> {
        format!(in self.report.alloc(); "{kind} in {store}")
    }

    /// Makes the name of one in chunks of up to so many ranges.
    pub fn name_in_chunks(&self, kind: &str, most: usize) -> Result<String, AllocError> {
        format!(in self.report.alloc(); "{kind} in chunks of {most}")
    }

    /// Runs the rows that are for a container, as far as they are for this one of the subjects that it
    /// is made.
    pub fn run<T: Subject>(
        &mut self,
        name: &str,
        made: Known,
        group: Group,
        subject: &mut T,
    ) -> Result<(), AllocError> {
        let (mut rows, mut refused) = (0u64, 0u64);
        for (row, ran) in self.rows.iter().zip(self.ran.iter_mut()) {
            if row.is_for(name) && row.known.first(made) == Some(group) {
                *ran = true;
                rows = rows.saturating_add(1);
                let requests = run_row(self.heap, name, subject, row, &mut self.report)?;
                refused = refused.saturating_add(requests);
            }
        }
        self.report.ran(name, group, rows, refused)
    }

    /// Returns what was found, once the rows were run on every container. Rows have to use all of the
    /// words.
    pub fn end(mut self, words: &[&str]) -> Result<Report, AllocError> {
        self.report_unrun()?;
        self.report_unused(words)?;
        Ok(self.report)
    }

    // Reports the rows that were run on no container.
    fn report_unrun(&mut self) -> Result<(), AllocError> {
        for (row, ran) in self.rows.iter().zip(self.ran.iter()) {
            if !*ran {
                self.report.unrun(row)?;
            }
        }
        Ok(())
    }

    // Reports the words that no row has.
    fn report_unused(&mut self, words: &[&str]) -> Result<(), AllocError> {
        for word in words {
            if !has_word(self.rows, *word) {
                self.report.unused(*word)?;
            }
        }
        Ok(())
    }
}

// Whether a row has a word.
fn has_word(rows: &[Row<'_>], word: &str) -> bool {
    for row in rows {
        if row.has(word) {
            return true;
        }
    }
    false
}
