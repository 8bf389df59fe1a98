//! What runs leave, compared with what scripts say.

use crate::fault::{Fault, check_same};
use std::alloc::{AllocError, Global};
use std::str;

/// What a run printed, what it told of a fault, and its status.
#[derive(Drop)]
pub struct Outcome {
    /// What it printed.
    pub printed: Vec<u8>,
    /// What it told on standard error.
    pub told: Vec<u8>,
    /// Its status.
    pub status: u8,
}

impl Outcome {
    /// The outcome of a run that has done nothing yet.
    pub fn new(alloc: Global) -> Outcome {
        Outcome {
            printed: Vec::new(alloc),
            told: Vec::new(alloc),
            status: 0,
        }
    }

    /// Sees that the run ended so, and printed at least a text, and at most another that begins with it.
    pub fn check(&self, least: &str, most: &str, end: &str) -> Result<(), Fault> {
        let alloc = *self.told.allocator();
        let found = self.end()?;
        check_same(alloc, found.as_str(), end)?;
        let printed = text_of(self.printed.as_slice());
        if printed.starts_with(least) && most.starts_with(printed) {
            return Ok(());
        }
        check_same(alloc, printed, most)
    }

    // How it ended, as a script writes it.
    fn end(&self) -> Result<String, AllocError> {
        let mut end = String::new(*self.told.allocator());
        if self.status != 0 || !self.told.is_empty() {
            let told = text_of(self.told.as_slice());
            let line = told.strip_suffix('\n').unwrap_or("no line");
            write!(end, "{}: {line}", self.status)?;
        }
        Ok(end)
    }
}

// The text that bytes are. The program writes no others.
fn text_of(bytes: &[u8]) -> &str {
    str::from_utf8(bytes).unwrap_or("bytes that are no text")
}
