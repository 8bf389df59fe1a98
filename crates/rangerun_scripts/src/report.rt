//! What was found, as text.

use std::alloc::{AllocError, Global};
use std::process::ExitCode;

/// What was found.
#[derive(Drop)]
pub struct Report {
    text: String,
    is_good: bool,
}

impl Report {
    /// Nothing was found yet.
    pub fn new(alloc: Global) -> Report {
        Report {
            text: String::new(alloc),
            is_good: true,
        }
    }

    /// What its memory comes from.
    pub fn alloc(&self) -> Global {
        *self.text.allocator()
    }

    /// What is to be printed.
    pub fn text(&self) -> &str {
        self.text.as_str()
    }

    /// The status: 0 if all lines were read, and each script ran as it says, else 1.
    pub fn status(&self) -> ExitCode {
        if self.is_good {
            ExitCode::SUCCESS
        } else {
            ExitCode::FAILURE
        }
    }

    /// So many scripts of a file were run.
    pub fn ran(&mut self, file: &str, scripts: u64) -> Result<(), AllocError> {
        self.is_good &= scripts > 0;
        write!(self.text, "{file}: {scripts} scripts\n")
    }

    /// A line, or a part of it, can't be read.
    pub fn misread(&mut self, file: &str, number: u64, line: &str) -> Result<(), AllocError> {
        self.is_good = false;
        write!(self.text, "{file}:{number}: can't be read: {line}\n")
    }

    /// A script ran otherwise with these arguments.
    pub fn differs(
        &mut self,
        file: &str,
        number: u64,
        arguments: &str,
        line: &str,
        found: &str,
        wanted: &str,
    ) -> Result<(), AllocError> {
        self.is_good = false;
        write!(
            self.text,
            "{file}:{number}: for {arguments}: {line}\n  found:  {}\n  wanted: {}\n",
            found.trim_end(),
            wanted.trim_end()
        )
    }
}
