//! What a program is started with.

use crate::fault::Fault;
use crate::text::argument;
use std::alloc::Global;
use std::env::{Env, FillError};

/// The words that a program is started with: its name, and its arguments. There are no variables.
#[derive(Drop)]
pub struct Started {
    words: Vec<Vec<u8>>,
}

impl Started {
    /// With the arguments of a list, with a space between two.
    pub fn with(alloc: Global, arguments: &str) -> Result<Started, Fault> {
        let mut words = Vec::new(alloc);
        words.push(argument(alloc, "rangerun")?)?;
        for word in arguments.split(' ') {
            if !word.is_empty() {
                words.push(argument(alloc, word)?)?;
            }
        }
        Ok(Started { words })
    }
}

impl Env for Started {
    fn arg(&self, i: usize, buf: &mut [u8]) -> Result<usize, FillError> {
        let word = self.words.get(i).ok_or(FillError::NotPresent)?;
        if buf.len() < word.len() {
            return Err(FillError::TooLong);
        }
        buf[..word.len()].copy_from_slice(word.as_slice());
        Ok(word.len())
    }

    fn var(&self, _name: &str, _buf: &mut [u8]) -> Result<usize, FillError> {
        Err(FillError::NotPresent)
    }

    fn var_at(&self, _i: usize, _buf: &mut [u8]) -> Result<usize, FillError> {
        Err(FillError::NotPresent)
    }
}
