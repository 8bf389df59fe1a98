//! Numbers that tell what a map answers from other answers.

use crate::keys::Keys;
use crate::readers::{ReadsGaps, ReadsPairs};
use crate::value::Stored;
use std::alloc::AllocError;

// A number that tells the range and the value from others.
#[inline(always)]
fn of_pair<R: Keys, V: Stored>(range: &R, value: &V) -> u64 {
    of_range(range).wrapping_add(value.number())
}

// A number that tells the range from others.
#[inline(always)]
fn of_range<R: Keys>(range: &R) -> u64 {
    range.first().wrapping_add(range.behind().wrapping_mul(3))
}

/// A digest of the first items and the next one, which depends on their order.
#[inline(always)]
pub fn followed_by(digest: u64, next: u64) -> u64 {
    digest
        .wrapping_mul(0x9E37_79B9_7F4A_7C15)
        .wrapping_add(next)
}

/// The numbers of pairs or of gaps, mixed by exclusive or, which is as little work for each as can
/// be.
#[derive(Drop)]
pub struct Mix {
    /// What was mixed so far.
    pub mix: u64,
}

impl<R: Keys, V: Stored> ReadsPairs<R, V> for Mix {
    #[inline(always)]
    fn pair(&mut self, range: &R, value: &V) -> Result<(), AllocError> {
        self.mix ^= of_pair(range, value);
        Ok(())
    }
}

impl<R: Keys> ReadsGaps<R> for Mix {
    #[inline(always)]
    fn gap(&mut self, gap: R) -> Result<(), AllocError> {
        self.mix ^= of_range(&gap);
        Ok(())
    }
}

/// A digest of pairs in their order.
#[derive(Drop)]
pub struct Digest {
    /// The digest of those so far.
    pub digest: u64,
}

impl<R: Keys, V: Stored> ReadsPairs<R, V> for Digest {
    #[inline(always)]
    fn pair(&mut self, range: &R, value: &V) -> Result<(), AllocError> {
        self.digest = followed_by(self.digest, of_pair(range, value));
        Ok(())
    }
}
