//! The ranges that workloads make and read.
ghost use Rattle.std.specs.Prelude.{◌<◌};

use rangemap_core::key_range::KeyRange;
use std::ops::{Range, RangeInclusive};

/// A range of keys, told by its first key and the one behind its last.
pub trait Keys: KeyRange<Key = u64> {
    /// The range from its first key up to the one behind its last.
    fn up_to(first: u64, behind: u64) -> Self
        ensures non_empty { first < behind → Self.has_key result }
        ensures not_exhausted { Self.is_fresh result };

    /// Returns the first key.
    fn first(&self) -> u64;

    /// Returns the key behind the last; of a closed range up to `u64::MAX` that is 0.
    fn behind(&self) -> u64;
}

impl Keys for Range<u64> {
    #[inline(always)]
    fn up_to(first: u64, behind: u64) -> Range<u64> {
        first..behind
    }

    #[inline(always)]
    fn first(&self) -> u64 {
        self.start
    }

    #[inline(always)]
    fn behind(&self) -> u64 {
        self.end
    }
}

impl Keys for RangeInclusive<u64> {
    #[inline(always)]
    fn up_to(first: u64, behind: u64) -> RangeInclusive<u64> {
        first..=behind.wrapping_sub(1)
    }

    #[inline(always)]
    fn first(&self) -> u64 {
        *self.start()
    }

    #[inline(always)]
    fn behind(&self) -> u64 {
        self.end().wrapping_add(1)
    }
}
