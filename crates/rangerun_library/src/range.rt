//! Ranges of keys, in two kinds, and those among them that hold a key.
ghost use Rattle.std.specs.Prelude.{◌≡◌, ◌↔◌, false, true, IsNone, IfSome};
ghost use Rattle.rangerun_library.specs.Words.{holds_key};

use rangemap_core::key_range::KeyRange;
use std::fmt::Debug;
use std::marker::PhantomData;
use std::ops::{Range, RangeInclusive};

/// A range of the program's keys, which prints as the program writes it.
pub trait NumberRange: KeyRange<Key = u32> + Debug {
    /// Returns the range between two ends, in whichever order they are.
    fn of_ends(start: u32, end: u32) -> Self
        ensures ends { (Self.read.start result ≡ start) × (Self.read.end result ≡ end) }
        ensures non_empty { Self.read.IsNonEmpty result ↔ (holds_key Self.has_end start end ≡ true) };
}

impl NumberRange for Range<u32> {
    fn of_ends(start: u32, end: u32) -> Range<u32> {
        start..end
    }
}

impl NumberRange for RangeInclusive<u32> {
    fn of_ends(start: u32, end: u32) -> RangeInclusive<u32> {
        start..=end
    }
}

/// The ends of a range of the kind `R` that holds at least one key.
#[derive(Debug, Drop)]
pub struct Span<R: NumberRange> {
    start: u32,
    end: u32,
    kind: PhantomData<R>,
    ghost non_empty: { holds_key R.has_end start end ≡ true },
}

impl<R: NumberRange> Span<R> {
    /// Returns the keys between two ends, or none where there are no such keys.
    pub fn new(start: u32, end: u32) -> Option<Span<R>>
        ensures none { IsNone result ↔ (holds_key R.has_end start end ≡ false) }
        ensures ends { IfSome result (λ span. (span.start ≡ start) × (span.end ≡ end)) }
    {
        match R::between(start, end) {
            Some(_) => Some(Span {
                start,
                end,
                kind: PhantomData,
            }),
            None => None,
        }
    }

    /// Returns the span as a range.
    pub fn range(self) -> R
        ensures ends { (R.read.start result ≡ self.start) × (R.read.end result ≡ self.end) }
        ensures non_empty { R.read.IsNonEmpty result }
    {
        R::of_ends(self.start, self.end)
    }
}
