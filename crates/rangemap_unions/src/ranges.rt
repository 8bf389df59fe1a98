//! The iterators over the ranges of a set. Each wraps an iterator over pairs and leaves out the
//! values.
ghost use Rattle.std.specs.Prelude.{◌≡◌, length, IfSome, None as NoneWord, Some as SomeWord};
ghost use Rattle.std.specs.Iterator.{UpTo, at_most};
ghost use Rattle.std.specs.Iterator.SizeHint.{IsWithinCount};
ghost use Rattle.std.specs.Map.Iter.{TakesFirst, TakesLast};
ghost use Rattle.rangemap_core.specs.Sets.{IsCanonicalSet, ranges};

use rangemap_core::cursor::Cursor;
use rangemap_core::key_range::KeyRange;
use rangemap_core::pair_iter::PairIter;
use std::iter::{DoubleEndedIterator, ExactSizeIterator, Iterator};
use std::marker::Model;

/// All ranges of a set that are still to come, in order and from both ends: references to them, or the
/// ranges themselves. They are a canonical list, whatever was taken before.
#[derive(Drop)]
pub struct Ranges<C: Cursor<Range: KeyRange>> {
    pairs: PairIter<C>,
}

impl<C: Cursor<Range: KeyRange>> Model for Ranges<C> {
    ghost use Rattle.std.specs.Prelude.{List};
    ghost use Rattle.rangemap_core.specs.Sets.{IsCanonicalSet, ranges};

    ghost Value = { List C.Range };

    ghost view = { λ s. ranges s.pairs };

    ghost invariant = { λ s. IsCanonicalSet C.Range.read (ranges s.pairs) };
}

impl<C: Cursor<Range: KeyRange>> Ranges<C> {
    /// Returns the ranges of the pairs of a cursor that has `len` left.
    ///
    /// # Requires
    ///
    /// The cursor has `len` pairs left, and their ranges are a canonical list.
    pub fn over(cursor: C, len: usize) -> Self
        requires canonical { IsCanonicalSet C.Range.read (ranges (C.left cursor)) }
        requires len { len ≡ length (C.left cursor) }
        ensures { result ≡ ranges (C.left cursor) }
    {
        let pairs = PairIter::over(cursor, len);
        Ranges { pairs }
    }

    /// Returns the cursor.
    pub fn into_cursor(self) -> C
        ensures rest { ranges (C.left result) ≡ self }
        ensures canonical { IsCanonicalSet C.Range.read self }
    {
        self.pairs.into_cursor()
    }
}

impl<C: Cursor<Range: KeyRange, GivenValue: Drop>> Iterator for Ranges<C> {
    type Item = C::Given;

    ghost next_gives = { TakesFirst C.given };

    ghost remaining = { λ s. at_most (length s) };

    fn next(&mut self) -> Option<C::Given> {
        Some(self.pairs.next()?.0)
    }

    fn size_hint(&self) -> (usize, Option<usize>)
        ensures lower { IsWithinCount result.0 (at_most (length self.now)) }
        ensures upper { IfSome result.1 (UpTo (at_most (length self.now))) }
        ensures exact { result ≡ (length self.now, SomeWord (length self.now)) }
    {
        self.pairs.size_hint()
    }
}

impl<C: Cursor<Range: KeyRange, GivenValue: Drop>> DoubleEndedIterator for Ranges<C> {
    ghost next_back_gives = { TakesLast C.given };

    fn next_back(&mut self) -> Option<C::Given> {
        Some(self.pairs.next_back()?.0)
    }
}

impl<C: Cursor<Range: KeyRange, GivenValue: Drop>> ExactSizeIterator for Ranges<C> {
    /// Returns how many ranges are still to come.
    fn len(&self) -> usize {
        self.pairs.len()
    }
}

/// The ranges of a set that overlap a range and are still to come, in order and from both ends. It does
/// not count them.
#[derive(Drop)]
pub struct OverlappingRanges<C: Cursor> {
    cursor: C,
}

impl<C: Cursor> Model for OverlappingRanges<C> {
    ghost use Rattle.std.specs.Prelude.{List};
    ghost use Rattle.rangemap_core.specs.Sets.{ranges};

    ghost Value = { List C.Range };

    ghost view = { λ s. ranges (C.left s.cursor) };
}

impl<C: Cursor> OverlappingRanges<C> {
    /// Returns the ranges of the pairs of a cursor.
    pub fn over(cursor: C) -> Self
        ensures { result ≡ ranges (C.left cursor) }
    {
        OverlappingRanges { cursor }
    }
}

impl<C: Cursor<GivenValue: Drop>> Iterator for OverlappingRanges<C> {
    type Item = C::Given;

    ghost next_gives = { TakesFirst C.given };

    ghost remaining = { λ s. at_most (length s) };

    fn next(&mut self) -> Option<C::Given> {
        let (range, _) = self.cursor.take_first()?;
        Some(range)
    }

    fn size_hint(&self) -> (usize, Option<usize>)
        ensures lower { IsWithinCount result.0 (at_most (length self.now)) }
        ensures upper { IfSome result.1 (UpTo (at_most (length self.now))) }
        ensures exact { result ≡ (0, NoneWord) }
    {
        (0, None)
    }
}

impl<C: Cursor<GivenValue: Drop>> DoubleEndedIterator for OverlappingRanges<C> {
    ghost next_back_gives = { TakesLast C.given };

    fn next_back(&mut self) -> Option<C::Given> {
        let (range, _) = self.cursor.take_last()?;
        Some(range)
    }
}
