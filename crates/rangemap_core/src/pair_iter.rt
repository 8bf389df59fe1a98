//! The pairs of a map, one after another, for any store.
ghost use Rattle.std.specs.Prelude.{◌≡◌, length, IfSome, None as NoneWord, Some as SomeWord};
ghost use Rattle.std.specs.Iterator.{UpTo, at_most};
ghost use Rattle.std.specs.Iterator.SizeHint.{IsWithinCount};
ghost use Rattle.std.specs.Map.Iter.{TakesFirst, TakesLast};
ghost use Rattle.rangemap_core.specs.Shown.{shown};

use crate::cursor::Cursor;
use std::iter::{DoubleEndedIterator, ExactSizeIterator, Iterator};
use std::marker::Model;

/// All pairs of a map that are still to come, in order and from both ends: references to them, or the
/// pairs themselves.
#[derive(Drop)]
pub struct PairIter<C: Cursor> {
    cursor: C,
    // How many are left.
    len: usize,
}

impl<C: Cursor> Model for PairIter<C> {
    ghost use Rattle.std.specs.Prelude.{◌≡◌, List, length};

    ghost Value = { List (C.Range × C.Value) };

    ghost view = { λ s. C.left s.cursor };

    ghost invariant = { λ s. s.len ≡ length (C.left s.cursor) };
}

impl<C: Cursor> PairIter<C> {
    /// Returns the pairs of a cursor that has `len` left.
    ///
    /// # Requires
    ///
    /// The cursor has `len` pairs left.
    pub fn over(cursor: C, len: usize) -> Self
        requires { len ≡ length (C.left cursor) }
        ensures { result ≡ C.left cursor }
    {
        PairIter { cursor, len }
    }

    /// Returns the cursor. For a map in a vector it is std's iterator over a slice, whose `as_slice`
    /// shows the pairs in place.
    pub fn cursor(&self) -> &C
        ensures { C.left result.now ≡ self.now }
    {
        &self.cursor
    }

    /// Returns the cursor, by value.
    pub fn into_cursor(self) -> C
        ensures { C.left result ≡ self }
    {
        self.cursor
    }
}

impl<C: Cursor> Iterator for PairIter<C> {
    type Item = (C::Given, C::GivenValue);

    ghost next_gives = { TakesFirst (shown C.given C.given_value) };

    ghost remaining = { λ s. at_most (length s) };

    fn next(&mut self) -> Option<(C::Given, C::GivenValue)> {
        let pair = self.cursor.take_first()?;
        self.len -= 1;
        Some(pair)
    }

    fn size_hint(&self) -> (usize, Option<usize>)
        ensures lower { IsWithinCount result.0 (at_most (length self.now)) }
        ensures upper { IfSome result.1 (UpTo (at_most (length self.now))) }
        ensures exact { result ≡ (length self.now, SomeWord (length self.now)) }
    {
        (self.len, Some(self.len))
    }
}

impl<C: Cursor> DoubleEndedIterator for PairIter<C> {
    ghost next_back_gives = { TakesLast (shown C.given C.given_value) };

    fn next_back(&mut self) -> Option<(C::Given, C::GivenValue)> {
        let pair = self.cursor.take_last()?;
        self.len -= 1;
        Some(pair)
    }
}

impl<C: Cursor> ExactSizeIterator for PairIter<C> {
    /// Returns how many pairs are still to come.
    fn len(&self) -> usize {
        self.len
    }
}

/// The pairs of a map that overlap a range and are still to come, in order and from both ends. It does
/// not count them.
#[derive(Drop)]
pub struct OverlappingPairs<C: Cursor> {
    cursor: C,
}

impl<C: Cursor> Model for OverlappingPairs<C> {
    ghost use Rattle.std.specs.Prelude.{List};

    ghost Value = { List (C.Range × C.Value) };

    ghost view = { λ s. C.left s.cursor };
}

impl<C: Cursor> OverlappingPairs<C> {
    /// Returns the pairs of a cursor.
    pub fn over(cursor: C) -> Self
        ensures { result ≡ C.left cursor }
    {
        OverlappingPairs { cursor }
    }
}

impl<C: Cursor> Iterator for OverlappingPairs<C> {
    type Item = (C::Given, C::GivenValue);

    ghost next_gives = { TakesFirst (shown C.given C.given_value) };

    ghost remaining = { λ s. at_most (length s) };

    fn next(&mut self) -> Option<(C::Given, C::GivenValue)> {
        self.cursor.take_first()
    }

    fn size_hint(&self) -> (usize, Option<usize>)
        ensures lower { IsWithinCount result.0 (at_most (length self.now)) }
        ensures upper { IfSome result.1 (UpTo (at_most (length self.now))) }
        ensures exact { result ≡ (0, NoneWord) }
    {
        (0, None)
    }
}

impl<C: Cursor> DoubleEndedIterator for OverlappingPairs<C> {
    ghost next_back_gives = { TakesLast (shown C.given C.given_value) };

    fn next_back(&mut self) -> Option<(C::Given, C::GivenValue)> {
        self.cursor.take_last()
    }
}
