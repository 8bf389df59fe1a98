//! Cursors over the pairs of a vector: std's own iterators.
use crate::cursor::{Cursor, Peek};
use crate::key_range::KeyRange;
use std::alloc::Allocator;
use std::iter::{DoubleEndedIterator, Iterator};
use std::{slice, vec};

impl<'a, R, V> Cursor for slice::Iter<'a, (R, V)> {
    ghost use Rattle.std.specs.Map.Iter.{deref};
    ghost use Rattle.std.specs.Slice.Iter.{iter_rest};

    type Range = R;

    type Value = V;

    type Given = &'a R;

    type GivenValue = &'a V;

    ghost left = { iter_rest };

    ghost given = { deref };

    ghost given_value = { deref };

    fn take_first(&mut self) -> Option<(&'a R, &'a V)> {
        let pair = self.next()?;
        Some((&pair.0, &pair.1))
    }

    fn take_last(&mut self) -> Option<(&'a R, &'a V)> {
        let pair = self.next_back()?;
        Some((&pair.0, &pair.1))
    }

    #[inline(always)]
    fn parts<'b>(pair: &'b (&'a R, &'a V)) -> (&'b R, &'b V) {
        (pair.0, pair.1)
    }
}

impl<'a, R: KeyRange, V> Peek for slice::Iter<'a, (R, V)> {
    #[inline(always)]
    fn peek(&mut self) -> Option<(&'a R, &'a V)> {
        let (pair, _) = self.as_slice().split_first()?;
        Some((&pair.0, &pair.1))
    }
}

impl<R: Drop, V: Drop, A: Allocator> Cursor for vec::IntoIter<(R, V), A> {
    ghost use Rattle.std.specs.Vec.Iter.{into_iter_items};

    type Range = R;

    type Value = V;

    type Given = R;

    type GivenValue = V;

    ghost left = { into_iter_items };

    ghost given = { λ range. range };

    ghost given_value = { λ value. value };

    #[inline(always)]
    fn take_first(&mut self) -> Option<(R, V)> {
        self.next()
    }

    #[inline(always)]
    fn take_last(&mut self) -> Option<(R, V)> {
        self.next_back()
    }

    #[inline(always)]
    fn parts<'b>(pair: &'b (R, V)) -> (&'b R, &'b V) {
        (&pair.0, &pair.1)
    }
}
