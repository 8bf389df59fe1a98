//! The pairs of a tree, handed over one after another.
ghost use Rattle.std.specs.Prelude.{◌≡◌, [], unwrap_or};

use rangemap_core::cursor::Cursor;
use std::alloc::Allocator;
use std::collections::btree_map;
use std::iter::{DoubleEndedIterator, Iterator};
use std::marker::Model;
use std::ops::Range;

/// The pairs of a range and a value that are still to come, from both ends. It owns them, and drops
/// those that are not taken. Once an end has answered none, both ends do from then on.
#[derive(Drop)]
pub struct IntoIter<K, V, A: Allocator> {
    pairs: Option<btree_map::IntoValues<K, (Range<K>, V), A>>,
}

impl<K, V, A: Allocator> Model for IntoIter<K, V, A> {
    ghost use Rattle.std.specs.Prelude.{List, [], unwrap_or};
    ghost use Rattle.std.specs.declared.ops.Range.{Range as RangeOf};

    ghost Value = { List (RangeOf K × V) };

    ghost view = { λ s. unwrap_or s.pairs [] };
}

impl<K, V, A: Allocator> IntoIter<K, V, A> {
    /// Returns the pairs of a tree, if there is one, before any was taken.
    pub(crate) fn over(pairs: Option<btree_map::IntoValues<K, (Range<K>, V), A>>) -> Self
        ensures { result ≡ unwrap_or pairs [] }
    {
        IntoIter { pairs }
    }
}

impl<K: Drop, V: Drop, A: Allocator> Cursor for IntoIter<K, V, A> {
    type Range = Range<K>;

    type Value = V;

    type Given = Range<K>;

    type GivenValue = V;

    ghost left = { λ it. it };

    ghost given = { λ range. range };

    ghost given_value = { λ value. value };

    fn take_first(&mut self) -> Option<(Range<K>, V)> {
        self.pairs.as_mut()?.next()
    }

    fn take_last(&mut self) -> Option<(Range<K>, V)> {
        self.pairs.as_mut()?.next_back()
    }

    fn parts<'b>(pair: &'b (Range<K>, V)) -> (&'b Range<K>, &'b V) {
        (&pair.0, &pair.1)
    }
}
