//! The pairs of a tree, one after another.
use rangemap_core::cursor::{Cursor, LentCursor, Peek};
use std::collections::btree_map;
use std::iter::{DoubleEndedIterator, Iterator};
use std::marker::Model;
use std::ops::Range;

/// The pairs of a range and a value that are still to come, from both ends: all of a tree, or those
/// that overlap a range. The first is taken ahead once it is looked at.
#[derive(Drop)]
pub struct Pairs<'a, K, V> {
    // The pair that was taken ahead.
    pub(crate) ahead: Option<(&'a Range<K>, &'a V)>,
    // The entries behind it, in a tree if there is one.
    pub(crate) entries: Option<btree_map::Range<'a, K, (Range<K>, V)>>,
}

impl<'a, K, V> Model for Pairs<'a, K, V> {
    ghost use Rattle.std.specs.Prelude.{List, [], ◌++◌, unwrap_or};
    ghost use Rattle.std.specs.Option.{option_map, option_to_list};
    ghost use Rattle.std.specs.Map.{values_of};
    ghost use Rattle.std.specs.Map.Iter.{deref_pair};
    ghost use Rattle.std.specs.declared.ops.Range.{Range as RangeOf};

    ghost Value = { List (RangeOf K × V) };

    ghost view = { λ s. option_to_list (option_map deref_pair s.ahead)
        ++ unwrap_or (option_map values_of s.entries) [] };
}

impl<'a, K, V> Cursor for Pairs<'a, K, V> {
    ghost use Rattle.std.specs.Map.Iter.{deref};

    type Range = Range<K>;

    type Value = V;

    type Given = &'a Range<K>;

    type GivenValue = &'a V;

    ghost left = { λ it. it };

    ghost given = { deref };

    ghost given_value = { deref };

    fn take_first(&mut self) -> Option<(&'a Range<K>, &'a V)> {
        if self.ahead.is_some() {
            return self.ahead.take();
        }
        let (_, pair) = self.entries.as_mut()?.next()?;
        Some((&pair.0, &pair.1))
    }

    fn take_last(&mut self) -> Option<(&'a Range<K>, &'a V)> {
        if let Some(entries) = &mut self.entries
            && let Some((_, pair)) = entries.next_back()
        {
            return Some((&pair.0, &pair.1));
        }
        self.ahead.take()
    }

    fn parts<'b>(pair: &'b (&'a Range<K>, &'a V)) -> (&'b Range<K>, &'b V) {
        (pair.0, pair.1)
    }
}

impl<'a, K: Ord + Clone, V> Peek for Pairs<'a, K, V> {
    fn peek(&mut self) -> Option<(&'a Range<K>, &'a V)> {
        if self.ahead.is_none() {
            let (_, pair) = self.entries.as_mut()?.next()?;
            self.ahead = Some((&pair.0, &pair.1));
        }
        self.ahead
    }
}

impl<'a, K, V> LentCursor<'a, Range<K>> for Pairs<'a, K, V> {
    ghost use Rattle.std.specs.Prelude.{refl};

    ghost lent = { λ range. refl };
}
