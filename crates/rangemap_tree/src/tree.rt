//! The store in a B-tree.

use crate::by_start::ByStart;
use crate::insert::insert;
use crate::into_iter::IntoIter;
use crate::overlapping::overlapping_pairs;
use crate::pairs::Pairs;
use crate::remove::remove;
use rangemap_core::cursor::Cursor;
use rangemap_core::gaps::append_gaps;
use rangemap_core::half_open::HalfOpen;
use rangemap_core::reader::{Reader, ReaderOfBoth};
use rangemap_core::store::{HandsOver, Lends, Store, StoreMut};
use std::alloc::{AllocError, Allocator};
use std::marker::Model;
use std::ops::Range;

/// Pairs of a half-open range and a value in a B-tree, by the starts of the ranges.
///
/// A change moves no others, so it is a store for more than about a thousand ranges that change at
/// random places. Of *n* stored ranges, *k* meet the range that a call is given:
///
/// | Call | Time | Memory |
/// |---|---|---|
/// | `empty`, `allocator`, `len` | *O*(1) | none |
/// | `first`, `last`, `covering` | *O*(log *n*) | none |
/// | `iter`, `read`, `into_pairs` | *O*(log *n*), and *O*(*n*) for all items | none |
/// | `overlapping`, `read_overlapping` | *O*(log *n*), and *O*(*k*) for all items | none |
/// | `append_gaps` | *O*(log *n* + *k*) | growth, clones |
/// | `insert`, `remove` | *O*((*k* + 1) log *n*) | nodes, clones of keys and of the allocator, a list of *k* keys |
/// | `clear` | *O*(*n*), as each drop | none |
/// | `copy` | *O*(*n*) | the tree, clones |
///
/// An `insert` or a `remove` makes one clone of a value at most, for a part that it cuts off, and clones
/// the allocator for the list of keys, and an `insert` for the first pair after `empty` or `clear`. For
/// each stored range a `copy` clones three keys and a value.
#[derive(Drop)]
pub struct Tree<K: Ord + Clone, V: Eq + Clone, A: Allocator + Clone> {
    pairs: ByStart<K, V, A>,
}

impl<K: Ord + Clone, V: Eq + Clone, A: Allocator + Clone> Model for Tree<K, V, A> {
    ghost use Rattle.std.specs.Prelude.{List};
    ghost use Rattle.std.specs.declared.ops.Range.{Range as RangeOf};
    ghost use Rattle.rangemap_core.specs.Ranges.{IsCanonical, half_open};

    ghost Value = { List (RangeOf K × V) };

    ghost view = { λ m. m.pairs };

    ghost invariant = { λ m. IsCanonical (half_open K.cmp) V.eq m.pairs };
}

impl<K: Ord + Clone, V: Eq + Clone, A: Allocator + Clone> Store for Tree<K, V, A> {
    type Range = Range<K>;

    type Value = V;

    type Kind = HalfOpen;

    type Alloc = A;

    ghost pairs = { λ s. s };

    fn known(&self) {
        // The check knows the invariant of what is read.
        let _pairs = &self.pairs;
    }

    fn allocator(&self) -> &A {
        &self.pairs.alloc
    }

    fn len(&self) -> usize {
        self.pairs.len()
    }

    fn covering(&self, key: &K) -> Option<(&Range<K>, &V)> {
        // No other can have the key than the last that starts no later.
        let (range, value) = self.pairs.last_within(..=key)?;
        if key.cmp(&range.end).is_lt() {
            Some((range, value))
        } else {
            None
        }
    }

    fn first(&self) -> Option<(&Range<K>, &V)> {
        self.pairs.iter().take_first()
    }

    fn last(&self) -> Option<(&Range<K>, &V)> {
        self.pairs.iter().take_last()
    }

    fn read<U: Reader<Range<K>, V>>(&self, state: &mut U::State) -> U::Answer {
        U::read(self.pairs.iter(), state)
    }

    fn read_both<U: ReaderOfBoth<Range<K>, V>>(
        &self,
        other: &Self,
        state: &mut U::State,
    ) -> U::Answer {
        U::read(self.pairs.iter(), other.pairs.iter(), state)
    }

    fn read_overlapping<U: Reader<Range<K>, V>>(
        &self,
        range: &Range<K>,
        state: &mut U::State,
    ) -> U::Answer {
        U::read(overlapping_pairs(&self.pairs, range), state)
    }

    fn append_gaps<B: Allocator>(
        &self,
        outer_range: &Range<K>,
        out: &mut Vec<Range<K>, B>,
    ) -> Result<(), AllocError> {
        let pairs = overlapping_pairs(&self.pairs, outer_range);
        append_gaps::<HalfOpen, Range<K>, Pairs<'_, K, V>, B>(pairs, outer_range, out)
    }
}

impl<K: Ord + Clone, V: Eq + Clone, A: Allocator + Clone> StoreMut for Tree<K, V, A> {
    ghost room = { λ _. 0 };

    fn empty(alloc: A) -> Self {
        Tree {
            pairs: ByStart::empty(alloc),
        }
    }

    fn insert(&mut self, range: Range<K>, value: V) -> Result<(), AllocError> {
        insert(&mut self.pairs, range, value)
    }

    fn remove(&mut self, range: Range<K>) -> Result<(), AllocError> {
        remove(&mut self.pairs, &range)
    }

    fn clear(&mut self) {
        self.pairs.clear();
    }

    fn copy(&self, alloc: A) -> Result<Self, AllocError> {
        let pairs = self.pairs.copy(alloc)?;
        Ok(Tree { pairs })
    }
}

impl<K: Ord + Clone, V: Eq + Clone, A: Allocator + Clone> HandsOver for Tree<K, V, A> {
    ghost use Rattle.std.specs.Prelude.{refl};

    type IntoIter = IntoIter<K, V, A>;

    fn into_pairs(self) -> IntoIter<K, V, A> {
        let Tree { pairs } = self;
        pairs.into_pairs()
    }

    ghost gives = { λ pair. refl };
}

impl<'a, K: Ord + Clone, V: Eq + Clone, A: Allocator + Clone> Lends<'a> for Tree<K, V, A>
where
    K: 'a,
    V: 'a,
    Self::Range: 'a,
    Self::Value: 'a,
{
    ghost use Rattle.std.specs.Prelude.{refl};

    type Iter = Pairs<'a, K, V>;

    type Overlapping = Pairs<'a, K, V>;

    fn iter(&'a self) -> Pairs<'a, K, V> {
        self.pairs.iter()
    }

    fn overlapping(&'a self, range: &'a Range<K>) -> Pairs<'a, K, V> {
        overlapping_pairs(&self.pairs, range)
    }

    ghost lends = { λ pair. refl };

    ghost lends_overlapping = { λ pair. refl };
}
