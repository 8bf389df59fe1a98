//! The map, over any store.
ghost use Rattle.std.specs.Prelude.{◌≡◌, ◌↔◌, [], ◌-◌, IsTrue, length, slice_get, is_some, map, nat_eq, nat_lt, IfSome};
ghost use Rattle.std.specs.Option.{option_copied, option_map};
ghost use Rattle.rangemap_containers.specs.Histories.{IsDefinedOn};
ghost use Rattle.rangemap_core.specs.Ranges.{AreGaps, IsCanonical, covering, overlapped, value_at};

use rangemap_containers::container::{IsAny, covered};
use rangemap_core::gaps::{Gaps, gaps_of};
use rangemap_core::key_range::KeyRange;
use rangemap_core::kind::Kind;
use rangemap_core::pair_iter::{OverlappingPairs, PairIter};
use rangemap_core::store::{Lends, Store, StoreMut};
use std::marker::{Model, PhantomData};

pub mod calls;
mod changes;
mod collect;
mod compare;
mod container;
mod json;
mod text;
pub mod with_room;

/// A map of disjoint ranges to values, which joins ranges that touch and have equal values.
///
/// `S` keeps the pairs: a sorted vector, a tree or chunks. Below, *n* is the number of stored
/// ranges, and *k* the number of those that overlap the range that a call is given. What a change
/// costs depends on the store: see `SortedVec`, `Tree` and `Chunks`. All stores have this in
/// common:
///
/// | Call | Time | Memory |
/// |---|---|---|
/// | `new`, `new_with_step_fns`, `known`, `allocator`, `len`, `is_empty` | *O*(1) | none |
/// | lookups, `first_range_value`, `last_range_value`, `overlaps` | *O*(log *n*) at most | none |
/// | `iter`, `into_iter` | *O*(log *n*) at most, and *O*(*n*) for all items | none |
/// | `covers` | *O*(log *n* + *k*) at most: it looks no further than the first key without a value | none |
/// | `overlapping` | *O*(log *n*), and *O*(*k*) for all items | none |
/// | `gaps` | *O*(log *n*), and *O*(*k*) for all items | clones for a gap |
/// | `insert`, `remove` | by the store | growth, clones |
/// | `clear` | by the store | none |
/// | `extend`, `from_iter`, `from`, `from_value` | that of an `insert` for each item | growth, clones |
/// | `clone` | *O*(*n*) | growth, clones |
/// | `==` | *O*(*n*), or *O*(1) if the maps have different numbers of ranges | none |
/// | `cmp` | *O*(min(*n*, *m*)), *m* of the other map | none |
/// | `hash`, `{:?}` | *O*(*n*) | none |
/// | `to_value` | *O*(*n*) | that of the value |
#[derive(Drop)]
pub struct Map<S: Store> {
    stored: S,
    // Names what keys, values and allocator may borrow. The checker wants a struct to name it, and `S`
    // alone does not.
    borrows: PhantomData<(S::Range, S::Value, S::Alloc)>,
}

impl<S: Store> Model for Map<S> {
    ghost use Rattle.std.specs.Prelude.{List};

    ghost Value = { List (S.Range × S.Value) };

    ghost view = { λ m. S.pairs m.stored };
}

impl<S: StoreMut> Map<S>
where
    S::Kind: Kind<S::Range, Steps = <S::Range as KeyRange>::Key>,
{
    /// Returns the empty map. Its memory will come from `alloc`.
    pub fn new(alloc: S::Alloc) -> Self
        ensures { result ≡ [] }
    {
        Map::new_with_step_fns(alloc)
    }
}

impl<S: StoreMut> Map<S> {
    /// Returns the empty map. Its memory will come from `alloc`.
    ///
    /// For closed ranges call this if `StepFnsT` is not the key type: then there is no `new`. In
    /// all other cases it does what `new` does.
    pub fn new_with_step_fns(alloc: S::Alloc) -> Self
        ensures { result ≡ [] }
    {
        Map {
            stored: S::empty(alloc),
            borrows: PhantomData,
        }
    }
}

impl<S: Store> Map<S> {
    /// Does nothing at run time; its contract tells the check that the stored list is canonical.
    pub fn known(&self)
        ensures { IsCanonical S.Kind.kind S.Value.eq self.now }
    {
        self.stored.known();
    }

    /// Returns a reference to the underlying allocator.
    pub fn allocator(&self) -> &S::Alloc {
        self.stored.allocator()
    }

    /// Returns the number of stored ranges.
    pub fn len(&self) -> usize
        ensures { result ≡ length self.now }
    {
        self.stored.len()
    }

    /// Returns whether no range is stored.
    pub fn is_empty(&self) -> bool
        ensures { result ≡ nat_eq (length self.now) 0 }
    {
        self.stored.len() == 0
    }

    /// Returns the value of the stored range that has the key, if there is one.
    pub fn get(&self, key: &<S::Range as KeyRange>::Key) -> Option<&S::Value>
        ensures { option_copied result ≡ value_at S.Kind.kind self.now key.now }
    {
        let (_, value) = self.stored.covering(key)?;
        Some(value)
    }

    /// Returns the stored range that has the key, and its value, if there is one.
    pub fn get_key_value(&self, key: &<S::Range as KeyRange>::Key) -> Option<(&S::Range, &S::Value)>
        ensures found { option_map (λ pair. (pair.0.now, pair.1.now)) result
            ≡ covering S.Kind.kind self.now key.now }
        ensures canonical { IsCanonical S.Kind.kind S.Value.eq self.now }
    {
        self.stored.known();
        self.stored.covering(key)
    }

    /// Returns whether a stored range has the key.
    pub fn contains_key(&self, key: &<S::Range as KeyRange>::Key) -> bool
        ensures { result ≡ is_some (covering S.Kind.kind self.now key.now) }
    {
        self.stored.covering(key).is_some()
    }

    /// Returns the first stored range and its value, if there is one.
    pub fn first_range_value(&self) -> Option<(&S::Range, &S::Value)>
        ensures found { option_map (λ pair. (pair.0.now, pair.1.now)) result ≡ slice_get self.now 0 }
        ensures canonical { IsCanonical S.Kind.kind S.Value.eq self.now }
        ensures non_empty { IfSome result (λ pair. S.Kind.kind.IsNonEmpty pair.0.now) }
    {
        self.stored.known();
        self.stored.first()
    }

    /// Returns the last stored range and its value, if there is one.
    pub fn last_range_value(&self) -> Option<(&S::Range, &S::Value)>
        ensures found { option_map (λ pair. (pair.0.now, pair.1.now)) result
            ≡ slice_get self.now (length self.now - 1) }
        ensures canonical { IsCanonical S.Kind.kind S.Value.eq self.now }
        ensures non_empty { IfSome result (λ pair. S.Kind.kind.IsNonEmpty pair.0.now) }
    {
        self.stored.known();
        self.stored.last()
    }

    /// Returns whether `overlapping` has an item for the range.
    pub fn overlaps(&self, range: &S::Range) -> bool
        ensures any { result ≡ nat_lt 0 (length (overlapped S.Kind.kind self.now range.now)) }
        ensures canonical { IsCanonical S.Kind.kind S.Value.eq self.now }
    {
        self.stored.known();
        self.stored.read_overlapping::<IsAny>(range, &mut ())
    }

    /// Returns whether every key of `range` has a value. It takes no memory.
    ///
    /// `range` may be empty or reversed. Then it has no key, and the result is true. (`overlaps`
    /// may be true for such a range too, because it only compares the ends.) Only the two ends of a
    /// closed range are read, even if it was iterated.
    ///
    /// # Examples
    ///
    /// ```text
    /// let map = RangeMap::from(alloc, [(0..2, 'a'), (2..4, 'b'), (8..9, 'c')])?;
    /// map.covers(&(1..4)) // true
    /// map.covers(&(3..9)) // false
    /// ```
    pub fn covers(&self, range: &S::Range) -> bool
        ensures { IsTrue result ↔ IsDefinedOn S.Kind.kind (value_at S.Kind.kind self.now) range.now }
    {
        covered::covers(&self.stored, range)
    }
}

impl<'a, S: Lends<'a>> Map<S>
where
    S::Range: 'a,
    S::Value: 'a,
{
    /// Returns a double-ended iterator over the stored pairs, in order.
    pub fn iter(&'a self) -> PairIter<S::Iter>
        ensures all { result ≡ self.now }
        ensures canonical { IsCanonical S.Kind.kind S.Value.eq self.now }
    {
        self.stored.known();
        PairIter::over(self.stored.iter(), self.stored.len())
    }

    /// Returns the pairs whose ranges overlap `range`, in order. A half-open range overlaps it if
    /// it ends after the start of `range` and starts before the end of `range`. A closed range may
    /// also end at that start, or start at that end.
    ///
    /// `range` may be empty or reversed. An empty range strictly inside a stored range overlaps it, and
    /// so does a reversed range if both its ends lie strictly inside. A reversed closed range also
    /// overlaps a stored range if its ends are the stored ends.
    ///
    /// # Examples
    ///
    /// ```text
    /// let map = RangeMap::from(alloc, [(0..2, 'a'), (2..4, 'b'), (8..9, 'c')])?;
    /// let mut found = map.overlapping(&(1..8));
    /// // found.next() is Some((&(0..2), &'a')), found.next_back() is Some((&(2..4), &'b')),
    /// // and then both are None
    /// ```
    pub fn overlapping(&'a self, range: &'a S::Range) -> OverlappingPairs<S::Overlapping>
        ensures { result ≡ overlapped S.Kind.kind self.now range.now }
    {
        OverlappingPairs::over(self.stored.overlapping(range))
    }

    /// Returns the parts of `outer_range` that no stored range covers, in order.
    ///
    /// Two stored ranges that touch have no gap between. `outer_range` may be empty or reversed,
    /// and then has no gaps. Only the two ends of a closed range are read, even if it was iterated.
    /// Each gap is made when you ask for it, of clones or of steps from its neighbours. A clone may
    /// be refused.
    ///
    /// # Examples
    ///
    /// ```text
    /// let map = RangeMap::from(alloc, [(1..3, 'a'), (5..7, 'b')])?;
    /// let mut gaps = map.gaps(&(0..6));
    /// // gaps.try_next()? is Some(0..1), then Some(3..5), then None
    /// ```
    pub fn gaps(&'a self, outer_range: &'a S::Range) -> Gaps<'a, S::Kind, S::Range, S::Overlapping>
        ensures { AreGaps S.Kind.kind (map (λ pair. pair.0) self.now) outer_range.now result }
    {
        gaps_of(&self.stored, outer_range)
    }
}
