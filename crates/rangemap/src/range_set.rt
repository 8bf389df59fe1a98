//! The set, over any store.
ghost use Rattle.std.specs.Prelude.{◌≡◌, ◌-◌, [], length, slice_get, nat_eq, nat_lt, IfSome};
ghost use Rattle.std.specs.Option.{option_copied};
ghost use Rattle.rangemap.specs.Ranges.{AreGaps, covers};
ghost use Rattle.rangemap.specs.Sets.{IsCanonicalSet, met, range_at};

use rangemap_containers::container::IsAny;
use rangemap_core::gaps::{Gaps, gaps_of};
use rangemap_core::key_range::KeyRange;
use rangemap_core::kind::Kind;
use rangemap_core::store::{Lends, Store, StoreMut};
use rangemap_unions::{OverlappingRanges, Ranges};
use std::marker::{Model, PhantomData};

pub mod calls;
mod changes;
mod collect;
mod compare;
mod compared;
mod container;
mod json;
mod operators;
mod text;

pub use operators::Operator;

/// A set of keys in disjoint ranges, which joins ranges that overlap or touch.
///
/// `S` keeps the ranges: a sorted vector, a tree or chunks. A call costs as much as the call of the
/// same name of `Map`, whose page has a table; `get`, `contains`, `first` and `last` cost as much
/// as a lookup. These calls exist only for sets, or cost less there (*n* ranges are stored here,
/// *m* in the other set):
///
/// | Call | Time |
/// |---|---|
/// | `covers` | *O*(log *n*): of the ranges that overlap, it takes at most two |
/// | `is_subset` | *O*(*n* log *m*) at most: a lookup in the other set for each range |
/// | `is_superset` | *O*(*m* log *n*) at most: a lookup for each range of the other set |
/// | `is_disjoint` | at most a lookup in the set with more ranges for each range of the other |
/// | all items of `union`, `intersection`, `difference` and `symmetric_difference` | *O*(*n* + *m*) |
/// | `\|`, `&`, `-`, `^` | *O*((*n* + *m*) log (*n* + *m*)): an `insert` at the end for each item |
///
/// Memory is taken by `insert`, `remove`, `clone`, `extend`, `from`, `from_iter`, `from_value`,
/// `to_value`, `|`, `&`, `-` and `^` alone, and by the clones of keys in the items of `gaps`, `union`,
/// `intersection`, `difference` and `symmetric_difference`.
#[derive(Drop)]
pub struct Set<S: Store<Value = ()>> {
    stored: S,
    // Names what keys and allocator may borrow, which the checker asks of a struct and `S` alone
    // does not.
    borrows: PhantomData<(S::Range, S::Alloc)>,
}

impl<S: Store<Value = ()>> Model for Set<S> {
    ghost use Rattle.std.specs.Prelude.{List, map};

    ghost Value = { List S.Range };

    ghost view = { λ s. map (λ p. p.0) (S.pairs s.stored) };
}

impl<S: StoreMut<Value = ()>> Set<S>
where
    S::Kind: Kind<S::Range, Steps = <S::Range as KeyRange>::Key>,
{
    /// Returns the empty set. Its memory will come from `alloc`.
    pub fn new(alloc: S::Alloc) -> Self
        ensures { result ≡ [] }
    {
        Set::new_with_step_fns(alloc)
    }
}

impl<S: StoreMut<Value = ()>> Set<S> {
    /// Returns the empty set. Its memory will come from `alloc`.
    ///
    /// For closed ranges call this if `StepFnsT` is not the key type: then there is no `new`. In
    /// all other cases it does what `new` does.
    pub fn new_with_step_fns(alloc: S::Alloc) -> Self
        ensures { result ≡ [] }
    {
        Set {
            stored: S::empty(alloc),
            borrows: PhantomData,
        }
    }
}

impl<S: Store<Value = ()>> Set<S> {
    /// Does nothing at run time; its contract tells the check that the stored list is canonical.
    pub fn known(&self)
        ensures { IsCanonicalSet S.Kind.kind self.now }
    {
        self.stored.known();
    }

    /// Returns a reference to the underlying allocator.
    pub fn allocator(&self) -> &S::Alloc {
        self.stored.allocator()
    }

    /// Returns whether the set has no key.
    pub fn is_empty(&self) -> bool
        ensures { result ≡ nat_eq (length self.now) 0 }
    {
        self.stored.len() == 0
    }

    /// Returns the number of stored ranges, which is not the number of keys.
    pub fn len(&self) -> usize
        ensures { result ≡ length self.now }
    {
        self.stored.len()
    }

    /// Returns the stored range that has the key, if there is one.
    pub fn get(&self, value: &<S::Range as KeyRange>::Key) -> Option<&S::Range>
        ensures found { option_copied result ≡ range_at S.Kind.kind self.now value.now }
        ensures canonical { IsCanonicalSet S.Kind.kind self.now }
    {
        self.stored.known();
        let (range, _) = self.stored.covering(value)?;
        Some(range)
    }

    /// Returns whether a stored range has the key.
    pub fn contains(&self, value: &<S::Range as KeyRange>::Key) -> bool
        ensures { result ≡ covers S.Kind.kind self.now value.now }
    {
        self.stored.covering(value).is_some()
    }

    /// Returns the first stored range, if there is one.
    pub fn first(&self) -> Option<&S::Range>
        ensures found { option_copied result ≡ slice_get self.now 0 }
        ensures canonical { IsCanonicalSet S.Kind.kind self.now }
        ensures non_empty { IfSome result (λ range. S.Kind.kind.IsNonEmpty range.now) }
    {
        self.stored.known();
        let (range, _) = self.stored.first()?;
        Some(range)
    }

    /// Returns the last stored range, if there is one.
    pub fn last(&self) -> Option<&S::Range>
        ensures found { option_copied result ≡ slice_get self.now (length self.now - 1) }
        ensures canonical { IsCanonicalSet S.Kind.kind self.now }
        ensures non_empty { IfSome result (λ range. S.Kind.kind.IsNonEmpty range.now) }
    {
        self.stored.known();
        let (range, _) = self.stored.last()?;
        Some(range)
    }

    /// Returns whether `overlapping` has an item for the range.
    pub fn overlaps(&self, range: &S::Range) -> bool
        ensures any { result ≡ nat_lt 0 (length (met S.Kind.kind self.now range.now)) }
        ensures canonical { IsCanonicalSet S.Kind.kind self.now }
    {
        self.stored.known();
        self.stored.read_overlapping::<IsAny>(range, &mut ())
    }
}

impl<'a, S: Lends<'a> + Store<Value = ()>> Set<S>
where
    S::Range: 'a,
    S::Value: 'a,
{
    /// Returns a double-ended iterator over the stored ranges, in order.
    pub fn iter(&'a self) -> Ranges<S::Iter>
        ensures all { result ≡ self.now }
        ensures canonical { IsCanonicalSet S.Kind.kind self.now }
    {
        self.stored.known();
        Ranges::over(self.stored.iter(), self.stored.len())
    }

    /// Returns the stored ranges that overlap `range`, in order, from both ends. A half-open range
    /// overlaps it if it ends after the start of `range` and starts before the end of `range`. A
    /// closed range may also end at that start, or start at that end.
    ///
    /// `range` may be empty or reversed. An empty range strictly inside a stored range overlaps it, and
    /// so does a reversed range if both its ends lie strictly inside. A reversed closed range also
    /// overlaps a stored range if its ends are the stored ends.
    ///
    /// # Examples
    ///
    /// ```text
    /// let set = RangeSet::from(alloc, [0..2, 4..6, 8..9])?;
    /// let mut found = set.overlapping(&(1..8));
    /// // found.next() is Some(&(0..2)), found.next_back() is Some(&(4..6)), and then both are None
    /// ```
    pub fn overlapping(&'a self, range: &'a S::Range) -> OverlappingRanges<S::Overlapping>
        ensures met { result ≡ met S.Kind.kind self.now range.now }
        ensures canonical { IsCanonicalSet S.Kind.kind result }
    {
        self.stored.known();
        OverlappingRanges::over(self.stored.overlapping(range))
    }

    /// Returns the parts of `outer_range` that no stored range covers, in order. `outer_range` may
    /// be empty or reversed, and then has no gaps. Only the two ends of a closed range are read,
    /// even if it was iterated.
    ///
    /// Each item is made when you ask for it, of clones or of steps from its neighbours. A clone may be
    /// refused.
    ///
    /// # Examples
    ///
    /// ```text
    /// let set = range_set![in alloc; 1..3, 5..7]?;
    /// set.gaps(&(0..8)) // 0..1, 3..5, 7..8
    /// ```
    pub fn gaps(&'a self, outer_range: &'a S::Range) -> Gaps<'a, S::Kind, S::Range, S::Overlapping>
        ensures { AreGaps S.Kind.kind self.now outer_range.now result }
    {
        gaps_of(&self.stored, outer_range)
    }
}
