//! The set as one of the library's containers.
//!
//! The methods that speak of values and pairs are made of `get`, `contains`, `first` and `last`. The
//! appends pass on the pairs and gaps of the store. All other methods are the set's own calls, because
//! `self.insert(..)` means the call of `Set` before that of a trait.
ghost use Rattle.rangemap.specs.Ranges.{overlapped, with_unit};

use super::Set;
use rangemap_containers::container::{Appending, Container};
use rangemap_core::key_range::KeyRange;
use rangemap_core::kind::Kind;
use rangemap_core::reader::Reader;
use rangemap_core::store::{Store, StoreMut};
use std::alloc::{AllocError, Allocator};

impl<S: StoreMut<Value = ()> + Drop> Container for Set<S>
where
    S::Alloc: Clone,
{
    ghost use Rattle.rangemap.specs.Ranges.{with_unit};
    ghost use Rattle.rangemap_core.specs.laws.UnitPairs.{same_with_unit};

    type Range = S::Range;

    type Value = ();

    type Alloc = S::Alloc;

    type Kind = S::Kind;

    ghost pairs = { λ set. with_unit S.Kind.kind set };

    ghost equal = { λ left right. same_with_unit S.Kind.kind left right };

    fn known(&self) {
        self.known();
    }

    fn new_with_step_fns(alloc: S::Alloc) -> Self {
        Set::new_with_step_fns(alloc)
    }

    fn insert(&mut self, range: S::Range, _value: ()) -> Result<(), AllocError> {
        self.insert(range)
    }

    fn remove(&mut self, range: S::Range) -> Result<(), AllocError> {
        self.remove(range)
    }

    fn clear(&mut self) {
        self.clear();
    }

    fn clone(&self) -> Result<Self, AllocError> {
        self.clone()
    }

    fn len(&self) -> usize {
        self.len()
    }

    fn is_empty(&self) -> bool {
        self.is_empty()
    }

    fn get_key_value(&self, key: &<S::Range as KeyRange>::Key) -> Option<(&S::Range, &())> {
        let range = self.get(key)?;
        Some((range, &()))
    }

    fn contains_key(&self, key: &<S::Range as KeyRange>::Key) -> bool {
        self.contains(key)
    }

    fn first_range_value(&self) -> Option<(&S::Range, &())> {
        let range = self.first()?;
        Some((range, &()))
    }

    fn last_range_value(&self) -> Option<(&S::Range, &())> {
        let range = self.last()?;
        Some((range, &()))
    }

    fn overlaps(&self, range: &S::Range) -> bool {
        self.overlaps(range)
    }

    fn covers(&self, range: &S::Range) -> bool {
        self.covers(range)
    }

    #[tactic(auto, using(rangemap_core::proofs::StoredLemmas::all_storable))]
    fn append_all<B: Allocator>(&self, out: &mut Vec<(S::Range, ()), B>) -> Result<(), AllocError> {
        self.known();
        self.read::<Appending<S::Kind, B>>(out)
    }

    #[tactic(auto, using(rangemap_core::proofs::StoredLemmas::all_storable, rangemap_core::proofs::AppendLemmas::met_storable))]
    fn append_overlapping<B: Allocator>(
        &self,
        range: &S::Range,
        out: &mut Vec<(S::Range, ()), B>,
    ) -> Result<(), AllocError> {
        self.known();
        self.read_overlapping::<Appending<S::Kind, B>>(range, out)
    }

    fn append_gaps<B: Allocator>(
        &self,
        outer_range: &S::Range,
        out: &mut Vec<S::Range, B>,
    ) -> Result<(), AllocError> {
        self.stored.append_gaps(outer_range, out)
    }
}

impl<S: Store<Value = ()>> Set<S> {
    // Hands the ranges to a reader of pairs.
    fn read<U: Reader<S::Range, ()>>(&self, state: &mut U::State) -> U::Answer
        requires { U.may_read (with_unit S.Kind.kind self.now) state.old }
        ensures { U.reads (with_unit S.Kind.kind self.now) state.old result state.new }
    {
        self.stored.read::<U>(state)
    }

    // Hands the ranges that overlap the range to a reader of pairs.
    fn read_overlapping<U: Reader<S::Range, ()>>(
        &self,
        range: &S::Range,
        state: &mut U::State,
    ) -> U::Answer
        requires { U.may_read (overlapped S.Kind.kind (with_unit S.Kind.kind self.now) range.now) state.old }
        ensures { U.reads (overlapped S.Kind.kind (with_unit S.Kind.kind self.now) range.now)
            state.old result state.new }
    {
        self.stored.read_overlapping::<U>(range, state)
    }
}
