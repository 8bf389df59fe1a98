//! The map as one of the library's containers: each method except the appends is the map's own call,
//! because `self.insert(..)` means the call of `Map` before that of a trait. The appends pass on the
//! pairs and gaps of the store.

use super::Map;
use rangemap_containers::container::{Appending, Container};
use rangemap_core::key_range::KeyRange;
use rangemap_core::store::StoreMut;
use std::alloc::{AllocError, Allocator};

impl<S: StoreMut + Drop> Container for Map<S>
where
    S::Alloc: Clone,
{
    ghost use Rattle.std.specs.Prelude.{refl};

    type Range = S::Range;

    type Value = S::Value;

    type Alloc = S::Alloc;

    type Kind = S::Kind;

    ghost pairs = { λ map. map };

    ghost equal = { λ left right. refl };

    fn known(&self) {
        self.known();
    }

    fn new_with_step_fns(alloc: S::Alloc) -> Self {
        Map::new_with_step_fns(alloc)
    }

    fn insert(&mut self, range: S::Range, value: S::Value) -> Result<(), AllocError> {
        self.insert(range, value)
    }

    fn remove(&mut self, range: S::Range) -> Result<(), AllocError> {
        self.remove(range)
    }

    fn clear(&mut self) {
        self.clear();
    }

    fn clone(&self) -> Result<Self, AllocError> {
        self.clone()
    }

    fn len(&self) -> usize {
        self.len()
    }

    fn is_empty(&self) -> bool {
        self.is_empty()
    }

    fn get(&self, key: &<S::Range as KeyRange>::Key) -> Option<&S::Value> {
        self.get(key)
    }

    fn get_key_value(&self, key: &<S::Range as KeyRange>::Key) -> Option<(&S::Range, &S::Value)> {
        self.get_key_value(key)
    }

    fn contains_key(&self, key: &<S::Range as KeyRange>::Key) -> bool {
        self.contains_key(key)
    }

    fn first_range_value(&self) -> Option<(&S::Range, &S::Value)> {
        self.first_range_value()
    }

    fn last_range_value(&self) -> Option<(&S::Range, &S::Value)> {
        self.last_range_value()
    }

    fn overlaps(&self, range: &S::Range) -> bool {
        self.overlaps(range)
    }

    fn covers(&self, range: &S::Range) -> bool {
        self.covers(range)
    }

    #[tactic(auto, using(rangemap_core::proofs::StoredLemmas::all_storable))]
    fn append_all<B: Allocator>(
        &self,
        out: &mut Vec<(S::Range, S::Value), B>,
    ) -> Result<(), AllocError> {
        self.stored.known();
        self.stored.read::<Appending<S::Kind, B>>(out)
    }

    #[tactic(auto, using(rangemap_core::proofs::StoredLemmas::all_storable, rangemap_core::proofs::AppendLemmas::met_storable))]
    fn append_overlapping<B: Allocator>(
        &self,
        range: &S::Range,
        out: &mut Vec<(S::Range, S::Value), B>,
    ) -> Result<(), AllocError> {
        self.stored.known();
        self.stored
            .read_overlapping::<Appending<S::Kind, B>>(range, out)
    }

    fn append_gaps<B: Allocator>(
        &self,
        outer_range: &S::Range,
        out: &mut Vec<S::Range, B>,
    ) -> Result<(), AllocError> {
        self.stored.append_gaps(outer_range, out)
    }
}
