//! Calls on a list of maps, as values, each made by the public call of the map at its place.

use super::Map;
use rangemap_containers::calls::Change;
use rangemap_containers::replay::{CallOn, push_made};
use rangemap_core::store::StoreMut;
use std::alloc::Allocator;
use std::vec::Vec;

/// A call that makes a map or changes one, over ranges of type `R`. It names a map by its place in
/// the list.
#[derive(Debug, Drop)]
pub enum Call<R, V, A: Allocator> {
    /// A call that every map has.
    Change(Change<R, V>),
    /// Makes a map of the pairs, inserted in order.
    FromIter { pairs: Vec<(R, V), A> },
    /// Inserts the pairs, in order, into the map at the place.
    Extend { at: usize, pairs: Vec<(R, V), A> },
}

impl<S: StoreMut + Drop> CallOn<Map<S>> for Call<S::Range, S::Value, S::Alloc>
where
    S::Alloc: Clone,
{
    ghost use Rattle.rangemap_maps.specs.MapHistories.{HasNonEmptyRanges, Step};

    ghost has_non_empty = { HasNonEmptyRanges S.Kind.kind };

    ghost step = { Step S.Kind.kind };

    fn make(self, alloc: S::Alloc, maps: &mut Vec<Map<S>, S::Alloc>) -> bool {
        match self {
            Call::Change(change) => change.make(alloc, maps),
            Call::FromIter { pairs } => push_made(maps, Map::from_items(alloc, pairs)),
            Call::Extend { at, pairs } => match maps.get_mut(at) {
                Some(map) => map.extend(pairs).is_ok(),
                None => false,
            },
        }
    }
}
