//! The map over closed ranges, and the runs of any calls that make or change such maps.

use rangemap_containers::calls;
pub use rangemap_containers::replay::{replay, replay as replay_with_step_fns};
use rangemap_core::closed::Closed;
use rangemap_core::gaps;
use rangemap_core::pair_iter::{OverlappingPairs, PairIter};
pub use rangemap_maps::range_map::Map;
use rangemap_maps::range_map::calls as map_calls;
use rangemap_sorted::{SortedVec, overlapping};
use std::alloc::Global;
use std::ops::RangeInclusive;
use std::{slice, vec};

/// A map of disjoint closed ranges, `a..=b`, to values. It joins ranges that touch and have equal
/// values. Closed ranges touch if no key lies between them, which the steps of `StepFnsT` tell.
/// `StepFnsT` is mostly `K` itself. The ranges are kept in one sorted vector.
///
/// `new`, `from`, `from_iter` and `from_value` exist only if `StepFnsT` is `K`. The range of an `insert`
/// or a `remove` is not empty, `range.start() <= range.end()`, and was not iterated to its end.
///
/// # Examples
///
/// ```text
/// let mut map = RangeInclusiveMap::new(alloc);
/// map.insert(0..=10, 1)?;
/// map.insert(3..=6, 2)?;
/// map.insert(200..=255, 3)?;
/// ```
///
/// The keys are `u8`. The map then has `0..=2` with 1, `3..=6` with 2, `7..=10` with 1 and
/// `200..=255` with 3.
///
/// # Calls
///
/// ```text
/// new(alloc: A) -> Self
/// new_with_step_fns(alloc: A) -> Self
/// from<const N: usize>(alloc: A, value: [(RangeInclusive<K>, V); N]) -> Result<Self, AllocError>
/// from_iter<I: IntoIterator<Item = (RangeInclusive<K>, V)>>(alloc: A, iter: I) -> Result<Self, AllocError>
/// insert(&mut self, range: RangeInclusive<K>, value: V) -> Result<(), AllocError>
/// remove(&mut self, range: RangeInclusive<K>) -> Result<(), AllocError>
/// extend<I: IntoIterator<Item = (RangeInclusive<K>, V)>>(&mut self, iter: I) -> Result<(), AllocError>
/// clear(&mut self)
/// clone(&self) -> Result<Self, AllocError>
/// get(&self, key: &K) -> Option<&V>
/// get_key_value(&self, key: &K) -> Option<(&RangeInclusive<K>, &V)>
/// contains_key(&self, key: &K) -> bool
/// first_range_value(&self) -> Option<(&RangeInclusive<K>, &V)>
/// last_range_value(&self) -> Option<(&RangeInclusive<K>, &V)>
/// len(&self) -> usize
/// is_empty(&self) -> bool
/// known(&self)
/// allocator(&self) -> &A
/// iter(&self) -> Iter<'_, K, V>
/// into_iter(self) -> IntoIter<K, V, A>
/// overlapping<'a>(&'a self, range: &'a RangeInclusive<K>) -> Overlapping<'a, K, V>
/// overlaps(&self, range: &RangeInclusive<K>) -> bool
/// covers(&self, range: &RangeInclusive<K>) -> bool
/// gaps<'a>(&'a self, outer_range: &'a RangeInclusive<K>) -> Gaps<'a, K, V, StepFnsT>
/// to_value<E, WK: Fn(&K) -> Result<Value, E>, WV: Fn(&V) -> Result<Value, E>>(
///     &self, alloc: Global, write_key: WK, write_value: WV) -> Result<Value, WriteError<E>>
/// from_value<E, RK: Fn(&Value) -> Result<K, E>, RV: Fn(&Value) -> Result<V, E>>(
///     alloc: A, form: Form, value: &Value, read_key: RK, read_value: RV) -> Result<Self, ReadError<E>>
/// ```
///
/// `Map` describes each call with its contract, and `==`, the orders, `Hash` and `{:?}`.
pub type RangeInclusiveMap<K, V, StepFnsT = K, A = Global> = Map<
    SortedVec<Closed<StepFnsT>, RangeInclusive<K>, V, A>,
>;

/// The pairs of a map, in order and from both ends.
pub type Iter<'a, K, V> = PairIter<slice::Iter<'a, (RangeInclusive<K>, V)>>;

/// The pairs that a map hands over, in order and from both ends.
pub type IntoIter<K, V, A = Global> = PairIter<vec::IntoIter<(RangeInclusive<K>, V), A>>;

/// The pairs of a map that overlap a range, in order and from both ends. The first `next_back`
/// searches for the end, in *O*(log *n*).
pub type Overlapping<'a, K, V> = OverlappingPairs<
    overlapping::Overlapping<'a, RangeInclusive<K>, V>,
>;

/// The parts of a range that a map does not cover, in order.
pub type Gaps<'a, K, V, StepFnsT = K> = gaps::Gaps<
    'a,
    Closed<StepFnsT>,
    RangeInclusive<K>,
    overlapping::Overlapping<'a, RangeInclusive<K>, V>,
>;

/// One call of a `replay`. It makes a map, or changes the map at a place of the list.
pub type Call<K, V, A = Global> = map_calls::Call<RangeInclusive<K>, V, A>;

/// One of the calls that every map has. `Call::Change` holds it.
pub type Change<K, V> = calls::Change<RangeInclusive<K>, V>;
