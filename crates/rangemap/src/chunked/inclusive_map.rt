//! The map over closed ranges that keeps them in chunks, and the runs of any calls that make or
//! change such maps.

use rangemap_chunked::{Chunks, SIZE, into_iter, iter};
use rangemap_containers::calls;
pub use rangemap_containers::replay::{replay, replay as replay_with_step_fns};
use rangemap_core::closed::Closed;
use rangemap_core::gaps;
use rangemap_core::pair_iter::{OverlappingPairs, PairIter};
pub use rangemap_maps::range_map::Map;
use rangemap_maps::range_map::calls as map_calls;
use std::alloc::Global;
use std::ops::RangeInclusive;

/// A map of disjoint closed ranges, `a..=b`, to values, which joins ranges that touch and have equal
/// values: closed ranges touch if no key lies between. The steps of `StepFnsT`, mostly `K` itself, tell
/// that. It keeps them in chunks, each a sorted vector.
///
/// `new`, `from`, `from_iter` and `from_value` exist only if `StepFnsT` is `K`. The range of an `insert`
/// or a `remove` is not empty, `range.start() <= range.end()`, and was not iterated to its end.
///
/// # Examples
///
/// As for `inclusive_map::RangeInclusiveMap`, with
/// `use rangemap::chunked::inclusive_map::RangeInclusiveMap`.
///
/// # Calls
///
/// ```text
/// new(alloc: A) -> Self
/// new_with_step_fns(alloc: A) -> Self
/// from<const N: usize>(alloc: A, value: [(RangeInclusive<K>, V); N]) -> Result<Self, AllocError>
/// from_iter<I: IntoIterator<Item = (RangeInclusive<K>, V)>>(alloc: A, iter: I) -> Result<Self, AllocError>
/// insert(&mut self, range: RangeInclusive<K>, value: V) -> Result<(), AllocError>
/// remove(&mut self, range: RangeInclusive<K>) -> Result<(), AllocError>
/// extend<I: IntoIterator<Item = (RangeInclusive<K>, V)>>(&mut self, iter: I) -> Result<(), AllocError>
/// clear(&mut self)
/// clone(&self) -> Result<Self, AllocError>
/// get(&self, key: &K) -> Option<&V>
/// get_key_value(&self, key: &K) -> Option<(&RangeInclusive<K>, &V)>
/// contains_key(&self, key: &K) -> bool
/// first_range_value(&self) -> Option<(&RangeInclusive<K>, &V)>
/// last_range_value(&self) -> Option<(&RangeInclusive<K>, &V)>
/// len(&self) -> usize
/// is_empty(&self) -> bool
/// known(&self)
/// allocator(&self) -> &A
/// iter(&self) -> Iter<'_, K, V, A>
/// into_iter(self) -> IntoIter<K, V, A>
/// overlapping<'a>(&'a self, range: &'a RangeInclusive<K>) -> Overlapping<'a, K, V, A>
/// overlaps(&self, range: &RangeInclusive<K>) -> bool
/// covers(&self, range: &RangeInclusive<K>) -> bool
/// gaps<'a>(&'a self, outer_range: &'a RangeInclusive<K>) -> Gaps<'a, K, V, StepFnsT, A>
/// to_value<E, WK: Fn(&K) -> Result<Value, E>, WV: Fn(&V) -> Result<Value, E>>(
///     &self, alloc: Global, write_key: WK, write_value: WV) -> Result<Value, WriteError<E>>
/// from_value<E, RK: Fn(&Value) -> Result<K, E>, RV: Fn(&Value) -> Result<V, E>>(
///     alloc: A, form: Form, value: &Value, read_key: RK, read_value: RV) -> Result<Self, ReadError<E>>
/// ```
///
/// `Map` describes each call with its contract, and `==`, the orders, `Hash` and `{:?}`.
pub type RangeInclusiveMap<K, V, StepFnsT = K, A = Global> = Map<
    Chunks<Closed<StepFnsT>, RangeInclusive<K>, V, A, SIZE>,
>;

/// The pairs of a map, in order and from both ends.
pub type Iter<'a, K, V, A = Global> = PairIter<iter::Iter<'a, RangeInclusive<K>, V, A>>;

/// The pairs that a map hands over, in order and from both ends.
pub type IntoIter<K, V, A = Global> = PairIter<into_iter::IntoIter<RangeInclusive<K>, V, A>>;

/// The pairs of a map that overlap a range, in order and from both ends.
pub type Overlapping<'a, K, V, A = Global> = OverlappingPairs<
    iter::Iter<'a, RangeInclusive<K>, V, A>,
>;

/// The parts of a range that a map does not cover, in order.
pub type Gaps<'a, K, V, StepFnsT = K, A = Global> = gaps::Gaps<
    'a,
    Closed<StepFnsT>,
    RangeInclusive<K>,
    iter::Iter<'a, RangeInclusive<K>, V, A>,
>;

/// A call that makes a map or changes the one at a place of a list.
pub type Call<K, V, A = Global> = map_calls::Call<RangeInclusive<K>, V, A>;

/// One of the calls that every map has. `Call::Change` holds it.
pub type Change<K, V> = calls::Change<RangeInclusive<K>, V>;
