//! The map over half-open ranges that keeps them in a tree, and the run of any calls that make or
//! change such maps.

pub use crate::container::Container;
use rangemap_containers::calls;
pub use rangemap_containers::replay::replay;
use rangemap_core::gaps;
use rangemap_core::half_open::HalfOpen;
use rangemap_core::pair_iter::{OverlappingPairs, PairIter};
pub use rangemap_maps::range_map::Map;
use rangemap_maps::range_map::calls as map_calls;
use rangemap_tree::pairs::Pairs;
use rangemap_tree::{Tree, into_iter};
use std::alloc::Global;
use std::ops::Range;

/// A map of disjoint half-open ranges, `a..b`, to values, which joins ranges that touch and have
/// equal values. It keeps them in a B-tree, from starts to ends and values.
///
/// The range of an `insert` or a `remove` is not empty: `range.start < range.end`.
///
/// # Examples
///
/// ```text
/// let query = from..to;
/// for (_, value) in stock.overlapping(&query) {
///     if *value >= limit {
///         return false;
///     }
/// }
/// ```
///
/// The loop sees the pairs that overlap `from..to`, in order.
///
/// # Calls
///
/// ```text
/// new(alloc: A) -> Self
/// new_with_step_fns(alloc: A) -> Self
/// from<const N: usize>(alloc: A, value: [(Range<K>, V); N]) -> Result<Self, AllocError>
/// from_iter<I: IntoIterator<Item = (Range<K>, V)>>(alloc: A, iter: I) -> Result<Self, AllocError>
/// insert(&mut self, range: Range<K>, value: V) -> Result<(), AllocError>
/// remove(&mut self, range: Range<K>) -> Result<(), AllocError>
/// extend<I: IntoIterator<Item = (Range<K>, V)>>(&mut self, iter: I) -> Result<(), AllocError>
/// clear(&mut self)
/// clone(&self) -> Result<Self, AllocError>
/// get(&self, key: &K) -> Option<&V>
/// get_key_value(&self, key: &K) -> Option<(&Range<K>, &V)>
/// contains_key(&self, key: &K) -> bool
/// first_range_value(&self) -> Option<(&Range<K>, &V)>
/// last_range_value(&self) -> Option<(&Range<K>, &V)>
/// len(&self) -> usize
/// is_empty(&self) -> bool
/// known(&self)
/// allocator(&self) -> &A
/// iter(&self) -> Iter<'_, K, V>
/// into_iter(self) -> IntoIter<K, V, A>
/// overlapping<'a>(&'a self, range: &'a Range<K>) -> Overlapping<'a, K, V>
/// overlaps(&self, range: &Range<K>) -> bool
/// covers(&self, range: &Range<K>) -> bool
/// gaps<'a>(&'a self, outer_range: &'a Range<K>) -> Gaps<'a, K, V>
/// to_value<E, WK: Fn(&K) -> Result<Value, E>, WV: Fn(&V) -> Result<Value, E>>(
///     &self, alloc: Global, write_key: WK, write_value: WV) -> Result<Value, WriteError<E>>
/// from_value<E, RK: Fn(&Value) -> Result<K, E>, RV: Fn(&Value) -> Result<V, E>>(
///     alloc: A, form: Form, value: &Value, read_key: RK, read_value: RV) -> Result<Self, ReadError<E>>
/// ```
///
/// `Map` describes each call with its contract, and `==`, the orders, `Hash` and `{:?}`.
pub type RangeMap<K, V, A = Global> = Map<Tree<K, V, A>>;

/// The pairs of a map, in order and from both ends.
pub type Iter<'a, K, V> = PairIter<Pairs<'a, K, V>>;

/// The pairs that a map hands over, in order and from both ends.
pub type IntoIter<K, V, A = Global> = PairIter<into_iter::IntoIter<K, V, A>>;

/// The pairs of a map that overlap a range, in order and from both ends.
pub type Overlapping<'a, K, V> = OverlappingPairs<Pairs<'a, K, V>>;

/// The parts of a range that a map does not cover, in order.
pub type Gaps<'a, K, V> = gaps::Gaps<'a, HalfOpen, Range<K>, Pairs<'a, K, V>>;

/// One call of a `replay`. It makes a map, or changes the map at a place of the list.
pub type Call<K, V, A = Global> = map_calls::Call<Range<K>, V, A>;

/// One of the calls that every map has. `Call::Change` holds it.
pub type Change<K, V> = calls::Change<Range<K>, V>;
