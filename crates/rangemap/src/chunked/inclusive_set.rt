//! The set over closed ranges that keeps them in chunks, and the runs of any calls that make or
//! change such sets.

pub use crate::range_set::Set;
use crate::range_set::calls::SetCall;
use rangemap_chunked::{Chunks, SIZE, into_iter, iter};
use rangemap_containers::calls;
pub use rangemap_containers::replay::{replay, replay as replay_with_step_fns};
use rangemap_core::closed::Closed;
use rangemap_core::gaps;
use rangemap_unions::{self as unions, OverlappingRanges, Ranges};
use std::alloc::Global;
use std::ops::RangeInclusive;

/// A set of keys in disjoint closed ranges, `a..=b`, which joins ranges that overlap or touch: closed
/// ranges touch if no key lies between. The steps of `StepFnsT`, mostly `T` itself, tell that. It keeps
/// them in chunks, each a sorted vector.
///
/// `new`, `from`, `from_iter` and `from_value` exist only if `StepFnsT` is `T`. The range of an `insert`
/// or a `remove` is not empty, `range.start() <= range.end()`, and was not iterated to its end.
///
/// # Examples
///
/// As for `inclusive_set::RangeInclusiveSet`, with
/// `use rangemap::chunked::inclusive_set::RangeInclusiveSet`.
///
/// # Calls
///
/// ```text
/// new(alloc: A) -> Self
/// new_with_step_fns(alloc: A) -> Self
/// from<const N: usize>(alloc: A, value: [RangeInclusive<T>; N]) -> Result<Self, AllocError>
/// from_iter<I: IntoIterator<Item = RangeInclusive<T>>>(alloc: A, iter: I) -> Result<Self, AllocError>
/// insert(&mut self, range: RangeInclusive<T>) -> Result<(), AllocError>
/// remove(&mut self, range: RangeInclusive<T>) -> Result<(), AllocError>
/// extend<I: IntoIterator<Item = RangeInclusive<T>>>(&mut self, iter: I) -> Result<(), AllocError>
/// clear(&mut self)
/// clone(&self) -> Result<Self, AllocError>
/// get(&self, value: &T) -> Option<&RangeInclusive<T>>
/// contains(&self, value: &T) -> bool
/// first(&self) -> Option<&RangeInclusive<T>>
/// last(&self) -> Option<&RangeInclusive<T>>
/// len(&self) -> usize
/// is_empty(&self) -> bool
/// known(&self)
/// allocator(&self) -> &A
/// iter(&self) -> Iter<'_, T, A>
/// into_iter(self) -> IntoIter<T, A>
/// overlapping<'a>(&'a self, range: &'a RangeInclusive<T>) -> Overlapping<'a, T, A>
/// overlaps(&self, range: &RangeInclusive<T>) -> bool
/// covers(&self, range: &RangeInclusive<T>) -> bool
/// is_subset(&self, other: &Self) -> bool
/// is_superset(&self, other: &Self) -> bool
/// is_disjoint(&self, other: &Self) -> bool
/// gaps<'a>(&'a self, outer_range: &'a RangeInclusive<T>) -> Gaps<'a, T, StepFnsT, A>
/// union<'a>(&'a self, other: &'a Self) -> Union<'a, T, A>
/// intersection<'a>(&'a self, other: &'a Self) -> Intersection<'a, T, A>
/// difference<'a>(&'a self, other: &'a Self) -> Difference<'a, T, StepFnsT, A>
/// symmetric_difference<'a>(&'a self, other: &'a Self) -> SymmetricDifference<'a, T, StepFnsT, A>
/// &left | &right, &left & &right, &left - &right, &left ^ &right
///     -> Result<Self, AllocError>
/// to_value<E, WK: Fn(&T) -> Result<Value, E>>(
///     &self, alloc: Global, write_key: WK) -> Result<Value, WriteError<E>>
/// from_value<E, RK: Fn(&Value) -> Result<T, E>>(
///     alloc: A, form: Form, value: &Value, read_key: RK) -> Result<Self, ReadError<E>>
/// ```
///
/// `Set` describes each call with its contract, and `==`, the orders, `Hash` and `{:?}`.
pub type RangeInclusiveSet<T, StepFnsT = T, A = Global> = Set<
    Chunks<Closed<StepFnsT>, RangeInclusive<T>, (), A, SIZE>,
>;

/// The ranges of a set, in order and from both ends.
pub type Iter<'a, T, A = Global> = Ranges<iter::Iter<'a, RangeInclusive<T>, (), A>>;

/// The ranges that a set hands over, in order and from both ends.
pub type IntoIter<T, A = Global> = Ranges<into_iter::IntoIter<RangeInclusive<T>, (), A>>;

/// The ranges of a set that overlap a range, in order and from both ends.
pub type Overlapping<'a, T, A = Global> = OverlappingRanges<
    iter::Iter<'a, RangeInclusive<T>, (), A>,
>;

/// The parts of a range that a set does not cover, in order.
pub type Gaps<'a, T, StepFnsT = T, A = Global> = gaps::Gaps<
    'a,
    Closed<StepFnsT>,
    RangeInclusive<T>,
    iter::Iter<'a, RangeInclusive<T>, (), A>,
>;

/// The ranges of two sets, joined where they overlap, in order.
///
/// `Union::new` knows no steps and takes every value of the type for a key. A set's `union` and
/// `rangemap_laws::sets::closed_operations` describe its items by the steps of the set.
pub type Union<'a, T, A = Global> = unions::Union<iter::Iter<'a, RangeInclusive<T>, (), A>>;

/// The parts that two sets have in common, in order.
///
/// `Intersection::new` knows no steps and takes every value of the type for a key. A set's
/// `intersection`, `&` and `rangemap_laws::sets::closed_operations` describe its items by the steps of
/// the set.
pub type Intersection<'a, T, A = Global> = unions::Intersection<
    iter::Iter<'a, RangeInclusive<T>, (), A>,
>;

/// The parts of one set's ranges that another set leaves free, in order.
pub type Difference<'a, T, StepFnsT = T, A = Global> = unions::Difference<
    Closed<StepFnsT>,
    RangeInclusive<T>,
    iter::Iter<'a, RangeInclusive<T>, (), A>,
>;

/// The parts that exactly one of two sets has, in order.
pub type SymmetricDifference<'a, T, StepFnsT = T, A = Global> = unions::SymmetricDifference<
    Closed<StepFnsT>,
    RangeInclusive<T>,
    iter::Iter<'a, RangeInclusive<T>, (), A>,
>;

/// A call that makes a set or changes the one at a place of a list.
pub type Call<T, A = Global> = SetCall<RangeInclusive<T>, A>;

/// A call that every container has. A set's `Call` has each by its own name, without the value.
pub type Change<T> = calls::Change<RangeInclusive<T>, ()>;
