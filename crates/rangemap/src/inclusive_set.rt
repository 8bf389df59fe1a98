//! The set over closed ranges, and the runs of any calls that make or change such sets.

pub use crate::range_set::Set;
use crate::range_set::calls::SetCall;
use rangemap_containers::calls;
pub use rangemap_containers::replay::{replay, replay as replay_with_step_fns};
use rangemap_core::closed::Closed;
use rangemap_core::gaps;
use rangemap_sorted::{SortedVec, overlapping};
use rangemap_unions::{self as unions, OverlappingRanges, Ranges};
use std::alloc::Global;
use std::ops::RangeInclusive;
use std::{slice, vec};

/// A set of keys in disjoint closed ranges, `a..=b`. It joins ranges that overlap or touch. Closed
/// ranges touch if no key lies between them, which the steps of `StepFnsT` tell. `StepFnsT` is
/// mostly `T` itself. The ranges are kept in one sorted vector.
///
/// `new`, `from`, `from_iter` and `from_value` exist only if `StepFnsT` is `T`. The range of an `insert`
/// or a `remove` is not empty, `range.start() <= range.end()`, and was not iterated to its end.
///
/// # Examples
///
/// ```text
/// if self.numbers.contains(&number) {
///     return Ok(false);
/// }
/// self.numbers.insert(number..=number)?;
/// ```
///
/// `numbers` is a `RangeInclusiveSet<u64>`; numbers that follow one another are kept as one range.
///
/// # Calls
///
/// ```text
/// new(alloc: A) -> Self
/// new_with_step_fns(alloc: A) -> Self
/// from<const N: usize>(alloc: A, value: [RangeInclusive<T>; N]) -> Result<Self, AllocError>
/// from_iter<I: IntoIterator<Item = RangeInclusive<T>>>(alloc: A, iter: I) -> Result<Self, AllocError>
/// insert(&mut self, range: RangeInclusive<T>) -> Result<(), AllocError>
/// remove(&mut self, range: RangeInclusive<T>) -> Result<(), AllocError>
/// extend<I: IntoIterator<Item = RangeInclusive<T>>>(&mut self, iter: I) -> Result<(), AllocError>
/// clear(&mut self)
/// clone(&self) -> Result<Self, AllocError>
/// get(&self, value: &T) -> Option<&RangeInclusive<T>>
/// contains(&self, value: &T) -> bool
/// first(&self) -> Option<&RangeInclusive<T>>
/// last(&self) -> Option<&RangeInclusive<T>>
/// len(&self) -> usize
/// is_empty(&self) -> bool
/// known(&self)
/// allocator(&self) -> &A
/// iter(&self) -> Iter<'_, T>
/// into_iter(self) -> IntoIter<T, A>
/// overlapping<'a>(&'a self, range: &'a RangeInclusive<T>) -> Overlapping<'a, T>
/// overlaps(&self, range: &RangeInclusive<T>) -> bool
/// covers(&self, range: &RangeInclusive<T>) -> bool
/// is_subset(&self, other: &Self) -> bool
/// is_superset(&self, other: &Self) -> bool
/// is_disjoint(&self, other: &Self) -> bool
/// gaps<'a>(&'a self, outer_range: &'a RangeInclusive<T>) -> Gaps<'a, T, StepFnsT>
/// union<'a>(&'a self, other: &'a Self) -> Union<'a, T>
/// intersection<'a>(&'a self, other: &'a Self) -> Intersection<'a, T>
/// difference<'a>(&'a self, other: &'a Self) -> Difference<'a, T, StepFnsT>
/// symmetric_difference<'a>(&'a self, other: &'a Self) -> SymmetricDifference<'a, T, StepFnsT>
/// &left | &right, &left & &right, &left - &right, &left ^ &right
///     -> Result<Self, AllocError>
/// to_value<E, WK: Fn(&T) -> Result<Value, E>>(
///     &self, alloc: Global, write_key: WK) -> Result<Value, WriteError<E>>
/// from_value<E, RK: Fn(&Value) -> Result<T, E>>(
///     alloc: A, form: Form, value: &Value, read_key: RK) -> Result<Self, ReadError<E>>
/// ```
///
/// `Set` describes each call with its contract, and `==`, the orders, `Hash` and `{:?}`.
pub type RangeInclusiveSet<T, StepFnsT = T, A = Global> = Set<
    SortedVec<Closed<StepFnsT>, RangeInclusive<T>, (), A>,
>;

/// The ranges of a set, in order and from both ends.
pub type Iter<'a, T> = Ranges<slice::Iter<'a, (RangeInclusive<T>, ())>>;

/// The ranges that a set hands over, in order and from both ends.
pub type IntoIter<T, A = Global> = Ranges<vec::IntoIter<(RangeInclusive<T>, ()), A>>;

/// The ranges of a set that overlap a range, in order and from both ends. The first `next_back`
/// searches for the end, in *O*(log *n*).
pub type Overlapping<'a, T> = OverlappingRanges<
    overlapping::Overlapping<'a, RangeInclusive<T>, ()>,
>;

/// The parts of a range that a set does not cover, in order.
pub type Gaps<'a, T, StepFnsT = T> = gaps::Gaps<
    'a,
    Closed<StepFnsT>,
    RangeInclusive<T>,
    overlapping::Overlapping<'a, RangeInclusive<T>, ()>,
>;

/// The ranges of two sets, joined where they overlap, in order.
///
/// `Union::new` knows no steps and takes every value of the type for a key. A set's `union` and
/// `rangemap_laws::sets::closed_operations` describe its items by the steps of the set.
pub type Union<'a, T> = unions::Union<slice::Iter<'a, (RangeInclusive<T>, ())>>;

/// The parts that two sets have in common, in order.
///
/// `Intersection::new` knows no steps and takes every value of the type for a key. A set's
/// `intersection`, `&` and `rangemap_laws::sets::closed_operations` describe its items by the steps of
/// the set.
pub type Intersection<'a, T> = unions::Intersection<slice::Iter<'a, (RangeInclusive<T>, ())>>;

/// The parts of one set's ranges that another set leaves free, in order.
pub type Difference<'a, T, StepFnsT = T> = unions::Difference<
    Closed<StepFnsT>,
    RangeInclusive<T>,
    slice::Iter<'a, (RangeInclusive<T>, ())>,
>;

/// The parts that exactly one of two sets has, in order.
pub type SymmetricDifference<'a, T, StepFnsT = T> = unions::SymmetricDifference<
    Closed<StepFnsT>,
    RangeInclusive<T>,
    slice::Iter<'a, (RangeInclusive<T>, ())>,
>;

/// One call of a `replay`. It makes a set, or changes the set at a place of the list.
pub type Call<T, A = Global> = SetCall<RangeInclusive<T>, A>;

/// A call that every container has. A set's `Call` has each by its own name, without the value.
pub type Change<T> = calls::Change<RangeInclusive<T>, ()>;
