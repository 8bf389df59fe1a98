//! The set over half-open ranges that keeps them in chunks, and the run of any calls that make or
//! change such sets.

pub use crate::range_set::Set;
use crate::range_set::calls::SetCall;
use rangemap_chunked::{Chunks, SIZE, into_iter, iter};
use rangemap_containers::calls;
pub use rangemap_containers::replay::replay;
use rangemap_core::gaps;
use rangemap_core::half_open::HalfOpen;
use rangemap_unions::{self as unions, OverlappingRanges, Ranges};
use std::alloc::Global;
use std::ops::Range;

/// A set of keys in disjoint half-open ranges, `a..b`, which joins ranges that overlap or touch. It
/// keeps them in chunks, each a sorted vector.
///
/// The range of an `insert` or a `remove` is not empty: `range.start < range.end`.
///
/// # Examples
///
/// As for `set::RangeSet`, with `use rangemap::chunked::set::RangeSet`.
///
/// # Calls
///
/// ```text
/// new(alloc: A) -> Self
/// new_with_step_fns(alloc: A) -> Self
/// from<const N: usize>(alloc: A, value: [Range<T>; N]) -> Result<Self, AllocError>
/// from_iter<I: IntoIterator<Item = Range<T>>>(alloc: A, iter: I) -> Result<Self, AllocError>
/// insert(&mut self, range: Range<T>) -> Result<(), AllocError>
/// remove(&mut self, range: Range<T>) -> Result<(), AllocError>
/// extend<I: IntoIterator<Item = Range<T>>>(&mut self, iter: I) -> Result<(), AllocError>
/// clear(&mut self)
/// clone(&self) -> Result<Self, AllocError>
/// get(&self, value: &T) -> Option<&Range<T>>
/// contains(&self, value: &T) -> bool
/// first(&self) -> Option<&Range<T>>
/// last(&self) -> Option<&Range<T>>
/// len(&self) -> usize
/// is_empty(&self) -> bool
/// known(&self)
/// allocator(&self) -> &A
/// iter(&self) -> Iter<'_, T, A>
/// into_iter(self) -> IntoIter<T, A>
/// overlapping<'a>(&'a self, range: &'a Range<T>) -> Overlapping<'a, T, A>
/// overlaps(&self, range: &Range<T>) -> bool
/// covers(&self, range: &Range<T>) -> bool
/// is_subset(&self, other: &Self) -> bool
/// is_superset(&self, other: &Self) -> bool
/// is_disjoint(&self, other: &Self) -> bool
/// gaps<'a>(&'a self, outer_range: &'a Range<T>) -> Gaps<'a, T, A>
/// union<'a>(&'a self, other: &'a Self) -> Union<'a, T, A>
/// intersection<'a>(&'a self, other: &'a Self) -> Intersection<'a, T, A>
/// difference<'a>(&'a self, other: &'a Self) -> Difference<'a, T, A>
/// symmetric_difference<'a>(&'a self, other: &'a Self) -> SymmetricDifference<'a, T, A>
/// &left | &right, &left & &right, &left - &right, &left ^ &right
///     -> Result<Self, AllocError>
/// to_value<E, WK: Fn(&T) -> Result<Value, E>>(
///     &self, alloc: Global, write_key: WK) -> Result<Value, WriteError<E>>
/// from_value<E, RK: Fn(&Value) -> Result<T, E>>(
///     alloc: A, form: Form, value: &Value, read_key: RK) -> Result<Self, ReadError<E>>
/// ```
///
/// `Set` describes each call with its contract, and `==`, the orders, `Hash` and `{:?}`.
pub type RangeSet<T, A = Global> = Set<Chunks<HalfOpen, Range<T>, (), A, SIZE>>;

/// The ranges of a set, in order and from both ends.
pub type Iter<'a, T, A = Global> = Ranges<iter::Iter<'a, Range<T>, (), A>>;

/// The ranges that a set hands over, in order and from both ends.
pub type IntoIter<T, A = Global> = Ranges<into_iter::IntoIter<Range<T>, (), A>>;

/// The ranges of a set that overlap a range, in order and from both ends.
pub type Overlapping<'a, T, A = Global> = OverlappingRanges<iter::Iter<'a, Range<T>, (), A>>;

/// The parts of a range that a set does not cover, in order.
pub type Gaps<'a, T, A = Global> = gaps::Gaps<
    'a,
    HalfOpen,
    Range<T>,
    iter::Iter<'a, Range<T>, (), A>,
>;

/// The ranges of two sets, joined where they overlap, in order.
pub type Union<'a, T, A = Global> = unions::Union<iter::Iter<'a, Range<T>, (), A>>;

/// The parts that two sets have in common, in order.
pub type Intersection<'a, T, A = Global> = unions::Intersection<iter::Iter<'a, Range<T>, (), A>>;

/// The parts of one set's ranges that another set leaves free, in order.
pub type Difference<'a, T, A = Global> = unions::Difference<
    HalfOpen,
    Range<T>,
    iter::Iter<'a, Range<T>, (), A>,
>;

/// The parts that exactly one of two sets has, in order.
pub type SymmetricDifference<'a, T, A = Global> = unions::SymmetricDifference<
    HalfOpen,
    Range<T>,
    iter::Iter<'a, Range<T>, (), A>,
>;

/// A call that every container has. A set's `Call` has each by its own name, without the value.
pub type Change<T> = calls::Change<Range<T>, ()>;

/// A call that makes a set or changes the one at a place of a list.
pub type Call<T, A = Global> = SetCall<Range<T>, A>;
