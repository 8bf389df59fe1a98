//! Every call of a closed set at keys of 64 bits, as `wide_maps` has those of a closed map; `widths`
//! makes those of operators.

use crate::root;
use rangemap::inclusive_set::{
    Difference, Gaps, Intersection, IntoIter, Iter, Overlapping, RangeInclusiveSet,
    SymmetricDifference, Union,
};
use rangemap::{Form, ReadError, WriteError, range_inclusive_set};
use serde_json::Value;
use std::alloc::{AllocError, Global};
use std::hash::DefaultHasher;
use std::iter::IntoIterator;
use std::ops::RangeInclusive;

pub fn ask<'a>(set: &'a RangeInclusiveSet<u64>) {
    let _: Option<&'a RangeInclusive<u64>> = set.get(&1);
    let _: bool = set.contains(&1);
    let _: Option<&'a RangeInclusive<u64>> = set.first();
    let _: Option<&'a RangeInclusive<u64>> = set.last();
    let _: usize = set.len();
    let _: bool = set.is_empty();
    let _: bool = set.overlaps(&(1..=4));
    let _: bool = set.covers(&(1..=4));
    let _: bool = set.is_subset(set);
    let _: bool = set.is_superset(set);
    let _: bool = set.is_disjoint(set);
    let _: &'a Global = set.allocator();
    set.known();
}

pub fn lend<'a>(
    set: &'a RangeInclusiveSet<u64>,
    other: &'a RangeInclusiveSet<u64>,
    range: &'a RangeInclusive<u64>,
) {
    let _: Iter<'a, u64> = set.iter();
    let _: Overlapping<'a, u64> = set.overlapping(range);
    let _: Gaps<'a, u64> = set.gaps(range);
    let _: Union<'a, u64> = set.union(other);
    let _: Intersection<'a, u64> = set.intersection(other);
    let _: Difference<'a, u64> = set.difference(other);
    let _: SymmetricDifference<'a, u64> = set.symmetric_difference(other);
}

pub fn change(set: &mut RangeInclusiveSet<u64>, more: RangeInclusiveSet<u64>) {
    let _: Result<(), AllocError> = set.insert(0..=5);
    let _: Result<(), AllocError> = set.remove(2..=3);
    let _: Result<(), AllocError> = set.extend(more);
    set.clear();
}

pub fn make(alloc: Global, set: RangeInclusiveSet<u64>) -> IntoIter<u64> {
    let _: RangeInclusiveSet<u64> = RangeInclusiveSet::new(alloc);
    let _: RangeInclusiveSet<u64> = RangeInclusiveSet::new_with_step_fns(alloc);
    let _: Result<RangeInclusiveSet<u64>, AllocError> = set.clone();
    let _: Result<RangeInclusiveSet<u64>, AllocError> = range_inclusive_set![in alloc; 0..=5];
    set.into_iter()
}

pub fn collect(
    alloc: Global,
    items: RangeInclusiveSet<u64>,
) -> Result<RangeInclusiveSet<u64>, AllocError> {
    RangeInclusiveSet::from_iter(alloc, items)
}

pub fn write_and_read(
    alloc: Global,
    set: &RangeInclusiveSet<u64>,
    value: &Value,
) -> Result<RangeInclusiveSet<u64>, ReadError<()>> {
    let _: Result<Value, WriteError<()>> = set.to_value(alloc, |_: &u64| Err(()));
    RangeInclusiveSet::from_value(alloc, Form::Any, value, |_: &Value| Err(()))
}

pub fn compare_and_print(
    alloc: Global,
    set: &RangeInclusiveSet<u64>,
) -> Result<(bool, String), AllocError> {
    root::compare_and_print(alloc, set, set, &mut DefaultHasher::new())
}
