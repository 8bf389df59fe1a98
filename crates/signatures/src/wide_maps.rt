//! Every call of a closed map at keys of 64 bits, as a user writes it, with nothing generic between;
//! `two` makes its `iter`, and `wide_sets` has those of a closed set.

use crate::root;
use rangemap::inclusive_map::{Gaps, IntoIter, Overlapping, RangeInclusiveMap};
use rangemap::{Form, ReadError, WriteError, range_inclusive_map};
use serde_json::Value;
use std::alloc::{AllocError, Global};
use std::hash::DefaultHasher;
use std::iter::IntoIterator;
use std::ops::RangeInclusive;

pub fn ask<'a>(map: &'a RangeInclusiveMap<u64, u8>) {
    let _: Option<&'a u8> = map.get(&1);
    let _: Option<(&'a RangeInclusive<u64>, &'a u8)> = map.get_key_value(&1);
    let _: bool = map.contains_key(&1);
    let _: Option<(&'a RangeInclusive<u64>, &'a u8)> = map.first_range_value();
    let _: Option<(&'a RangeInclusive<u64>, &'a u8)> = map.last_range_value();
    let _: usize = map.len();
    let _: bool = map.is_empty();
    let _: bool = map.overlaps(&(1..=4));
    let _: bool = map.covers(&(1..=4));
    let _: &'a Global = map.allocator();
    map.known();
}

pub fn lend<'a>(map: &'a RangeInclusiveMap<u64, u8>, range: &'a RangeInclusive<u64>) {
    let _: Overlapping<'a, u64, u8> = map.overlapping(range);
    let _: Gaps<'a, u64, u8> = map.gaps(range);
}

pub fn change(map: &mut RangeInclusiveMap<u64, u8>, more: RangeInclusiveMap<u64, u8>) {
    let _: Result<(), AllocError> = map.insert(0..=5, 1);
    let _: Result<(), AllocError> = map.remove(2..=3);
    let _: Result<(), AllocError> = map.extend(more);
    map.clear();
}

pub fn make(alloc: Global, map: RangeInclusiveMap<u64, u8>) -> IntoIter<u64, u8> {
    let _: RangeInclusiveMap<u64, u8> = RangeInclusiveMap::new(alloc);
    let _: RangeInclusiveMap<u64, u8> = RangeInclusiveMap::new_with_step_fns(alloc);
    let _: Result<RangeInclusiveMap<u64, u8>, AllocError> = map.clone();
    let _: Result<RangeInclusiveMap<u64, u8>, AllocError> =
        range_inclusive_map! { in alloc; 0..=5 => 1 };
    map.into_iter()
}

pub fn collect(
    alloc: Global,
    items: RangeInclusiveMap<u64, u8>,
) -> Result<RangeInclusiveMap<u64, u8>, AllocError> {
    RangeInclusiveMap::from_iter(alloc, items)
}

pub fn write_and_read(
    alloc: Global,
    map: &RangeInclusiveMap<u64, u8>,
    value: &Value,
) -> Result<RangeInclusiveMap<u64, u8>, ReadError<()>> {
    let _: Result<Value, WriteError<()>> = map.to_value(alloc, |_: &u64| Err(()), |_: &u8| Err(()));
    RangeInclusiveMap::from_value(
        alloc,
        Form::Canonical,
        value,
        |_: &Value| Err(()),
        |_: &Value| Err(()),
    )
}

pub fn compare_and_print(
    alloc: Global,
    map: &RangeInclusiveMap<u64, u8>,
) -> Result<(bool, String), AllocError> {
    root::compare_and_print(alloc, map, map, &mut DefaultHasher::new())
}
