//! Every call of a map and of a set at keys that own memory.

use crate::{maps, sets};
use rangemap::{RangeMap, RangeSet};
use std::alloc::Global;
use std::ops::Range;

pub fn call_map(
    alloc: Global,
    map: &mut RangeMap<String, u8>,
    listed: Range<String>,
    given: Range<String>,
    taken: Range<String>,
) {
    if listed.is_empty() || given.is_empty() || taken.is_empty() {
        return;
    }
    maps::every(alloc, map, [(listed, 1)], given, taken);
}

pub fn call_set(
    alloc: Global,
    set: &mut RangeSet<String>,
    listed: Range<String>,
    given: Range<String>,
    taken: Range<String>,
) {
    if listed.is_empty() || given.is_empty() || taken.is_empty() {
        return;
    }
    sets::every(alloc, set, [listed], given, taken);
}
