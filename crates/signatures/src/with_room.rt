//! Every call of a map with room, with the types of what it takes and gives, over any keys, values and
//! allocators; the same calls at closed ranges of 64 bits; and what a set with room promises.
ghost use Rattle.std.specs.Prelude.{◌+◌, ◌<◌, ◌≤◌, length};
ghost use Rattle.rangemap.specs.Clones.{KeysCloneFaithfully, ValuesCloneFaithfully};
ghost use Rattle.rangemap.specs.Ranges.{half_open};

use rangemap::map;
use rangemap::with_room::{RangeInclusiveMap, RangeMap};
use std::alloc::{AllocError, Allocator, Global};
use std::ops::{Range, RangeInclusive};

pub fn make<K: Ord + Clone, V: Eq + Clone, A: Allocator>(
    alloc: A,
    room: usize,
) -> Result<RangeMap<K, V, A>, AllocError> {
    RangeMap::with_room(alloc, room)
}

pub fn ask<'a, K: Ord + Clone, V: Eq + Clone, A: Allocator>(
    map: &'a RangeMap<K, V, A>,
    key: &K,
    range: &Range<K>,
) {
    let _: Option<&'a V> = map.get(key);
    let _: Option<(&'a Range<K>, &'a V)> = map.get_key_value(key);
    let _: bool = map.contains_key(key);
    let _: Option<(&'a Range<K>, &'a V)> = map.first_range_value();
    let _: Option<(&'a Range<K>, &'a V)> = map.last_range_value();
    let _: usize = map.len();
    let _: usize = map.room();
    let _: bool = map.is_empty();
    let _: bool = map.overlaps(range);
    let _: bool = map.covers(range);
    map.known();
}

pub fn change<K: Ord + Clone, V: Eq + Clone, A: Allocator>(
    map: &mut RangeMap<K, V, A>,
    given: Range<K>,
    value: V,
    taken: Range<K>,
)
    requires given_non_empty { (half_open K.cmp).IsNonEmpty given }
    requires taken_non_empty { (half_open K.cmp).IsNonEmpty taken }
    requires faithful_keys { KeysCloneFaithfully K.is_clone K.cmp }
    requires faithful_values { ValuesCloneFaithfully V.is_clone V.eq }
{
    let _: Result<(), AllocError> = map.insert(given, value);
    let _: Result<(), AllocError> = map.remove(taken);
}

pub fn hand_over<K: Ord + Clone, V: Eq + Clone, A: Allocator>(
    map: RangeMap<K, V, A>,
) -> map::RangeMap<K, V, A> {
    map.into_map()
}

pub fn every_closed<'a>(alloc: Global, map: &'a mut RangeInclusiveMap<u64, u8>) {
    let _: Result<RangeInclusiveMap<u64, u8>, AllocError> = RangeInclusiveMap::with_room(alloc, 2);
    let _: Result<(), AllocError> = map.insert(0..=5, 1);
    let _: Result<(), AllocError> = map.remove(2..=3);
    let _: Option<&u8> = map.get(&1);
    let _: Option<(&RangeInclusive<u64>, &u8)> = map.get_key_value(&1);
    let _: bool = map.covers(&(1..=4));
    let _: usize = map.room();
}

/// Adds keys to a set with room. It never fails.
pub fn add(set: &mut RangeMap<u64, ()>, start: u64, end: u64)
    requires some { start < end }
    requires room { length set.old.0 + 2 ≤ set.old.1 }
    ensures { set.old.1 ≤ set.new.1 }
{
    let Ok(()) = set.insert(start..end, ()) else {
        unreachable!()
    };
}

/// Takes keys out of a set with room. It never fails.
pub fn take(set: &mut RangeMap<u64, ()>, start: u64, end: u64)
    requires some { start < end }
    requires room { length set.old.0 + 1 ≤ set.old.1 }
    ensures { set.old.1 ≤ set.new.1 }
{
    let Ok(()) = set.remove(start..end) else {
        unreachable!()
    };
}
