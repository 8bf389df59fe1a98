//! Containers made of arrays and of chains of iterators, and extended by both. What comes of such lists
//! otherwise, and which of equal values stays, rows say.

use crate::checks::check_text;
use rangemap::map::Map;
use rangemap::set::Set;
use rangemap_chunked::Chunks;
use rangemap_core::closed::Closed;
use rangemap_core::half_open::HalfOpen;
use rangemap_core::store::StoreMut;
use rangemap_sorted::SortedVec;
use rangemap_tree::Tree;
use std::alloc::Global;
use std::ops::{Range, RangeInclusive};
use std::test::Fail;

mod refused;

// Compares a map of two pairs that a chain extends, a clone made before, and one that a chain makes.
fn check_chains<S>(alloc: Global) -> Result<(), Fail>
where
    S: StoreMut<Kind = HalfOpen, Range = Range<u32>, Value = char, Alloc = Global> + Drop,
{
    let mut map: Map<S> = Map::from(alloc, [(0..10, 'a'), (3..6, 'b')])?;
    let copy = map.clone()?;
    map.extend((1..3u32).map(|i| (10 * i..10 * i + 5, 'c')))?;
    let made: Map<S> = Map::from_iter(alloc, (0..3u32).map(|i| (0..i + 1, 'd')))?;
    check_text(
        alloc,
        &(copy, made, map),
        "({0..3: 'a', 3..6: 'b', 6..10: 'a'}, {0..3: 'd'}, \
            {0..3: 'a', 3..6: 'b', 6..10: 'a', 10..15: 'c', 20..25: 'c'})",
    )
}

// Compares a map that `from_iter` and `extend` make of arrays.
fn check_arrays<S>(alloc: Global) -> Result<(), Fail>
where
    S: StoreMut<Kind = HalfOpen, Range = Range<u32>, Value = char, Alloc = Global> + Drop,
{
    let mut map: Map<S> = Map::from_iter(alloc, [(0..8, 'x'), (2..4, 'y')])?;
    map.extend([(8..9, 'z'), (12..13, 'x')])?;
    let text = "{0..2: 'x', 2..4: 'y', 4..8: 'x', 8..9: 'z', 12..13: 'x'}";
    check_text(alloc, &map, text)
}

// Compares closed maps that an array and a chain make, and one that a chain extends.
fn check_closed_maps<S>(alloc: Global) -> Result<(), Fail>
where
    S: StoreMut<Kind = Closed<u32>, Range = RangeInclusive<u32>, Value = char, Alloc = Global>
        + Drop,
{
    let pairs = [(0..=100, 'a'), (100..=200, 'b'), (200..=300, 'c')];
    let map: Map<S> = Map::from(alloc, pairs)?;
    let chain = (0..3u32).map(|i| (10 * i..=10 * i + 9, 'b'));
    let made: Map<S> = Map::from_iter(alloc, chain)?;
    let mut extended: Map<S> = Map::new(alloc);
    extended.extend((0..2u32).map(|i| (10 * i..=10 * i + 4, 'a')))?;
    check_text(
        alloc,
        &(map, made, extended),
        "({0..=99: 'a', 100..=199: 'b', 200..=300: 'c'}, {0..=29: 'b'}, {0..=4: 'a', 10..=14: 'a'})",
    )
}

// Compares a set of two ranges that a chain extends, a clone made before, and one that a chain makes.
fn check_sets<S>(alloc: Global) -> Result<(), Fail>
where
    S: StoreMut<Kind = HalfOpen, Range = Range<u32>, Value = (), Alloc = Global> + Drop,
{
    let mut set: Set<S> = Set::from(alloc, [0..5, 5..9])?;
    let copy = set.clone()?;
    set.extend((1..3u32).map(|i| 10 * i..10 * i + 5))?;
    let made: Set<S> = Set::from_iter(alloc, (0..3u32).map(|i| 10 * i..10 * i + 5))?;
    check_text(
        alloc,
        &(set, copy, made),
        "({0..9, 10..15, 20..25}, {0..9}, {0..5, 10..15, 20..25})",
    )
}

// The same of closed ranges.
fn check_closed_sets<S>(alloc: Global) -> Result<(), Fail>
where
    S: StoreMut<Kind = Closed<u32>, Range = RangeInclusive<u32>, Value = (), Alloc = Global> + Drop,
{
    let mut set: Set<S> = Set::from(alloc, [0..=4, 5..=8])?;
    let copy = set.clone()?;
    set.extend((1..3u32).map(|i| 10 * i..=10 * i + 4))?;
    let made: Set<S> = Set::from_iter(alloc, (0..3u32).map(|i| 10 * i..=10 * i + 4))?;
    check_text(
        alloc,
        &(set, copy, made),
        "({0..=8, 10..=14, 20..=24}, {0..=8}, {0..=4, 10..=14, 20..=24})",
    )
}

// Compares what lists make over a store of half-open ranges.
fn check_maps<S>(alloc: Global) -> Result<(), Fail>
where
    S: StoreMut<Kind = HalfOpen, Range = Range<u32>, Value = char, Alloc = Global> + Drop,
{
    check_chains::<S>(alloc)?;
    check_arrays::<S>(alloc)
}

#[test]
fn pairs_are_inserted_in_order(rt: HostRuntime) -> Result<(), Fail> {
    check_maps::<SortedVec<HalfOpen, Range<u32>, char, Global>>(rt.alloc())?;
    check_maps::<Tree<u32, char, Global>>(rt.alloc())?;
    check_maps::<Chunks<HalfOpen, Range<u32>, char, Global, 2>>(rt.alloc())
}

#[test]
fn closed_pairs_are_inserted_in_order(rt: HostRuntime) -> Result<(), Fail> {
    check_closed_maps::<SortedVec<Closed<u32>, RangeInclusive<u32>, char, Global>>(rt.alloc())?;
    check_closed_maps::<Chunks<Closed<u32>, RangeInclusive<u32>, char, Global, 2>>(rt.alloc())
}

#[test]
fn ranges_are_inserted_in_order(rt: HostRuntime) -> Result<(), Fail> {
    check_sets::<SortedVec<HalfOpen, Range<u32>, (), Global>>(rt.alloc())?;
    check_sets::<Tree<u32, (), Global>>(rt.alloc())?;
    check_sets::<Chunks<HalfOpen, Range<u32>, (), Global, 2>>(rt.alloc())?;
    check_closed_sets::<SortedVec<Closed<u32>, RangeInclusive<u32>, (), Global>>(rt.alloc())?;
    check_closed_sets::<Chunks<Closed<u32>, RangeInclusive<u32>, (), Global, 2>>(rt.alloc())
}
