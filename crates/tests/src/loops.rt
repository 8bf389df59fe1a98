//! Loops over what a map and a set lend.
//!
//! Each loop stands in a test of its own, over a store that is known: over any store the checker gives
//! up on it.

use crate::checks::{check_same, check_text};
use rangemap::map::Map;
use rangemap::set::Set;
use rangemap::{RangeMap, RangeSet};
use rangemap_chunked::Chunks;
use rangemap_core::half_open::HalfOpen;
use rangemap_tree::Tree;
use std::alloc::Global;
use std::iter::ExactSizeIterator;
use std::ops::Range;
use std::test::Fail;

// Compares what a loop over a container keeps of each of its three items.
macro_rules! check_loop {
    ($alloc:expr, $container:expr, $item:pat => $kept:expr, $text:expr) => {{
        check_same($container.iter().len(), 3)?;
        let mut found = Vec::new($alloc);
        for $item in &$container {
            found.push($kept)?;
        }
        check_text($alloc, &found, $text)
    }};
}

// What loops find in a map and in a set that are made of an array, the last item first.
const PAIRS: &str = "[(0, 2, 'a'), (4, 6, 'b'), (8, 9, 'c')]";

const RANGES: &str = "[(0, 2), (4, 6), (8, 9)]";

#[test]
fn a_loop_goes_over_a_map(rt: HostRuntime) -> Result<(), Fail> {
    let map: RangeMap<u32, char> = Map::from(rt.alloc(), [(8..9, 'c'), (4..6, 'b'), (0..2, 'a')])?;
    let text = "[(0..2, 'a'), (4..6, 'b'), (8..9, 'c')]";
    check_text(rt.alloc(), &map.iter().cursor().as_slice(), text)?;
    check_loop!(rt.alloc(), map, (range, value) => (range.start, range.end, *value), PAIRS)
}

#[test]
fn a_loop_goes_over_a_map_in_a_tree(rt: HostRuntime) -> Result<(), Fail> {
    let map: Map<Tree<u32, char, Global>> = Map::from(
        rt.alloc(),
        [(8..9, 'c'), (4..6, 'b'), (0..2, 'a')],
    )?;
    check_loop!(rt.alloc(), map, (range, value) => (range.start, range.end, *value), PAIRS)
}

#[test]
fn a_loop_goes_over_a_map_in_chunks(rt: HostRuntime) -> Result<(), Fail> {
    let map: Map<Chunks<HalfOpen, Range<u32>, char, Global, 2>> = Map::from(
        rt.alloc(),
        [(8..9, 'c'), (4..6, 'b'), (0..2, 'a')],
    )?;
    check_loop!(rt.alloc(), map, (range, value) => (range.start, range.end, *value), PAIRS)
}

#[test]
fn a_loop_goes_over_a_set(rt: HostRuntime) -> Result<(), Fail> {
    let set: RangeSet<u32> = Set::from(rt.alloc(), [8..9, 4..6, 0..2])?;
    check_loop!(rt.alloc(), set, range => (range.start, range.end), RANGES)
}

#[test]
fn a_loop_goes_over_a_set_in_a_tree(rt: HostRuntime) -> Result<(), Fail> {
    let set: Set<Tree<u32, (), Global>> = Set::from(rt.alloc(), [8..9, 4..6, 0..2])?;
    check_loop!(rt.alloc(), set, range => (range.start, range.end), RANGES)
}

#[test]
fn a_loop_goes_over_a_set_in_chunks(rt: HostRuntime) -> Result<(), Fail> {
    let set: Set<Chunks<HalfOpen, Range<u32>, (), Global, 2>> = Set::from(
        rt.alloc(),
        [8..9, 4..6, 0..2],
    )?;
    check_loop!(rt.alloc(), set, range => (range.start, range.end), RANGES)
}
