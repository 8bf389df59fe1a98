//! A closed range that was iterated to its end, as a query: only its two ends are read.
ghost use Rattle.rangemap.specs.Clones.{KeysCloneFaithfully};

use crate::checks::{check_same, check_text};
use rangemap::map::Map;
use rangemap::set::Set;
use rangemap_chunked::Chunks;
use rangemap_core::closed::Closed;
use rangemap_core::store::Lends;
use rangemap_sorted::SortedVec;
use std::alloc::Global;
use std::fmt::Debug;
use std::iter::DoubleEndedIterator;
use std::ops::RangeInclusive;
use std::test::Fail;

// Stores of closed ranges of bytes.
type InVector<V> = SortedVec<Closed<u8>, RangeInclusive<u8>, V, Global>;

type InChunks<V> = Chunks<Closed<u8>, RangeInclusive<u8>, V, Global, 2>;

// A range whose two ends are both 4 now.
fn iterated_to_its_end() -> Result<RangeInclusive<u8>, Fail> {
    let mut range = 0..=4u8;
    for _ in &mut range {}
    let found = (range.is_empty(), *range.start(), *range.end());
    check_same(found, (true, 4, 4))?;
    Ok(range)
}

// Compares the one item that comes, from either end.
fn check_one<T: Debug + Drop, I: DoubleEndedIterator<Item = T> + Drop>(
    alloc: Global,
    mut items: I,
    text: &str,
) -> Result<(), Fail>
    requires { (it : I) → I.can_next it × I.can_next_back it }
{
    let found = (items.next(), items.next_back());
    check_text(alloc, &found, text)
}

// Compares the one pair that a query overlaps, and the one gap that it has in an empty map.
fn check_map<'a, S: Lends<'a, Range: Debug, Value: Debug>>(
    alloc: Global,
    maps: (&'a Map<S>, &'a Map<S>),
    query: &'a S::Range,
) -> Result<(), Fail>
    requires { KeysCloneFaithfully S.Range.Key.is_clone S.Range.Key.cmp }
{
    check_one(
        alloc,
        maps.0.overlapping(query),
        "(Some((4..=4, 'b')), None)",
    )?;
    let mut gaps = maps.1.gaps(query);
    let found = (gaps.try_next()?, gaps.try_next()?);
    check_text(alloc, &found, "(Some(4..=4), None)")
}

// Compares the one range that a query overlaps, and the one gap that it has in an empty set.
fn check_set<'a, S: Lends<'a, Range: Debug, Value = ()>>(
    alloc: Global,
    sets: (&'a Set<S>, &'a Set<S>),
    query: &'a S::Range,
) -> Result<(), Fail>
    requires { KeysCloneFaithfully S.Range.Key.is_clone S.Range.Key.cmp }
{
    check_one(alloc, sets.0.overlapping(query), "(Some(4..=4), None)")?;
    let mut gaps = sets.1.gaps(query);
    let found = (gaps.try_next()?, gaps.try_next()?);
    check_text(alloc, &found, "(Some(4..=4), None)")
}

// Of three pairs and of three ranges the second has the key 4 alone.
#[test]
fn closed_maps_are_asked_by_a_range_that_was_iterated(rt: HostRuntime) -> Result<(), Fail> {
    let (alloc, query) = (rt.alloc(), iterated_to_its_end()?);
    let map: Map<InVector<char>> = Map::from(alloc, [(0..=3, 'a'), (4..=4, 'b'), (5..=9, 'c')])?;
    check_map(alloc, (&map, &Map::new(alloc)), &query)?;
    let map: Map<InChunks<char>> = Map::from(alloc, [(0..=3, 'a'), (4..=4, 'b'), (5..=9, 'c')])?;
    check_map(alloc, (&map, &Map::new(alloc)), &query)
}

#[test]
fn closed_sets_are_asked_by_a_range_that_was_iterated(rt: HostRuntime) -> Result<(), Fail> {
    let (alloc, query) = (rt.alloc(), iterated_to_its_end()?);
    let set: Set<InVector<()>> = Set::from(alloc, [0..=2, 4..=4, 6..=9])?;
    check_set(alloc, (&set, &Set::new(alloc)), &query)?;
    let set: Set<InChunks<()>> = Set::from(alloc, [0..=2, 4..=4, 6..=9])?;
    check_set(alloc, (&set, &Set::new(alloc)), &query)
}
