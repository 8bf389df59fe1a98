//! The laws of comparisons, run on two maps that are equal and on two that are not. The values count,
//! since what equal maps answer does not show which calls a law made, nor on which of the two.

use crate::checks::assert_same;
use crate::tallied::{Counts, Tallied, Tally};
use rangemap::RangeMap;
use rangemap::container::Container;
use rangemap_laws::comparisons::{
    equal_containers_hash_alike, equal_exactly_when_alike, equality_agrees_with_order,
};
use std::alloc::{AllocError, Global};
use std::cmp::Ordering;
use std::hash::{DefaultHasher, Hash, Hasher};
use std::test::Fail;

// A map to values that count.
type Map<'a> = RangeMap<u32, Tallied<'a>>;

// Where the values of two maps count.
type Tallies<'a> = (&'a Tally, &'a Tally);

// A map with one value.
fn map_to<'a>(alloc: Global, number: u32, tally: &'a Tally) -> Result<Map<'a>, AllocError> {
    let mut map = RangeMap::new(alloc);
    map.insert(0..5, Tallied { number, tally })?;
    Ok(map)
}

// Whether so much was counted for each of two maps.
fn are_counted((ours, theirs): Tallies<'_>, counts: Counts) -> bool {
    (ours.taken(), theirs.taken()) == (counts, counts)
}

// Whether a map lies so to another by the law, for which it was compared by `==` and by `cmp`.
fn lies<M: Container + Ord>(one: &M, other: &M, tallies: Tallies<'_>, order: Ordering) -> bool {
    equality_agrees_with_order(one, other) == (order.is_eq(), order)
        && are_counted(tallies, (1, 1, 0))
}

// Whether two maps are equal and hash alike by the law, for which each was fed once.
fn are_alike<M: Container + Hash>(one: &M, same: &M, tallies: Tallies<'_>) -> bool {
    let hash = hash_of(one);
    if equal_exactly_when_alike(one, same) != (true, false) {
        return false;
    }
    let _ = (tallies.0.taken(), tallies.1.taken());
    let (mut left, mut right) = (DefaultHasher::new(), DefaultHasher::new());
    equal_containers_hash_alike(one, same, &mut left, &mut right);
    (left.finish(), right.finish()) == (hash, hash) && are_counted(tallies, (0, 0, 1))
}

// Whether the laws make their calls, and no others, on a map, on one that is equal to it, and on one
// that is greater, whose values count for the other of the two.
fn are_called<M: Container + Ord + Hash>(
    one: &M,
    same: &M,
    greater: &M,
    tallies: Tallies<'_>,
) -> bool {
    lies(one, same, tallies, Ordering::Equal)
        && lies(one, greater, tallies, Ordering::Less)
        && are_alike(one, same, tallies)
}

// Whether the laws make their calls on maps that count for one of the two.
fn make_their_calls<'a>(alloc: Global, tallies: Tallies<'a>) -> Result<bool, AllocError> {
    let one = map_to(alloc, 1, tallies.0)?;
    let same = map_to(alloc, 1, tallies.1)?;
    let greater = map_to(alloc, 2, tallies.1)?;
    Ok(are_called(&one, &same, &greater, tallies))
}

// What a hasher makes of a container.
fn hash_of<M: Hash>(container: &M) -> u64 {
    let mut state = DefaultHasher::new();
    container.hash(&mut state);
    state.finish()
}

#[test]
fn the_laws_of_comparisons_make_their_calls(rt: HostRuntime) -> Result<(), Fail> {
    let ours = Tally::new();
    let theirs = Tally::new();
    assert_same(&rt, make_their_calls(rt.alloc(), (&ours, &theirs))?, true);
    Ok(())
}
