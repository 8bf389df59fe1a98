//! Each workload of the bench once, over two pairs, and each over sets: over {0..10, 20..30}, and
//! {5..25} where there are two.

use crate::checks::assert_same;
use bench_workloads::containers::{
    CHUNKED, CHUNKED_SET, CLOSED, CLOSED_CHUNKED, CLOSED_CHUNKED_SET, CLOSED_SET, HALF_OPEN, SET,
    TEXTS, TREE,
};
use bench_workloads::digest::followed_by;
use bench_workloads::dispatch::{over_map, over_set};
use bench_workloads::input::{Entry, Query};
use bench_workloads::workloads::Workload;
use bench_workloads::workloads::sets::SetWorkload;
use std::process::Abort;
use std::test::Fail;

const BEFORE: Entry = Entry {
    start: 0,
    end: 10,
    value: 7,
    pad: 0,
};

const BEHIND: Entry = Entry {
    start: 20,
    end: 30,
    value: 8,
    pad: 0,
};

const TWO: [Entry; 2] = [BEFORE, BEHIND];

// The same entries, the one that lies behind first.
const TURNED: [Entry; 2] = [BEHIND, BEFORE];

// The numbers of these ranges. With that of its value each is the number of a pair.
const FIRST: u64 = 30;

const SECOND: u64 = 110;

const ACROSS: [Query; 1] = [Query { start: 5, end: 25 }];

// The numbers of the two values.
type Values = (u64, u64);

// The map's values are the numbers of the entries.
const NUMBERS: Values = (7, 8);

// The eighth text is "not known yet", and the first one is "free".
const LENGTHS: Values = (13, 4);

// The maps by their numbers, and what the numbers of their two values are.
const MAPS: [(u32, Values); 4] = [
    (HALF_OPEN, NUMBERS),
    (CLOSED, NUMBERS),
    (TREE, NUMBERS),
    (TEXTS, LENGTHS),
];

const CHUNKED_MAPS: [(u32, Values); 2] = [(CHUNKED, NUMBERS), (CLOSED_CHUNKED, NUMBERS)];

// Compares what each workload on a whole map answers, and those of queries and removals.
fn check_map<R: AllocGlobal + Abort>(rt: &R, container: u32, values: Values) -> Result<(), Fail> {
    let (first, second) = (FIRST.wrapping_add(values.0), SECOND.wrapping_add(values.1));
    let rest = followed_by(values.0.wrapping_add(15), values.1.wrapping_add(115));
    let alloc = rt.alloc();
    for (workload, times, answer) in [
        (Workload::Contents, 1, followed_by(first, second)),
        (Workload::Iterations, 1, first ^ second),
        (Workload::Inserts, 1, 2),
        (Workload::Clones, 1, 2),
        // The map equals the one clone, and then the other.
        (Workload::Comparisons, 2, followed_by(1, 1)),
        (Workload::Standing, 1, 2),
    ] {
        let found = over_map(workload, alloc, container, &TWO, &[], times)?;
        assert_same(rt, found, answer);
    }
    // All goes up to the greatest end, which is not that of the last entry.
    let len = over_map(Workload::Emptyings, alloc, container, &TURNED, &[], 1)?;
    assert_same(rt, len, 0);
    for (workload, answer) in [
        (Workload::Lookups, values.0),
        (Workload::Overlaps, first ^ second),
        (Workload::Gaps, 70),
        (Workload::Removals, rest),
    ] {
        let found = over_map(workload, alloc, container, &TWO, &ACROSS, 1)?;
        assert_same(rt, found, answer);
    }
    Ok(())
}

#[test]
fn workloads_on_maps_answer(rt: HostRuntime) -> Result<(), Fail> {
    for (container, values) in MAPS {
        check_map(&rt, container, values)?;
    }
    Ok(())
}

#[test]
fn workloads_on_maps_in_chunks_answer(rt: HostRuntime) -> Result<(), Fail> {
    for (container, values) in CHUNKED_MAPS {
        check_map(&rt, container, values)?;
    }
    Ok(())
}

// There is no map at the number of a set.
#[test]
fn the_number_of_a_set_names_no_map(rt: HostRuntime) -> Result<(), Fail> {
    let (workload, container) = (Workload::Contents, CLOSED_CHUNKED_SET);
    let answer = over_map(workload, rt.alloc(), container, &TWO, &[], 1);
    assert_same(&rt, answer.is_err(), true);
    Ok(())
}

// The numbers of 0..30, which is all that either set has, and of 5..10 and 20..25, which both have.
const EITHER: u64 = 90;

const BOTH: (u64, u64) = (35, 95);

// Of 0..5 and 25..30, which only the first set has.
const REST: (u64, u64) = (15, 115);

// Two keys of the first set, and one between its ranges.
const KEYS: [Query; 3] = [
    Query { start: 9, end: 10 },
    Query { start: 15, end: 16 },
    Query { start: 20, end: 21 },
];

// Compares what each workload on sets answers.
fn check_set<R: AllocGlobal + Abort>(rt: &R, container: u32) -> Result<(), Fail> {
    for (workload, answer) in [
        (SetWorkload::Unions, EITHER),
        (SetWorkload::Intersections, BOTH.0 ^ BOTH.1),
        (SetWorkload::Differences, REST.0 ^ REST.1),
        (SetWorkload::JoinedSets, EITHER),
        (SetWorkload::CommonSets, followed_by(BOTH.0, BOTH.1)),
        (SetWorkload::LeftSets, followed_by(REST.0, REST.1)),
        (SetWorkload::Subsets, 0),
    ] {
        let found = over_set(workload, rt.alloc(), container, &TWO, &ACROSS, 1)?;
        assert_same(rt, found, answer);
    }
    let digest = over_set(SetWorkload::Contents, rt.alloc(), container, &TWO, &[], 1)?;
    assert_same(rt, digest, followed_by(FIRST, SECOND));
    for workload in [
        SetWorkload::Members,
        SetWorkload::Coverings,
        SetWorkload::Meetings,
    ] {
        let count = over_set(workload, rt.alloc(), container, &TWO, &KEYS, 1)?;
        assert_same(rt, count, 2);
    }
    let len = over_set(SetWorkload::Standing, rt.alloc(), container, &TWO, &[], 1)?;
    assert_same(rt, len, 2);
    Ok(())
}

#[test]
fn workloads_on_two_sets_answer(rt: HostRuntime) -> Result<(), Fail> {
    for container in [SET, CLOSED_SET, CHUNKED_SET, CLOSED_CHUNKED_SET] {
        check_set(&rt, container)?;
    }
    Ok(())
}

// There is no set at the number of a map.
#[test]
fn the_number_of_a_map_names_no_set(rt: HostRuntime) -> Result<(), Fail> {
    let (workload, container) = (SetWorkload::Contents, CLOSED_CHUNKED);
    let answer = over_set(workload, rt.alloc(), container, &TWO, &[], 1);
    assert_same(&rt, answer.is_err(), true);
    Ok(())
}
