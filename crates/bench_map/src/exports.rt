//! The calls that a timing program makes. Each names its container by a number of `containers`.

use crate::answer::answer;
use bench_workloads::containers;
use bench_workloads::dispatch::{over_map, over_set};
use bench_workloads::input::{Entry, Query};
use bench_workloads::workloads::Workload;
use bench_workloads::workloads::sets::SetWorkload;
use std::alloc::Global;

/// The digest of all pairs.
#[unsafe(no_mangle)]
pub extern "C" fn bench_contents(
    alloc: Global,
    container: u32,
    entries: &[Entry],
    queries: &[Query],
    rounds: u32,
) -> u64 {
    if container < containers::SET {
        answer(over_map(
            Workload::Contents,
            alloc,
            container,
            entries,
            queries,
            rounds,
        ))
    } else {
        answer(over_set(
            SetWorkload::Contents,
            alloc,
            container,
            entries,
            queries,
            rounds,
        ))
    }
}

/// A new map of the entries in each round.
#[unsafe(no_mangle)]
pub extern "C" fn bench_inserts(
    alloc: Global,
    container: u32,
    entries: &[Entry],
    queries: &[Query],
    rounds: u32,
) -> u64 {
    answer(over_map(
        Workload::Inserts,
        alloc,
        container,
        entries,
        queries,
        rounds,
    ))
}

/// The value at the start of each query.
#[unsafe(no_mangle)]
pub extern "C" fn bench_lookups(
    alloc: Global,
    container: u32,
    entries: &[Entry],
    queries: &[Query],
    rounds: u32,
) -> u64 {
    answer(over_map(
        Workload::Lookups,
        alloc,
        container,
        entries,
        queries,
        rounds,
    ))
}

/// All pairs.
#[unsafe(no_mangle)]
pub extern "C" fn bench_iterations(
    alloc: Global,
    container: u32,
    entries: &[Entry],
    queries: &[Query],
    rounds: u32,
) -> u64 {
    answer(over_map(
        Workload::Iterations,
        alloc,
        container,
        entries,
        queries,
        rounds,
    ))
}

/// A clone from which the queries are removed.
#[unsafe(no_mangle)]
pub extern "C" fn bench_removals(
    alloc: Global,
    container: u32,
    entries: &[Entry],
    queries: &[Query],
    rounds: u32,
) -> u64 {
    answer(over_map(
        Workload::Removals,
        alloc,
        container,
        entries,
        queries,
        rounds,
    ))
}

/// The pairs that each query overlaps.
#[unsafe(no_mangle)]
pub extern "C" fn bench_overlaps(
    alloc: Global,
    container: u32,
    entries: &[Entry],
    queries: &[Query],
    rounds: u32,
) -> u64 {
    answer(over_map(
        Workload::Overlaps,
        alloc,
        container,
        entries,
        queries,
        rounds,
    ))
}

/// The gaps in each query.
#[unsafe(no_mangle)]
pub extern "C" fn bench_gaps(
    alloc: Global,
    container: u32,
    entries: &[Entry],
    queries: &[Query],
    rounds: u32,
) -> u64 {
    answer(over_map(Workload::Gaps, alloc, container, entries, queries, rounds))
}

/// A clone.
#[unsafe(no_mangle)]
pub extern "C" fn bench_clones(
    alloc: Global,
    container: u32,
    entries: &[Entry],
    queries: &[Query],
    rounds: u32,
) -> u64 {
    answer(over_map(Workload::Clones, alloc, container, entries, queries, rounds))
}

/// Whether the map equals a clone.
#[unsafe(no_mangle)]
pub extern "C" fn bench_comparisons(
    alloc: Global,
    container: u32,
    entries: &[Entry],
    queries: &[Query],
    rounds: u32,
) -> u64 {
    answer(over_map(
        Workload::Comparisons,
        alloc,
        container,
        entries,
        queries,
        rounds,
    ))
}

/// A clone from which one call removes all.
#[unsafe(no_mangle)]
pub extern "C" fn bench_emptyings(
    alloc: Global,
    container: u32,
    entries: &[Entry],
    queries: &[Query],
    rounds: u32,
) -> u64 {
    answer(over_map(
        Workload::Emptyings,
        alloc,
        container,
        entries,
        queries,
        rounds,
    ))
}

/// A new container of the entries, marked while it stands.
#[unsafe(no_mangle)]
pub extern "C" fn bench_standing(
    alloc: Global,
    container: u32,
    entries: &[Entry],
    queries: &[Query],
    rounds: u32,
) -> u64 {
    if container < containers::SET {
        answer(over_map(
            Workload::Standing,
            alloc,
            container,
            entries,
            queries,
            rounds,
        ))
    } else {
        answer(over_set(
            SetWorkload::Standing,
            alloc,
            container,
            entries,
            queries,
            rounds,
        ))
    }
}

/// The items of the union of two sets.
#[unsafe(no_mangle)]
pub extern "C" fn bench_unions(
    alloc: Global,
    container: u32,
    entries: &[Entry],
    queries: &[Query],
    rounds: u32,
) -> u64 {
    answer(over_set(
        SetWorkload::Unions,
        alloc,
        container,
        entries,
        queries,
        rounds,
    ))
}

/// The items of the intersection of two sets.
#[unsafe(no_mangle)]
pub extern "C" fn bench_intersections(
    alloc: Global,
    container: u32,
    entries: &[Entry],
    queries: &[Query],
    rounds: u32,
) -> u64 {
    answer(over_set(
        SetWorkload::Intersections,
        alloc,
        container,
        entries,
        queries,
        rounds,
    ))
}

/// The set of the keys of either of two sets.
#[unsafe(no_mangle)]
pub extern "C" fn bench_joined_sets(
    alloc: Global,
    container: u32,
    entries: &[Entry],
    queries: &[Query],
    rounds: u32,
) -> u64 {
    answer(over_set(
        SetWorkload::JoinedSets,
        alloc,
        container,
        entries,
        queries,
        rounds,
    ))
}

/// The set of the keys of both of two sets.
#[unsafe(no_mangle)]
pub extern "C" fn bench_common_sets(
    alloc: Global,
    container: u32,
    entries: &[Entry],
    queries: &[Query],
    rounds: u32,
) -> u64 {
    answer(over_set(
        SetWorkload::CommonSets,
        alloc,
        container,
        entries,
        queries,
        rounds,
    ))
}

/// Whether the start of each query is in the set.
#[unsafe(no_mangle)]
pub extern "C" fn bench_members(
    alloc: Global,
    container: u32,
    entries: &[Entry],
    queries: &[Query],
    rounds: u32,
) -> u64 {
    answer(over_set(
        SetWorkload::Members,
        alloc,
        container,
        entries,
        queries,
        rounds,
    ))
}

/// The items of the difference of two sets.
#[unsafe(no_mangle)]
pub extern "C" fn bench_differences(
    alloc: Global,
    container: u32,
    entries: &[Entry],
    queries: &[Query],
    rounds: u32,
) -> u64 {
    answer(over_set(
        SetWorkload::Differences,
        alloc,
        container,
        entries,
        queries,
        rounds,
    ))
}

/// The set of the keys that only the first of two sets has.
#[unsafe(no_mangle)]
pub extern "C" fn bench_left_sets(
    alloc: Global,
    container: u32,
    entries: &[Entry],
    queries: &[Query],
    rounds: u32,
) -> u64 {
    answer(over_set(
        SetWorkload::LeftSets,
        alloc,
        container,
        entries,
        queries,
        rounds,
    ))
}

/// Whether a set lies within another one.
#[unsafe(no_mangle)]
pub extern "C" fn bench_subsets(
    alloc: Global,
    container: u32,
    entries: &[Entry],
    queries: &[Query],
    rounds: u32,
) -> u64 {
    answer(over_set(
        SetWorkload::Subsets,
        alloc,
        container,
        entries,
        queries,
        rounds,
    ))
}

/// Whether each query is covered by the set.
#[unsafe(no_mangle)]
pub extern "C" fn bench_coverings(
    alloc: Global,
    container: u32,
    entries: &[Entry],
    queries: &[Query],
    rounds: u32,
) -> u64 {
    answer(over_set(
        SetWorkload::Coverings,
        alloc,
        container,
        entries,
        queries,
        rounds,
    ))
}

/// Whether each query overlaps a range of the set.
#[unsafe(no_mangle)]
pub extern "C" fn bench_meetings(
    alloc: Global,
    container: u32,
    entries: &[Entry],
    queries: &[Query],
    rounds: u32,
) -> u64 {
    answer(over_set(
        SetWorkload::Meetings,
        alloc,
        container,
        entries,
        queries,
        rounds,
    ))
}
