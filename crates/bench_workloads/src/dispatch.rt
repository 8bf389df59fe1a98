//! A workload over the container of a number.

use crate::containers;
use crate::input::{Entry, Query};
use crate::store::{
    ChunkedSet, ChunkedStore, ClosedChunkedSet, ClosedChunkedStore, ClosedSet, ClosedStore,
    HalfOpenSet, HalfOpenStore, TextStore, TreeStore,
};
use crate::workloads::sets::SetWorkload;
use crate::workloads::{self, Workload, sets};
use std::alloc::{AllocError, Global};

/// What a workload answers over the map of the number. Another number counts as a refusal.
///
/// The one place that names the maps: a function that does costs more to prove than all others. Those
/// in chunks have one of their own.
pub fn over_map(
    workload: Workload,
    alloc: Global,
    container: u32,
    entries: &[Entry],
    queries: &[Query],
    rounds: u32,
) -> Result<u64, AllocError> {
    match container {
        containers::HALF_OPEN => {
            workloads::run::<HalfOpenStore>(workload, alloc, entries, queries, rounds)
        }
        containers::CLOSED => {
            workloads::run::<ClosedStore>(workload, alloc, entries, queries, rounds)
        }
        containers::TREE => {
            workloads::run::<TreeStore>(workload, alloc, entries, queries, rounds)
        }
        containers::TEXTS => {
            workloads::run::<TextStore>(workload, alloc, entries, queries, rounds)
        }
        _ => over_chunked_map(workload, alloc, container, entries, queries, rounds),
    }
}

// The same over the map in chunks of the number.
fn over_chunked_map(
    workload: Workload,
    alloc: Global,
    container: u32,
    entries: &[Entry],
    queries: &[Query],
    rounds: u32,
) -> Result<u64, AllocError> {
    match container {
        containers::CHUNKED => {
            workloads::run::<ChunkedStore>(workload, alloc, entries, queries, rounds)
        }
        containers::CLOSED_CHUNKED => {
            workloads::run::<ClosedChunkedStore>(workload, alloc, entries, queries, rounds)
        }
        _ => Err(AllocError),
    }
}

/// The same over the set of the number.
pub fn over_set(
    workload: SetWorkload,
    alloc: Global,
    container: u32,
    entries: &[Entry],
    queries: &[Query],
    rounds: u32,
) -> Result<u64, AllocError> {
    match container {
        containers::SET => sets::run::<HalfOpenSet>(workload, alloc, entries, queries, rounds),
        containers::CLOSED_SET => {
            sets::run::<ClosedSet>(workload, alloc, entries, queries, rounds)
        }
        _ => over_chunked_set(workload, alloc, container, entries, queries, rounds),
    }
}

// The same over the set in chunks of the number.
fn over_chunked_set(
    workload: SetWorkload,
    alloc: Global,
    container: u32,
    entries: &[Entry],
    queries: &[Query],
    rounds: u32,
) -> Result<u64, AllocError> {
    match container {
        containers::CHUNKED_SET => {
            sets::run::<ChunkedSet>(workload, alloc, entries, queries, rounds)
        }
        containers::CLOSED_CHUNKED_SET => {
            sets::run::<ClosedChunkedSet>(workload, alloc, entries, queries, rounds)
        }
        _ => Err(AllocError),
    }
}
