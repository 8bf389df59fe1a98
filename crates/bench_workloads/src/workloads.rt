//! The workloads, over any map; `sets` has those over sets alone.
//!
//! None is inlined, so that what is timed is compiled by itself and not as a part of `run`.

use crate::digest::{Digest, Mix, followed_by};
use crate::input::{Entry, Query};
use crate::keys::Keys;
use crate::store::Store;
use crate::value::Stored;
use std::alloc::{AllocError, Global};

pub mod sets;

/// What is done with a map. Each is the function of its name.
#[derive(Clone, Copy)]
pub enum Workload {
    Contents,
    Inserts,
    Lookups,
    Iterations,
    Removals,
    Overlaps,
    Gaps,
    Clones,
    Comparisons,
    Emptyings,
    Standing,
}

/// What a workload answers over a map.
pub fn run<S: Store>(
    workload: Workload,
    alloc: Global,
    entries: &[Entry],
    queries: &[Query],
    rounds: u32,
) -> Result<u64, AllocError> {
    match workload {
        Workload::Contents => contents::<S>(alloc, entries, rounds),
        Workload::Inserts => inserts::<S>(alloc, entries, rounds),
        Workload::Lookups => lookups::<S>(alloc, entries, queries, rounds),
        Workload::Iterations => iterations::<S>(alloc, entries, rounds),
        Workload::Removals => removals::<S>(alloc, entries, queries, rounds),
        Workload::Overlaps => overlaps::<S>(alloc, entries, queries, rounds),
        Workload::Gaps => gaps::<S>(alloc, entries, queries, rounds),
        Workload::Clones => clones::<S>(alloc, entries, rounds),
        Workload::Comparisons => comparisons::<S>(alloc, entries, rounds),
        Workload::Emptyings => emptyings::<S>(alloc, entries, rounds),
        Workload::Standing => standing::<S>(alloc, entries, rounds),
    }
}

// Gives the keys from `start` up to `end` the value of the number. Passes over what has no keys.
fn put<S: Store>(
    map: &mut S,
    alloc: Global,
    start: u64,
    end: u64,
    number: u32,
) -> Result<(), AllocError> {
    if start < end {
        let value = S::Value::made_of(alloc, number)?;
        map.insert(S::Range::up_to(start, end), value)?;
    }
    Ok(())
}

// The map of the entries, inserted in their order.
fn filled<S: Store>(alloc: Global, entries: &[Entry]) -> Result<S, AllocError> {
    let mut map = S::new_with_step_fns(alloc);
    for entry in entries {
        put(&mut map, alloc, entry.start, entry.end, entry.value)?;
    }
    Ok(map)
}

// The digest of the pairs in their order.
fn digest_of<S: Store>(map: &S) -> Result<u64, AllocError> {
    let mut all = Digest { digest: 0 };
    map.read_all(&mut all)?;
    Ok(all.digest)
}

/// The digest of all pairs, in each round.
#[inline(never)]
pub fn contents<S: Store>(
    alloc: Global,
    entries: &[Entry],
    rounds: u32,
) -> Result<u64, AllocError> {
    let map: S = filled(alloc, entries)?;
    let mut digest = 0u64;
    for _ in 0..rounds {
        digest = followed_by(digest, digest_of(&map)?);
    }
    Ok(digest)
}

/// In each round a new map, and its number of pairs.
#[inline(never)]
pub fn inserts<S: Store>(alloc: Global, entries: &[Entry], rounds: u32) -> Result<u64, AllocError> {
    let mut digest = 0u64;
    for _ in 0..rounds {
        let map: S = filled(alloc, entries)?;
        digest = followed_by(digest, map.len() as u64);
    }
    Ok(digest)
}

/// In each round the sum of the numbers of the values at the starts of the queries.
#[inline(never)]
pub fn lookups<S: Store>(
    alloc: Global,
    entries: &[Entry],
    queries: &[Query],
    rounds: u32,
) -> Result<u64, AllocError> {
    let map: S = filled(alloc, entries)?;
    let mut digest = 0u64;
    for _ in 0..rounds {
        digest = followed_by(digest, values_sum(&map, queries));
    }
    Ok(digest)
}

// Returns the sum of the numbers of the values at the starts of the queries.
fn values_sum<S: Store>(map: &S, queries: &[Query]) -> u64 {
    let mut sum = 0u64;
    for query in queries {
        if let Some(value) = map.get(&query.start) {
            sum = sum.wrapping_add(value.number());
        }
    }
    sum
}

/// In each round a mix of all pairs.
#[inline(never)]
pub fn iterations<S: Store>(
    alloc: Global,
    entries: &[Entry],
    rounds: u32,
) -> Result<u64, AllocError> {
    let map: S = filled(alloc, entries)?;
    let mut digest = 0u64;
    for _ in 0..rounds {
        let mut all = Mix { mix: 0 };
        map.read_all(&mut all)?;
        digest = followed_by(digest, all.mix);
    }
    Ok(digest)
}

/// In each round a clone from which the queries are removed, and the digest of what stays.
#[inline(never)]
pub fn removals<S: Store>(
    alloc: Global,
    entries: &[Entry],
    queries: &[Query],
    rounds: u32,
) -> Result<u64, AllocError> {
    let map: S = filled(alloc, entries)?;
    let mut digest = 0u64;
    for _ in 0..rounds {
        let rest = without(&map, queries)?;
        digest = followed_by(digest, digest_of(&rest)?);
    }
    Ok(digest)
}

// A clone from which the queries are removed.
fn without<S: Store>(map: &S, queries: &[Query]) -> Result<S, AllocError> {
    let mut rest = map.clone()?;
    for query in queries {
        if query.start < query.end {
            rest.remove(S::Range::up_to(query.start, query.end))?;
        }
    }
    Ok(rest)
}

/// In each round the sum of the mixes of the pairs that each query overlaps.
#[inline(never)]
pub fn overlaps<S: Store>(
    alloc: Global,
    entries: &[Entry],
    queries: &[Query],
    rounds: u32,
) -> Result<u64, AllocError> {
    let map: S = filled(alloc, entries)?;
    let mut digest = 0u64;
    for _ in 0..rounds {
        digest = followed_by(digest, overlaps_sum(&map, queries)?);
    }
    Ok(digest)
}

// Returns the sum of the mixes of the pairs that each query overlaps.
fn overlaps_sum<S: Store>(map: &S, queries: &[Query]) -> Result<u64, AllocError> {
    let mut sum = 0u64;
    for query in queries {
        let mut met = Mix { mix: 0 };
        map.read_overlapping(&S::Range::up_to(query.start, query.end), &mut met)?;
        sum = sum.wrapping_add(met.mix);
    }
    Ok(sum)
}

/// In each round the sum of the mixes of the gaps in each query.
#[inline(never)]
pub fn gaps<S: Store>(
    alloc: Global,
    entries: &[Entry],
    queries: &[Query],
    rounds: u32,
) -> Result<u64, AllocError> {
    let map: S = filled(alloc, entries)?;
    let mut digest = 0u64;
    for _ in 0..rounds {
        digest = followed_by(digest, gaps_sum(&map, queries)?);
    }
    Ok(digest)
}

// Returns the sum of the mixes of the gaps in each query.
fn gaps_sum<S: Store>(map: &S, queries: &[Query]) -> Result<u64, AllocError> {
    let mut sum = 0u64;
    for query in queries {
        let mut gaps = Mix { mix: 0 };
        map.read_gaps(&S::Range::up_to(query.start, query.end), &mut gaps)?;
        sum = sum.wrapping_add(gaps.mix);
    }
    Ok(sum)
}

/// In each round a clone, and its number of pairs.
#[inline(never)]
pub fn clones<S: Store>(alloc: Global, entries: &[Entry], rounds: u32) -> Result<u64, AllocError> {
    let map: S = filled(alloc, entries)?;
    let mut digest = 0u64;
    for _ in 0..rounds {
        let copy = map.clone()?;
        digest = followed_by(digest, copy.len() as u64);
    }
    Ok(digest)
}

/// In each round whether the map equals one of two clones, in turns.
#[inline(never)]
pub fn comparisons<S: Store>(
    alloc: Global,
    entries: &[Entry],
    rounds: u32,
) -> Result<u64, AllocError> {
    let map: S = filled(alloc, entries)?;
    let first = map.clone()?;
    let second = map.clone()?;
    let mut digest = 0u64;
    for round in 0..rounds {
        let other = if round % 2 == 0 { &first } else { &second };
        digest = followed_by(digest, u64::from(map == *other));
    }
    Ok(digest)
}

/// In each round a clone from which one call removes all, and its number of pairs.
#[inline(never)]
pub fn emptyings<S: Store>(
    alloc: Global,
    entries: &[Entry],
    rounds: u32,
) -> Result<u64, AllocError> {
    let map: S = filled(alloc, entries)?;
    let behind = end_of(entries);
    let mut digest = 0u64;
    for _ in 0..rounds {
        let mut rest = map.clone()?;
        if 0 < behind {
            rest.remove(S::Range::up_to(0, behind))?;
        }
        digest = followed_by(digest, rest.len() as u64);
    }
    Ok(digest)
}

// The key behind all entries.
fn end_of(entries: &[Entry]) -> u64 {
    let mut behind = 0u64;
    for entry in entries {
        behind = behind.max(entry.end);
    }
    behind
}

/// The bytes of the block by which a program that counts blocks knows that a map stands.
pub const MARK: usize = 4_099;

/// In each round a new map, and its number of pairs. While it stands a block of `MARK` bytes is
/// asked for.
#[inline(never)]
pub fn standing<S: Store>(
    alloc: Global,
    entries: &[Entry],
    rounds: u32,
) -> Result<u64, AllocError> {
    let mut digest = 0u64;
    for _ in 0..rounds {
        let map: S = filled(alloc, entries)?;
        let _mark: Vec<u8> = Vec::with_capacity(alloc, MARK)?;
        digest = followed_by(digest, map.len() as u64);
    }
    Ok(digest)
}
