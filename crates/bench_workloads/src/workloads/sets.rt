//! The workloads over one set or two. The queries are the ranges of the second set. `members` looks for
//! their starts, and `coverings` and `meetings` ask about each of them.

use super::{contents, digest_of, filled, put, standing};
use crate::digest::{Mix, followed_by};
use crate::input::{Entry, Query};
use crate::keys::Keys;
use crate::set_store::SetStore;
use crate::store::Store;
use std::alloc::{AllocError, Global};

/// What is done with a set, or with two. Each is the function of its name.
#[derive(Clone, Copy)]
pub enum SetWorkload {
    Contents,
    Unions,
    Intersections,
    Differences,
    JoinedSets,
    CommonSets,
    LeftSets,
    Subsets,
    Members,
    Coverings,
    Meetings,
    Standing,
}

/// What a workload answers over a set, or over two.
pub fn run<S: SetStore>(
    workload: SetWorkload,
    alloc: Global,
    entries: &[Entry],
    queries: &[Query],
    rounds: u32,
) -> Result<u64, AllocError> {
    match workload {
        SetWorkload::Contents => contents::<S>(alloc, entries, rounds),
        SetWorkload::Unions => unions::<S>(alloc, entries, queries, rounds),
        SetWorkload::Intersections => intersections::<S>(alloc, entries, queries, rounds),
        SetWorkload::Differences => differences::<S>(alloc, entries, queries, rounds),
        SetWorkload::JoinedSets => joined_sets::<S>(alloc, entries, queries, rounds),
        SetWorkload::CommonSets => common_sets::<S>(alloc, entries, queries, rounds),
        SetWorkload::LeftSets => left_sets::<S>(alloc, entries, queries, rounds),
        SetWorkload::Subsets => subsets::<S>(alloc, entries, queries, rounds),
        SetWorkload::Members => members::<S>(alloc, entries, queries, rounds),
        SetWorkload::Coverings => coverings::<S>(alloc, entries, queries, rounds),
        SetWorkload::Meetings => meetings::<S>(alloc, entries, queries, rounds),
        SetWorkload::Standing => standing::<S>(alloc, entries, rounds),
    }
}

// The set of the ranges, inserted in their order.
fn set_of<S: Store>(alloc: Global, ranges: &[Query]) -> Result<S, AllocError> {
    let mut set = S::new_with_step_fns(alloc);
    for range in ranges {
        put(&mut set, alloc, range.start, range.end, 0)?;
    }
    Ok(set)
}

/// In each round a mix of the items of the union.
#[inline(never)]
pub fn unions<S: SetStore>(
    alloc: Global,
    entries: &[Entry],
    queries: &[Query],
    rounds: u32,
) -> Result<u64, AllocError> {
    let left: S = filled(alloc, entries)?;
    let right: S = set_of(alloc, queries)?;
    let mut digest = 0u64;
    for _ in 0..rounds {
        let mut items = Mix { mix: 0 };
        left.read_union(&right, &mut items)?;
        digest = followed_by(digest, items.mix);
    }
    Ok(digest)
}

/// In each round a mix of the items of the intersection.
#[inline(never)]
pub fn intersections<S: SetStore>(
    alloc: Global,
    entries: &[Entry],
    queries: &[Query],
    rounds: u32,
) -> Result<u64, AllocError> {
    let left: S = filled(alloc, entries)?;
    let right: S = set_of(alloc, queries)?;
    let mut digest = 0u64;
    for _ in 0..rounds {
        let mut items = Mix { mix: 0 };
        left.read_intersection(&right, &mut items)?;
        digest = followed_by(digest, items.mix);
    }
    Ok(digest)
}

/// In each round a mix of the items of the difference.
#[inline(never)]
pub fn differences<S: SetStore>(
    alloc: Global,
    entries: &[Entry],
    queries: &[Query],
    rounds: u32,
) -> Result<u64, AllocError> {
    let left: S = filled(alloc, entries)?;
    let right: S = set_of(alloc, queries)?;
    let mut digest = 0u64;
    for _ in 0..rounds {
        let mut items = Mix { mix: 0 };
        left.read_difference(&right, &mut items)?;
        digest = followed_by(digest, items.mix);
    }
    Ok(digest)
}

/// In each round the set of the keys of either set, and its digest.
#[inline(never)]
pub fn joined_sets<S: SetStore>(
    alloc: Global,
    entries: &[Entry],
    queries: &[Query],
    rounds: u32,
) -> Result<u64, AllocError> {
    let left: S = filled(alloc, entries)?;
    let right: S = set_of(alloc, queries)?;
    let mut digest = 0u64;
    for _ in 0..rounds {
        let joined = left.joined_with(&right)?;
        digest = followed_by(digest, digest_of(&joined)?);
    }
    Ok(digest)
}

/// In each round the set of the keys of both sets, and its digest.
#[inline(never)]
pub fn common_sets<S: SetStore>(
    alloc: Global,
    entries: &[Entry],
    queries: &[Query],
    rounds: u32,
) -> Result<u64, AllocError> {
    let left: S = filled(alloc, entries)?;
    let right: S = set_of(alloc, queries)?;
    let mut digest = 0u64;
    for _ in 0..rounds {
        let common = left.common_with(&right)?;
        digest = followed_by(digest, digest_of(&common)?);
    }
    Ok(digest)
}

/// In each round the set of the keys that only the left set has, and its digest.
#[inline(never)]
pub fn left_sets<S: SetStore>(
    alloc: Global,
    entries: &[Entry],
    queries: &[Query],
    rounds: u32,
) -> Result<u64, AllocError> {
    let left: S = filled(alloc, entries)?;
    let right: S = set_of(alloc, queries)?;
    let mut digest = 0u64;
    for _ in 0..rounds {
        let rest = left.without(&right)?;
        digest = followed_by(digest, digest_of(&rest)?);
    }
    Ok(digest)
}

/// In each round whether the set lies within the second one.
#[inline(never)]
pub fn subsets<S: SetStore>(
    alloc: Global,
    entries: &[Entry],
    queries: &[Query],
    rounds: u32,
) -> Result<u64, AllocError> {
    let left: S = filled(alloc, entries)?;
    let right: S = set_of(alloc, queries)?;
    let mut digest = 0u64;
    for _ in 0..rounds {
        digest = followed_by(digest, u64::from(left.is_within(&right)));
    }
    Ok(digest)
}

/// In each round the number of queries that the set covers.
#[inline(never)]
pub fn coverings<S: Store>(
    alloc: Global,
    entries: &[Entry],
    queries: &[Query],
    rounds: u32,
) -> Result<u64, AllocError> {
    let set: S = filled(alloc, entries)?;
    let mut digest = 0u64;
    for _ in 0..rounds {
        digest = followed_by(digest, covered_count(&set, queries));
    }
    Ok(digest)
}

// Returns how many queries the set covers.
fn covered_count<S: Store>(set: &S, queries: &[Query]) -> u64 {
    let mut count = 0u64;
    for query in queries {
        if set.covers(&S::Range::up_to(query.start, query.end)) {
            count = count.wrapping_add(1);
        }
    }
    count
}

/// In each round the number of queries that overlap a range of the set.
#[inline(never)]
pub fn meetings<S: Store>(
    alloc: Global,
    entries: &[Entry],
    queries: &[Query],
    rounds: u32,
) -> Result<u64, AllocError> {
    let set: S = filled(alloc, entries)?;
    let mut digest = 0u64;
    for _ in 0..rounds {
        digest = followed_by(digest, met_count(&set, queries));
    }
    Ok(digest)
}

// Returns how many queries overlap a range of the set.
fn met_count<S: Store>(set: &S, queries: &[Query]) -> u64 {
    let mut count = 0u64;
    for query in queries {
        if set.overlaps(&S::Range::up_to(query.start, query.end)) {
            count = count.wrapping_add(1);
        }
    }
    count
}

/// In each round the number of queries whose start is in the set.
#[inline(never)]
pub fn members<S: Store>(
    alloc: Global,
    entries: &[Entry],
    queries: &[Query],
    rounds: u32,
) -> Result<u64, AllocError> {
    let set: S = filled(alloc, entries)?;
    let mut digest = 0u64;
    for _ in 0..rounds {
        digest = followed_by(digest, member_count(&set, queries));
    }
    Ok(digest)
}

// Returns how many queries start at a key of the set.
fn member_count<S: Store>(set: &S, queries: &[Query]) -> u64 {
    let mut count = 0u64;
    for query in queries {
        if set.contains_key(&query.start) {
            count = count.wrapping_add(1);
        }
    }
    count
}
