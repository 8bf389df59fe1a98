//! Maps over each store, as far as rows ask for their JSON form, each named once over open keys.

use rangemap_chunked::Chunks;
use rangemap_core::key_range::KeyRange;
use rangemap_core::kind::Kind;
use rangemap_core::store::{HandsOver, StoreMut};
use rangemap_sorted::SortedVec;
use rangemap_tree::Tree;
use rows_runner::{Group, JsonMap, JsonWord, Known, MapRoundTrips, Session};
use rows_text::{FromEnds, Heap, Memory};
use std::alloc::AllocError;

// Runs the rows about the JSON form of a map.
fn run_json<S>(
    alloc: S::Alloc,
    name: &str,
    made: Known,
    session: &mut Session<'_>,
) -> Result<(), AllocError>
where
    S: StoreMut<Alloc: Memory, Range: FromEnds<Key: JsonWord<S::Alloc>>, Value: JsonWord<S::Alloc>>
        + HandsOver
        + Drop,
    S::Kind: Kind<S::Range, Steps = <S::Range as KeyRange>::Key>,
{
    let mut map: JsonMap<S> = JsonMap::new(alloc);
    session.run(name, made, Group::Json, &mut map)
}

// Runs those besides that a map of numbers has, which is made again of what it hands over.
fn run_round_trips<S>(
    alloc: S::Alloc,
    name: &str,
    session: &mut Session<'_>,
) -> Result<(), AllocError>
where
    S: StoreMut<Alloc: Memory, Range: FromEnds<Key = u32>, Value = u32> + HandsOver + Drop,
    S::Kind: Kind<S::Range, Steps = <S::Range as KeyRange>::Key>,
{
    let made = Known::JSON_AND_ROUND_TRIPS;
    run_json::<S>(alloc, name, made, session)?;
    let mut map: MapRoundTrips<S> = MapRoundTrips::new(alloc);
    session.run(name, made, Group::RoundTrips, &mut map)
}

/// Runs the rows about the JSON form of a map in a sorted vector.
pub fn json_in_vector<Q, R, V, A>(
    alloc: A,
    kind: &str,
    session: &mut Session<'_>,
) -> Result<(), AllocError>
where
    Q: Kind<R, Steps = R::Key>,
    R: FromEnds<Key: JsonWord<A>>,
    V: JsonWord<A>,
    A: Memory,
{
    let name = session.name(kind, "vector")?;
    run_json::<SortedVec<Q, R, V, A>>(alloc, name.as_str(), Known::JSON, session)
}

/// Runs the rows about the JSON form of a map in a tree.
pub fn json_in_tree<K, V, A>(
    alloc: A,
    kind: &str,
    session: &mut Session<'_>,
) -> Result<(), AllocError>
where
    K: JsonWord<A>,
    V: JsonWord<A>,
    A: Memory,
{
    let name = session.name(kind, "tree")?;
    run_json::<Tree<K, V, A>>(alloc, name.as_str(), Known::JSON, session)
}

/// Runs the rows about the JSON form of a map in chunks of up to `N` pairs.
pub fn json_in_chunks<'h, Q, R, V, const N: usize>(
    heap: &'h Heap,
    kind: &str,
    session: &mut Session<'_>,
) -> Result<(), AllocError>
where
    Q: Kind<R, Steps = R::Key>,
    R: FromEnds<Key: JsonWord<&'h Heap>>,
    V: JsonWord<&'h Heap>,
{
    let name = session.name_in_chunks(kind, N)?;
    run_json::<Chunks<Q, R, V, &'h Heap, N>>(heap, name.as_str(), Known::JSON, session)
}

/// Runs those of a map of numbers in a sorted vector, and those about round trips.
pub fn numbers_in_vector<Q, R, A>(
    alloc: A,
    kind: &str,
    session: &mut Session<'_>,
) -> Result<(), AllocError>
where
    Q: Kind<R, Steps = u32>,
    R: FromEnds<Key = u32>,
    A: Memory,
{
    let name = session.name(kind, "vector")?;
    run_round_trips::<SortedVec<Q, R, u32, A>>(alloc, name.as_str(), session)
}

/// Runs those of a map of numbers in a tree, and those about round trips.
pub fn numbers_in_tree<A>(alloc: A, kind: &str, session: &mut Session<'_>) -> Result<(), AllocError>
where
    A: Memory,
{
    let name = session.name(kind, "tree")?;
    run_round_trips::<Tree<u32, u32, A>>(alloc, name.as_str(), session)
}

/// Runs those of a map of numbers in chunks of up to `N` pairs, and those about round trips.
pub fn numbers_in_chunks<'h, Q, R, const N: usize>(
    heap: &'h Heap,
    kind: &str,
    session: &mut Session<'_>,
) -> Result<(), AllocError>
where
    Q: Kind<R, Steps = u32>,
    R: FromEnds<Key = u32>,
{
    let name = session.name_in_chunks(kind, N)?;
    run_round_trips::<Chunks<Q, R, u32, &'h Heap, N>>(heap, name.as_str(), session)
}
