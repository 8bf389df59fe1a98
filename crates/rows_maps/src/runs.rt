//! Maps over each store, each named once over open keys and values.
//!
//! Every map is asked what `any_steps` knows. Some are asked besides what `own_steps` knows, over their
//! key's own steps or over those of another type, and what every container can be.

use crate::own_steps::{OtherSteps, OwnSteps};
use crate::stores::AnySteps;
use rangemap::map::Map;
use rangemap_chunked::Chunks;
use rangemap_core::key_range::KeyRange;
use rangemap_core::kind::Kind;
use rangemap_core::store::{HandsOver, StoreMut};
use rangemap_sorted::SortedVec;
use rangemap_tree::Tree;
use rows_runner::{AnyContainer, Group, Known, Session};
use rows_text::{FromEnds, Heap, Memory, Subject, Word};
use std::alloc::AllocError;

// Runs the rows of a map over any steps.
fn run_any<S>(
    alloc: S::Alloc,
    name: &str,
    made: Known,
    session: &mut Session<'_>,
) -> Result<(), AllocError>
where
    S: StoreMut<Alloc: Memory, Range: FromEnds<Key: Word<S::Alloc>>, Value: Word<S::Alloc>> + Drop,
    AnySteps<S>: Subject,
{
    let mut map: AnySteps<S> = AnySteps::new(alloc);
    session.run(name, made, Group::AnySteps, &mut map)
}

// Runs those besides that every container has.
fn run_container<S>(
    alloc: S::Alloc,
    name: &str,
    made: Known,
    session: &mut Session<'_>,
) -> Result<(), AllocError>
where
    S: StoreMut<Alloc: Memory, Range: FromEnds<Key: Word<S::Alloc>>, Value: Word<S::Alloc>> + Drop,
    AnySteps<S>: Subject,
{
    run_any::<S>(alloc, name, made, session)?;
    let mut map: AnyContainer<Map<S>> = AnyContainer::new(alloc);
    session.run(name, made, Group::AnyContainer, &mut map)
}

// Runs the rows of a map over its key's own steps.
fn run_own<S>(
    alloc: S::Alloc,
    name: &str,
    made: Known,
    session: &mut Session<'_>,
) -> Result<(), AllocError>
where
    S: StoreMut<Alloc: Memory, Range: FromEnds<Key: Word<S::Alloc>>, Value: Word<S::Alloc>>
        + HandsOver
        + Drop,
    S::Kind: Kind<S::Range, Steps = <S::Range as KeyRange>::Key>,
{
    let mut map: OwnSteps<S> = OwnSteps::new(alloc);
    session.run(name, made, Group::OwnSteps, &mut map)
}

// Runs the rows of a map over any steps, and those over the steps of another type.
fn run_other<S>(alloc: S::Alloc, name: &str, session: &mut Session<'_>) -> Result<(), AllocError>
where
    S: StoreMut<Alloc: Memory, Range: FromEnds<Key: Word<S::Alloc>>, Value: Word<S::Alloc>>
        + HandsOver
        + Drop,
    AnySteps<S>: Subject,
{
    run_any::<S>(alloc, name, Known::BY_OTHER_STEPS, session)?;
    let mut map: OtherSteps<S> = OtherSteps::new(alloc);
    session.run(name, Known::BY_OTHER_STEPS, Group::OtherSteps, &mut map)
}

/// Runs the rows of a map in a sorted vector, over any steps.
pub fn any_in_vector<Q, R, V, A>(
    alloc: A,
    kind: &str,
    session: &mut Session<'_>,
) -> Result<(), AllocError>
where
    Q: Kind<R>,
    R: FromEnds<Key: Word<A>>,
    V: Word<A>,
    A: Memory,
{
    let name = session.name(kind, "vector")?;
    run_any::<SortedVec<Q, R, V, A>>(alloc, name.as_str(), Known::ANY_STEPS, session)
}

/// Runs the rows of a map in a sorted vector, over the steps of another type.
pub fn other_in_vector<Q, R, V, A>(
    alloc: A,
    kind: &str,
    session: &mut Session<'_>,
) -> Result<(), AllocError>
where
    Q: Kind<R>,
    R: FromEnds<Key: Word<A>>,
    V: Word<A>,
    A: Memory,
{
    let name = session.name(kind, "vector")?;
    run_other::<SortedVec<Q, R, V, A>>(alloc, name.as_str(), session)
}

/// Runs the rows of a map in a sorted vector, over any steps, and those of every container.
pub fn container_in_vector<Q, R, V, A>(
    alloc: A,
    kind: &str,
    session: &mut Session<'_>,
) -> Result<(), AllocError>
where
    Q: Kind<R>,
    R: FromEnds<Key: Word<A>>,
    V: Word<A>,
    A: Memory,
{
    let name = session.name(kind, "vector")?;
    run_container::<SortedVec<Q, R, V, A>>(
        alloc,
        name.as_str(),
        Known::ANY_STEPS_AND_CONTAINER,
        session,
    )
}

/// Runs the rows of a map in a sorted vector, over its key's own steps.
pub fn own_in_vector<Q, R, V, A>(
    alloc: A,
    kind: &str,
    session: &mut Session<'_>,
) -> Result<(), AllocError>
where
    Q: Kind<R, Steps = R::Key>,
    R: FromEnds<Key: Word<A>>,
    V: Word<A>,
    A: Memory,
{
    let name = session.name(kind, "vector")?;
    run_any::<SortedVec<Q, R, V, A>>(alloc, name.as_str(), Known::BY_STEPS, session)?;
    run_own::<SortedVec<Q, R, V, A>>(alloc, name.as_str(), Known::BY_STEPS, session)
}

/// Runs all rows of a map in a sorted vector.
pub fn all_in_vector<Q, R, V, A>(
    alloc: A,
    kind: &str,
    session: &mut Session<'_>,
) -> Result<(), AllocError>
where
    Q: Kind<R, Steps = R::Key>,
    R: FromEnds<Key: Word<A>>,
    V: Word<A>,
    A: Memory,
{
    let name = session.name(kind, "vector")?;
    run_container::<SortedVec<Q, R, V, A>>(alloc, name.as_str(), Known::ALL, session)?;
    run_own::<SortedVec<Q, R, V, A>>(alloc, name.as_str(), Known::ALL, session)
}

/// Runs the rows of a map in a tree, over any steps.
pub fn any_in_tree<K, V, A>(
    alloc: A,
    kind: &str,
    session: &mut Session<'_>,
) -> Result<(), AllocError>
where
    K: Word<A>,
    V: Word<A>,
    A: Memory,
{
    let name = session.name(kind, "tree")?;
    run_any::<Tree<K, V, A>>(alloc, name.as_str(), Known::ANY_STEPS, session)
}

/// Runs the rows of a map in a tree, over its key's own steps.
pub fn own_in_tree<K, V, A>(
    alloc: A,
    kind: &str,
    session: &mut Session<'_>,
) -> Result<(), AllocError>
where
    K: Word<A>,
    V: Word<A>,
    A: Memory,
{
    let name = session.name(kind, "tree")?;
    run_any::<Tree<K, V, A>>(alloc, name.as_str(), Known::BY_STEPS, session)?;
    run_own::<Tree<K, V, A>>(alloc, name.as_str(), Known::BY_STEPS, session)
}

/// Runs all rows of a map in a tree.
pub fn all_in_tree<K, V, A>(
    alloc: A,
    kind: &str,
    session: &mut Session<'_>,
) -> Result<(), AllocError>
where
    K: Word<A>,
    V: Word<A>,
    A: Memory,
{
    let name = session.name(kind, "tree")?;
    run_container::<Tree<K, V, A>>(alloc, name.as_str(), Known::ALL, session)?;
    run_own::<Tree<K, V, A>>(alloc, name.as_str(), Known::ALL, session)
}

/// Runs the rows of a map in chunks of up to `N` pairs, over any steps.
pub fn any_in_chunks<'h, Q, R, V, const N: usize>(
    heap: &'h Heap,
    kind: &str,
    session: &mut Session<'_>,
) -> Result<(), AllocError>
where
    Q: Kind<R>,
    R: FromEnds<Key: Word<&'h Heap>>,
    V: Word<&'h Heap>,
{
    let name = session.name_in_chunks(kind, N)?;
    run_any::<Chunks<Q, R, V, &'h Heap, N>>(heap, name.as_str(), Known::ANY_STEPS, session)
}

/// Runs the rows of a map in chunks of up to `N` pairs, over the steps of another type.
pub fn other_in_chunks<'h, Q, R, V, const N: usize>(
    heap: &'h Heap,
    kind: &str,
    session: &mut Session<'_>,
) -> Result<(), AllocError>
where
    Q: Kind<R>,
    R: FromEnds<Key: Word<&'h Heap>>,
    V: Word<&'h Heap>,
{
    let name = session.name_in_chunks(kind, N)?;
    run_other::<Chunks<Q, R, V, &'h Heap, N>>(heap, name.as_str(), session)
}

/// Runs the rows of a map in chunks of up to `N` pairs, over any steps, and those of every container.
pub fn container_in_chunks<'h, Q, R, V, const N: usize>(
    heap: &'h Heap,
    kind: &str,
    session: &mut Session<'_>,
) -> Result<(), AllocError>
where
    Q: Kind<R>,
    R: FromEnds<Key: Word<&'h Heap>>,
    V: Word<&'h Heap>,
{
    let name = session.name_in_chunks(kind, N)?;
    run_container::<Chunks<Q, R, V, &'h Heap, N>>(
        heap,
        name.as_str(),
        Known::ANY_STEPS_AND_CONTAINER,
        session,
    )
}

/// Runs the rows of a map in chunks of up to `N` pairs, over its key's own steps.
pub fn own_in_chunks<'h, Q, R, V, const N: usize>(
    heap: &'h Heap,
    kind: &str,
    session: &mut Session<'_>,
) -> Result<(), AllocError>
where
    Q: Kind<R, Steps = R::Key>,
    R: FromEnds<Key: Word<&'h Heap>>,
    V: Word<&'h Heap>,
{
    let name = session.name_in_chunks(kind, N)?;
    run_any::<Chunks<Q, R, V, &'h Heap, N>>(heap, name.as_str(), Known::BY_STEPS, session)?;
    run_own::<Chunks<Q, R, V, &'h Heap, N>>(heap, name.as_str(), Known::BY_STEPS, session)
}

/// Runs all rows of a map in chunks of up to `N` pairs.
pub fn all_in_chunks<'h, Q, R, V, const N: usize>(
    heap: &'h Heap,
    kind: &str,
    session: &mut Session<'_>,
) -> Result<(), AllocError>
where
    Q: Kind<R, Steps = R::Key>,
    R: FromEnds<Key: Word<&'h Heap>>,
    V: Word<&'h Heap>,
{
    let name = session.name_in_chunks(kind, N)?;
    run_container::<Chunks<Q, R, V, &'h Heap, N>>(heap, name.as_str(), Known::ALL, session)?;
    run_own::<Chunks<Q, R, V, &'h Heap, N>>(heap, name.as_str(), Known::ALL, session)
}
