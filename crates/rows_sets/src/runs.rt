//! Sets over each store, each named once over open keys.
//!
//! Every set is asked what `any_steps` knows. Some are asked besides what `own_steps` knows, over their
//! key's own steps or over those of another type, and what every container can be. Others have the
//! operators alone of what `own_steps` knows.

use crate::own_steps::{OtherSteps, OwnSteps, WithOperators};
use crate::stores::AnySteps;
use rangemap::set::Set;
use rangemap_chunked::Chunks;
use rangemap_core::key_range::KeyRange;
use rangemap_core::kind::Kind;
use rangemap_core::store::{HandsOver, Store, StoreMut};
use rangemap_sorted::SortedVec;
use rangemap_tree::Tree;
use rows_runner::{AnyContainer, Group, Known, Session};
use rows_text::{FromEnds, Heap, Memory, Subject, Word};
use std::alloc::AllocError;

// Runs the rows of a set over any steps.
fn run_any<S>(
    alloc: S::Alloc,
    name: &str,
    made: Known,
    session: &mut Session<'_>,
) -> Result<(), AllocError>
where
    S: StoreMut<Alloc: Memory, Range: FromEnds<Key: Word<S::Alloc>>> + Store<Value = ()> + Drop,
    AnySteps<S>: Subject,
{
    let mut set: AnySteps<S> = AnySteps::new(alloc);
    session.run(name, made, Group::AnySteps, &mut set)
}

// Runs those besides that every container has.
fn run_container<S>(
    alloc: S::Alloc,
    name: &str,
    made: Known,
    session: &mut Session<'_>,
) -> Result<(), AllocError>
where
    S: StoreMut<Alloc: Memory, Range: FromEnds<Key: Word<S::Alloc>>> + Store<Value = ()> + Drop,
    AnySteps<S>: Subject,
{
    run_any::<S>(alloc, name, made, session)?;
    let mut set: AnyContainer<Set<S>> = AnyContainer::new(alloc);
    session.run(name, made, Group::AnyContainer, &mut set)
}

// Runs the rows of a set over its key's own steps.
fn run_own<S>(
    alloc: S::Alloc,
    name: &str,
    made: Known,
    session: &mut Session<'_>,
) -> Result<(), AllocError>
where
    S: StoreMut<Alloc: Memory, Range: FromEnds<Key: Word<S::Alloc>>>
        + Store<Value = ()>
        + HandsOver
        + Drop,
    S::Kind: Kind<S::Range, Steps = <S::Range as KeyRange>::Key>,
{
    let mut set: OwnSteps<S> = OwnSteps::new(alloc);
    session.run(name, made, Group::OwnSteps, &mut set)
}

// Runs the rows that have operators, of a set over its key's own steps.
fn run_operators<S>(
    alloc: S::Alloc,
    name: &str,
    session: &mut Session<'_>,
) -> Result<(), AllocError>
where
    S: StoreMut<Alloc: Memory, Range: FromEnds<Key: Word<S::Alloc>>>
        + Store<Value = ()>
        + HandsOver
        + Drop,
    S::Kind: Kind<S::Range, Steps = <S::Range as KeyRange>::Key>,
{
    let made = Known::ANY_STEPS_AND_OPERATORS;
    let mut set: WithOperators<S> = WithOperators::new(alloc);
    session.run(name, made, Group::Operators, &mut set)
}

// Runs the rows of a set over any steps, and those over the steps of another type.
fn run_other<S>(alloc: S::Alloc, name: &str, session: &mut Session<'_>) -> Result<(), AllocError>
where
    S: StoreMut<Alloc: Memory, Range: FromEnds<Key: Word<S::Alloc>>>
        + Store<Value = ()>
        + HandsOver
        + Drop,
    AnySteps<S>: Subject,
{
    run_any::<S>(alloc, name, Known::BY_OTHER_STEPS, session)?;
    let mut set: OtherSteps<S> = OtherSteps::new(alloc);
    session.run(name, Known::BY_OTHER_STEPS, Group::OtherSteps, &mut set)
}

/// Runs the rows of a set in a sorted vector, over any steps.
pub fn any_in_vector<Q, R, A>(
    alloc: A,
    kind: &str,
    session: &mut Session<'_>,
) -> Result<(), AllocError>
where
    Q: Kind<R>,
    R: FromEnds<Key: Word<A>>,
    A: Memory,
{
    let name = session.name(kind, "vector")?;
    run_any::<SortedVec<Q, R, (), A>>(alloc, name.as_str(), Known::ANY_STEPS, session)
}

/// Runs the rows of a set in a sorted vector, over the steps of another type.
pub fn other_in_vector<Q, R, A>(
    alloc: A,
    kind: &str,
    session: &mut Session<'_>,
) -> Result<(), AllocError>
where
    Q: Kind<R>,
    R: FromEnds<Key: Word<A>>,
    A: Memory,
{
    let name = session.name(kind, "vector")?;
    run_other::<SortedVec<Q, R, (), A>>(alloc, name.as_str(), session)
}

/// Runs the rows of a set in a sorted vector, over any steps, and those of every container.
pub fn container_in_vector<Q, R, A>(
    alloc: A,
    kind: &str,
    session: &mut Session<'_>,
) -> Result<(), AllocError>
where
    Q: Kind<R>,
    R: FromEnds<Key: Word<A>>,
    A: Memory,
{
    let name = session.name(kind, "vector")?;
    run_container::<SortedVec<Q, R, (), A>>(
        alloc,
        name.as_str(),
        Known::ANY_STEPS_AND_CONTAINER,
        session,
    )
}

/// Runs the rows that have operators, of a set in a sorted vector.
pub fn operators_in_vector<Q, R, A>(
    alloc: A,
    kind: &str,
    session: &mut Session<'_>,
) -> Result<(), AllocError>
where
    Q: Kind<R, Steps = R::Key>,
    R: FromEnds<Key: Word<A>>,
    A: Memory,
{
    let name = session.name(kind, "vector")?;
    run_operators::<SortedVec<Q, R, (), A>>(alloc, name.as_str(), session)
}

/// Runs the rows of a set in a sorted vector, over its key's own steps.
pub fn own_in_vector<Q, R, A>(
    alloc: A,
    kind: &str,
    session: &mut Session<'_>,
) -> Result<(), AllocError>
where
    Q: Kind<R, Steps = R::Key>,
    R: FromEnds<Key: Word<A>>,
    A: Memory,
{
    let name = session.name(kind, "vector")?;
    run_any::<SortedVec<Q, R, (), A>>(alloc, name.as_str(), Known::BY_STEPS, session)?;
    run_own::<SortedVec<Q, R, (), A>>(alloc, name.as_str(), Known::BY_STEPS, session)
}

/// Runs all rows of a set in a sorted vector.
pub fn all_in_vector<Q, R, A>(
    alloc: A,
    kind: &str,
    session: &mut Session<'_>,
) -> Result<(), AllocError>
where
    Q: Kind<R, Steps = R::Key>,
    R: FromEnds<Key: Word<A>>,
    A: Memory,
{
    let name = session.name(kind, "vector")?;
    run_container::<SortedVec<Q, R, (), A>>(alloc, name.as_str(), Known::ALL, session)?;
    run_own::<SortedVec<Q, R, (), A>>(alloc, name.as_str(), Known::ALL, session)
}

/// Runs the rows of a set in a tree, over any steps.
pub fn any_in_tree<K, A>(alloc: A, kind: &str, session: &mut Session<'_>) -> Result<(), AllocError>
where
    K: Word<A>,
    A: Memory,
{
    let name = session.name(kind, "tree")?;
    run_any::<Tree<K, (), A>>(alloc, name.as_str(), Known::ANY_STEPS, session)
}

/// Runs the rows that have operators, of a set in a tree.
pub fn operators_in_tree<K, A>(
    alloc: A,
    kind: &str,
    session: &mut Session<'_>,
) -> Result<(), AllocError>
where
    K: Word<A>,
    A: Memory,
{
    let name = session.name(kind, "tree")?;
    run_operators::<Tree<K, (), A>>(alloc, name.as_str(), session)
}

/// Runs the rows of a set in a tree, over its key's own steps.
pub fn own_in_tree<K, A>(alloc: A, kind: &str, session: &mut Session<'_>) -> Result<(), AllocError>
where
    K: Word<A>,
    A: Memory,
{
    let name = session.name(kind, "tree")?;
    run_any::<Tree<K, (), A>>(alloc, name.as_str(), Known::BY_STEPS, session)?;
    run_own::<Tree<K, (), A>>(alloc, name.as_str(), Known::BY_STEPS, session)
}

/// Runs all rows of a set in a tree.
pub fn all_in_tree<K, A>(alloc: A, kind: &str, session: &mut Session<'_>) -> Result<(), AllocError>
where
    K: Word<A>,
    A: Memory,
{
    let name = session.name(kind, "tree")?;
    run_container::<Tree<K, (), A>>(alloc, name.as_str(), Known::ALL, session)?;
    run_own::<Tree<K, (), A>>(alloc, name.as_str(), Known::ALL, session)
}

/// Runs the rows of a set in chunks of up to `N` ranges, over any steps.
pub fn any_in_chunks<'h, Q, R, const N: usize>(
    heap: &'h Heap,
    kind: &str,
    session: &mut Session<'_>,
) -> Result<(), AllocError>
where
    Q: Kind<R>,
    R: FromEnds<Key: Word<&'h Heap>>,
{
    let name = session.name_in_chunks(kind, N)?;
    run_any::<Chunks<Q, R, (), &'h Heap, N>>(heap, name.as_str(), Known::ANY_STEPS, session)
}

/// Runs the rows of a set in chunks of up to `N` ranges, over the steps of another type.
pub fn other_in_chunks<'h, Q, R, const N: usize>(
    heap: &'h Heap,
    kind: &str,
    session: &mut Session<'_>,
) -> Result<(), AllocError>
where
    Q: Kind<R>,
    R: FromEnds<Key: Word<&'h Heap>>,
{
    let name = session.name_in_chunks(kind, N)?;
    run_other::<Chunks<Q, R, (), &'h Heap, N>>(heap, name.as_str(), session)
}

/// Runs the rows of a set in chunks of up to `N` ranges, over any steps, and those of every container.
pub fn container_in_chunks<'h, Q, R, const N: usize>(
    heap: &'h Heap,
    kind: &str,
    session: &mut Session<'_>,
) -> Result<(), AllocError>
where
    Q: Kind<R>,
    R: FromEnds<Key: Word<&'h Heap>>,
{
    let name = session.name_in_chunks(kind, N)?;
    run_container::<Chunks<Q, R, (), &'h Heap, N>>(
        heap,
        name.as_str(),
        Known::ANY_STEPS_AND_CONTAINER,
        session,
    )
}

/// Runs the rows that have operators, of a set in chunks of up to `N` ranges.
pub fn operators_in_chunks<'h, Q, R, const N: usize>(
    heap: &'h Heap,
    kind: &str,
    session: &mut Session<'_>,
) -> Result<(), AllocError>
where
    Q: Kind<R, Steps = R::Key>,
    R: FromEnds<Key: Word<&'h Heap>>,
{
    let name = session.name_in_chunks(kind, N)?;
    run_operators::<Chunks<Q, R, (), &'h Heap, N>>(heap, name.as_str(), session)
}

/// Runs the rows of a set in chunks of up to `N` ranges, over its key's own steps.
pub fn own_in_chunks<'h, Q, R, const N: usize>(
    heap: &'h Heap,
    kind: &str,
    session: &mut Session<'_>,
) -> Result<(), AllocError>
where
    Q: Kind<R, Steps = R::Key>,
    R: FromEnds<Key: Word<&'h Heap>>,
{
    let name = session.name_in_chunks(kind, N)?;
    run_any::<Chunks<Q, R, (), &'h Heap, N>>(heap, name.as_str(), Known::BY_STEPS, session)?;
    run_own::<Chunks<Q, R, (), &'h Heap, N>>(heap, name.as_str(), Known::BY_STEPS, session)
}

/// Runs all rows of a set in chunks of up to `N` ranges.
pub fn all_in_chunks<'h, Q, R, const N: usize>(
    heap: &'h Heap,
    kind: &str,
    session: &mut Session<'_>,
) -> Result<(), AllocError>
where
    Q: Kind<R, Steps = R::Key>,
    R: FromEnds<Key: Word<&'h Heap>>,
{
    let name = session.name_in_chunks(kind, N)?;
    run_container::<Chunks<Q, R, (), &'h Heap, N>>(heap, name.as_str(), Known::ALL, session)?;
    run_own::<Chunks<Q, R, (), &'h Heap, N>>(heap, name.as_str(), Known::ALL, session)
}
