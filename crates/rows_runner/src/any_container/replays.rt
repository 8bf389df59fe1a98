//! Calls that every container has, made on a list of containers by `replay`.
ghost use Rattle.std.specs.Prelude.{IfOk};
ghost use Rattle.std.specs.List.{AllByRecursion};
ghost use Rattle.rangemap.specs.Histories.{HasNonEmptyRange};

use super::lists::write_container;
use rangemap::container::Container;
use rangemap_containers::calls::Change;
use rangemap_containers::replay::replay;
use rangemap_core::key_range::KeyRange;
use rangemap_core::kind::Kind;
use rows_text::{Fault, FromEnds, Memory, Question, Word, change_of, place};
use std::alloc::Allocator;

// Makes the calls of a list.
#[tactic(auto, using(rows_text::proofs::OneMore::all_and_one))]
fn changes_of<Q: Kind<R>, R: KeyRange<Key: Word<A>>, V: Word<A>, A: Allocator + Copy>(
    alloc: A,
    calls: &str,
) -> Result<Vec<Change<R, V>, A>, Fault>
    ensures { IfOk result (λ all. AllByRecursion (HasNonEmptyRange Q.kind) all.items) }
{
    let mut all = Vec::new(alloc);
    for call in calls.split(", ") {
        let (at, call) = place(call)?;
        all.push(change_of::<Q, R, V, A>(alloc, at, call)?)?;
    }
    Ok(all)
}

/// Makes the calls of a question, from no container on, and appends which of them were accepted and
/// what the containers hold then.
pub fn ask<M>(alloc: M::Alloc, question: &Question<'_>, out: &mut String) -> Result<(), Fault>
where
    M: Container<Alloc: Memory, Range: FromEnds<Key: Word<M::Alloc>>, Value: Word<M::Alloc>> + Drop,
{
    let calls = changes_of::<M::Kind, M::Range, M::Value, M::Alloc>(alloc, question.operand)?;
    let mut all: Vec<M, M::Alloc> = Vec::new(alloc);
    alloc.begin(question.granted);
    let answers = replay(alloc, &mut all, calls);
    alloc.end();
    for is_accepted in &answers? {
        out.push(if *is_accepted { '+' } else { '-' })?;
    }
    write_all(all.as_slice(), out)
}

// Appends what containers hold, with semicolons between them.
fn write_all<M>(all: &[M], out: &mut String) -> Result<(), Fault>
where
    M: Container<Alloc: Memory, Range: FromEnds<Key: Word<M::Alloc>>, Value: Word<M::Alloc>>,
{
    for (place, container) in all.iter().enumerate() {
        out.push_str(if place == 0 { ": " } else { "; " })?;
        write_container(container, out)?;
    }
    Ok(())
}
