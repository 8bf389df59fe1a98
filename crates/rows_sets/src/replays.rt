//! Calls that are made on a list of sets by `replay`.
ghost use Rattle.std.specs.Prelude.{IfOk};
ghost use Rattle.std.specs.List.{AllByRecursion};
ghost use Rattle.rangemap.specs.Histories.{HasNonEmptyRange};
ghost use Rattle.rangemap.specs.SetHistories.{SetHasNonEmptyRanges};

use crate::operators::write_set;
use rangemap::range_set::calls::SetCall;
use rangemap::set::{Set, replay};
use rangemap_containers::calls::Change;
use rangemap_core::key_range::KeyRange;
use rangemap_core::kind::Kind;
use rangemap_core::store::{HandsOver, StoreMut};
use rows_text::{Fault, FromEnds, Memory, Question, Word, change_of, first_word, place, ranges_of};
use std::alloc::Allocator;

// Makes the calls of a list.
#[tactic(auto, using(rows_text::proofs::OneMore::all_and_one))]
fn calls_of<Q: Kind<R>, R: KeyRange<Key: Word<A>>, A: Allocator + Copy>(
    alloc: A,
    calls: &str,
) -> Result<Vec<SetCall<R, A>, A>, Fault>
    ensures { IfOk result (λ all. AllByRecursion (SetHasNonEmptyRanges Q.kind) all.items) }
{
    let mut all = Vec::new(alloc);
    for call in calls.split(", ") {
        all.push(call_of::<Q, R, A>(alloc, call)?)?;
    }
    Ok(all)
}

// Makes the call that a text names.
fn call_of<Q: Kind<R>, R: KeyRange<Key: Word<A>>, A: Allocator + Copy>(
    alloc: A,
    text: &str,
) -> Result<SetCall<R, A>, Fault>
    ensures { IfOk result (SetHasNonEmptyRanges Q.kind) }
{
    let (at, call) = place(text)?;
    let (name, operands) = first_word(call);
    match name {
        "from_iter" => {
            let ranges = ranges_of::<Q, R, A>(alloc, operands)?;
            Ok(SetCall::FromIter { ranges })
        }
        "extend" => {
            let ranges = ranges_of::<Q, R, A>(alloc, operands)?;
            Ok(SetCall::Extend { at, ranges })
        }
        "union" => {
            let (left, right) = places(operands)?;
            Ok(SetCall::Union { left, right })
        }
        "intersection" => {
            let (left, right) = places(operands)?;
            Ok(SetCall::Intersection { left, right })
        }
        "difference" => {
            let (left, right) = places(operands)?;
            Ok(SetCall::Difference { left, right })
        }
        "symmetric_difference" => {
            let (left, right) = places(operands)?;
            Ok(SetCall::SymmetricDifference { left, right })
        }
        _ => Ok(set_call::<Q, R, A>(change_of::<Q, R, (), A>(alloc, at, call)?)),
    }
}

// The two places that an operator takes its sets from.
fn places(operands: &str) -> Result<(usize, usize), Fault> {
    let (left, right) = first_word(operands);
    let left = left.parse::<usize>().ok().ok_or(Fault::NoOperand)?;
    Ok((left, right.parse::<usize>().ok().ok_or(Fault::NoOperand)?))
}

// The call on a set that a change is.
fn set_call<Q: Kind<R>, R: KeyRange, A: Allocator>(change: Change<R, ()>) -> SetCall<R, A>
    requires { HasNonEmptyRange Q.kind change }
    ensures { SetHasNonEmptyRanges Q.kind result }
{
    match change {
        Change::New => SetCall::New,
        Change::Insert { at, range, .. } => SetCall::Insert { at, range },
        Change::Remove { at, range } => SetCall::Remove { at, range },
        Change::Clear { at } => SetCall::Clear { at },
        Change::Clone { at } => SetCall::Clone { at },
    }
}

/// Makes the calls of a question, from no set on, and appends which of them were accepted and what the
/// sets hold then.
pub fn ask<S>(alloc: S::Alloc, question: &Question<'_>, out: &mut String) -> Result<(), Fault>
where
    S: StoreMut<Value = (), Alloc: Memory, Range: FromEnds<Key: Word<S::Alloc>>> + HandsOver + Drop,
{
    let calls = calls_of::<S::Kind, S::Range, S::Alloc>(alloc, question.operand)?;
    let mut all: Vec<Set<S>, S::Alloc> = Vec::new(alloc);
    alloc.begin(question.granted);
    let answers = replay(alloc, &mut all, calls);
    alloc.end();
    for is_accepted in &answers? {
        out.push(if *is_accepted { '+' } else { '-' })?;
    }
    write_lists(all.as_slice(), out)
}

// Appends what sets hold, with semicolons between them.
fn write_lists<S>(all: &[Set<S>], out: &mut String) -> Result<(), Fault>
where
    S: StoreMut<Value = (), Alloc: Memory, Range: FromEnds<Key: Word<S::Alloc>>> + HandsOver + Drop,
{
    for (place, set) in all.iter().enumerate() {
        out.push_str(if place == 0 { ": " } else { "; " })?;
        write_set(set, out)?;
    }
    Ok(())
}
