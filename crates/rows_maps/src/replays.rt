//! Calls that are made on a list of maps by `replay`.
ghost use Rattle.std.specs.Prelude.{IfOk};
ghost use Rattle.std.specs.List.{AllByRecursion};
ghost use Rattle.rangemap_maps.specs.MapHistories.{HasNonEmptyRanges};

use rangemap::map::{Map, replay};
use rangemap_core::key_range::KeyRange;
use rangemap_core::kind::Kind;
use rangemap_core::store::{HandsOver, StoreMut};
use rangemap_maps::range_map::calls::Call;
use rows_text::{
    Fault, FromEnds, Memory, OwnPairs, Question, Word, change_of, first_word, pairs_of, place,
    write_all,
};
use std::alloc::Allocator;

// Makes the calls of a list.
#[tactic(auto, using(rows_text::proofs::OneMore::all_and_one))]
fn calls_of<Q: Kind<R>, R: KeyRange<Key: Word<A>>, V: Word<A>, A: Allocator + Copy>(
    alloc: A,
    calls: &str,
) -> Result<Vec<Call<R, V, A>, A>, Fault>
    ensures { IfOk result (λ all. AllByRecursion (HasNonEmptyRanges Q.kind) all.items) }
{
    let mut all = Vec::new(alloc);
    for call in calls.split(", ") {
        all.push(call_of::<Q, R, V, A>(alloc, call)?)?;
    }
    Ok(all)
}

// Makes the call that a text names.
fn call_of<Q: Kind<R>, R: KeyRange<Key: Word<A>>, V: Word<A>, A: Allocator + Copy>(
    alloc: A,
    text: &str,
) -> Result<Call<R, V, A>, Fault>
    ensures { IfOk result (HasNonEmptyRanges Q.kind) }
{
    let (at, call) = place(text)?;
    let (name, operands) = first_word(call);
    match name {
        "from_iter" => {
            let pairs = pairs_of::<Q, R, V, A>(alloc, operands)?;
            Ok(Call::FromIter { pairs })
        }
        "extend" => {
            let pairs = pairs_of::<Q, R, V, A>(alloc, operands)?;
            Ok(Call::Extend { at, pairs })
        }
        _ => Ok(Call::Change(change_of::<Q, R, V, A>(alloc, at, call)?)),
    }
}

/// Makes the calls of a question, from no map on, and appends which of them were accepted and what the
/// maps hold then.
pub fn ask<S>(alloc: S::Alloc, question: &Question<'_>, out: &mut String) -> Result<(), Fault>
where
    S: StoreMut<Alloc: Memory, Range: FromEnds<Key: Word<S::Alloc>>, Value: Word<S::Alloc>>
        + HandsOver
        + Drop,
{
    let calls = calls_of::<S::Kind, S::Range, S::Value, S::Alloc>(alloc, question.operand)?;
    let mut all: Vec<Map<S>, S::Alloc> = Vec::new(alloc);
    alloc.begin(question.granted);
    let answers = replay(alloc, &mut all, calls);
    alloc.end();
    for is_accepted in &answers? {
        out.push(if *is_accepted { '+' } else { '-' })?;
    }
    write_lists(all.as_slice(), out)
}

// Appends what maps hold, with semicolons between them.
fn write_lists<S>(all: &[Map<S>], out: &mut String) -> Result<(), Fault>
where
    S: StoreMut<Alloc: Memory, Range: FromEnds<Key: Word<S::Alloc>>, Value: Word<S::Alloc>>
        + HandsOver
        + Drop,
{
    for (place, map) in all.iter().enumerate() {
        out.push_str(if place == 0 { ": " } else { "; " })?;
        let copy = map.clone()?;
        write_all::<_, _, OwnPairs<S::Alloc>>(copy.into_iter(), out)?;
    }
    Ok(())
}
