//! The laws of operators, run on a set and on others that a question has.

use crate::any_steps::made_of;
use rangemap::set::Set;
use rangemap_core::store::{HandsOver, StoreMut};
use rangemap_laws::sets::{
    Operator, absorbs, associates, cancels, commutes, distributes, is_either_without_common,
    is_idempotent, is_subset_exactly_where_nothing_is_left, makes_up, turns_over,
};
use rows_text::{Fault, FromEnds, Memory, OwnRanges, Question, Word, first_word, write_all};
use std::alloc::AllocError;

/// Runs the law that a question names on a set and the sets of the lists behind it, and appends what both
/// sides make.
pub fn ask<S>(set: &Set<S>, question: &Question<'_>, out: &mut String) -> Result<(), Fault>
where
    S: StoreMut<Value = (), Alloc: Memory, Range: FromEnds<Key: Word<S::Alloc>>> + HandsOver + Drop,
{
    let (law, list) = first_word(question.operand);
    match law {
        "makes_up" | "cancels" | "either_without_common" | "subset" => {
            let other: Set<S> = made_of(*set.allocator(), list)?;
            ask_with(set, &other, law, out)
        }
        _ => ask_of_operator(set, question, out),
    }
}

// Runs a law of `-` or `^` on two sets. Whether one is a subset of the other is whether `-` leaves nothing.
fn ask_with<S>(set: &Set<S>, other: &Set<S>, law: &str, out: &mut String) -> Result<(), Fault>
where
    S: StoreMut<Value = (), Alloc: Memory, Range: FromEnds<Key: Word<S::Alloc>>> + HandsOver + Drop,
{
    match law {
        "makes_up" => write_set(&makes_up(set, other)?, out),
        "cancels" => write_set(&cancels(set, other)?, out),
        "subset" => {
            let (is_subset, is_nothing_left) = is_subset_exactly_where_nothing_is_left(set, other)?;
            if is_subset != is_nothing_left {
                return Err(Fault::Differs);
            }
            Ok(write!(out, "{is_subset}")?)
        }
        _ => write_both(is_either_without_common(set, other), out),
    }
}

// Runs a law of `|` or `&`, which the word behind the law names, on a set, the set of the list behind
// that and the one of the list behind a semicolon.
fn ask_of_operator<S>(set: &Set<S>, question: &Question<'_>, out: &mut String) -> Result<(), Fault>
where
    S: StoreMut<Value = (), Alloc: Memory, Range: FromEnds<Key: Word<S::Alloc>>> + HandsOver + Drop,
{
    let alloc = *set.allocator();
    let (law, operand) = first_word(question.operand);
    let (name, list) = first_word(operand);
    let operator = operator_of(name)?;
    let second: Set<S> = made_of(alloc, list)?;
    let third: Set<S> = made_of(alloc, question.script)?;
    match law {
        "commutes" => {
            apply_both(operator, set, &second)?;
            write_both(commutes(operator, set, &second), out)
        }
        "associates" => write_both(associates(operator, set, &second, &third), out),
        "distributes" => write_both(distributes(operator, set, &second, &third), out),
        "turns_over" => write_both(turns_over(operator, set, &second, &third), out),
        "idempotent" => write_set(&is_idempotent(operator, set)?, out),
        "absorbs" => write_set(&absorbs(operator, set, &second)?, out),
        _ => Err(Fault::NoOperand),
    }
}

// The operator that a word names, which is the other of the other.
fn operator_of(word: &str) -> Result<Operator, Fault> {
    let operator = match word {
        "or" => Operator::Union,
        "and" => Operator::Intersection,
        _ => return Err(Fault::NoOperand),
    };
    if operator.other() == operator || operator.other().other() != operator {
        return Err(Fault::Differs);
    }
    Ok(operator)
}

// Applies an operator to two sets in either order, which has to make the same.
fn apply_both<S>(operator: Operator, set: &Set<S>, other: &Set<S>) -> Result<(), Fault>
where
    S: StoreMut<Value = (), Alloc: Memory, Range: FromEnds<Key: Word<S::Alloc>>> + Drop,
{
    let applied = operator.apply(set, other)?;
    if applied != operator.apply(other, set)? {
        return Err(Fault::Differs);
    }
    Ok(())
}

// Appends the ranges of two sets that a law makes, which have to be the same.
fn write_both<S>(made: Result<(Set<S>, Set<S>), AllocError>, out: &mut String) -> Result<(), Fault>
where
    S: StoreMut<Value = (), Alloc: Memory, Range: FromEnds<Key: Word<S::Alloc>>> + HandsOver + Drop,
{
    let (one, other) = made?;
    if one != other {
        return Err(Fault::Differs);
    }
    write_set(&one, out)
}

/// Appends the ranges of a set.
pub fn write_set<S>(set: &Set<S>, out: &mut String) -> Result<(), Fault>
where
    S: StoreMut<Value = (), Alloc: Memory, Range: FromEnds<Key: Word<S::Alloc>>> + HandsOver + Drop,
{
    let copy = set.clone()?;
    write_all::<_, _, OwnRanges<S::Alloc>>(copy.into_iter(), out)
}
