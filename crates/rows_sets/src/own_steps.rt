//! Words that only some sets are asked: `new` and `from_iter` over the key's own steps, the others over any
//! steps.
ghost use Rattle.rangemap_core.specs.Ranges.{AreNonEmpty};
ghost use Rattle.rangemap_core.specs.Sets.{AreNonEmptyRanges};

use crate::{any_steps, operators, replays};
use rangemap::container::insert_pairs;
use rangemap::set::Set;
use rangemap_core::key_range::KeyRange;
use rangemap_core::kind::Kind;
use rangemap_core::store::{HandsOver, Store, StoreMut};
use rows_text::{
    Fault, FromEnds, Memory, OwnRanges, Question, Subject, Word, first_word, pairs_of, ranges_of,
    write_taken,
};
use std::alloc::AllocError;

/// A set over its key's own steps, or over none.
#[derive(Drop)]
pub struct OwnSteps<S: Store<Value = ()>> {
    set: Set<S>,
}

impl<S: StoreMut<Value = (), Alloc: Memory>> OwnSteps<S>
where
    S::Kind: Kind<S::Range, Steps = <S::Range as KeyRange>::Key>,
{
    /// The empty set.
    pub fn new(alloc: S::Alloc) -> OwnSteps<S> {
        OwnSteps {
            set: Set::new(alloc),
        }
    }
}

impl<S> Subject for OwnSteps<S>
where
    S: StoreMut<Value = (), Alloc: Memory, Range: FromEnds<Key: Word<S::Alloc>>> + HandsOver + Drop,
    S::Kind: Kind<S::Range, Steps = <S::Range as KeyRange>::Key>,
{
    fn renew(&mut self) {
        any_steps::renew(&mut self.set);
    }

    fn change(&mut self, call: &str, granted: u64) -> Result<(), Fault> {
        let (name, operand) = first_word(call);
        match name {
            "from_iter" => become_made(&mut self.set, operand, granted),
            "new" => become_new(&mut self.set, granted),
            _ => change(&mut self.set, call, granted),
        }
    }

    fn ask(&self, question: &Question<'_>, out: &mut String) -> Result<(), Fault> {
        ask(&self.set, question, out)
    }
}

/// A set over the steps of another type, which is asked what `OwnSteps` is, except `new` and `from_iter`.
#[derive(Drop)]
pub struct OtherSteps<S: Store<Value = ()>> {
    set: Set<S>,
}

impl<S: StoreMut<Value = (), Alloc: Memory>> OtherSteps<S> {
    /// The empty set.
    pub fn new(alloc: S::Alloc) -> OtherSteps<S> {
        OtherSteps {
            set: Set::new_with_step_fns(alloc),
        }
    }
}

impl<S> Subject for OtherSteps<S>
where
    S: StoreMut<Value = (), Alloc: Memory, Range: FromEnds<Key: Word<S::Alloc>>> + HandsOver + Drop,
{
    fn renew(&mut self) {
        any_steps::renew(&mut self.set);
    }

    fn change(&mut self, call: &str, granted: u64) -> Result<(), Fault> {
        change(&mut self.set, call, granted)
    }

    fn ask(&self, question: &Question<'_>, out: &mut String) -> Result<(), Fault> {
        ask(&self.set, question, out)
    }
}

/// A set that answers only the operators of what `OwnSteps` answers. The compiler makes fewer copies of
/// functions for it than for `OwnSteps`.
#[derive(Drop)]
pub struct WithOperators<S: Store<Value = ()>> {
    set: Set<S>,
}

impl<S: StoreMut<Value = (), Alloc: Memory>> WithOperators<S>
where
    S::Kind: Kind<S::Range, Steps = <S::Range as KeyRange>::Key>,
{
    /// The empty set.
    pub fn new(alloc: S::Alloc) -> WithOperators<S> {
        WithOperators {
            set: Set::new(alloc),
        }
    }
}

impl<S> Subject for WithOperators<S>
where
    S: StoreMut<Value = (), Alloc: Memory, Range: FromEnds<Key: Word<S::Alloc>>> + HandsOver + Drop,
    S::Kind: Kind<S::Range, Steps = <S::Range as KeyRange>::Key>,
{
    fn renew(&mut self) {
        any_steps::renew(&mut self.set);
    }

    fn change(&mut self, call: &str, granted: u64) -> Result<(), Fault> {
        let (name, operand) = first_word(call);
        match name {
            "or" | "and" | "without" | "xor" => {
                become_joined(&mut self.set, (name, operand), granted)
            }
            _ => any_steps::change(&mut self.set, call, granted),
        }
    }

    fn ask(&self, question: &Question<'_>, out: &mut String) -> Result<(), Fault> {
        match question.name {
            "iter" => hand_over(&self.set, question, out),
            _ => any_steps::ask(&self.set, question, out),
        }
    }
}

// Makes a call that does not ask for own steps.
fn change<S>(set: &mut Set<S>, call: &str, granted: u64) -> Result<(), Fault>
where
    S: StoreMut<Value = (), Alloc: Memory, Range: FromEnds<Key: Word<S::Alloc>>> + Drop,
{
    let (name, operand) = first_word(call);
    match name {
        "extend" => extend(set, operand, granted),
        "or" | "and" | "without" | "xor" => become_joined(set, (name, operand), granted),
        "insert_pairs" => insert_list(set, operand, granted),
        _ => any_steps::change(set, call, granted),
    }
}

fn ask<S>(set: &Set<S>, question: &Question<'_>, out: &mut String) -> Result<(), Fault>
where
    S: StoreMut<Value = (), Alloc: Memory, Range: FromEnds<Key: Word<S::Alloc>>> + HandsOver + Drop,
{
    match question.name {
        "iter" | "into_iter" => hand_over(set, question, out),
        "replay" => replays::ask::<S>(*set.allocator(), question, out),
        "operators" => operators::ask(set, question, out),
        "debug" => debug(set, question, out),
        "lines" => lines(set, question, out),
        _ => any_steps::ask(set, question, out),
    }
}

fn become_new<S: StoreMut<Value = (), Alloc: Memory> + Drop>(
    set: &mut Set<S>,
    granted: u64,
) -> Result<(), Fault>
where
    S::Kind: Kind<S::Range, Steps = <S::Range as KeyRange>::Key>,
{
    let alloc = *set.allocator();
    alloc.begin(granted);
    *set = Set::new(alloc);
    alloc.end();
    Ok(())
}

fn extend<S>(set: &mut Set<S>, ranges: &str, granted: u64) -> Result<(), Fault>
where
    S: StoreMut<Value = (), Alloc: Memory, Range: FromEnds<Key: Word<S::Alloc>>>,
{
    let alloc = *set.allocator();
    let ranges = ranges_of::<S::Kind, S::Range, S::Alloc>(alloc, ranges)?;
    alloc.begin(granted);
    let made = extend_by(set, ranges);
    alloc.end();
    Ok(made?)
}

fn become_made<S>(set: &mut Set<S>, ranges: &str, granted: u64) -> Result<(), Fault>
where
    S: StoreMut<Value = (), Alloc: Memory, Range: FromEnds<Key: Word<S::Alloc>>> + Drop,
    S::Kind: Kind<S::Range, Steps = <S::Range as KeyRange>::Key>,
{
    let alloc = *set.allocator();
    let ranges = ranges_of::<S::Kind, S::Range, S::Alloc>(alloc, ranges)?;
    alloc.begin(granted);
    let made = made_from(alloc, ranges);
    alloc.end();
    *set = made?;
    Ok(())
}

fn insert_list<S>(set: &mut Set<S>, pairs: &str, granted: u64) -> Result<(), Fault>
where
    S: StoreMut<Value = (), Alloc: Memory, Range: FromEnds<Key: Word<S::Alloc>>> + Drop,
{
    let alloc = *set.allocator();
    let pairs = pairs_of::<S::Kind, S::Range, (), S::Alloc>(alloc, pairs)?;
    alloc.begin(granted);
    let made = insert_all(set, pairs);
    alloc.end();
    Ok(made?)
}

// Inserts the pairs of a list one by one.
fn insert_all<S>(set: &mut Set<S>, pairs: Vec<(S::Range, ()), S::Alloc>) -> Result<(), AllocError>
where
    S: StoreMut<Value = (), Alloc: Memory, Range: FromEnds<Key: Word<S::Alloc>>> + Drop,
    requires non_empty { AreNonEmpty S.Kind.kind pairs.items }
{
    insert_pairs(set, pairs)
}

// Puts the set that an operator makes of this one and of that of a list in its place.
fn become_joined<S>(set: &mut Set<S>, call: (&str, &str), granted: u64) -> Result<(), Fault>
where
    S: StoreMut<Value = (), Alloc: Memory, Range: FromEnds<Key: Word<S::Alloc>>> + Drop,
{
    let (name, ranges) = call;
    let alloc = *set.allocator();
    let ranges = ranges_of::<S::Kind, S::Range, S::Alloc>(alloc, ranges)?;
    let mut other: Set<S> = Set::new_with_step_fns(alloc);
    extend_by(&mut other, ranges)?;
    alloc.begin(granted);
    let made = match name {
        "or" => &*set | &other,
        "and" => &*set & &other,
        "without" => &*set - &other,
        _ => &*set ^ &other,
    };
    alloc.end();
    *set = made?;
    Ok(())
}

// Extends a set by the ranges of a list.
fn extend_by<S>(set: &mut Set<S>, ranges: Vec<S::Range, S::Alloc>) -> Result<(), AllocError>
where
    S: StoreMut<Value = (), Alloc: Memory, Range: FromEnds<Key: Word<S::Alloc>>>,
    requires non_empty { AreNonEmptyRanges S.Kind.kind ranges.items }
{
    set.extend(ranges)
}

// Makes a set of the ranges of a list.
fn made_from<S>(alloc: S::Alloc, ranges: Vec<S::Range, S::Alloc>) -> Result<Set<S>, AllocError>
where
    S: StoreMut<Value = (), Alloc: Memory, Range: FromEnds<Key: Word<S::Alloc>>> + Drop,
    S::Kind: Kind<S::Range, Steps = <S::Range as KeyRange>::Key>,
    requires non_empty { AreNonEmptyRanges S.Kind.kind ranges.items }
{
    Set::from_iter(alloc, ranges)
}

// Appends what is taken of the ranges that a clone hands over.
fn hand_over<S>(set: &Set<S>, question: &Question<'_>, out: &mut String) -> Result<(), Fault>
where
    S: StoreMut<Value = (), Alloc: Memory, Range: FromEnds<Key: Word<S::Alloc>>> + HandsOver + Drop,
{
    let alloc = *set.allocator();
    let copy = set.clone()?;
    alloc.begin(question.granted);
    let answer = write_taken::<_, _, OwnRanges<S::Alloc>>(copy.into_iter(), question.operand, out);
    alloc.end();
    answer
}

fn debug<S>(set: &Set<S>, question: &Question<'_>, out: &mut String) -> Result<(), Fault>
where
    S: StoreMut<Value = (), Alloc: Memory, Range: FromEnds<Key: Word<S::Alloc>>>,
{
    let alloc = *set.allocator();
    alloc.begin(question.granted);
    write!(out, "{set:?}")?;
    alloc.end();
    Ok(())
}

// Appends the text of many lines, with a slash for each new line.
fn lines<S>(set: &Set<S>, question: &Question<'_>, out: &mut String) -> Result<(), Fault>
where
    S: StoreMut<Value = (), Alloc: Memory, Range: FromEnds<Key: Word<S::Alloc>>>,
{
    let alloc = *set.allocator();
    let mut text = String::new(*out.allocator());
    alloc.begin(question.granted);
    write!(text, "{set:#?}")?;
    alloc.end();
    for line in text.split('\n') {
        out.push_str(line.trim())?;
        out.push('/')?;
    }
    Ok(())
}
