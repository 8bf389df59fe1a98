//! Words that only some maps are asked: `new` and `from_iter` over the key's own steps, the others over any
//! steps.
ghost use Rattle.rangemap_core.specs.Ranges.{AreNonEmpty};

use crate::{any_steps, replays};
use rangemap::container::insert_pairs;
use rangemap::map::Map;
use rangemap_core::key_range::KeyRange;
use rangemap_core::kind::Kind;
use rangemap_core::store::{HandsOver, Store, StoreMut};
use rows_text::{
    Fault, FromEnds, Memory, OwnPairs, Question, Subject, Word, first_word, pairs_of, write_taken,
};
use std::alloc::AllocError;

/// A map over its key's own steps, or over none.
#[derive(Drop)]
pub struct OwnSteps<S: Store> {
    map: Map<S>,
}

impl<S: StoreMut<Alloc: Memory>> OwnSteps<S>
where
    S::Kind: Kind<S::Range, Steps = <S::Range as KeyRange>::Key>,
{
    /// The empty map.
    pub fn new(alloc: S::Alloc) -> OwnSteps<S> {
        OwnSteps {
            map: Map::new(alloc),
        }
    }
}

impl<S> Subject for OwnSteps<S>
where
    S: StoreMut<Alloc: Memory, Range: FromEnds<Key: Word<S::Alloc>>, Value: Word<S::Alloc>>
        + HandsOver
        + Drop,
    S::Kind: Kind<S::Range, Steps = <S::Range as KeyRange>::Key>,
{
    fn renew(&mut self) {
        any_steps::renew(&mut self.map);
    }

    fn change(&mut self, call: &str, granted: u64) -> Result<(), Fault> {
        let (name, operand) = first_word(call);
        match name {
            "from_iter" => become_made(&mut self.map, operand, granted),
            "new" => become_new(&mut self.map, granted),
            _ => change(&mut self.map, call, granted),
        }
    }

    fn ask(&self, question: &Question<'_>, out: &mut String) -> Result<(), Fault> {
        ask(&self.map, question, out)
    }
}

/// A map over the steps of another type, which is asked what `OwnSteps` is, except `new` and `from_iter`.
#[derive(Drop)]
pub struct OtherSteps<S: Store> {
    map: Map<S>,
}

impl<S: StoreMut<Alloc: Memory>> OtherSteps<S> {
    /// The empty map.
    pub fn new(alloc: S::Alloc) -> OtherSteps<S> {
        OtherSteps {
            map: Map::new_with_step_fns(alloc),
        }
    }
}

impl<S> Subject for OtherSteps<S>
where
    S: StoreMut<Alloc: Memory, Range: FromEnds<Key: Word<S::Alloc>>, Value: Word<S::Alloc>>
        + HandsOver
        + Drop,
{
    fn renew(&mut self) {
        any_steps::renew(&mut self.map);
    }

    fn change(&mut self, call: &str, granted: u64) -> Result<(), Fault> {
        change(&mut self.map, call, granted)
    }

    fn ask(&self, question: &Question<'_>, out: &mut String) -> Result<(), Fault> {
        ask(&self.map, question, out)
    }
}

// Makes a call that does not ask for own steps.
fn change<S>(map: &mut Map<S>, call: &str, granted: u64) -> Result<(), Fault>
where
    S: StoreMut<Alloc: Memory, Range: FromEnds<Key: Word<S::Alloc>>, Value: Word<S::Alloc>> + Drop,
{
    let (name, operand) = first_word(call);
    match name {
        "extend" => extend(map, operand, granted),
        "insert_pairs" => insert_list(map, operand, granted),
        _ => any_steps::change(map, call, granted),
    }
}

fn ask<S>(map: &Map<S>, question: &Question<'_>, out: &mut String) -> Result<(), Fault>
where
    S: StoreMut<Alloc: Memory, Range: FromEnds<Key: Word<S::Alloc>>, Value: Word<S::Alloc>>
        + HandsOver
        + Drop,
{
    match question.name {
        "iter" | "into_iter" => hand_over(map, question, out),
        "replay" => replays::ask::<S>(*map.allocator(), question, out),
        "debug" => debug(map, question, out),
        "lines" => lines(map, question, out),
        _ => any_steps::ask(map, question, out),
    }
}

fn become_new<S: StoreMut<Alloc: Memory> + Drop>(
    map: &mut Map<S>,
    granted: u64,
) -> Result<(), Fault>
where
    S::Kind: Kind<S::Range, Steps = <S::Range as KeyRange>::Key>,
{
    let alloc = *map.allocator();
    alloc.begin(granted);
    *map = Map::new(alloc);
    alloc.end();
    Ok(())
}

fn extend<S>(map: &mut Map<S>, pairs: &str, granted: u64) -> Result<(), Fault>
where
    S: StoreMut<Alloc: Memory, Range: FromEnds<Key: Word<S::Alloc>>, Value: Word<S::Alloc>>,
{
    let alloc = *map.allocator();
    let pairs = pairs_of::<S::Kind, S::Range, S::Value, S::Alloc>(alloc, pairs)?;
    alloc.begin(granted);
    let made = extend_by(map, pairs);
    alloc.end();
    Ok(made?)
}

fn become_made<S>(map: &mut Map<S>, pairs: &str, granted: u64) -> Result<(), Fault>
where
    S: StoreMut<Alloc: Memory, Range: FromEnds<Key: Word<S::Alloc>>, Value: Word<S::Alloc>> + Drop,
    S::Kind: Kind<S::Range, Steps = <S::Range as KeyRange>::Key>,
{
    let alloc = *map.allocator();
    let pairs = pairs_of::<S::Kind, S::Range, S::Value, S::Alloc>(alloc, pairs)?;
    alloc.begin(granted);
    let made = made_from(alloc, pairs);
    alloc.end();
    *map = made?;
    Ok(())
}

fn insert_list<S>(map: &mut Map<S>, pairs: &str, granted: u64) -> Result<(), Fault>
where
    S: StoreMut<Alloc: Memory, Range: FromEnds<Key: Word<S::Alloc>>, Value: Word<S::Alloc>> + Drop,
{
    let alloc = *map.allocator();
    let pairs = pairs_of::<S::Kind, S::Range, S::Value, S::Alloc>(alloc, pairs)?;
    alloc.begin(granted);
    let made = insert_all(map, pairs);
    alloc.end();
    Ok(made?)
}

// Inserts the pairs of a list one by one.
fn insert_all<S>(
    map: &mut Map<S>,
    pairs: Vec<(S::Range, S::Value), S::Alloc>,
) -> Result<(), AllocError>
where
    S: StoreMut<Alloc: Memory, Range: FromEnds<Key: Word<S::Alloc>>, Value: Word<S::Alloc>> + Drop,
    requires non_empty { AreNonEmpty S.Kind.kind pairs.items }
{
    insert_pairs(map, pairs)
}

// Extends a map by the pairs of a list.
fn extend_by<S>(
    map: &mut Map<S>,
    pairs: Vec<(S::Range, S::Value), S::Alloc>,
) -> Result<(), AllocError>
where
    S: StoreMut<Alloc: Memory, Range: FromEnds<Key: Word<S::Alloc>>, Value: Word<S::Alloc>>,
    requires non_empty { AreNonEmpty S.Kind.kind pairs.items }
{
    map.extend(pairs)
}

// Makes a map of the pairs of a list.
fn made_from<S>(
    alloc: S::Alloc,
    pairs: Vec<(S::Range, S::Value), S::Alloc>,
) -> Result<Map<S>, AllocError>
where
    S: StoreMut<Alloc: Memory, Range: FromEnds<Key: Word<S::Alloc>>, Value: Word<S::Alloc>> + Drop,
    S::Kind: Kind<S::Range, Steps = <S::Range as KeyRange>::Key>,
    requires non_empty { AreNonEmpty S.Kind.kind pairs.items }
{
    Map::from_iter(alloc, pairs)
}

// Appends what is taken of the pairs that a clone hands over.
fn hand_over<S>(map: &Map<S>, question: &Question<'_>, out: &mut String) -> Result<(), Fault>
where
    S: StoreMut<Alloc: Memory, Range: FromEnds<Key: Word<S::Alloc>>, Value: Word<S::Alloc>>
        + HandsOver
        + Drop,
{
    let alloc = *map.allocator();
    let copy = map.clone()?;
    alloc.begin(question.granted);
    let answer = write_taken::<_, _, OwnPairs<S::Alloc>>(copy.into_iter(), question.operand, out);
    alloc.end();
    answer
}

fn debug<S>(map: &Map<S>, question: &Question<'_>, out: &mut String) -> Result<(), Fault>
where
    S: StoreMut<Alloc: Memory, Range: FromEnds<Key: Word<S::Alloc>>, Value: Word<S::Alloc>>,
{
    let alloc = *map.allocator();
    alloc.begin(question.granted);
    write!(out, "{map:?}")?;
    alloc.end();
    Ok(())
}

// Appends the text of many lines, with a slash for each new line.
fn lines<S>(map: &Map<S>, question: &Question<'_>, out: &mut String) -> Result<(), Fault>
where
    S: StoreMut<Alloc: Memory, Range: FromEnds<Key: Word<S::Alloc>>, Value: Word<S::Alloc>>,
{
    let alloc = *map.allocator();
    let mut text = String::new(*out.allocator());
    alloc.begin(question.granted);
    write!(text, "{map:#?}")?;
    alloc.end();
    for line in text.split('\n') {
        out.push_str(line.trim())?;
        out.push('/')?;
    }
    Ok(())
}
