//! What each word does to a set, over any store and any steps.

use crate::rests::write_rest;
use rangemap::set::Set;
use rangemap_core::cursor::Peek;
use rangemap_core::key_range::KeyRange;
use rangemap_core::store::{Lends, Store, StoreMut};
use rows_text::{
    Fault, FromEnds, LentRanges, Memory, OwnRanges, Question, Word, are_ascending, are_hashed,
    first_word, query_of, range_of, write_found_range, write_made, write_taken,
};

/// Makes the call that a text names on a set.
pub fn change<S>(set: &mut Set<S>, call: &str, granted: u64) -> Result<(), Fault>
where
    S: StoreMut<Value = (), Alloc: Memory, Range: FromEnds<Key: Word<S::Alloc>>> + Drop,
{
    let (name, operand) = first_word(call);
    match name {
        "insert" => insert(set, operand, granted),
        "remove" => remove(set, operand, granted),
        "clear" => clear(set, granted),
        "clone" => become_clone(set, granted),
        _ => Err(Fault::NoCall),
    }
}

fn insert<S>(set: &mut Set<S>, range: &str, granted: u64) -> Result<(), Fault>
where
    S: StoreMut<Value = (), Alloc: Memory, Range: FromEnds<Key: Word<S::Alloc>>>,
{
    let alloc = *set.allocator();
    let range = range_of::<S::Kind, S::Range, S::Alloc>(alloc, range)?;
    alloc.begin(granted);
    let made = set.insert(range);
    alloc.end();
    Ok(made?)
}

fn remove<S>(set: &mut Set<S>, range: &str, granted: u64) -> Result<(), Fault>
where
    S: StoreMut<Value = (), Alloc: Memory, Range: FromEnds<Key: Word<S::Alloc>>>,
{
    let alloc = *set.allocator();
    let range = range_of::<S::Kind, S::Range, S::Alloc>(alloc, range)?;
    alloc.begin(granted);
    let made = set.remove(range);
    alloc.end();
    Ok(made?)
}

fn clear<S: StoreMut<Value = (), Alloc: Memory>>(
    set: &mut Set<S>,
    granted: u64,
) -> Result<(), Fault> {
    let alloc = *set.allocator();
    alloc.begin(granted);
    set.clear();
    alloc.end();
    Ok(())
}

// Puts a clone, which is equal, in place of a set.
fn become_clone<S>(set: &mut Set<S>, granted: u64) -> Result<(), Fault>
where
    S: StoreMut<Value = (), Alloc: Memory, Range: FromEnds<Key: Word<S::Alloc>>> + Drop,
{
    let alloc = *set.allocator();
    alloc.begin(granted);
    let made = set.clone();
    alloc.end();
    let copy = made?;
    if copy != *set {
        return Err(Fault::Differs);
    }
    *set = copy;
    Ok(())
}

/// Makes a set of the ranges of a list, by inserts.
pub fn made_of<S>(alloc: S::Alloc, ranges: &str) -> Result<Set<S>, Fault>
where
    S: StoreMut<Value = (), Alloc: Memory, Range: FromEnds<Key: Word<S::Alloc>>> + Drop,
{
    let mut set = Set::new_with_step_fns(alloc);
    for range in ranges.split(", ") {
        if !range.is_empty() {
            set.insert(range_of::<S::Kind, S::Range, S::Alloc>(alloc, range)?)?;
        }
    }
    Ok(set)
}

/// Appends the answer to a question that a set over any store can be asked.
pub fn ask<S>(set: &Set<S>, question: &Question<'_>, out: &mut String) -> Result<(), Fault>
where
    S: StoreMut<Value = (), Alloc: Memory, Range: FromEnds<Key: Word<S::Alloc>>> + Drop,
{
    match question.name {
        "len" | "ends" => count(set, question, out),
        "at" => at(set, question, out),
        "overlaps" | "covers" => ask_of_range(set, question, out),
        "ascending" | "hashed" => compare::<S>(*set.allocator(), question, out),
        "equals" | "subset" | "superset" | "disjoint" => ask_of_other(set, question, out),
        _ => Err(Fault::NoQuestion),
    }
}

// How many ranges there are, or the first and the last of them.
fn count<S>(set: &Set<S>, question: &Question<'_>, out: &mut String) -> Result<(), Fault>
where
    S: StoreMut<Value = (), Alloc: Memory, Range: FromEnds<Key: Word<S::Alloc>>>,
{
    let alloc = *set.allocator();
    alloc.begin(question.granted);
    if question.name == "len" {
        write!(out, "{} {}", set.len(), set.is_empty())?;
    } else {
        ends(set, out)?;
    }
    alloc.end();
    Ok(())
}

// The first range and the last.
fn ends<S>(set: &Set<S>, out: &mut String) -> Result<(), Fault>
where
    S: StoreMut<Value = (), Alloc: Memory, Range: FromEnds<Key: Word<S::Alloc>>>,
{
    write_found_range::<S::Range, S::Alloc>(set.first(), out)?;
    out.push_str(", ")?;
    write_found_range::<S::Range, S::Alloc>(set.last(), out)?;
    Ok(())
}

// Asks for a key by `get` and `contains`, which have to agree.
fn at<S>(set: &Set<S>, question: &Question<'_>, out: &mut String) -> Result<(), Fault>
where
    S: StoreMut<Value = (), Alloc: Memory, Range: FromEnds<Key: Word<S::Alloc>>>,
{
    let alloc = *set.allocator();
    let key = <S::Range as KeyRange>::Key::read(alloc, question.operand)?;
    alloc.begin(question.granted);
    let (range, is_held) = (set.get(&key), set.contains(&key));
    alloc.end();
    if range.is_some() != is_held {
        return Err(Fault::Differs);
    }
    write_found_range::<S::Range, S::Alloc>(range, out)
}

// Whether a set has some key of a range, or each.
fn ask_of_range<S>(set: &Set<S>, question: &Question<'_>, out: &mut String) -> Result<(), Fault>
where
    S: StoreMut<Value = (), Alloc: Memory, Range: FromEnds<Key: Word<S::Alloc>>>,
{
    let alloc = *set.allocator();
    let range: S::Range = query_of(alloc, question.operand)?;
    alloc.begin(question.granted);
    let is_so = if question.name == "overlaps" {
        set.overlaps(&range)
    } else {
        set.covers(&range)
    };
    alloc.end();
    Ok(write!(out, "{is_so}")?)
}

// Compares a set with the one that a list of ranges makes, each time by two calls that have to agree.
fn ask_of_other<S>(set: &Set<S>, question: &Question<'_>, out: &mut String) -> Result<(), Fault>
where
    S: StoreMut<Value = (), Alloc: Memory, Range: FromEnds<Key: Word<S::Alloc>>> + Drop,
{
    let alloc = *set.allocator();
    let other: Set<S> = made_of(alloc, question.operand)?;
    alloc.begin(question.granted);
    let (is_so, is_not) = match question.name {
        "subset" => (set.is_subset(&other), !other.is_superset(set)),
        "superset" => (set.is_superset(&other), !other.is_subset(set)),
        "disjoint" => (set.is_disjoint(&other), !other.is_disjoint(set)),
        _ => (*set == other, *set != other),
    };
    alloc.end();
    if is_so == is_not {
        return Err(Fault::Differs);
    }
    Ok(write!(out, "{is_so}")?)
}

// Compares sets that lists make, with each other: whether they ascend, or which of them hash alike.
fn compare<S>(alloc: S::Alloc, question: &Question<'_>, out: &mut String) -> Result<(), Fault>
where
    S: StoreMut<Value = (), Alloc: Memory, Range: FromEnds<Key: Word<S::Alloc>>> + Drop,
{
    let made: Vec<Set<S>> = made_all(alloc, question, out)?;
    let again: Vec<Set<S>> = made_all(alloc, question, out)?;
    alloc.begin(question.granted);
    let is_so = if question.name == "ascending" {
        are_ascending(made.as_slice(), again.as_slice())
    } else {
        are_hashed(made.as_slice())
    };
    alloc.end();
    Ok(write!(out, "{is_so}")?)
}

// Makes the sets of a question, the first by its operand and the others by its script.
fn made_all<S>(alloc: S::Alloc, question: &Question<'_>, out: &String) -> Result<Vec<Set<S>>, Fault>
where
    S: StoreMut<Value = (), Alloc: Memory, Range: FromEnds<Key: Word<S::Alloc>>> + Drop,
{
    let mut made = Vec::new(*out.allocator());
    made.push(made_of(alloc, question.operand)?)?;
    for list in question.script.split("; ") {
        made.push(made_of(alloc, list)?)?;
    }
    Ok(made)
}

/// What a set is asked with.
#[derive(Drop)]
pub enum Asked<S: Store<Value = ()>> {
    /// Nothing but words.
    Nothing,
    /// A range.
    Range(S::Range),
    /// Another set.
    Other(Set<S>),
}

/// Makes what a set is asked with.
pub fn read_asked<S>(alloc: S::Alloc, question: &Question<'_>) -> Result<Asked<S>, Fault>
where
    S: StoreMut<Value = (), Alloc: Memory, Range: FromEnds<Key: Word<S::Alloc>>> + Drop,
{
    match question.name {
        "overlapping" | "gaps" => Ok(Asked::Range(query_of(alloc, question.operand)?)),
        "union" | "intersection" | "difference" | "symmetric_difference" => {
            Ok(Asked::Other(made_of(alloc, question.operand)?))
        }
        _ => Ok(Asked::Nothing),
    }
}

/// Appends the answer to a question, of which the query or the other set was made.
pub fn answer<'a, S>(
    set: &'a Set<S>,
    asked: &'a Asked<S>,
    question: &Question<'_>,
    out: &mut String,
) -> Result<(), Fault>
where
    S: Lends<'a, Iter: Peek, Alloc: Memory, Range: FromEnds<Key: Word<S::Alloc>>>
        + StoreMut
        + Store<Value = ()>
        + Drop,
    S::Range: 'a,
    S::Value: 'a,
{
    match asked {
        Asked::Range(query) => ask_in_range(set, query, question, out),
        Asked::Other(other) => ask_both(set, other, question, out),
        Asked::Nothing if question.name == "iter" => iter(set, question, out),
        Asked::Nothing => ask(set, question, out),
    }
}

// Appends what is taken of `iter`.
fn iter<'a, S>(set: &'a Set<S>, question: &Question<'_>, out: &mut String) -> Result<(), Fault>
where
    S: Lends<'a, Alloc: Memory, Range: FromEnds<Key: Word<S::Alloc>>> + Store<Value = ()>,
    S::Range: 'a,
    S::Value: 'a,
{
    let alloc = *set.allocator();
    alloc.begin(question.granted);
    let answer = write_taken::<_, _, LentRanges<S::Alloc>>(set.iter(), question.operand, out);
    alloc.end();
    answer
}

// Appends what is taken of `overlapping` or of `gaps`.
fn ask_in_range<'a, S>(
    set: &'a Set<S>,
    query: &'a S::Range,
    question: &Question<'_>,
    out: &mut String,
) -> Result<(), Fault>
where
    S: Lends<'a, Alloc: Memory, Range: FromEnds<Key: Word<S::Alloc>>> + Store<Value = ()>,
    S::Range: 'a,
    S::Value: 'a,
{
    let alloc = *set.allocator();
    let script = question.script;
    alloc.begin(question.granted);
    let answer = if question.name == "overlapping" {
        write_taken::<_, _, LentRanges<S::Alloc>>(set.overlapping(query), script, out)
    } else {
        write_made::<_, OwnRanges<S::Alloc>>(set.gaps(query), script, out)
    };
    alloc.end();
    answer
}

// Appends what is taken of the union with another set, of the intersection or of either difference.
fn ask_both<'a, S>(
    set: &'a Set<S>,
    other: &'a Set<S>,
    question: &Question<'_>,
    out: &mut String,
) -> Result<(), Fault>
where
    S: Lends<'a, Iter: Peek, Alloc: Memory, Range: FromEnds<Key: Word<S::Alloc>>>
        + Store<Value = ()>,
    S::Range: 'a,
    S::Value: 'a,
{
    let alloc = *set.allocator();
    let (name, script) = (question.name, question.script);
    let is_of_rest = script.starts_with('f') || script.starts_with('b');
    if is_of_rest && !name.ends_with("difference") {
        return write_rest::<S::Iter, LentRanges<S::Alloc>, OwnRanges<S::Alloc>>(
            set.iter(),
            other.iter(),
            question,
            out,
        );
    }
    alloc.begin(question.granted);
    let answer = match name {
        "union" => write_made::<_, OwnRanges<S::Alloc>>(set.union(other), script, out),
        "intersection" => write_made::<_, OwnRanges<S::Alloc>>(
            set.intersection(other),
            script,
            out,
        ),
        "difference" => write_made::<_, OwnRanges<S::Alloc>>(set.difference(other), script, out),
        _ => write_made::<_, OwnRanges<S::Alloc>>(set.symmetric_difference(other), script, out),
    };
    alloc.end();
    answer
}

/// Makes a set empty, and gives all memory back.
pub fn renew<S: StoreMut<Value = (), Alloc: Memory> + Drop>(set: &mut Set<S>) {
    *set = Set::new_with_step_fns(*set.allocator());
}
