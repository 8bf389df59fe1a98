//! What each word does to a map, over any store and any steps.

use rangemap::map::Map;
use rangemap_core::key_range::KeyRange;
use rangemap_core::store::{Lends, StoreMut};
use rows_text::{
    Fault, FromEnds, LentPairs, Memory, OwnRanges, Question, Word, are_ascending, are_hashed,
    first_word, pair_of, query_of, range_of, write_found, write_made, write_taken,
};

/// Makes the call that a text names on a map.
pub fn change<S>(map: &mut Map<S>, call: &str, granted: u64) -> Result<(), Fault>
where
    S: StoreMut<Alloc: Memory, Range: FromEnds<Key: Word<S::Alloc>>, Value: Word<S::Alloc>> + Drop,
{
    let (name, operand) = first_word(call);
    match name {
        "insert" => insert(map, operand, granted),
        "remove" => remove(map, operand, granted),
        "clear" => clear(map, granted),
        "clone" => become_clone(map, granted),
        _ => Err(Fault::NoCall),
    }
}

fn insert<S>(map: &mut Map<S>, pair: &str, granted: u64) -> Result<(), Fault>
where
    S: StoreMut<Alloc: Memory, Range: FromEnds<Key: Word<S::Alloc>>, Value: Word<S::Alloc>>,
{
    let alloc = *map.allocator();
    let (range, value) = pair_of::<S::Kind, S::Range, S::Value, S::Alloc>(alloc, pair)?;
    alloc.begin(granted);
    let made = map.insert(range, value);
    alloc.end();
    Ok(made?)
}

fn remove<S>(map: &mut Map<S>, range: &str, granted: u64) -> Result<(), Fault>
where
    S: StoreMut<Alloc: Memory, Range: FromEnds<Key: Word<S::Alloc>>, Value: Word<S::Alloc>>,
{
    let alloc = *map.allocator();
    let range = range_of::<S::Kind, S::Range, S::Alloc>(alloc, range)?;
    alloc.begin(granted);
    let made = map.remove(range);
    alloc.end();
    Ok(made?)
}

fn clear<S: StoreMut<Alloc: Memory>>(map: &mut Map<S>, granted: u64) -> Result<(), Fault> {
    let alloc = *map.allocator();
    alloc.begin(granted);
    map.clear();
    alloc.end();
    Ok(())
}

// Puts a clone, which is equal, in place of a map.
fn become_clone<S>(map: &mut Map<S>, granted: u64) -> Result<(), Fault>
where
    S: StoreMut<Alloc: Memory, Range: FromEnds<Key: Word<S::Alloc>>, Value: Word<S::Alloc>> + Drop,
{
    let alloc = *map.allocator();
    alloc.begin(granted);
    let made = map.clone();
    alloc.end();
    let copy = made?;
    if copy != *map {
        return Err(Fault::Differs);
    }
    *map = copy;
    Ok(())
}

/// Makes a map of the pairs of a list, by inserts.
pub fn made_of<S>(alloc: S::Alloc, pairs: &str) -> Result<Map<S>, Fault>
where
    S: StoreMut<Alloc: Memory, Range: FromEnds<Key: Word<S::Alloc>>, Value: Word<S::Alloc>> + Drop,
{
    let mut map = Map::new_with_step_fns(alloc);
    for pair in pairs.split(", ") {
        if !pair.is_empty() {
            let (range, value) = pair_of::<S::Kind, S::Range, S::Value, S::Alloc>(alloc, pair)?;
            map.insert(range, value)?;
        }
    }
    Ok(map)
}

/// Appends the answer to a question that a map over any store can be asked.
pub fn ask<S>(map: &Map<S>, question: &Question<'_>, out: &mut String) -> Result<(), Fault>
where
    S: StoreMut<Alloc: Memory, Range: FromEnds<Key: Word<S::Alloc>>, Value: Word<S::Alloc>> + Drop,
{
    match question.name {
        "len" | "ends" => count(map, question, out),
        "at" => at(map, question, out),
        "overlaps" | "covers" => ask_of_range(map, question, out),
        "ascending" | "hashed" => compare::<S>(*map.allocator(), question, out),
        "equals" => equals(map, question, out),
        _ => Err(Fault::NoQuestion),
    }
}

// How many pairs there are, or the first and the last of them.
fn count<S>(map: &Map<S>, question: &Question<'_>, out: &mut String) -> Result<(), Fault>
where
    S: StoreMut<Alloc: Memory, Range: FromEnds<Key: Word<S::Alloc>>, Value: Word<S::Alloc>>,
{
    let alloc = *map.allocator();
    alloc.begin(question.granted);
    if question.name == "len" {
        write!(out, "{} {}", map.len(), map.is_empty())?;
    } else {
        ends(map, out)?;
    }
    alloc.end();
    Ok(())
}

// The first pair and the last.
fn ends<S>(map: &Map<S>, out: &mut String) -> Result<(), Fault>
where
    S: StoreMut<Alloc: Memory, Range: FromEnds<Key: Word<S::Alloc>>, Value: Word<S::Alloc>>,
{
    write_found::<S::Range, S::Value, S::Alloc>(map.first_range_value(), out)?;
    out.push_str(", ")?;
    write_found::<S::Range, S::Value, S::Alloc>(map.last_range_value(), out)?;
    Ok(())
}

// Asks for a key by `get_key_value`, `get` and `contains_key`, which have to agree.
fn at<S>(map: &Map<S>, question: &Question<'_>, out: &mut String) -> Result<(), Fault>
where
    S: StoreMut<Alloc: Memory, Range: FromEnds<Key: Word<S::Alloc>>, Value: Word<S::Alloc>>,
{
    let alloc = *map.allocator();
    let key = <S::Range as KeyRange>::Key::read(alloc, question.operand)?;
    alloc.begin(question.granted);
    let (pair, value, is_held) = (
        map.get_key_value(&key),
        map.get(&key),
        map.contains_key(&key),
    );
    alloc.end();
    let is_same = match (pair, value) {
        (Some((_, found)), Some(value)) => is_held
            && same_words::<S::Value, S::Alloc>(found, value, out)?,
        (None, None) => !is_held,
        _ => false,
    };
    if !is_same {
        return Err(Fault::Differs);
    }
    write_found::<S::Range, S::Value, S::Alloc>(pair, out)
}

// Whether two values have the same word.
fn same_words<V: Word<A>, A: Copy>(one: &V, other: &V, out: &String) -> Result<bool, Fault> {
    let (mut first, mut second) = (String::new(*out.allocator()), String::new(*out.allocator()));
    one.write(&mut first)?;
    other.write(&mut second)?;
    Ok(first.as_str() == second.as_str())
}

// Whether some key of a range has a value, or each.
fn ask_of_range<S>(map: &Map<S>, question: &Question<'_>, out: &mut String) -> Result<(), Fault>
where
    S: StoreMut<Alloc: Memory, Range: FromEnds<Key: Word<S::Alloc>>, Value: Word<S::Alloc>>,
{
    let alloc = *map.allocator();
    let range: S::Range = query_of(alloc, question.operand)?;
    alloc.begin(question.granted);
    let is_so = if question.name == "overlaps" {
        map.overlaps(&range)
    } else {
        map.covers(&range)
    };
    alloc.end();
    Ok(write!(out, "{is_so}")?)
}

// Compares a map with the one that a list of pairs makes, by `==` and by `!=`.
fn equals<S>(map: &Map<S>, question: &Question<'_>, out: &mut String) -> Result<(), Fault>
where
    S: StoreMut<Alloc: Memory, Range: FromEnds<Key: Word<S::Alloc>>, Value: Word<S::Alloc>> + Drop,
{
    let alloc = *map.allocator();
    let other: Map<S> = made_of(alloc, question.operand)?;
    alloc.begin(question.granted);
    let (is_equal, differs) = (*map == other, *map != other);
    alloc.end();
    if is_equal == differs {
        return Err(Fault::Differs);
    }
    Ok(write!(out, "{is_equal}")?)
}

// Compares maps that lists make, with each other: whether they ascend, or which of them hash alike.
fn compare<S>(alloc: S::Alloc, question: &Question<'_>, out: &mut String) -> Result<(), Fault>
where
    S: StoreMut<Alloc: Memory, Range: FromEnds<Key: Word<S::Alloc>>, Value: Word<S::Alloc>> + Drop,
{
    let made: Vec<Map<S>> = made_all(alloc, question, out)?;
    let again: Vec<Map<S>> = made_all(alloc, question, out)?;
    alloc.begin(question.granted);
    let is_so = if question.name == "ascending" {
        are_ascending(made.as_slice(), again.as_slice())
    } else {
        are_hashed(made.as_slice())
    };
    alloc.end();
    Ok(write!(out, "{is_so}")?)
}

// Makes the maps of a question, the first by its operand and the others by its script.
fn made_all<S>(alloc: S::Alloc, question: &Question<'_>, out: &String) -> Result<Vec<Map<S>>, Fault>
where
    S: StoreMut<Alloc: Memory, Range: FromEnds<Key: Word<S::Alloc>>, Value: Word<S::Alloc>> + Drop,
{
    let mut made = Vec::new(*out.allocator());
    made.push(made_of(alloc, question.operand)?)?;
    for list in question.script.split("; ") {
        made.push(made_of(alloc, list)?)?;
    }
    Ok(made)
}

/// Appends the answer to a question, of which the query was read.
pub fn answer<'a, S>(
    map: &'a Map<S>,
    query: Option<&'a S::Range>,
    question: &Question<'_>,
    out: &mut String,
) -> Result<(), Fault>
where
    S: Lends<'a, Alloc: Memory, Range: FromEnds<Key: Word<S::Alloc>>, Value: Word<S::Alloc>>
        + StoreMut
        + Drop,
    S::Range: 'a,
    S::Value: 'a,
{
    match query {
        Some(query) => ask_in_range(map, query, question, out),
        None if question.name == "iter" => iter(map, question, out),
        None => ask(map, question, out),
    }
}

// Appends what is taken of `iter`.
fn iter<'a, S>(map: &'a Map<S>, question: &Question<'_>, out: &mut String) -> Result<(), Fault>
where
    S: Lends<'a, Alloc: Memory, Range: FromEnds<Key: Word<S::Alloc>>, Value: Word<S::Alloc>>,
    S::Range: 'a,
    S::Value: 'a,
{
    let alloc = *map.allocator();
    alloc.begin(question.granted);
    let answer = write_taken::<_, _, LentPairs<S::Alloc>>(map.iter(), question.operand, out);
    alloc.end();
    answer
}

// Appends what is taken of `overlapping` or of `gaps`.
fn ask_in_range<'a, S>(
    map: &'a Map<S>,
    query: &'a S::Range,
    question: &Question<'_>,
    out: &mut String,
) -> Result<(), Fault>
where
    S: Lends<'a, Alloc: Memory, Range: FromEnds<Key: Word<S::Alloc>>, Value: Word<S::Alloc>>,
    S::Range: 'a,
    S::Value: 'a,
{
    let alloc = *map.allocator();
    let script = question.script;
    alloc.begin(question.granted);
    let answer = if question.name == "overlapping" {
        write_taken::<_, _, LentPairs<S::Alloc>>(map.overlapping(query), script, out)
    } else {
        write_made::<_, OwnRanges<S::Alloc>>(map.gaps(query), script, out)
    };
    alloc.end();
    answer
}

/// Makes the query of a question that has one.
pub fn asked_range<R: FromEnds<Key: Word<A>>, A: Copy>(
    alloc: A,
    question: &Question<'_>,
) -> Result<Option<R>, Fault> {
    match question.name {
        "overlapping" | "gaps" => Ok(Some(query_of(alloc, question.operand)?)),
        _ => Ok(None),
    }
}

/// Makes a map empty, and gives all memory back.
pub fn renew<S: StoreMut<Alloc: Memory> + Drop>(map: &mut Map<S>) {
    *map = Map::new_with_step_fns(*map.allocator());
}
