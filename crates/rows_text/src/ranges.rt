//! Ranges and pairs, as words: a range has two words with dots between them, and a pair a space and
//! its value behind that. Lists of them have a plus between the items.
ghost use Rattle.std.specs.Prelude.{IfOk};
ghost use Rattle.rangemap_core.specs.Ranges.{AreNonEmpty};
ghost use Rattle.rangemap_core.specs.Sets.{AreNonEmptyRanges};

use crate::fault::Fault;
use crate::list::first_word;
use crate::word::Word;
use rangemap_core::key_range::KeyRange;
use rangemap_core::kind::Kind;
use std::alloc::Allocator;
use std::fmt::Debug;
use std::ops::{Range, RangeInclusive};

/// A range of any two ends.
pub trait FromEnds: KeyRange + Debug {
    /// Makes the range from a start to an end.
    fn from_ends(start: Self::Key, end: Self::Key) -> Self;
}

impl<K: Ord + Clone + Debug> FromEnds for Range<K> {
    fn from_ends(start: K, end: K) -> Self {
        start..end
    }
}

impl<K: Ord + Clone + Debug> FromEnds for RangeInclusive<K> {
    fn from_ends(start: K, end: K) -> Self {
        start..=end
    }
}

// The words of the two ends.
fn ends<R: KeyRange>(text: &str) -> Result<(&str, &str), Fault> {
    match text.split_once(R::dots()) {
        Some((start, end)) if !end.starts_with('=') => Ok((start, end)),
        _ => Err(Fault::NoRange),
    }
}

/// Makes the range that a text names, which has to hold a key.
pub fn range_of<Q: Kind<R>, R: KeyRange<Key: Word<A>>, A: Copy>(
    alloc: A,
    text: &str,
) -> Result<R, Fault>
    ensures { IfOk result Q.kind.IsNonEmpty }
{
    let (start, end) = ends::<R>(text)?;
    let start = R::Key::read(alloc, start)?;
    let end = R::Key::read(alloc, end)?;
    R::between(start, end).ok_or(Fault::EmptyRange)
}

/// Makes the range that a query names, which may be empty or reversed.
pub fn query_of<R: FromEnds<Key: Word<A>>, A: Copy>(alloc: A, text: &str) -> Result<R, Fault> {
    let (start, end) = ends::<R>(text)?;
    let start = R::Key::read(alloc, start)?;
    Ok(R::from_ends(start, R::Key::read(alloc, end)?))
}

/// Makes the range and the value of a pair.
pub fn pair_of<Q: Kind<R>, R: KeyRange<Key: Word<A>>, V: Word<A>, A: Copy>(
    alloc: A,
    pair: &str,
) -> Result<(R, V), Fault>
    ensures { IfOk result (λ pair. Q.kind.IsNonEmpty pair.0) }
{
    let (range, value) = first_word(pair);
    let range = range_of::<Q, R, A>(alloc, range)?;
    Ok((range, V::read(alloc, value)?))
}

/// Makes the pairs that a text names, of which an empty one has none.
#[tactic(auto, using(crate::proofs::OneMore::pairs_and_one))]
pub fn pairs_of<Q: Kind<R>, R: KeyRange<Key: Word<A>>, V: Word<A>, A: Allocator + Copy>(
    alloc: A,
    pairs: &str,
) -> Result<Vec<(R, V), A>, Fault>
    ensures { IfOk result (λ all. AreNonEmpty Q.kind all.items) }
{
    let mut all = Vec::new(alloc);
    for pair in pairs.split(" + ") {
        if !pair.is_empty() {
            all.push(pair_of::<Q, R, V, A>(alloc, pair)?)?;
        }
    }
    Ok(all)
}

/// Makes the ranges that a text names, of which an empty one has none.
#[tactic(auto, using(crate::proofs::OneMore::all_and_one))]
pub fn ranges_of<Q: Kind<R>, R: KeyRange<Key: Word<A>>, A: Allocator + Copy>(
    alloc: A,
    ranges: &str,
) -> Result<Vec<R, A>, Fault>
    ensures { IfOk result (λ all. AreNonEmptyRanges Q.kind all.items) }
{
    let mut all = Vec::new(alloc);
    for range in ranges.split(" + ") {
        if !range.is_empty() {
            all.push(range_of::<Q, R, A>(alloc, range)?)?;
        }
    }
    Ok(all)
}

/// Appends the words of a range.
pub fn write_range<R: KeyRange<Key: Word<A>>, A: Copy>(
    range: &R,
    out: &mut String,
) -> Result<(), Fault> {
    range.start().write(out)?;
    out.push_str(R::dots())?;
    range.end().write(out)
}

/// Appends the words of a range and behind a space that of its value, unless that is empty.
pub fn write_pair<R: KeyRange<Key: Word<A>>, V: Word<A>, A: Copy>(
    range: &R,
    value: &V,
    out: &mut String,
) -> Result<(), Fault> {
    write_range::<R, A>(range, out)?;
    let mut word = String::new(*out.allocator());
    value.write(&mut word)?;
    if !word.is_empty() {
        out.push(' ')?;
        out.push_str(word.as_str())?;
    }
    Ok(())
}

/// Appends the words of a pair, or a dash where there is none.
pub fn write_found<R: KeyRange<Key: Word<A>>, V: Word<A>, A: Copy>(
    found: Option<(&R, &V)>,
    out: &mut String,
) -> Result<(), Fault> {
    match found {
        Some((range, value)) => write_pair::<R, V, A>(range, value, out),
        None => Ok(out.push('-')?),
    }
}

/// Appends the words of a range, or a dash where there is none.
pub fn write_found_range<R: KeyRange<Key: Word<A>>, A: Copy>(
    found: Option<&R>,
    out: &mut String,
) -> Result<(), Fault> {
    match found {
        Some(range) => write_range::<R, A>(range, out),
        None => Ok(out.push('-')?),
    }
}
