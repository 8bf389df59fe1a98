//! The parts of a range with and without a value, and its gaps as a list.

use super::lists::write_ranges;
use rangemap::container::{Container, collect_gaps, segments};
use rangemap_core::key_range::KeyRange;
use rows_text::{
    Fault, FromEnds, Memory, Question, Shows, Word, query_of, write_pair, write_range, write_taken,
};
use std::marker::PhantomData;

// A stretch of keys with one value, or with none.
struct Stretches<A> {
    of: PhantomData<A>,
}

impl<'a, R: KeyRange<Key: Word<A>>, V: Word<A>, A: Copy> Shows<(&'a R, &'a Option<V>)>
    for Stretches<A> {
    fn show(item: (&'a R, &'a Option<V>), out: &mut String) -> Result<(), Fault> {
        match item.1 {
            Some(value) => write_pair::<R, V, A>(item.0, value, out),
            None => {
                write_range::<R, A>(item.0, out)?;
                Ok(out.push_str(" none")?)
            }
        }
    }
}

/// Appends the stretches of the range that a question has.
pub fn all<M>(
    container: &M,
    alloc: M::Alloc,
    question: &Question<'_>,
    out: &mut String,
) -> Result<(), Fault>
where
    M: Container<Alloc: Memory, Range: FromEnds<Key: Word<M::Alloc>>, Value: Word<M::Alloc>> + Drop,
{
    let query: M::Range = query_of(alloc, question.operand)?;
    alloc.begin(question.granted);
    let made = segments(alloc, container, &query);
    alloc.end();
    let stretches = made?;
    write_taken::<_, _, Stretches<M::Alloc>>(stretches.iter(), "", out)
}

/// Appends the gaps in the range that a question has.
pub fn gaps<M>(
    container: &M,
    alloc: M::Alloc,
    question: &Question<'_>,
    out: &mut String,
) -> Result<(), Fault>
where
    M: Container<Alloc: Memory, Range: FromEnds<Key: Word<M::Alloc>>, Value: Word<M::Alloc>>,
{
    let outer: M::Range = query_of(alloc, question.operand)?;
    alloc.begin(question.granted);
    let made = collect_gaps(alloc, container, &outer);
    alloc.end();
    let gaps = made?;
    write_ranges::<M::Range, M::Alloc>(gaps.as_slice(), out)
}
