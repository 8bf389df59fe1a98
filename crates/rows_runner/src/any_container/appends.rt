//! Lists to which clones of a container's pairs are appended, or its gaps.

use super::lists::{write_pairs, write_ranges};
use rangemap::container::Container;
use rows_text::{
    Fault, FromEnds, Memory, Question, Word, first_word, pairs_of, query_of, ranges_of,
};

/// Appends all pairs to the list that a question has, and the list to `out`. Where that is refused the
/// list has to be as it was.
pub fn all<M>(
    container: &M,
    alloc: M::Alloc,
    question: &Question<'_>,
    out: &mut String,
) -> Result<(), Fault>
where
    M: Container<Alloc: Memory, Range: FromEnds<Key: Word<M::Alloc>>, Value: Word<M::Alloc>>,
{
    let mut pairs = pairs_of::<M::Kind, M::Range, M::Value, M::Alloc>(alloc, question.operand)?;
    let before = pairs.len();
    alloc.begin(question.granted);
    let appended = container.append_all(&mut pairs);
    alloc.end();
    if appended.is_err() && pairs.len() != before {
        return Err(Fault::Differs);
    }
    appended?;
    write_pairs::<M::Range, M::Value, M::Alloc>(pairs.as_slice(), out)
}

/// Appends the pairs that overlap the range that a question begins with to the list behind it.
pub fn overlapping<M>(
    container: &M,
    alloc: M::Alloc,
    question: &Question<'_>,
    out: &mut String,
) -> Result<(), Fault>
where
    M: Container<Alloc: Memory, Range: FromEnds<Key: Word<M::Alloc>>, Value: Word<M::Alloc>>,
{
    let (range, list) = first_word(question.operand);
    let range: M::Range = query_of(alloc, range)?;
    let mut pairs = pairs_of::<M::Kind, M::Range, M::Value, M::Alloc>(alloc, list)?;
    let before = pairs.len();
    alloc.begin(question.granted);
    let appended = container.append_overlapping(&range, &mut pairs);
    alloc.end();
    if appended.is_err() && pairs.len() != before {
        return Err(Fault::Differs);
    }
    appended?;
    write_pairs::<M::Range, M::Value, M::Alloc>(pairs.as_slice(), out)
}

/// Appends the gaps in the range that a question begins with to the list behind it.
pub fn gaps<M>(
    container: &M,
    alloc: M::Alloc,
    question: &Question<'_>,
    out: &mut String,
) -> Result<(), Fault>
where
    M: Container<Alloc: Memory, Range: FromEnds<Key: Word<M::Alloc>>, Value: Word<M::Alloc>>,
{
    let (outer, list) = first_word(question.operand);
    let outer: M::Range = query_of(alloc, outer)?;
    let mut ranges = ranges_of::<M::Kind, M::Range, M::Alloc>(alloc, list)?;
    let before = ranges.len();
    alloc.begin(question.granted);
    let appended = container.append_gaps(&outer, &mut ranges);
    alloc.end();
    if appended.is_err() && ranges.len() != before {
        return Err(Fault::Differs);
    }
    appended?;
    write_ranges::<M::Range, M::Alloc>(ranges.as_slice(), out)
}
