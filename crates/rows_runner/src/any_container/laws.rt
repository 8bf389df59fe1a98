//! The laws, run on clones of a container: with memory, each reaches its outcome.

use super::lists::{write_container, write_ranges};
use rangemap::container::Container;
use rangemap_core::key_range::KeyRange;
use rangemap_laws::changes::{
    insert_changes_its_range_alone, insert_twice_equals_once, inserts_commute,
    remove_after_insert_equals_remove, remove_changes_its_range_alone,
};
use rangemap_laws::comparisons::equal_exactly_when_alike;
use rangemap_laws::gaps::gaps_and_covered_keys_make_up_a_range;
use rangemap_laws::overlaps::{
    covers_exactly_where_no_gap_lies, covers_only_where_overlaps, overlaps_exactly_where_covered,
};
use rows_text::{Fault, FromEnds, Memory, Question, Word, first_word, pair_of, query_of, range_of};

/// Runs the law that a question names, and appends what it leaves.
pub fn ask<M>(
    container: &M,
    alloc: M::Alloc,
    question: &Question<'_>,
    out: &mut String,
) -> Result<(), Fault>
where
    M: Container<Alloc: Memory, Range: FromEnds<Key: Word<M::Alloc>>, Value: Word<M::Alloc>> + Drop,
{
    let (name, operand) = first_word(question.operand);
    match name {
        "insert" => insert(container, alloc, operand, out),
        "remove" => remove(container, alloc, operand, out),
        "parted" => parted(container, alloc, operand, out),
        "covered" => covered(container, alloc, operand, out),
        "no_gap" => no_gap(container, alloc, operand, out),
        "covers" => covers(container, alloc, operand, out),
        "commute" => commute(container, alloc, operand, out),
        "twice" => twice(container, alloc, operand, out),
        "back" => back(container, alloc, operand, out),
        "alike" => alike(container, alloc, operand, out),
        _ => Err(Fault::NoQuestion),
    }
}

// An insert leaves the other pairs.
fn insert<M>(container: &M, alloc: M::Alloc, pair: &str, out: &mut String) -> Result<(), Fault>
where
    M: Container<Alloc: Memory, Range: FromEnds<Key: Word<M::Alloc>>, Value: Word<M::Alloc>> + Drop,
{
    let (range, value) = pair_of::<M::Kind, M::Range, M::Value, M::Alloc>(alloc, pair)?;
    let mut changed = container.clone()?;
    insert_changes_its_range_alone(&mut changed, range, value)?;
    write_container(&changed, out)
}

// A remove leaves the other pairs.
fn remove<M>(container: &M, alloc: M::Alloc, range: &str, out: &mut String) -> Result<(), Fault>
where
    M: Container<Alloc: Memory, Range: FromEnds<Key: Word<M::Alloc>>, Value: Word<M::Alloc>> + Drop,
{
    let range = range_of::<M::Kind, M::Range, M::Alloc>(alloc, range)?;
    let mut changed = container.clone()?;
    remove_changes_its_range_alone(&mut changed, range)?;
    write_container(&changed, out)
}

// Gaps and covered keys make up a range.
fn parted<M>(container: &M, alloc: M::Alloc, outer: &str, out: &mut String) -> Result<(), Fault>
where
    M: Container<Alloc: Memory, Range: FromEnds<Key: Word<M::Alloc>>, Value: Word<M::Alloc>>,
{
    let outer: M::Range = query_of(alloc, outer)?;
    let gaps = gaps_and_covered_keys_make_up_a_range(alloc, container, &outer)?;
    write_ranges::<M::Range, M::Alloc>(gaps.as_slice(), out)
}

// Whether some key of a range is covered is what `overlaps` answers.
fn covered<M>(container: &M, alloc: M::Alloc, range: &str, out: &mut String) -> Result<(), Fault>
where
    M: Container<Alloc: Memory, Range: FromEnds<Key: Word<M::Alloc>>, Value: Word<M::Alloc>>,
{
    let range = range_of::<M::Kind, M::Range, M::Alloc>(alloc, range)?;
    Ok(write!(out, "{}", overlaps_exactly_where_covered(container, &range))?)
}

// Whether every key of a range is covered is whether no gap lies in it.
fn no_gap<M>(container: &M, alloc: M::Alloc, range: &str, out: &mut String) -> Result<(), Fault>
where
    M: Container<Alloc: Memory, Range: FromEnds<Key: Word<M::Alloc>>, Value: Word<M::Alloc>>,
{
    let range: M::Range = query_of(alloc, range)?;
    let (covers, has_no_gap) = covers_exactly_where_no_gap_lies(alloc, container, &range)?;
    if covers != has_no_gap {
        return Err(Fault::Differs);
    }
    Ok(write!(out, "{covers}")?)
}

// Where `covers` answers true of a range that has a key, `overlaps` does.
fn covers<M>(container: &M, alloc: M::Alloc, range: &str, out: &mut String) -> Result<(), Fault>
where
    M: Container<Alloc: Memory, Range: FromEnds<Key: Word<M::Alloc>>, Value: Word<M::Alloc>>,
{
    let range = range_of::<M::Kind, M::Range, M::Alloc>(alloc, range)?;
    let (covers, overlaps) = covers_only_where_overlaps(container, &range);
    Ok(write!(out, "{covers} {overlaps}")?)
}

// Two inserts leave the same, in either order.
fn commute<M>(container: &M, alloc: M::Alloc, pairs: &str, out: &mut String) -> Result<(), Fault>
where
    M: Container<Alloc: Memory, Range: FromEnds<Key: Word<M::Alloc>>, Value: Word<M::Alloc>> + Drop,
{
    let (first, second) = pairs.split_once(" + ").ok_or(Fault::NoOperand)?;
    let first = pair_of::<M::Kind, M::Range, M::Value, M::Alloc>(alloc, first)?;
    let second = pair_of::<M::Kind, M::Range, M::Value, M::Alloc>(alloc, second)?;
    let (forth, back) = both_orders(container, &first, &second)?;
    write_both(&forth, &back, out)
}

// Makes both inserts into two clones, in either order: the range of the first ends before that of the
// second starts, so they have no key in common.
#[tactic(auto, using(crate::proofs::NoCommonKey::no_common_key))]
fn both_orders<M>(
    container: &M,
    first: &(M::Range, M::Value),
    second: &(M::Range, M::Value),
) -> Result<(M, M), Fault>
where
    M: Container<Alloc: Memory, Range: FromEnds<Key: Word<M::Alloc>>, Value: Word<M::Alloc>> + Drop,
    requires first_non_empty { M.Kind.kind.IsNonEmpty first.now.0 }
    requires second_non_empty { M.Kind.kind.IsNonEmpty second.now.0 }
{
    if first.0.reaches(second.0.start()) {
        return Err(Fault::NoOperand);
    }
    let mut forth = container.clone()?;
    let mut back = container.clone()?;
    if equal_exactly_when_alike(&forth, &back) != (true, false) {
        return Err(Fault::Differs);
    }
    inserts_commute(
        &mut forth,
        &mut back,
        (&first.0, &first.1),
        (&second.0, &second.1),
    )?;
    Ok((forth, back))
}

// Appends what two containers hold, which has to be the same.
fn write_both<M>(one: &M, other: &M, out: &mut String) -> Result<(), Fault>
where
    M: Container<Alloc: Memory, Range: FromEnds<Key: Word<M::Alloc>>, Value: Word<M::Alloc>>,
{
    if *one != *other {
        return Err(Fault::Differs);
    }
    write_container(one, out)
}

// The same insert twice leaves what it leaves once.
fn twice<M>(container: &M, alloc: M::Alloc, pair: &str, out: &mut String) -> Result<(), Fault>
where
    M: Container<Alloc: Memory, Range: FromEnds<Key: Word<M::Alloc>>, Value: Word<M::Alloc>> + Drop,
{
    let (range, value) = pair_of::<M::Kind, M::Range, M::Value, M::Alloc>(alloc, pair)?;
    let (mut once, mut twice) = (container.clone()?, container.clone()?);
    if equal_exactly_when_alike(&once, &twice) != (true, false) {
        return Err(Fault::Differs);
    }
    insert_twice_equals_once(&mut once, &mut twice, &range, &value)?;
    write_both(&once, &twice, out)
}

// A remove takes back the insert before it.
fn back<M>(container: &M, alloc: M::Alloc, pair: &str, out: &mut String) -> Result<(), Fault>
where
    M: Container<Alloc: Memory, Range: FromEnds<Key: Word<M::Alloc>>, Value: Word<M::Alloc>> + Drop,
{
    let (range, value) = pair_of::<M::Kind, M::Range, M::Value, M::Alloc>(alloc, pair)?;
    let (mut changed, mut removed) = (container.clone()?, container.clone()?);
    if equal_exactly_when_alike(&changed, &removed) != (true, false) {
        return Err(Fault::Differs);
    }
    remove_after_insert_equals_remove(&mut changed, &mut removed, &range, &value)?;
    write_both(&changed, &removed, out)
}

// Equal containers are alike, and are no more after an insert into one of them.
fn alike<M>(container: &M, alloc: M::Alloc, pair: &str, out: &mut String) -> Result<(), Fault>
where
    M: Container<Alloc: Memory, Range: FromEnds<Key: Word<M::Alloc>>, Value: Word<M::Alloc>> + Drop,
{
    let (range, value) = pair_of::<M::Kind, M::Range, M::Value, M::Alloc>(alloc, pair)?;
    let mut changed = container.clone()?;
    if equal_exactly_when_alike(container, &changed) != (true, false) {
        return Err(Fault::Differs);
    }
    changed.insert(range, value)?;
    if equal_exactly_when_alike(container, &changed) != (false, true) {
        return Err(Fault::Differs);
    }
    write_container(&changed, out)
}
