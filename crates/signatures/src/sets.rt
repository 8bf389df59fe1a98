//! Every call of a set, as `maps` has those of a map.
ghost use Rattle.std.specs.Iterator.{IsFiniteIterable};
ghost use Rattle.rangemap.specs.Clones.{KeysCloneFaithfully};
ghost use Rattle.rangemap.specs.Ranges.{half_open};
ghost use Rattle.rangemap.specs.Sets.{AreNonEmptyRanges, GivesNonEmptyRanges};

use crate::root;
use rangemap::set::{
    Difference, Gaps, Intersection, IntoIter, Iter, Overlapping, RangeSet, SymmetricDifference,
    Union,
};
use rangemap::{Form, ReadError, WriteError};
use serde_json::Value;
use std::alloc::{AllocError, Allocator, Global};
use std::fmt::Debug;
use std::hash::{DefaultHasher, Hash, Hasher};
use std::iter::IntoIterator;
use std::ops::Range;

pub fn ask<'a, T: Ord + Clone, A: Allocator>(set: &'a RangeSet<T, A>, value: &T, range: &Range<T>) {
    let _: Option<&'a Range<T>> = set.get(value);
    let _: bool = set.contains(value);
    let _: Option<&'a Range<T>> = set.first();
    let _: Option<&'a Range<T>> = set.last();
    let _: usize = set.len();
    let _: bool = set.is_empty();
    let _: &'a A = set.allocator();
    set.known();
    let _: bool = set.overlaps(range);
    let _: bool = set.covers(range);
    let _: bool = set.is_subset(set);
    let _: bool = set.is_superset(set);
    let _: bool = set.is_disjoint(set);
}

pub fn lend<'a, T: Ord + Clone, A: Allocator>(set: &'a RangeSet<T, A>, range: &'a Range<T>)
    requires { KeysCloneFaithfully T.is_clone T.cmp }
{
    let iter: Iter<'a, T> = set.iter();
    root::both_ends::<&'a Range<T>, _>(iter);
    let overlapping: Overlapping<'a, T> = set.overlapping(range);
    let mut gaps: Gaps<'a, T> = set.gaps(range);
    let _: Result<Option<Range<T>>, AllocError> = gaps.try_next();
    root::overlapping_and_gaps::<&'a Range<T>, Range<T>, _, _>(overlapping, gaps);
}

pub fn put_together<'a, T: Ord + Clone, A: Allocator>(
    set: &'a RangeSet<T, A>,
    other: &'a RangeSet<T, A>,
)
    requires { KeysCloneFaithfully T.is_clone T.cmp }
{
    let mut union: Union<'a, T> = set.union(other);
    let _: Result<Option<Range<T>>, AllocError> = union.try_next();
    let mut intersection: Intersection<'a, T> = set.intersection(other);
    let _: Result<Option<Range<T>>, AllocError> = intersection.try_next();
    let mut difference: Difference<'a, T> = set.difference(other);
    let _: Result<Option<Range<T>>, AllocError> = difference.try_next();
    let mut in_one: SymmetricDifference<'a, T> = set.symmetric_difference(other);
    let _: Result<Option<Range<T>>, AllocError> = in_one.try_next();
    root::are_iterators::<Result<Range<T>, AllocError>, _, _>(union, intersection);
    root::are_iterators::<Result<Range<T>, AllocError>, _, _>(difference, in_one);
}

// the first two of what sets lend, for which `set.into_iter()` is another word
pub fn put_iterators_together<'a, T: Ord + Clone, A: Allocator>(
    set: &'a RangeSet<T, A>,
    other: &'a RangeSet<T, A>,
) -> (Union<'a, T>, Intersection<'a, T>) {
    (
        Union::new(set.iter(), other.into_iter()),
        Intersection::new(set.iter(), other.iter()),
    )
}

pub fn from<T: Ord + Clone, A: Allocator + Clone, const N: usize>(
    set: &RangeSet<T, A>,
    other: &RangeSet<T, A>,
    alloc: A,
    value: [Range<T>; N],
)
    requires non_empty { AreNonEmptyRanges (half_open T.cmp) value }
    requires faithful_keys { KeysCloneFaithfully T.is_clone T.cmp }
{
    let _: Result<RangeSet<T, A>, AllocError> = RangeSet::from(alloc, value);
    let _: Result<RangeSet<T, A>, AllocError> = set.clone();
    let _: Result<RangeSet<T, A>, AllocError> = set | other;
    let _: Result<RangeSet<T, A>, AllocError> = set & other;
    let _: Result<RangeSet<T, A>, AllocError> = set - other;
    let _: Result<RangeSet<T, A>, AllocError> = set ^ other;
}

pub fn empty<T: Ord + Clone, A: Allocator>(alloc: A, other: A) -> (RangeSet<T, A>, RangeSet<T, A>) {
    (RangeSet::new(alloc), RangeSet::new_with_step_fns(other))
}

pub fn collect<T: Ord + Clone, A: Allocator, I: IntoIterator<Item = Range<T>>>(
    alloc: A,
    iter: I,
    extended: &mut RangeSet<T, A>,
    more: I,
)
    requires ends { IsFiniteIterable I.into_iter_gives I.IntoIter.can_next I.IntoIter.remaining iter }
    requires non_empty { (it : I.IntoIter) → I.into_iter_gives iter it → GivesNonEmptyRanges (half_open T.cmp) I.IntoIter.next_gives it }
    requires more_ends { IsFiniteIterable I.into_iter_gives I.IntoIter.can_next I.IntoIter.remaining more }
    requires more_non_empty { (it : I.IntoIter) → I.into_iter_gives more it → GivesNonEmptyRanges (half_open T.cmp) I.IntoIter.next_gives it }
    requires faithful_keys { KeysCloneFaithfully T.is_clone T.cmp }
{
    let _: Result<(), AllocError> = extended.extend(more);
    let _: Result<RangeSet<T, A>, AllocError> = RangeSet::from_iter(alloc, iter);
}

pub fn change<T: Ord + Clone, A: Allocator>(
    set: &mut RangeSet<T, A>,
    given: Range<T>,
    taken: Range<T>,
)
    requires given_non_empty { (half_open T.cmp).IsNonEmpty given }
    requires taken_non_empty { (half_open T.cmp).IsNonEmpty taken }
    requires faithful_keys { KeysCloneFaithfully T.is_clone T.cmp }
{
    let _: Result<(), AllocError> = set.insert(given);
    let _: Result<(), AllocError> = set.remove(taken);
    set.clear();
}

pub fn hand_over<T: Ord + Clone, A: Allocator>(set: RangeSet<T, A>) -> IntoIter<T, A> {
    set.into_iter()
}

pub fn compare_and_print<T: Ord + Clone + Hash + Debug, A: Allocator, H: Hasher>(
    alloc: Global,
    left: &RangeSet<T, A>,
    right: &RangeSet<T, A>,
    state: &mut H,
) -> Result<(bool, String), AllocError> {
    root::compare_and_print(alloc, left, right, state)
}

pub fn write_and_read<T: Ord + Clone, A: Allocator, E: Copy>(
    set: &RangeSet<T, A>,
    alloc: Global,
    other: A,
    form: Form,
    value: &Value,
    fault: E,
) -> (
    Result<Value, WriteError<E>>,
    Result<RangeSet<T, A>, ReadError<E>>,
)
    requires faithful_keys { KeysCloneFaithfully T.is_clone T.cmp }
{
    let written = set.to_value(alloc, |_: &T| Err(fault));
    (
        written,
        RangeSet::from_value(other, form, value, |_: &Value| Err(fault)),
    )
}

/// Makes each call of this file once, over any keys; `texts` calls it.
pub fn every<T: Ord + Clone + Hash + Debug, const N: usize>(
    alloc: Global,
    set: &mut RangeSet<T>,
    listed: [Range<T>; N],
    given: Range<T>,
    taken: Range<T>,
)
    requires listed_non_empty { AreNonEmptyRanges (half_open T.cmp) listed }
    requires given_non_empty { (half_open T.cmp).IsNonEmpty given }
    requires taken_non_empty { (half_open T.cmp).IsNonEmpty taken }
    requires faithful_keys { KeysCloneFaithfully T.is_clone T.cmp }
{
    ask(set, &given.start, &given);
    lend(set, &given);
    put_together(set, set);
    let _: (Union<'_, T>, Intersection<'_, T>) = put_iterators_together(set, set);
    let _: Result<(bool, String), AllocError> = compare_and_print(
        alloc,
        set,
        set,
        &mut DefaultHasher::new(),
    );
    let _ = write_and_read(set, alloc, alloc, Form::Any, &Value::Null, ());
    from(set, set, alloc, listed);
    let (first, second) = empty(alloc, alloc);
    collect(alloc, first, set, second);
    let (given_away, _) = empty(alloc, alloc);
    let _: IntoIter<T> = hand_over(given_away);
    change(set, given, taken);
}
