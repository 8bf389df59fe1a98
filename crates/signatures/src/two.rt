//! Two iterators of a sort in one tuple, at keys of 64 bits: a form that the checker refused once
//! ("too many types"), where a public struct held an item by its iterator's type. Of a sorted vector and
//! of chunks at closed keys, and of a tree.

use rangemap::{RangeInclusiveMap, chunked, inclusive_map, inclusive_set, tree_map, tree_set};
use std::iter::{DoubleEndedIterator, Iterator};
use std::ops::{Range, RangeInclusive};

/// Two of each that maps and sets in a sorted vector lend, hand over or are put together by.
pub struct OfVector<'a> {
    pub iters: (
        inclusive_map::Iter<'a, u64, char>,
        inclusive_map::Iter<'a, i64, char>,
    ),
    pub given: (
        inclusive_map::IntoIter<u64, char>,
        inclusive_map::IntoIter<i64, char>,
    ),
    pub overlapping: (
        inclusive_map::Overlapping<'a, u64, char>,
        inclusive_map::Overlapping<'a, i64, char>,
    ),
    pub gaps: (
        inclusive_map::Gaps<'a, u64, char>,
        inclusive_map::Gaps<'a, i64, char>,
    ),
    pub ranges: (inclusive_set::Iter<'a, u64>, inclusive_set::Iter<'a, i64>),
    pub ranges_given: (inclusive_set::IntoIter<u64>, inclusive_set::IntoIter<i64>),
    pub ranges_overlapping: (
        inclusive_set::Overlapping<'a, u64>,
        inclusive_set::Overlapping<'a, i64>,
    ),
    pub gaps_of_sets: (inclusive_set::Gaps<'a, u64>, inclusive_set::Gaps<'a, i64>),
    pub unions: (inclusive_set::Union<'a, u64>, inclusive_set::Union<'a, i64>),
    pub intersections: (
        inclusive_set::Intersection<'a, u64>,
        inclusive_set::Intersection<'a, i64>,
    ),
    pub differences: (
        inclusive_set::Difference<'a, u64>,
        inclusive_set::Difference<'a, i64>,
    ),
    pub in_one: (
        inclusive_set::SymmetricDifference<'a, u64>,
        inclusive_set::SymmetricDifference<'a, i64>,
    ),
}

pub fn pass_vector<'a>(two: OfVector<'a>) -> OfVector<'a> {
    two
}

pub fn walk_vector<'a>(
    one: &'a RangeInclusiveMap<u64, char>,
    other: &'a RangeInclusiveMap<i64, char>,
) {
    let mut iters: (
        inclusive_map::Iter<'a, u64, char>,
        inclusive_map::Iter<'a, i64, char>,
    ) = (one.iter(), other.iter());
    let _: Option<(&RangeInclusive<u64>, &char)> = iters.0.next();
    let _: Option<(&RangeInclusive<i64>, &char)> = iters.1.next_back();
}

/// Two of each that maps and sets in a tree lend, hand over or are put together by.
pub struct OfTree<'a> {
    pub iters: (tree_map::Iter<'a, u64, char>, tree_map::Iter<'a, i64, char>),
    pub given: (tree_map::IntoIter<u64, char>, tree_map::IntoIter<i64, char>),
    pub overlapping: (
        tree_map::Overlapping<'a, u64, char>,
        tree_map::Overlapping<'a, i64, char>,
    ),
    pub gaps: (tree_map::Gaps<'a, u64, char>, tree_map::Gaps<'a, i64, char>),
    pub ranges: (tree_set::Iter<'a, u64>, tree_set::Iter<'a, i64>),
    pub ranges_given: (tree_set::IntoIter<u64>, tree_set::IntoIter<i64>),
    pub ranges_overlapping: (
        tree_set::Overlapping<'a, u64>,
        tree_set::Overlapping<'a, i64>,
    ),
    pub gaps_of_sets: (tree_set::Gaps<'a, u64>, tree_set::Gaps<'a, i64>),
    pub unions: (tree_set::Union<'a, u64>, tree_set::Union<'a, i64>),
    pub intersections: (
        tree_set::Intersection<'a, u64>,
        tree_set::Intersection<'a, i64>,
    ),
    pub differences: (tree_set::Difference<'a, u64>, tree_set::Difference<'a, i64>),
    pub in_one: (
        tree_set::SymmetricDifference<'a, u64>,
        tree_set::SymmetricDifference<'a, i64>,
    ),
}

pub fn pass_tree<'a>(two: OfTree<'a>) -> OfTree<'a> {
    two
}

pub fn walk_tree<'a>(
    one: &'a tree_map::RangeMap<u64, char>,
    other: &'a tree_map::RangeMap<i64, char>,
) {
    let mut iters: (tree_map::Iter<'a, u64, char>, tree_map::Iter<'a, i64, char>) = (
        one.iter(),
        other.iter(),
    );
    let _: Option<(&Range<u64>, &char)> = iters.0.next();
    let _: Option<(&Range<i64>, &char)> = iters.1.next_back();
}

/// Two of each that maps and sets in chunks lend, hand over or are put together by.
pub struct OfChunks<'a> {
    pub iters: (
        chunked::inclusive_map::Iter<'a, u64, char>,
        chunked::inclusive_map::Iter<'a, i64, char>,
    ),
    pub given: (
        chunked::inclusive_map::IntoIter<u64, char>,
        chunked::inclusive_map::IntoIter<i64, char>,
    ),
    pub overlapping: (
        chunked::inclusive_map::Overlapping<'a, u64, char>,
        chunked::inclusive_map::Overlapping<'a, i64, char>,
    ),
    pub gaps: (
        chunked::inclusive_map::Gaps<'a, u64, char>,
        chunked::inclusive_map::Gaps<'a, i64, char>,
    ),
    pub ranges: (
        chunked::inclusive_set::Iter<'a, u64>,
        chunked::inclusive_set::Iter<'a, i64>,
    ),
    pub ranges_given: (
        chunked::inclusive_set::IntoIter<u64>,
        chunked::inclusive_set::IntoIter<i64>,
    ),
    pub ranges_overlapping: (
        chunked::inclusive_set::Overlapping<'a, u64>,
        chunked::inclusive_set::Overlapping<'a, i64>,
    ),
    pub gaps_of_sets: (
        chunked::inclusive_set::Gaps<'a, u64>,
        chunked::inclusive_set::Gaps<'a, i64>,
    ),
    pub unions: (
        chunked::inclusive_set::Union<'a, u64>,
        chunked::inclusive_set::Union<'a, i64>,
    ),
    pub intersections: (
        chunked::inclusive_set::Intersection<'a, u64>,
        chunked::inclusive_set::Intersection<'a, i64>,
    ),
    pub differences: (
        chunked::inclusive_set::Difference<'a, u64>,
        chunked::inclusive_set::Difference<'a, i64>,
    ),
    pub in_one: (
        chunked::inclusive_set::SymmetricDifference<'a, u64>,
        chunked::inclusive_set::SymmetricDifference<'a, i64>,
    ),
}

pub fn pass_chunks<'a>(two: OfChunks<'a>) -> OfChunks<'a> {
    two
}

pub fn walk_chunks<'a>(
    one: &'a chunked::RangeInclusiveMap<u64, char>,
    other: &'a chunked::RangeInclusiveMap<i64, char>,
) {
    let mut iters: (
        chunked::inclusive_map::Iter<'a, u64, char>,
        chunked::inclusive_map::Iter<'a, i64, char>,
    ) = (one.iter(), other.iter());
    let _: Option<(&RangeInclusive<u64>, &char)> = iters.0.next();
    let _: Option<(&RangeInclusive<i64>, &char)> = iters.1.next_back();
}
