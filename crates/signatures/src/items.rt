//! What each iterator gives, and from which ends, over any keys: an item of `Rev<I>` is one that `I` gives
//! from its back.

use rangemap::{StepFns, chunked, inclusive_map, inclusive_set, map, set, tree_map, tree_set};
use std::alloc::{AllocError, Allocator};
use std::iter::{Iterator, Rev};
use std::ops::{Range, RangeInclusive};

pub fn lent_by_maps<'a, K: Ord + Clone, V: Eq + Clone, A: Allocator + Clone + 'a>(
    pair: <Rev<map::Iter<'a, K, V>> as Iterator>::Item,
    pair_of_tree: <Rev<tree_map::Iter<'a, K, V>> as Iterator>::Item,
    pair_of_chunks: <Rev<chunked::map::Iter<'a, K, V, A>> as Iterator>::Item,
    overlapping: <Rev<map::Overlapping<'a, K, V>> as Iterator>::Item,
    overlapping_in_tree: <Rev<tree_map::Overlapping<'a, K, V>> as Iterator>::Item,
    overlapping_in_chunks: <Rev<chunked::map::Overlapping<'a, K, V, A>> as Iterator>::Item,
) -> [(&'a Range<K>, &'a V); 6] {
    [
        pair,
        pair_of_tree,
        pair_of_chunks,
        overlapping,
        overlapping_in_tree,
        overlapping_in_chunks,
    ]
}

pub fn lent_by_closed_maps<'a, K: Ord + Clone, V: Eq + Clone, A: Allocator + Clone + 'a>(
    pair: <Rev<inclusive_map::Iter<'a, K, V>> as Iterator>::Item,
    pair_of_chunks: <Rev<chunked::inclusive_map::Iter<'a, K, V, A>> as Iterator>::Item,
    overlapping: <Rev<inclusive_map::Overlapping<'a, K, V>> as Iterator>::Item,
    overlapping_in_chunks: <Rev<
        chunked::inclusive_map::Overlapping<'a, K, V, A>,
    > as Iterator>::Item,
) -> [(&'a RangeInclusive<K>, &'a V); 4] {
    [pair, pair_of_chunks, overlapping, overlapping_in_chunks]
}

pub fn lent_by_sets<'a, T: Ord + Clone, A: Allocator + Clone + 'a>(
    range: <Rev<set::Iter<'a, T>> as Iterator>::Item,
    range_of_tree: <Rev<tree_set::Iter<'a, T>> as Iterator>::Item,
    range_of_chunks: <Rev<chunked::set::Iter<'a, T, A>> as Iterator>::Item,
    overlapping: <Rev<set::Overlapping<'a, T>> as Iterator>::Item,
    overlapping_in_tree: <Rev<tree_set::Overlapping<'a, T>> as Iterator>::Item,
    overlapping_in_chunks: <Rev<chunked::set::Overlapping<'a, T, A>> as Iterator>::Item,
) -> [&'a Range<T>; 6] {
    [
        range,
        range_of_tree,
        range_of_chunks,
        overlapping,
        overlapping_in_tree,
        overlapping_in_chunks,
    ]
}

pub fn lent_by_closed_sets<'a, T: Ord + Clone, A: Allocator + Clone + 'a>(
    range: <Rev<inclusive_set::Iter<'a, T>> as Iterator>::Item,
    range_of_chunks: <Rev<chunked::inclusive_set::Iter<'a, T, A>> as Iterator>::Item,
    overlapping: <Rev<inclusive_set::Overlapping<'a, T>> as Iterator>::Item,
    overlapping_in_chunks: <Rev<chunked::inclusive_set::Overlapping<'a, T, A>> as Iterator>::Item,
) -> [&'a RangeInclusive<T>; 4] {
    [range, range_of_chunks, overlapping, overlapping_in_chunks]
}

pub fn given_by_maps<K: Ord + Clone, V: Eq + Clone, A: Allocator + Clone>(
    by_map: <Rev<map::IntoIter<K, V, A>> as Iterator>::Item,
    by_tree: <Rev<tree_map::IntoIter<K, V, A>> as Iterator>::Item,
    by_chunks: <Rev<chunked::map::IntoIter<K, V, A>> as Iterator>::Item,
    by_closed_map: <Rev<inclusive_map::IntoIter<K, V, A>> as Iterator>::Item,
    by_closed_chunks: <Rev<chunked::inclusive_map::IntoIter<K, V, A>> as Iterator>::Item,
) -> ([(Range<K>, V); 3], [(RangeInclusive<K>, V); 2]) {
    (
        [by_map, by_tree, by_chunks],
        [by_closed_map, by_closed_chunks],
    )
}

pub fn given_by_sets<T: Ord + Clone, A: Allocator + Clone>(
    by_set: <Rev<set::IntoIter<T, A>> as Iterator>::Item,
    by_tree: <Rev<tree_set::IntoIter<T, A>> as Iterator>::Item,
    by_chunks: <Rev<chunked::set::IntoIter<T, A>> as Iterator>::Item,
    by_closed_set: <Rev<inclusive_set::IntoIter<T, A>> as Iterator>::Item,
    by_closed_chunks: <Rev<chunked::inclusive_set::IntoIter<T, A>> as Iterator>::Item,
) -> ([Range<T>; 3], [RangeInclusive<T>; 2]) {
    (
        [by_set, by_tree, by_chunks],
        [by_closed_set, by_closed_chunks],
    )
}

pub fn gaps<'a, K: Ord + Clone + 'a, V: Eq + Clone + 'a, S: StepFns<K>, A: Allocator + Clone + 'a>(
    of_map: <map::Gaps<'a, K, V> as Iterator>::Item,
    of_tree: <tree_map::Gaps<'a, K, V> as Iterator>::Item,
    of_chunks: <chunked::map::Gaps<'a, K, V, A> as Iterator>::Item,
    of_closed_map: <inclusive_map::Gaps<'a, K, V, S> as Iterator>::Item,
    of_closed_chunks: <chunked::inclusive_map::Gaps<'a, K, V, S, A> as Iterator>::Item,
) -> (
    [Result<Range<K>, AllocError>; 3],
    [Result<RangeInclusive<K>, AllocError>; 2],
) {
    (
        [of_map, of_tree, of_chunks],
        [of_closed_map, of_closed_chunks],
    )
}

pub fn of_sets<'a, T: Ord + Clone + 'a, A: Allocator + Clone + 'a>(
    gap: <set::Gaps<'a, T> as Iterator>::Item,
    gap_of_tree: <tree_set::Gaps<'a, T> as Iterator>::Item,
    gap_of_chunks: <chunked::set::Gaps<'a, T, A> as Iterator>::Item,
    in_either: <set::Union<'a, T> as Iterator>::Item,
    in_either_tree: <tree_set::Union<'a, T> as Iterator>::Item,
    in_either_of_chunks: <chunked::set::Union<'a, T, A> as Iterator>::Item,
    in_both: <set::Intersection<'a, T> as Iterator>::Item,
    in_both_trees: <tree_set::Intersection<'a, T> as Iterator>::Item,
    in_both_of_chunks: <chunked::set::Intersection<'a, T, A> as Iterator>::Item,
    in_first: <set::Difference<'a, T> as Iterator>::Item,
    in_first_tree: <tree_set::Difference<'a, T> as Iterator>::Item,
    in_first_of_chunks: <chunked::set::Difference<'a, T, A> as Iterator>::Item,
    in_one: <set::SymmetricDifference<'a, T> as Iterator>::Item,
    in_one_tree: <tree_set::SymmetricDifference<'a, T> as Iterator>::Item,
    in_one_of_chunks: <chunked::set::SymmetricDifference<'a, T, A> as Iterator>::Item,
) -> [[Result<Range<T>, AllocError>; 3]; 5] {
    [
        [gap, gap_of_tree, gap_of_chunks],
        [in_either, in_either_tree, in_either_of_chunks],
        [in_both, in_both_trees, in_both_of_chunks],
        [in_first, in_first_tree, in_first_of_chunks],
        [in_one, in_one_tree, in_one_of_chunks],
    ]
}

pub fn of_closed_sets<'a, T: Ord + Clone + 'a, S: StepFns<T>, A: Allocator + Clone + 'a>(
    gap: <inclusive_set::Gaps<'a, T, S> as Iterator>::Item,
    gap_of_chunks: <chunked::inclusive_set::Gaps<'a, T, S, A> as Iterator>::Item,
    in_either: <inclusive_set::Union<'a, T> as Iterator>::Item,
    in_either_of_chunks: <chunked::inclusive_set::Union<'a, T, A> as Iterator>::Item,
    in_both: <inclusive_set::Intersection<'a, T> as Iterator>::Item,
    in_both_of_chunks: <chunked::inclusive_set::Intersection<'a, T, A> as Iterator>::Item,
    in_first: <inclusive_set::Difference<'a, T, S> as Iterator>::Item,
    in_first_of_chunks: <chunked::inclusive_set::Difference<'a, T, S, A> as Iterator>::Item,
    in_one: <inclusive_set::SymmetricDifference<'a, T, S> as Iterator>::Item,
    in_one_of_chunks: <chunked::inclusive_set::SymmetricDifference<'a, T, S, A> as Iterator>::Item,
) -> [[Result<RangeInclusive<T>, AllocError>; 2]; 5] {
    [
        [gap, gap_of_chunks],
        [in_either, in_either_of_chunks],
        [in_both, in_both_of_chunks],
        [in_first, in_first_of_chunks],
        [in_one, in_one_of_chunks],
    ]
}
