//! Each alias with its defaults is the type that it is with all parameters, over any keys: the steps are
//! those of the keys, and the allocator is the global one. What a container hands over is the alias
//! `IntoIter` of its module, and what a loop over a set lends is `Iter`.

use rangemap::{
    RangeInclusiveMap, RangeInclusiveSet, RangeMap, RangeSet, StepLite, chunked, inclusive_map,
    inclusive_set, map, set, tree_map, tree_set, with_room,
};
use std::alloc::Global;
use std::iter::IntoIterator;

pub fn maps<K: StepLite + Clone, V: Eq + Clone>(
    map: RangeMap<K, V>,
    tree: tree_map::RangeMap<K, V>,
    chunks: chunked::RangeMap<K, V>,
    closed_map: RangeInclusiveMap<K, V>,
    closed_chunks: chunked::RangeInclusiveMap<K, V>,
) -> (
    map::RangeMap<K, V, Global>,
    tree_map::RangeMap<K, V, Global>,
    chunked::map::RangeMap<K, V, Global>,
    inclusive_map::RangeInclusiveMap<K, V, K, Global>,
    chunked::inclusive_map::RangeInclusiveMap<K, V, K, Global>,
) {
    (map, tree, chunks, closed_map, closed_chunks)
}

pub fn maps_with_room<K: StepLite + Clone, V: Eq + Clone>(
    map: with_room::RangeMap<K, V>,
    closed_map: with_room::RangeInclusiveMap<K, V>,
) -> (
    with_room::RangeMap<K, V, Global>,
    with_room::RangeInclusiveMap<K, V, K, Global>,
) {
    (map, closed_map)
}

pub fn sets<T: StepLite + Clone>(
    set: RangeSet<T>,
    tree: tree_set::RangeSet<T>,
    chunks: chunked::RangeSet<T>,
    closed_set: RangeInclusiveSet<T>,
    closed_chunks: chunked::RangeInclusiveSet<T>,
) -> (
    set::RangeSet<T, Global>,
    tree_set::RangeSet<T, Global>,
    chunked::set::RangeSet<T, Global>,
    inclusive_set::RangeInclusiveSet<T, T, Global>,
    chunked::inclusive_set::RangeInclusiveSet<T, T, Global>,
) {
    (set, tree, chunks, closed_set, closed_chunks)
}

pub fn given_by_maps<K: StepLite + Clone, V: Eq + Clone>(
    by_map: <RangeMap<K, V> as IntoIterator>::IntoIter,
    by_tree: <tree_map::RangeMap<K, V> as IntoIterator>::IntoIter,
    by_chunks: <chunked::RangeMap<K, V> as IntoIterator>::IntoIter,
    by_closed_map: <RangeInclusiveMap<K, V> as IntoIterator>::IntoIter,
    by_closed_chunks: <chunked::RangeInclusiveMap<K, V> as IntoIterator>::IntoIter,
) -> (
    map::IntoIter<K, V>,
    tree_map::IntoIter<K, V>,
    chunked::map::IntoIter<K, V>,
    inclusive_map::IntoIter<K, V, Global>,
    chunked::inclusive_map::IntoIter<K, V, Global>,
) {
    (by_map, by_tree, by_chunks, by_closed_map, by_closed_chunks)
}

pub fn given_by_sets<T: StepLite + Clone>(
    by_set: <RangeSet<T> as IntoIterator>::IntoIter,
    by_tree: <tree_set::RangeSet<T> as IntoIterator>::IntoIter,
    by_chunks: <chunked::RangeSet<T> as IntoIterator>::IntoIter,
    by_closed_set: <RangeInclusiveSet<T> as IntoIterator>::IntoIter,
    by_closed_chunks: <chunked::RangeInclusiveSet<T> as IntoIterator>::IntoIter,
) -> (
    set::IntoIter<T>,
    tree_set::IntoIter<T>,
    chunked::set::IntoIter<T>,
    inclusive_set::IntoIter<T, Global>,
    chunked::inclusive_set::IntoIter<T, Global>,
) {
    (by_set, by_tree, by_chunks, by_closed_set, by_closed_chunks)
}

pub fn lent_by_sets<'a, T: StepLite + Clone>(
    by_set: <&'a RangeSet<T> as IntoIterator>::IntoIter,
    by_closed_set: <&'a RangeInclusiveSet<T> as IntoIterator>::IntoIter,
    by_tree: <&'a tree_set::RangeSet<T> as IntoIterator>::IntoIter,
    by_chunks: <&'a chunked::RangeSet<T> as IntoIterator>::IntoIter,
    by_closed_chunks: <&'a chunked::RangeInclusiveSet<T> as IntoIterator>::IntoIter,
) -> (
    set::Iter<'a, T>,
    inclusive_set::Iter<'a, T>,
    tree_set::Iter<'a, T>,
    chunked::set::Iter<'a, T>,
    chunked::inclusive_set::Iter<'a, T>,
) {
    (by_set, by_closed_set, by_tree, by_chunks, by_closed_chunks)
}

/// What all parameters of an alias with defaults are, of what maps give over any allocator.
pub fn of_maps<'a, K: StepLite + Clone, V: Eq + Clone>(
    gaps: inclusive_map::Gaps<'a, K, V>,
    iter: chunked::map::Iter<'a, K, V>,
    overlapping: chunked::map::Overlapping<'a, K, V>,
    gaps_in_chunks: chunked::map::Gaps<'a, K, V>,
    closed_iter: chunked::inclusive_map::Iter<'a, K, V>,
    closed_overlapping: chunked::inclusive_map::Overlapping<'a, K, V>,
    closed_gaps: chunked::inclusive_map::Gaps<'a, K, V>,
) -> (
    inclusive_map::Gaps<'a, K, V, K>,
    chunked::map::Iter<'a, K, V, Global>,
    chunked::map::Overlapping<'a, K, V, Global>,
    chunked::map::Gaps<'a, K, V, Global>,
    chunked::inclusive_map::Iter<'a, K, V, Global>,
    chunked::inclusive_map::Overlapping<'a, K, V, Global>,
    chunked::inclusive_map::Gaps<'a, K, V, K, Global>,
) {
    (
        gaps,
        iter,
        overlapping,
        gaps_in_chunks,
        closed_iter,
        closed_overlapping,
        closed_gaps,
    )
}

/// The same of what sets give.
pub fn of_sets<'a, T: StepLite + Clone>(
    gaps: inclusive_set::Gaps<'a, T>,
    overlapping: chunked::set::Overlapping<'a, T>,
    gaps_in_chunks: chunked::set::Gaps<'a, T>,
    both: (
        chunked::set::Union<'a, T>,
        chunked::set::Intersection<'a, T>,
    ),
    closed_overlapping: chunked::inclusive_set::Overlapping<'a, T>,
    closed_gaps: chunked::inclusive_set::Gaps<'a, T>,
    closed_both: (
        chunked::inclusive_set::Union<'a, T>,
        chunked::inclusive_set::Intersection<'a, T>,
    ),
) -> (
    inclusive_set::Gaps<'a, T, T>,
    chunked::set::Overlapping<'a, T, Global>,
    chunked::set::Gaps<'a, T, Global>,
    (
        chunked::set::Union<'a, T, Global>,
        chunked::set::Intersection<'a, T, Global>,
    ),
    chunked::inclusive_set::Overlapping<'a, T, Global>,
    chunked::inclusive_set::Gaps<'a, T, T, Global>,
    (
        chunked::inclusive_set::Union<'a, T, Global>,
        chunked::inclusive_set::Intersection<'a, T, Global>,
    ),
) {
    (
        gaps,
        overlapping,
        gaps_in_chunks,
        both,
        closed_overlapping,
        closed_gaps,
        closed_both,
    )
}

/// The same of the differences of sets.
pub fn differences<'a, T: StepLite + Clone>(
    of_closed: inclusive_set::Difference<'a, T>,
    of_chunks: chunked::set::Difference<'a, T>,
    of_closed_chunks: chunked::inclusive_set::Difference<'a, T>,
    both_of_closed: inclusive_set::SymmetricDifference<'a, T>,
    both_of_chunks: chunked::set::SymmetricDifference<'a, T>,
    both_of_closed_chunks: chunked::inclusive_set::SymmetricDifference<'a, T>,
) -> (
    inclusive_set::Difference<'a, T, T>,
    chunked::set::Difference<'a, T, Global>,
    chunked::inclusive_set::Difference<'a, T, T, Global>,
    inclusive_set::SymmetricDifference<'a, T, T>,
    chunked::set::SymmetricDifference<'a, T, Global>,
    chunked::inclusive_set::SymmetricDifference<'a, T, T, Global>,
) {
    (
        of_closed,
        of_chunks,
        of_closed_chunks,
        both_of_closed,
        both_of_chunks,
        both_of_closed_chunks,
    )
}
