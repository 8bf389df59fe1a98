//! What the iterators of maps and sets tell a reader, over any store: so a store is named once for each.
ghost use Rattle.rangemap.specs.Clones.{KeysCloneFaithfully};

use crate::readers::{ReadsGaps, ReadsPairs, tell_gaps, tell_pairs, tell_ranges};
use rangemap::map::Map;
use rangemap::set::Set;
use rangemap_core::store::Lends;
use std::alloc::AllocError;

/// Tells a reader of all pairs of a map.
#[inline(always)]
pub fn tell_all_pairs<'a, S: Lends<'a>, U: ReadsPairs<S::Range, S::Value>>(
    map: &'a Map<S>,
    reader: &mut U,
) -> Result<(), AllocError> {
    tell_pairs(map.iter(), reader)
}

/// Tells a reader of the pairs of a map that overlap a range.
#[inline(always)]
pub fn tell_overlapping_pairs<'a, S: Lends<'a>, U: ReadsPairs<S::Range, S::Value>>(
    map: &'a Map<S>,
    range: &'a S::Range,
    reader: &mut U,
) -> Result<(), AllocError> {
    tell_pairs(map.overlapping(range), reader)
}

/// Tells a reader of the gaps of a map in an outer range.
#[inline(always)]
pub fn tell_gaps_of_map<'a, S: Lends<'a>, U: ReadsGaps<S::Range>>(
    map: &'a Map<S>,
    outer_range: &'a S::Range,
    reader: &mut U,
) -> Result<(), AllocError>
    requires { KeysCloneFaithfully S.Range.Key.is_clone S.Range.Key.cmp }
{
    tell_gaps(map.gaps(outer_range), reader)
}

/// Tells a reader of all ranges of a set.
#[inline(always)]
pub fn tell_all_ranges<'a, S: Lends<'a, Value = ()>, U: ReadsPairs<S::Range, ()>>(
    set: &'a Set<S>,
    reader: &mut U,
) -> Result<(), AllocError> {
    tell_ranges(set.iter(), reader)
}

/// Tells a reader of the ranges of a set that overlap a range.
#[inline(always)]
pub fn tell_overlapping_ranges<'a, S: Lends<'a, Value = ()>, U: ReadsPairs<S::Range, ()>>(
    set: &'a Set<S>,
    range: &'a S::Range,
    reader: &mut U,
) -> Result<(), AllocError> {
    tell_ranges(set.overlapping(range), reader)
}

/// Tells a reader of the gaps of a set in an outer range.
#[inline(always)]
pub fn tell_gaps_of_set<'a, S: Lends<'a, Value = ()>, U: ReadsGaps<S::Range>>(
    set: &'a Set<S>,
    outer_range: &'a S::Range,
    reader: &mut U,
) -> Result<(), AllocError>
    requires { KeysCloneFaithfully S.Range.Key.is_clone S.Range.Key.cmp }
{
    tell_gaps(set.gaps(outer_range), reader)
}
