//! The pairs that overlap a range: for queries an iterator over them, for changes their places.
//!
//! Where they begin is searched for among the starts, as a lookup does. For where they end the next few
//! pairs are looked at one by one, and only if more are met is there a search. A change searches among
//! the starts. A query's iterator searches over whole pairs, by std's `partition_point`: it does not know
//! the kind of its ranges, which the search among starts needs.
ghost use Rattle.std.specs.Prelude.{◌≡◌, ◌≤◌, true, length, take_while};
ghost use Rattle.std.specs.List.Sorted.{IsPartitionedBy};
ghost use Rattle.rangemap_core.specs.engine.Intervals.{is_begun};
ghost use Rattle.rangemap_core.specs.Ranges.{IsCanonical, overlapped};
ghost use Rattle.rangemap_core.specs.engine.Shape.{PassesUpTo, shape_of};
ghost use Rattle.rangemap_core.specs.engine.Stretch.{Every, IsOverlap, ends_by, starts_within};
ghost use Rattle.rangemap_sorted.specs.Overlaps.{IsOverlapEnd};

use crate::search::starts_up_to;
use rangemap_core::cursor::{Cursor, LentCursor};
use rangemap_core::key_range::KeyRange;
use rangemap_core::kind::{Endpoint, Kind, known_ends};
use std::marker::Model;
use std::ops::Range;

// Up to how many pairs are looked at one by one for the end of a query. They lie side by side, and most
// queries meet no more; a search looks at pairs that are far from each other. Those that docs/SPEED.md
// times meet up to ten. No times of other numbers were kept.
const QUERY_SCAN: usize = 16;

// Up to how many pairs are looked at one by one for the end of what a change meets. It mostly meets no
// more, and then a look at each is shorter than a search among all. No times of other numbers were kept.
const CHANGE_SCAN: usize = 4;

/// The pairs that overlap a range, in order.
///
/// One search finds the first of them, when this is made. `take_first` stops at the first pair that
/// starts behind the range. Their end is searched for when the back is first asked for, and only
/// then.
#[derive(Drop)]
pub struct Overlapping<'a, R: KeyRange, V> {
    // The pairs that are left of those that end after the query starts. The ones that overlap it come
    // first: they start before it ends.
    pairs: &'a [(R, V)],
    query: &'a R,
    // Whether the end was searched for. Then all of these pairs overlap the query.
    is_bounded: bool,
}

impl<'a, R: KeyRange, V> Model for Overlapping<'a, R, V> {
    ghost use Rattle.std.specs.Prelude.{◌≡◌, List, false, if◌then◌else◌, take_while};
    ghost use Rattle.std.specs.List.Sorted.{IsPartitionedBy};
    ghost use Rattle.rangemap_core.specs.engine.Intervals.{is_begun};

    ghost Value = { List (R × V) };

    ghost view = { λ s. if s.is_bounded then s.pairs.now
        else take_while (is_begun R.read R.has_end s.query.now) s.pairs.now };

    ghost invariant = { λ s. s.is_bounded ≡ false
        → IsPartitionedBy (is_begun R.read R.has_end s.query.now) s.pairs.now };
}

impl<'a, R: KeyRange, V: Eq> Overlapping<'a, R, V> {
    /// Returns the pairs of a canonical list that overlap the query, which may be empty or
    /// reversed.
    pub fn new<Q: Kind<R>>(pairs: &'a [(R, V)], query: &'a R) -> Self
        requires { IsCanonical Q.kind V.eq pairs.now }
        ensures { result ≡ overlapped Q.kind pairs.now query.now }
    {
        Overlapping {
            pairs: overlapping_tail::<Q, R, V>(pairs, query),
            query,
            is_bounded: false,
        }
    }
}

impl<'a, R: KeyRange, V> Cursor for Overlapping<'a, R, V> {
    ghost use Rattle.std.specs.Map.Iter.{deref};

    type Range = R;

    type Value = V;

    type Given = &'a R;

    type GivenValue = &'a V;

    ghost left = { λ it. it };

    ghost given = { deref };

    ghost given_value = { deref };

    #[inline(always)]
    fn take_first(&mut self) -> Option<(&'a R, &'a V)> {
        let (pair, rest) = self.pairs.split_first()?;
        if self.is_bounded || self.query.reaches(pair.0.start()) {
            self.pairs = rest;
            Some((&pair.0, &pair.1))
        } else {
            None
        }
    }

    #[inline(always)]
    fn take_last(&mut self) -> Option<(&'a R, &'a V)> {
        if !self.is_bounded {
            self.pairs = take_begun::<R, V>(self.pairs, self.query);
            self.is_bounded = true;
        }
        let (pair, rest) = self.pairs.split_last()?;
        self.pairs = rest;
        Some((&pair.0, &pair.1))
    }

    #[inline(always)]
    fn parts<'b>(pair: &'b (&'a R, &'a V)) -> (&'b R, &'b V) {
        (pair.0, pair.1)
    }
}

impl<'a, R: KeyRange, V> LentCursor<'a, R> for Overlapping<'a, R, V> {
    ghost use Rattle.std.specs.Prelude.{refl};

    ghost lent = { λ range. refl };
}

/// Returns the pairs of a canonical list from the first on that ends after the query starts. Of these
/// the ones that overlap it come first: those that start before it ends, which may be all.
pub fn overlapping_tail<'a, Q: Kind<R>, R: KeyRange, V: Eq>(
    pairs: &'a [(R, V)],
    query: &R,
) -> &'a [(R, V)]
    requires { IsCanonical Q.kind V.eq pairs.now }
    ensures overlapped { take_while (is_begun R.read R.has_end query.now) result.now
        ≡ overlapped Q.kind pairs.now query.now }
    ensures begun_first { IsPartitionedBy (is_begun R.read R.has_end query.now) result.now }
    ensures all { Every
        (λ pair. starts_within (shape_of Q.kind Q.end_place V.eq) query.now pair ≡ true) pairs.now
        → result.now ≡ overlapped Q.kind pairs.now query.now }
{
    known_ends::<Q, R>(query);
    &pairs[overlap_start::<Q, R, V>(pairs, query)..]
}

/// Returns the pairs that start before the query ends, where these come first. Where they are many,
/// std's search finds where they end, which sees whole pairs.
pub fn take_begun<'a, R: KeyRange, V>(pairs: &'a [(R, V)], query: &R) -> &'a [(R, V)]
    requires { IsPartitionedBy (is_begun R.read R.has_end query.now) pairs.now }
    ensures { result.now ≡ take_while (is_begun R.read R.has_end query.now) pairs.now }
{
    if QUERY_SCAN < pairs.len() && query.reaches(pairs[QUERY_SCAN].0.start()) {
        let count = pairs.partition_point(|pair| query.reaches(pair.0.start()));
        return &pairs[..count];
    }
    let mut at = 0;
    'on: while at < pairs.len() && query.reaches(pairs[at].0.start()) {
        at += 1;
    }
    &pairs[..at]
}

/// Returns the places of the pairs that overlap a range which is to be changed.
//
// Inlined, so that the ends of a range that was handed over in memory are read one by one there, as
// they were written.
#[inline(always)]
pub(crate) fn overlap<Q: Kind<R>, R: KeyRange, V: Eq>(pairs: &[(R, V)], range: &R) -> Range<usize>
    requires { IsCanonical Q.kind V.eq pairs.now }
    ensures { IsOverlap (shape_of Q.kind Q.end_place V.eq) pairs.now range.now result.start result.end }
{
    let start = overlap_start::<Q, R, V>(pairs, range);
    start..overlap_end::<Q, R, V>(pairs, range, start)
}

// The place of the first pair that ends after the query starts.
//
// Of the pairs that start no later than the query, only the last can reach past its start: a search
// among the starts and one look find the place. The look compiles to no branch: where a query
// begins one answer is as likely as the other, so a branch would be guessed wrong every other time.
fn overlap_start<Q: Kind<R>, R: KeyRange, V: Eq>(pairs: &[(R, V)], query: &R) -> usize
    requires { IsCanonical Q.kind V.eq pairs.now }
    ensures bound { result ≤ length pairs.now }
    ensures point { PassesUpTo (ends_by (shape_of Q.kind Q.end_place V.eq) query.now) pairs.now result }
{
    let near = starts_up_to::<Q, R, V>(pairs, query.start());
    if near == 0 {
        return 0;
    }
    let reaches = Q::is_before(Endpoint::Start(query), Endpoint::End(&pairs[near - 1].0));
    near - usize::from(reaches)
}

// The place of the first pair from `start` on that does not start before the query ends.
//
// Of the pairs that start no later than the query's end, only the last can start there, and it
// overlaps only where the end is a point of the query. So where the place is far, a search among the
// starts and one look find it.
fn overlap_end<Q: Kind<R>, R: KeyRange, V: Eq>(pairs: &[(R, V)], query: &R, start: usize) -> usize
    requires canonical { IsCanonical Q.kind V.eq pairs.now }
    requires in_bounds { start ≤ length pairs.now }
    ensures { IsOverlapEnd (shape_of Q.kind Q.end_place V.eq) pairs.now query.now start result }
{
    let end = Endpoint::End(query);
    if CHANGE_SCAN < pairs.len() - start
        && Q::is_before(Endpoint::Start(&pairs[start + CHANGE_SCAN].0), end)
    {
        known_ends::<Q, R>(query);
        // There is one that starts no later than the query's end: the pair that was looked at.
        let last = starts_up_to::<Q, R, V>(pairs, query.end()) - 1;
        let begins = Q::is_before(Endpoint::Start(&pairs[last].0), end);
        return last + usize::from(begins);
    }
    let mut at = start;
    'on: while at < pairs.len() && Q::is_before(Endpoint::Start(&pairs[at].0), end) {
        at += 1;
    }
    at
}
