//! Whether stored ranges cover all keys of a range, or all or none of those of another store.
ghost use Rattle.std.specs.Prelude.{◌↔◌, IsTrue};
ghost use Rattle.rangemap_core.specs.Ranges.{IsStorable, covers};
ghost use Rattle.rangemap_core.specs.Sets.{AreCovered, AreDisjoint, IsEach, ranges};

use super::IsAny;
use rangemap_core::cursor::Cursor;
use rangemap_core::key_range::KeyRange;
use rangemap_core::kind::{Endpoint, Kind, known_ends, start_of};
use rangemap_core::reader::Reader;
use rangemap_core::store::Store;
use std::marker::PhantomData;

/// Tells whether the pairs that overlap a range leave no part of it free.
pub struct IsCovered<'q, Q, R>(PhantomData<(Q, &'q R)>);

impl<'q, Q: Kind<R>, R: KeyRange, V> Reader<R, V> for IsCovered<'q, Q, R> {
    ghost use Rattle.std.specs.Prelude.{◌≡◌, length, nat_eq};
    ghost use Rattle.rangemap_core.specs.engine.Endpoints.{AtStart, gaps_from};

    type State = &'q R;

    type Answer = bool;

    ghost reads = { λ pairs range result _. result ≡ nat_eq
        (length (gaps_from Q.kind Q.end_place Q.part_of (AtStart range.now) range.now pairs)) 0 };

    fn read<C: Cursor<Range = R, Value = V, Given: Drop, GivenValue: Drop>>(
        pairs: C,
        range: &mut &'q R,
    ) -> bool {
        let mut rest = pairs;
        let mut last = None;
        'passed: while let Some(next) = rest.take_first() {
            let from = start_of::<C>(&last, *range);
            if Q::is_before(from, Endpoint::Start(C::parts(&next).0)) {
                return false;
            }
            last = Some(next);
        }
        !Q::is_before(start_of::<C>(&last, *range), Endpoint::End(*range))
    }
}

/// Returns whether every key of `range` is covered. `range` may be any range. If it has no key, the
/// result is true.
///
/// It takes *O*(log *n* + *k*), with *k* stored ranges that `range` overlaps, and no memory. It looks at
/// them up to the first gap.
pub fn covers<S: Store>(stored: &S, range: &S::Range) -> bool
    ensures { IsTrue result
        ↔ AreCovered S.Kind.kind (S.Kind.kind.holds range.now) (ranges (S.pairs stored.now)) }
{
    stored.known();
    known_ends::<S::Kind, S::Range>(range);
    let mut asked = range;
    stored.read_overlapping::<IsCovered<S::Kind, S::Range>>(range, &mut asked)
}

// Returns whether every key of a stored range is covered, if `covered` is true, or else whether none is.
fn is_each<S: Store>(stored: &S, range: &S::Range, covered: bool) -> bool
    requires { IsStorable S.Kind.kind range.now }
    ensures { IsTrue result
        ↔ IsEach S.Kind.kind covered (S.Kind.kind.holds range.now) (ranges (S.pairs stored.now)) }
{
    stored.known();
    if covered {
        covers(stored, range)
    } else {
        !stored.read_overlapping::<IsAny>(range, &mut ())
    }
}

/// Another store, and whether it is asked to cover every key of the pairs, or none.
#[derive(Drop)]
pub struct Asked<'s, S> {
    other: &'s S,
    covered: bool,
}

/// Tells whether another store covers every key of the pairs, or none.
pub struct AreEach<'s, S>(PhantomData<&'s S>);

impl<'s, S: Store> Reader<S::Range, S::Value> for AreEach<'s, S> {
    ghost use Rattle.std.specs.Prelude.{◌↔◌, IsTrue};
    ghost use Rattle.rangemap_core.specs.engine.Stretch.{Every};
    ghost use Rattle.rangemap_core.specs.Ranges.{IsStorable, covers};
    ghost use Rattle.rangemap_core.specs.Sets.{IsEach, ranges};

    type State = Asked<'s, S>;

    type Answer = bool;

    ghost may_read = { λ pairs _. Every (λ pair. IsStorable S.Kind.kind pair.0) pairs };

    ghost reads = { λ pairs asked result _. IsTrue result
        ↔ IsEach S.Kind.kind asked.covered (covers S.Kind.kind (ranges pairs))
        (ranges (S.pairs asked.other.now)) };

    fn read<C: Cursor<Range = S::Range, Value = S::Value, Given: Drop, GivenValue: Drop>>(
        pairs: C,
        asked: &mut Asked<'s, S>,
    ) -> bool {
        let mut rest = pairs;
        'asked: while let Some(next) = rest.take_first() {
            if !is_each(asked.other, C::parts(&next).0, asked.covered) {
                return false;
            }
        }
        true
    }
}

/// Returns whether `other` covers every key that `stored` covers.
///
/// It asks `other` about each range of `stored`, up to the first that it does not cover. That takes
/// *O*(*n* log *m*) at most, with *n* ranges in `stored` and *m* in `other`, and no memory.
#[tactic(auto, using(rangemap_core::proofs::StoredLemmas::all_storable))]
pub fn is_subset<S: Store>(stored: &S, other: &S) -> bool
    ensures { IsTrue result
        ↔ AreCovered S.Kind.kind (covers S.Kind.kind (ranges (S.pairs stored.now)))
        (ranges (S.pairs other.now)) }
{
    stored.known();
    let covered = true;
    stored.read::<AreEach<S>>(&mut Asked { other, covered })
}

// Returns whether `other` covers no key that `stored` covers.
#[tactic(auto, using(rangemap_core::proofs::StoredLemmas::all_storable))]
fn is_free<S: Store>(stored: &S, other: &S) -> bool
    ensures { IsTrue result
        ↔ AreDisjoint S.Kind.kind (ranges (S.pairs stored.now)) (ranges (S.pairs other.now)) }
{
    stored.known();
    let covered = false;
    stored.read::<AreEach<S>>(&mut Asked { other, covered })
}

/// Returns whether no key is covered by both stores.
///
/// It asks the longer store about each range of the shorter, up to the first that has a common key. That
/// takes *O*(*n* log *m*) at most, with *n* ranges in the shorter and *m* in the longer, and no memory.
pub fn is_disjoint<S: Store>(stored: &S, other: &S) -> bool
    ensures { IsTrue result
        ↔ AreDisjoint S.Kind.kind (ranges (S.pairs stored.now)) (ranges (S.pairs other.now)) }
{
    if stored.len() <= other.len() {
        is_free(stored, other)
    } else {
        is_free(other, stored)
    }
}
