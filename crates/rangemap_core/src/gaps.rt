//! The parts of a range that no stored range covers, for any store.
ghost use Rattle.std.specs.Prelude.{◌≡◌, ◌≢◌, ◌++◌, [], Bool, IfOk, IfSome, IsOk, List, None as NoneWord, Ok as OkWord, OnErr, OnOk, length, map};
ghost use Rattle.std.specs.Iterator.{Drains, IsFinite, UpTo, at_most};
ghost use Rattle.std.specs.Iterator.SizeHint.{IsWithinCount};
ghost use Rattle.std.specs.Map.Iter.{TakesFirst};
ghost use Rattle.std.specs.Option.{option_map, option_to_list};
ghost use Rattle.rangemap_core.specs.Clones.{KeysCloneFaithfully, KeysCloneInfallibly};
ghost use Rattle.rangemap_core.specs.engine.Endpoints.{AtStart, IsAsked, gaps_from};
ghost use Rattle.rangemap_core.specs.MadeRanges.{GivesNext, TakesRange};
ghost use Rattle.rangemap_core.specs.NonEmptyPairs.{GivesNothing};
ghost use Rattle.rangemap_core.specs.Ranges.{AreGaps, IsCanonical, overlapped};
ghost use Rattle.rangemap_core.specs.Shown.{shown};

use crate::cursor::{Cursor, LentCursor};
use crate::key_range::KeyRange;
use crate::kind::{Endpoint, Kind, known_ends, part_between};
use crate::store::Lends;
use std::alloc::{AllocError, Allocator};
use std::iter::Iterator;
use std::marker::{Model, PhantomData};

/// The gaps that stored ranges leave in a range, in order. It reads the pairs that overlap the range.
#[derive(Drop)]
pub struct Gaps<'a, Q: Kind<R>, R: KeyRange, C: Cursor<Range = R>> {
    // Where the next gap may start: with the outer range, or behind the last stored range.
    from: Endpoint<'a, R>,
    // The pair before which a gap was refused. You may ask for that gap again.
    refused: Option<(C::Given, C::GivenValue)>,
    pairs: C,
    outer_range: &'a R,
    is_done: bool,
    kind: PhantomData<Q>,
}

impl<'a, Q: Kind<R>, R: KeyRange, C: Cursor<Range = R>> Model for Gaps<'a, Q, R, C> {
    ghost use Rattle.std.specs.Prelude.{List, [], ◌++◌, if◌then◌else◌};
    ghost use Rattle.std.specs.Option.{option_map, option_to_list};
    ghost use Rattle.rangemap_core.specs.engine.Endpoints.{endpoint_of, gaps_from};
    ghost use Rattle.rangemap_core.specs.Shown.{shown};

    ghost Value = { List R };

    ghost view = { λ s. if s.is_done then []
        else gaps_from Q.kind Q.end_place Q.part_of (endpoint_of s.from) s.outer_range.now
        (option_to_list (option_map (shown C.given C.given_value) s.refused) ++ C.left s.pairs) };
}

impl<'a, Q: Kind<R>, R: KeyRange + 'a, C: LentCursor<'a, R, GivenValue: Drop>> Gaps<'a, Q, R, C> {
    /// Returns the gaps that pairs leave in the range. The pairs are those of a canonical list that
    /// overlap the range, and its ends are keys.
    pub fn over(pairs: C, outer_range: &'a R) -> Self
        ensures items { result ≡ gaps_from Q.kind Q.end_place Q.part_of
            (AtStart outer_range.now) outer_range.now (C.left pairs) }
        ensures gaps { (eq : C.Value → C.Value → Bool) → (list : List (R × C.Value))
            → IsCanonical Q.kind eq list → IsAsked Q.kind outer_range.now
            → C.left pairs ≡ overlapped Q.kind list outer_range.now
            → AreGaps Q.kind (map (λ pair. pair.0) list) outer_range.now result }
    {
        Gaps {
            from: Endpoint::Start(outer_range),
            refused: None,
            pairs,
            outer_range,
            is_done: false,
            kind: PhantomData,
        }
    }

    /// Returns the next gap, made of clones, or of steps from the neighbours.
    ///
    /// # Requires
    ///
    /// A clone of a key compares equal to its original.
    ///
    /// # Errors
    ///
    /// A clone was refused. Nothing has changed then, so you may ask for the same gap again. Clones
    /// of numbers, characters and references are never refused.
    pub fn try_next(&mut self) -> Result<Option<R>, AllocError>
        requires { KeysCloneFaithfully R.Key.is_clone R.Key.cmp }
        ensures ok { IfOk result (λ item. TakesRange Q.kind self.old item self.new) }
        ensures err { OnErr result (self.new ≡ self.old) }
        ensures refused { OnErr result (self.old ≢ []) }
        ensures succeeds { KeysCloneInfallibly R.Key.is_infallible → IsOk result }
    {
        if self.is_done {
            return Ok(None);
        }
        'passed: while let Some(next) = take_next(&mut self.refused, &mut self.pairs) {
            match part_between::<Q, R>(self.from, Endpoint::Start(next.0)) {
                Ok(gap) => {
                    self.from = Endpoint::End(next.0);
                    if gap.is_some() {
                        return Ok(gap);
                    }
                }
                Err(error) => {
                    self.refused = Some(next);
                    return Err(error);
                }
            }
        }
        let gap = part_between::<Q, R>(self.from, Endpoint::End(self.outer_range))?;
        self.is_done = true;
        Ok(gap)
    }
}

impl<'a, Q: Kind<R>, R: KeyRange + 'a, C: LentCursor<'a, R, GivenValue: Drop>> Iterator
    for Gaps<'a, Q, R, C> {
    type Item = Result<R, AllocError>;

    ghost can_next = { λ _. KeysCloneFaithfully R.Key.is_clone R.Key.cmp };

    ghost next_gives = { GivesNext Q.kind (KeysCloneInfallibly R.Key.is_infallible) };

    ghost remaining = { λ s. at_most (length s) };

    /// Returns the next gap, as `try_next` makes it. If a clone is refused, `next` returns
    /// `Some(Err(AllocError))` once, and `None` from then on. Clones of numbers, characters and
    /// references are never refused.
    fn next(&mut self) -> Option<Result<R, AllocError>> {
        let gap = self.try_next();
        if gap.is_err() {
            // Nothing follows a refusal.
            self.is_done = true;
        }
        gap.transpose()
    }

    fn size_hint(&self) -> (usize, Option<usize>)
        ensures lower { IsWithinCount result.0 (at_most (length self.now)) }
        ensures upper { IfSome result.1 (UpTo (at_most (length self.now))) }
        ensures exact { result ≡ (0, NoneWord) }
    {
        (0, None)
    }
}

/// Returns the gaps that the stored ranges leave in the range, which may be empty or reversed.
pub fn gaps_of<'a, S: Lends<'a>>(
    stored: &'a S,
    outer_range: &'a S::Range,
) -> Gaps<'a, S::Kind, S::Range, S::Overlapping>
where
    S::Range: 'a,
    S::Value: 'a,
    ensures { AreGaps S.Kind.kind (map (λ pair. pair.0) (S.pairs stored.now)) outer_range.now result }
{
    known_ends::<S::Kind, S::Range>(outer_range);
    stored.known();
    Gaps::over(stored.overlapping(outer_range), outer_range)
}

/// Appends the gaps that pairs leave in `outer_range`. The pairs are those that overlap it.
///
/// # Requires
///
/// A clone of a key compares equal to its original.
///
/// # Errors
///
/// A clone of a key, or the growth of the vector, was refused. The vector is then as it was. Items that
/// were appended before the refusal are removed again. If there is no gap, the call takes no memory,
/// succeeds and changes nothing.
pub fn append_gaps<
    'a,
    Q: Kind<R>,
    R: KeyRange + 'a,
    C: LentCursor<'a, R, GivenValue: Drop>,
    B: Allocator,
>(pairs: C, outer_range: &'a R, out: &mut Vec<R, B>) -> Result<(), AllocError>
    requires { KeysCloneFaithfully R.Key.is_clone R.Key.cmp }
    ensures ok { OnOk result ((gaps : List _)
        × Drains (GivesNext Q.kind (KeysCloneInfallibly R.Key.is_infallible))
        (gaps_from Q.kind Q.end_place Q.part_of
        (AtStart outer_range.now) outer_range.now (C.left pairs))
        (map OkWord gaps)
        × (out.new.items ≡ out.old.items ++ gaps)) }
    ensures err { OnErr result (out.new.items ≡ out.old.items) }
    ensures of_nothing { gaps_from Q.kind Q.end_place Q.part_of
        (AtStart outer_range.now) outer_range.now (C.left pairs) ≡ []
        → IsOk result × (out.new.items ≡ out.old.items) }
{
    append_items(Gaps::<Q, R, C>::over(pairs, outer_range), out)
}

// Appends the ranges that are still to come. If a range or the growth of the vector is refused, the
// vector is as it was.
fn append_items<R: Drop, I: Iterator<Item = Result<R, AllocError>> + Drop, B: Allocator>(
    gaps: I,
    out: &mut Vec<R, B>,
) -> Result<(), AllocError>
    requires can { I.can_next gaps }
    requires ends { IsFinite (I.remaining gaps) }
    ensures ok { OnOk result ((items : List _) × Drains I.next_gives gaps (map OkWord items)
        × (out.new.items ≡ out.old.items ++ items)) }
    ensures err { OnErr result (out.new.items ≡ out.old.items) }
    ensures of_nothing { GivesNothing I.next_gives gaps → IsOk result × (out.new.items ≡ out.old.items) }
{
    let start = out.len();
    for gap in gaps {
        let is_pushed = match gap {
            Ok(gap) => out.push(gap).is_ok(),
            Err(_) => false,
        };
        if !is_pushed {
            out.truncate(start);
            return Err(AllocError);
        }
    }
    Ok(())
}

// Takes the pair at which a gap was refused, if there is one, or the next.
fn take_next<C: Cursor>(
    refused: &mut Option<(C::Given, C::GivenValue)>,
    pairs: &mut C,
) -> Option<(C::Given, C::GivenValue)>
    ensures none_refused { refused.new ≡ NoneWord }
    ensures taken { TakesFirst (shown C.given C.given_value)
        (option_to_list (option_map (shown C.given C.given_value) refused.old) ++ C.left pairs.old)
        result (C.left pairs.new) }
{
    if let Some(next) = refused.take() {
        return Some(next);
    }
    pairs.take_first()
}
