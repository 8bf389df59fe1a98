//! The parts of one list of ranges that another leaves free.
ghost use Rattle.std.specs.Prelude.{◌≡◌, ◌≢◌, ◌+◌, ◌<◌, ◌≤◌, List, [], ◌∷◌, IfOk, IfSome, IsOk, MatchOption, None as NoneWord, OnErr, Option as OptionWord, length, true};
ghost use Rattle.std.specs.Iterator.{UpTo, at_most};
ghost use Rattle.std.specs.Iterator.SizeHint.{IsWithinCount};
ghost use Rattle.std.specs.Option.{option_map};
ghost use Rattle.rangemap_core.specs.Clones.{KeysCloneFaithfully, KeysCloneInfallibly};
ghost use Rattle.rangemap_core.specs.engine.Endpoints.{AtEnd, endpoint_of, is_before};
ghost use Rattle.rangemap_core.specs.engine.PartStarts.{part_start};
ghost use Rattle.rangemap_core.specs.MadeRanges.{GivesNext, TakesRange};
ghost use Rattle.rangemap_core.specs.Sets.{AreWithout, IsCanonicalSet, ranges};
ghost use Rattle.rangemap_core.specs.Shown.{shown, shown_range};
ghost use Rattle.rangemap_unions.specs.Parts.{difference_items, next_end, parts_behind, parts_left};

use rangemap_core::cursor::{Cursor, Peek};
use rangemap_core::key_range::KeyRange;
use rangemap_core::kind::{Endpoint, Kind, part_between, start_of};
use std::alloc::AllocError;
use std::iter::Iterator;
use std::marker::{Model, PhantomData};

/// The difference of two lists of ranges: the parts of the first list's ranges that the second list leaves
/// free, in order.
///
/// It goes over both lists side by side, so all its items together take *O*(*n* + *m*), with *n* and *m*
/// ranges in them. An end of a part is a clone of a key, or, for closed ranges, a step from where the
/// neighbour starts or ends.
#[derive(Drop)]
pub struct Difference<Q: Kind<R>, R: KeyRange, C: Cursor<Range = R>> {
    sides: Sides<C>,
    // Whether a clone was refused to `next`, after which nothing comes.
    is_done: bool,
    kind: PhantomData<(Q, R)>,
}

impl<Q: Kind<R>, R: KeyRange, C: Cursor<Range = R>> Model for Difference<Q, R, C> {
    ghost use Rattle.std.specs.Prelude.{List, [], if◌then◌else◌};
    ghost use Rattle.std.specs.Option.{option_map};
    ghost use Rattle.rangemap_core.specs.Sets.{ranges};
    ghost use Rattle.rangemap_core.specs.Shown.{shown_range};
    ghost use Rattle.rangemap_unions.specs.Parts.{parts_left};

    ghost Value = { List R };

    ghost view = { λ s. if s.is_done then []
        else parts_left Q.kind Q.end_place Q.part_of
        (option_map (shown_range C.given) s.sides.passed)
        (ranges (C.left s.sides.left)) (ranges (C.left s.sides.right)) };
}

impl<Q: Kind<R>, R: KeyRange, C: Peek<Range = R>> Difference<Q, R, C> {
    /// Returns the difference of the ranges of two cursors.
    ///
    /// # Requires
    ///
    /// The ranges that either cursor has left are a canonical list.
    pub fn over(left: C, right: C) -> Self
        requires left { IsCanonicalSet Q.kind (ranges (C.left left)) }
        requires right { IsCanonicalSet Q.kind (ranges (C.left right)) }
        ensures items { result ≡ difference_items Q.kind Q.end_place Q.part_of
            (ranges (C.left left)) (ranges (C.left right)) }
        ensures without { AreWithout Q.kind (ranges (C.left left)) (ranges (C.left right)) result }
    {
        Difference {
            sides: Sides {
                left,
                right,
                passed: None,
            },
            is_done: false,
            kind: PhantomData,
        }
    }

    /// Returns the next part, made of clones, or of steps from its neighbours.
    ///
    /// # Requires
    ///
    /// A clone of a key compares equal to its original.
    ///
    /// # Errors
    ///
    /// A clone was refused. Nothing has changed then. Clones of numbers, characters and references
    /// are never refused.
    pub fn try_next(&mut self) -> Result<Option<R>, AllocError>
        requires { KeysCloneFaithfully R.Key.is_clone R.Key.cmp }
        ensures ok { IfOk result (λ item. TakesRange Q.kind self.old item self.new) }
        ensures err { OnErr result (self.new ≡ self.old) }
        ensures refused { OnErr result (self.old ≢ []) }
        ensures succeeds { KeysCloneInfallibly R.Key.is_infallible → IsOk result }
    {
        if self.is_done {
            return Ok(None);
        }
        self.sides.try_next::<Q>()
    }
}

impl<Q: Kind<R>, R: KeyRange, C: Peek<Range = R>> Iterator for Difference<Q, R, C> {
    type Item = Result<R, AllocError>;

    ghost can_next = { λ _. KeysCloneFaithfully R.Key.is_clone R.Key.cmp };

    ghost next_gives = { GivesNext Q.kind (KeysCloneInfallibly R.Key.is_infallible) };

    ghost remaining = { λ s. at_most (length s) };

    /// Returns the next part, as `try_next` makes it. If a clone is refused, `next` returns
    /// `Some(Err(AllocError))` once, and `None` from then on. Clones of numbers, characters and
    /// references are never refused.
    fn next(&mut self) -> Option<Result<R, AllocError>> {
        let part = self.try_next();
        if part.is_err() {
            // Nothing follows a refusal.
            self.is_done = true;
        }
        part.transpose()
    }

    fn size_hint(&self) -> (usize, Option<usize>)
        ensures lower { IsWithinCount result.0 (at_most (length self.now)) }
        ensures upper { IfSome result.1 (UpTo (at_most (length self.now))) }
        ensures exact { result ≡ (0, NoneWord) }
    {
        (0, None)
    }
}

// What is left of both lists.
#[derive(Drop)]
struct Sides<C: Cursor> {
    left: C,
    right: C,
    // The pair of the right list behind which the next part may start, if that is not where the first
    // range of the left one does.
    passed: Option<(C::Given, C::GivenValue)>,
}

impl<C: Peek> Sides<C> {
    // Passes one range: the next of the right list, if it ends before `range`, the first of the left list,
    // and else `range`.
    fn pass<Q: Kind<C::Range>>(&mut self, range: &C::Range, next: Option<(C::Given, C::GivenValue)>)
        requires first { (ps : List C.Range) × (ranges (C.left self.now.left) ≡ range.now ∷ ps) }
        requires next { MatchOption next (ranges (C.left self.now.right) ≡ [])
            (λ pair. (qs : List C.Range)
            × (ranges (C.left self.now.right) ≡ shown_range C.given pair ∷ qs)) }
        ensures rest { (ps : List C.Range) → ranges (C.left self.old.left) ≡ range.now ∷ ps
            → parts_left Q.kind Q.end_place Q.part_of
            (option_map (shown_range C.given) self.new.passed)
            (ranges (C.left self.new.left)) (ranges (C.left self.new.right))
            ≡ parts_behind Q.kind Q.end_place Q.part_of range.now ps
            (ranges (C.left self.old.right)) }
        ensures fewer { length (ranges (C.left self.new.left))
            + length (ranges (C.left self.new.right))
            < length (ranges (C.left self.old.left)) + length (ranges (C.left self.old.right)) }
    {
        match next {
            Some(pair) if Q::is_before(Endpoint::End(C::parts(&pair).0), Endpoint::End(range)) => {
                let _ = self.right.take_first();
                self.passed = Some(pair);
            }
            _ => {
                let _ = self.left.take_first();
                self.passed = None;
            }
        }
    }

    // Takes the next part, made of clones. `Err` says that a clone was refused: no part is lost then.
    fn try_next<Q: Kind<C::Range>>(&mut self) -> Result<Option<C::Range>, AllocError>
        requires faithful_keys { KeysCloneFaithfully C.Range.Key.is_clone C.Range.Key.cmp }
        ensures ok { IfOk result (λ item. TakesRange Q.kind
            (parts_left Q.kind Q.end_place Q.part_of
            (option_map (shown_range C.given) self.old.passed)
            (ranges (C.left self.old.left)) (ranges (C.left self.old.right)))
            item
            (parts_left Q.kind Q.end_place Q.part_of
            (option_map (shown_range C.given) self.new.passed)
            (ranges (C.left self.new.left)) (ranges (C.left self.new.right)))) }
        ensures err { OnErr result (parts_left Q.kind Q.end_place Q.part_of
            (option_map (shown_range C.given) self.new.passed)
            (ranges (C.left self.new.left)) (ranges (C.left self.new.right))
            ≡ parts_left Q.kind Q.end_place Q.part_of
            (option_map (shown_range C.given) self.old.passed)
            (ranges (C.left self.old.left)) (ranges (C.left self.old.right))) }
        ensures refused { OnErr result (parts_left Q.kind Q.end_place Q.part_of
            (option_map (shown_range C.given) self.old.passed)
            (ranges (C.left self.old.left)) (ranges (C.left self.old.right)) ≢ []) }
        ensures succeeds { KeysCloneInfallibly C.Range.Key.is_infallible → IsOk result }
    {
        'parts: while let Some(first) = self.left.peek() {
            let range = C::parts(&first).0;
            let from = start_of::<C>(&self.passed, range);
            let next = next_behind::<Q, C>(&mut self.right, from);
            let part = part_between::<Q, C::Range>(from, end_of::<Q, C>(&next, range))?;
            self.pass::<Q>(range, next);
            if part.is_some() {
                return Ok(part);
            }
        }
        Ok(None)
    }
}

// Passes the ranges that end before a part may start, which is at `from`, and returns the next one.
fn next_behind<Q: Kind<C::Range>, C: Peek>(
    right: &mut C,
    from: Endpoint<'_, C::Range>,
) -> Option<(C::Given, C::GivenValue)>
    ensures parts { (passed : OptionWord C.Range) → (range : C.Range)
        → (ps : List C.Range) → endpoint_of from.entry ≡ part_start passed range
        → parts_left Q.kind Q.end_place Q.part_of passed (range ∷ ps) (ranges (C.left right.old))
        ≡ parts_left Q.kind Q.end_place Q.part_of passed (range ∷ ps) (ranges (C.left right.new)) }
    ensures next { MatchOption result (C.left right.new ≡ [])
        (λ pair. (rest : List (C.Range × C.Value))
        × (C.left right.new ≡ shown C.given C.given_value pair ∷ rest)
        × (is_before Q.kind Q.end_place (endpoint_of from.entry)
        (AtEnd (shown_range C.given pair)) ≡ true)) }
    ensures fewer { length (C.left right.new) ≤ length (C.left right.old) }
{
    'early: while let Some(pair) = right.peek() {
        if Q::is_before(from, Endpoint::End(C::parts(&pair).0)) {
            return Some(pair);
        }
        let _ = right.take_first();
    }
    None
}

// Returns where the part ends: with the next pair, if its range starts before this one ends, or with the
// range.
fn end_of<'b, Q: Kind<C::Range>, C: Cursor<Range: KeyRange>>(
    next: &'b Option<(C::Given, C::GivenValue)>,
    range: &'b C::Range,
) -> Endpoint<'b, C::Range>
where
    C::Value: 'b,
    C::Range: 'b,
    ensures { endpoint_of result
        ≡ next_end Q.kind Q.end_place (option_map (shown_range C.given) next.now) range.now }
{
    match next {
        Some(pair) if Q::is_before(Endpoint::Start(C::parts(pair).0), Endpoint::End(range)) => {
            Endpoint::Start(C::parts(pair).0)
        }
        _ => Endpoint::End(range),
    }
}
