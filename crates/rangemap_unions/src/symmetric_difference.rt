//! The parts that exactly one of two lists of ranges has.
ghost use Rattle.std.specs.Prelude.{◌≡◌, ◌≢◌, [], IfOk, IfSome, IsOk, None as NoneWord, OnErr, length};
ghost use Rattle.std.specs.Iterator.{UpTo, at_most};
ghost use Rattle.std.specs.Iterator.SizeHint.{IsWithinCount};
ghost use Rattle.rangemap_core.specs.Clones.{KeysCloneFaithfully, KeysCloneInfallibly};
ghost use Rattle.rangemap_core.specs.MadeRanges.{GivesNext, TakesRange};
ghost use Rattle.rangemap_core.specs.Sets.{AreOneOnly, IsCanonicalSet, ranges};
ghost use Rattle.rangemap_unions.specs.Edges.{crossed, exchanged_items, parts_ready};

use crate::edges::{Edge, Sides};
use rangemap_core::cursor::{Cursor, Peek};
use rangemap_core::key_range::KeyRange;
use rangemap_core::kind::{Kind, part_between};
use std::alloc::AllocError;
use std::iter::Iterator;
use std::marker::{Model, PhantomData};

/// The symmetric difference of two lists of ranges: the parts that exactly one of them has, in order. Parts
/// of both that touch are one.
///
/// It goes over both lists side by side, so all its items together take *O*(*n* + *m*), with *n* and *m*
/// ranges in them. An end of a part is a clone of a key, or, for closed ranges beside another range, a
/// step from that range's end.
#[derive(Drop)]
pub struct SymmetricDifference<Q: Kind<R>, R: KeyRange, C: Cursor<Range = R>> {
    parts: Parts<C>,
    // Whether a clone was refused to `next`, after which nothing comes.
    is_done: bool,
    kind: PhantomData<(Q, R)>,
}

impl<Q: Kind<R>, R: KeyRange, C: Cursor<Range = R>> Model for SymmetricDifference<Q, R, C> {
    ghost use Rattle.std.specs.Prelude.{List, [], if◌then◌else◌};
    ghost use Rattle.rangemap_unions.specs.Edges.{crossed, parts_ready};

    ghost Value = { List R };

    ghost view = { λ s. if s.is_done then []
        else parts_ready Q.kind Q.end_place Q.part_of s.parts.pending
        (crossed Q.kind Q.end_place s.parts.sides.left s.parts.sides.right) };
}

impl<Q: Kind<R>, R: KeyRange, C: Peek<Range = R>> SymmetricDifference<Q, R, C> {
    /// Returns the symmetric difference of the ranges of two cursors.
    ///
    /// # Requires
    ///
    /// The ranges that either cursor has left are a canonical list.
    pub fn over(left: C, right: C) -> Self
        requires left { IsCanonicalSet Q.kind (ranges (C.left left)) }
        requires right { IsCanonicalSet Q.kind (ranges (C.left right)) }
        ensures items { result ≡ exchanged_items Q.kind Q.end_place Q.part_of
            (ranges (C.left left)) (ranges (C.left right)) }
        ensures one_only { AreOneOnly Q.kind (ranges (C.left left)) (ranges (C.left right)) result }
    {
        let mut sides = Sides::over(left, right);
        let pending = sides.next_pair::<Q>();
        SymmetricDifference {
            parts: Parts { sides, pending },
            is_done: false,
            kind: PhantomData,
        }
    }

    /// Returns the next part, made of clones, or of steps from its neighbours.
    ///
    /// # Requires
    ///
    /// A clone of a key compares equal to its original.
    ///
    /// # Errors
    ///
    /// A clone was refused. Nothing has changed then. Clones of numbers, characters and references
    /// are never refused.
    pub fn try_next(&mut self) -> Result<Option<R>, AllocError>
        requires { KeysCloneFaithfully R.Key.is_clone R.Key.cmp }
        ensures ok { IfOk result (λ item. TakesRange Q.kind self.old item self.new) }
        ensures err { OnErr result (self.new ≡ self.old) }
        ensures refused { OnErr result (self.old ≢ []) }
        ensures succeeds { KeysCloneInfallibly R.Key.is_infallible → IsOk result }
    {
        if self.is_done {
            return Ok(None);
        }
        self.parts.try_next::<Q>()
    }
}

impl<Q: Kind<R>, R: KeyRange, C: Peek<Range = R>> Iterator for SymmetricDifference<Q, R, C> {
    type Item = Result<R, AllocError>;

    ghost can_next = { λ _. KeysCloneFaithfully R.Key.is_clone R.Key.cmp };

    ghost next_gives = { GivesNext Q.kind (KeysCloneInfallibly R.Key.is_infallible) };

    ghost remaining = { λ s. at_most (length s) };

    /// Returns the next part, as `try_next` makes it. If a clone is refused, `next` returns
    /// `Some(Err(AllocError))` once, and `None` from then on. Clones of numbers, characters and
    /// references are never refused.
    fn next(&mut self) -> Option<Result<R, AllocError>> {
        let part = self.try_next();
        if part.is_err() {
            // Nothing follows a refusal.
            self.is_done = true;
        }
        part.transpose()
    }

    fn size_hint(&self) -> (usize, Option<usize>)
        ensures lower { IsWithinCount result.0 (at_most (length self.now)) }
        ensures upper { IfSome result.1 (UpTo (at_most (length self.now))) }
        ensures exact { result ≡ (0, NoneWord) }
    {
        (0, None)
    }
}

// What is left of both lists, and the edges of the next part, if there is one.
#[derive(Drop)]
struct Parts<C: Cursor> {
    sides: Sides<C>,
    pending: Option<(Edge<C>, Edge<C>)>,
}

impl<C: Peek> Parts<C> {
    // Takes the next part, made of clones. `Err` says that a clone was refused: no part is lost then.
    fn try_next<Q: Kind<C::Range>>(&mut self) -> Result<Option<C::Range>, AllocError>
        requires faithful_keys { KeysCloneFaithfully C.Range.Key.is_clone C.Range.Key.cmp }
        ensures ok { IfOk result (λ item. TakesRange Q.kind
            (parts_ready Q.kind Q.end_place Q.part_of self.old.pending
            (crossed Q.kind Q.end_place self.old.sides.left self.old.sides.right))
            item
            (parts_ready Q.kind Q.end_place Q.part_of self.new.pending
            (crossed Q.kind Q.end_place self.new.sides.left self.new.sides.right))) }
        ensures err { OnErr result (parts_ready Q.kind Q.end_place Q.part_of self.new.pending
            (crossed Q.kind Q.end_place self.new.sides.left self.new.sides.right)
            ≡ parts_ready Q.kind Q.end_place Q.part_of self.old.pending
            (crossed Q.kind Q.end_place self.old.sides.left self.old.sides.right)) }
        ensures refused { OnErr result (parts_ready Q.kind Q.end_place Q.part_of self.old.pending
            (crossed Q.kind Q.end_place self.old.sides.left self.old.sides.right) ≢ []) }
        ensures succeeds { KeysCloneInfallibly C.Range.Key.is_infallible → IsOk result }
    {
        'parts: while let Some((from, to)) = &self.pending {
            let part = part_between::<Q, C::Range>(from.endpoint(), to.endpoint())?;
            self.pending = self.sides.next_pair::<Q>();
            if part.is_some() {
                return Ok(part);
            }
        }
        Ok(None)
    }
}
