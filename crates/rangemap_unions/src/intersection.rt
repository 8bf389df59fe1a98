//! What two lists of ranges have in common.
ghost use Rattle.std.specs.Prelude.{◌≡◌, ◌≢◌, ◌&&◌, List, [], IfOk, IfSome, IsOk, MatchOption, None as NoneWord, OnErr, Some as SomeWord, length, true};
ghost use Rattle.std.specs.Iterator.{UpTo, at_most};
ghost use Rattle.std.specs.Iterator.SizeHint.{IsWithinCount};
ghost use Rattle.std.specs.Ordering.{is_lt};
ghost use Rattle.std.specs.declared.cmp.Ordering.TheVariants.{Less};
ghost use Rattle.rangemap_core.specs.Clones.{KeysCloneFaithfully, KeysCloneInfallibly};
ghost use Rattle.rangemap_core.specs.MadeRanges.{GivesNext, TakesRange};
ghost use Rattle.rangemap_core.specs.Sets.{AreCommon, AreNonEmptyRanges, IsCanonicalSet, ranges};
ghost use Rattle.rangemap_unions.specs.Items.{earlier_end, intersection_items, later_start, reaches, with_common};

use crate::item::between;
use crate::ranges::Ranges;
use rangemap_core::cursor::{Cursor, Peek};
use rangemap_core::key_range::KeyRange;
use std::alloc::AllocError;
use std::iter::Iterator;
use std::marker::Model;

/// The intersection of two lists of ranges: the parts that both have, in order.
///
/// For closed ranges the contract of `Intersection::new` counts every value of the key type as a key,
/// because it knows no steps. `sets::closed_operations` of `rangemap_laws` and a set's own
/// `intersection` describe the same items by the steps of the keys.
#[derive(Drop)]
pub struct Intersection<C: Cursor<Range: KeyRange>> {
    sides: Sides<C>,
    // Whether a clone was refused to `next`, after which nothing comes.
    is_done: bool,
}

impl<C: Cursor<Range: KeyRange>> Model for Intersection<C> {
    ghost use Rattle.std.specs.Prelude.{List, [], if◌then◌else◌};
    ghost use Rattle.rangemap_core.specs.Sets.{AreNonEmptyRanges, ranges};
    ghost use Rattle.rangemap_unions.specs.Items.{intersection_items};

    ghost Value = { List C.Range };

    ghost view = { λ s. if s.is_done then []
        else intersection_items C.Range.places
        (ranges (C.left s.sides.left)) (ranges (C.left s.sides.right)) };

    ghost invariant = { λ s. AreNonEmptyRanges C.Range.read (intersection_items C.Range.places
        (ranges (C.left s.sides.left)) (ranges (C.left s.sides.right))) };
}

impl<C: Peek> Intersection<C> {
    /// Returns the intersection of what is left in two iterators.
    pub fn new(left: Ranges<C>, right: Ranges<C>) -> Self
        ensures items { result ≡ intersection_items C.Range.places left right }
        ensures common { AreCommon C.Range.read left right result }
    {
        Intersection::over(left.into_cursor(), right.into_cursor())
    }

    /// Returns the intersection of the ranges of two cursors.
    ///
    /// # Requires
    ///
    /// The ranges that either cursor has left are a canonical list.
    pub fn over(left: C, right: C) -> Self
        requires left { IsCanonicalSet C.Range.read (ranges (C.left left)) }
        requires right { IsCanonicalSet C.Range.read (ranges (C.left right)) }
        ensures items { result ≡ intersection_items C.Range.places
            (ranges (C.left left)) (ranges (C.left right)) }
        ensures common { AreCommon C.Range.read (ranges (C.left left)) (ranges (C.left right)) result }
    {
        Intersection {
            sides: Sides { left, right },
            is_done: false,
        }
    }

    /// Returns the next range, made of clones.
    ///
    /// # Requires
    ///
    /// A clone of a key compares equal to its original.
    ///
    /// # Errors
    ///
    /// A clone was refused. Nothing has changed then. Clones of numbers, characters and references
    /// are never refused.
    pub fn try_next(&mut self) -> Result<Option<C::Range>, AllocError>
        requires { KeysCloneFaithfully C.Range.Key.is_clone C.Range.Key.cmp }
        ensures ok { IfOk result (λ item. TakesRange C.Range.read self.old item self.new) }
        ensures err { OnErr result (self.new ≡ self.old) }
        ensures refused { OnErr result (self.old ≢ []) }
        ensures succeeds { KeysCloneInfallibly C.Range.Key.is_infallible → IsOk result }
    {
        if self.is_done {
            return Ok(None);
        }
        self.sides.try_next()
    }
}

impl<C: Peek> Iterator for Intersection<C> {
    type Item = Result<C::Range, AllocError>;

    ghost can_next = { λ _. KeysCloneFaithfully C.Range.Key.is_clone C.Range.Key.cmp };

    ghost next_gives = { GivesNext C.Range.read (KeysCloneInfallibly C.Range.Key.is_infallible) };

    ghost remaining = { λ s. at_most (length s) };

    /// Returns the next range, made of clones. If a clone is refused, `next` returns
    /// `Some(Err(AllocError))` once, and `None` from then on. Clones of numbers, characters and
    /// references are never refused.
    fn next(&mut self) -> Option<Result<C::Range, AllocError>> {
        let item = self.try_next();
        if item.is_err() {
            // Nothing follows a refusal.
            self.is_done = true;
        }
        item.transpose()
    }

    fn size_hint(&self) -> (usize, Option<usize>)
        ensures lower { IsWithinCount result.0 (at_most (length self.now)) }
        ensures upper { IfSome result.1 (UpTo (at_most (length self.now))) }
        ensures exact { result ≡ (0, NoneWord) }
    {
        (0, None)
    }
}

// What two ranges have in common, if anything: from the later start up to the earlier end, where the
// start lies before that end, or, of closed ranges, there.
fn common_part<R: KeyRange>(
    left: &R,
    right: &R,
    left_ends_first: bool,
) -> Result<Option<R>, AllocError>
    requires ends { left_ends_first
        ≡ is_lt (R.places.order (R.places.end_place left.now) (R.places.end_place right.now)) }
    requires in_order { (reaches R.places left.now right.now
        && reaches R.places right.now left.now) ≡ true
        → R.places.order (R.places.start_place (later_start R.places left.now right.now))
        (R.places.end_place (earlier_end R.places left.now right.now)) ≡ Less }
    requires faithful_keys { KeysCloneFaithfully R.Key.is_clone R.Key.cmp }
    ensures made { (rest : List R) → IfOk result (λ part. MatchOption part
        (with_common R.places left.now right.now rest ≡ rest)
        (λ range. TakesRange R.read (with_common R.places left.now right.now rest) (SomeWord range) rest)) }
    ensures refused { OnErr result
        ((reaches R.places left.now right.now && reaches R.places right.now left.now) ≡ true) }
    ensures succeeds { KeysCloneInfallibly R.Key.is_infallible → IsOk result }
{
    let first = if left.start().cmp(right.start()).is_lt() {
        right
    } else {
        left
    };
    let last = if left_ends_first { left } else { right };
    if last.reaches(first.start()) {
        Ok(Some(between(first, last)?))
    } else {
        Ok(None)
    }
}

// What is left of both lists.
#[derive(Drop)]
struct Sides<C: Cursor<Range: KeyRange>> {
    left: C,
    right: C,
}

impl<C: Peek> Sides<C> {
    // Takes the next item, made of clones, and passes what has nothing in common. `Err` says that a
    // clone was refused: no item is lost then.
    fn try_next(&mut self) -> Result<Option<C::Range>, AllocError>
        requires non_empty { AreNonEmptyRanges C.Range.read (intersection_items C.Range.places
            (ranges (C.left self.now.left)) (ranges (C.left self.now.right))) }
        requires faithful_keys { KeysCloneFaithfully C.Range.Key.is_clone C.Range.Key.cmp }
        ensures ok { IfOk result (λ item. TakesRange C.Range.read
            (intersection_items C.Range.places
            (ranges (C.left self.old.left)) (ranges (C.left self.old.right)))
            item
            (intersection_items C.Range.places
            (ranges (C.left self.new.left)) (ranges (C.left self.new.right)))) }
        ensures err { OnErr result (intersection_items C.Range.places
            (ranges (C.left self.new.left)) (ranges (C.left self.new.right))
            ≡ intersection_items C.Range.places
            (ranges (C.left self.old.left)) (ranges (C.left self.old.right))) }
        ensures refused { OnErr result (intersection_items C.Range.places
            (ranges (C.left self.old.left)) (ranges (C.left self.old.right)) ≢ []) }
        ensures succeeds { KeysCloneInfallibly C.Range.Key.is_infallible → IsOk result }
    {
        'both: while let (Some(left_pair), Some(right_pair)) = (
            self.left.peek(),
            self.right.peek(),
        ) {
            let (left, right) = (C::parts(&left_pair).0, C::parts(&right_pair).0);
            let left_ends_first = left.end().cmp(right.end()).is_lt();
            let part = common_part(left, right, left_ends_first)?;
            if left_ends_first {
                let _ = self.left.take_first();
            } else {
                let _ = self.right.take_first();
            }
            if part.is_some() {
                return Ok(part);
            }
        }
        Ok(None)
    }
}
