//! The ranges of two lists, joined where they overlap.
ghost use Rattle.std.specs.Prelude.{◌≡◌, ◌≢◌, [], ◌∷◌, ◌++◌, IfOk, IfSome, IsOk, MatchOption, None as NoneWord, OnErr, length, true, unwrap_or};
ghost use Rattle.std.specs.Iterator.{UpTo, at_most};
ghost use Rattle.std.specs.Iterator.SizeHint.{IsWithinCount};
ghost use Rattle.rangemap_core.specs.Clones.{KeysCloneFaithfully, KeysCloneInfallibly};
ghost use Rattle.rangemap_core.specs.MadeRanges.{GivesNext, TakesRange};
ghost use Rattle.rangemap_core.specs.Sets.{AreHulls, AreNonEmptyRanges, CoverEither, IsCanonicalSet, ranges};
ghost use Rattle.rangemap_core.specs.Shown.{shown_range};
ghost use Rattle.rangemap_unions.specs.Items.{items_from, items_of, merged, reaches, union_items};
ghost use Rattle.rangemap_unions.specs.Merged.{IsUnreached, items_left, left_first};

use crate::item::between;
use crate::ranges::Ranges;
use rangemap_core::cursor::{Cursor, Peek};
use rangemap_core::key_range::KeyRange;
use std::alloc::AllocError;
use std::iter::Iterator;
use std::marker::Model;

/// The union of two lists of ranges: those of both, joined where they overlap, in order. Ranges
/// that only touch stay apart.
///
/// For closed ranges the contract of `Union::new` counts every value of the key type as a key, because
/// it knows no steps. `sets::closed_operations` of `rangemap_laws` and a set's own `union` describe the
/// same items by the steps of the keys.
#[derive(Drop)]
pub struct Union<C: Cursor<Range: KeyRange>> {
    sides: Sides<C>,
    // Whether a clone was refused to `next`, after which nothing comes.
    is_done: bool,
}

impl<C: Cursor<Range: KeyRange>> Model for Union<C> {
    ghost use Rattle.std.specs.Prelude.{List, [], if◌then◌else◌};
    ghost use Rattle.rangemap_core.specs.Sets.{AreNonEmptyRanges};
    ghost use Rattle.rangemap_unions.specs.Merged.{items_left};

    ghost Value = { List C.Range };

    ghost view = { λ s. if s.is_done then []
        else items_left C.Range.places C.given s.sides.first s.sides.last
        (C.left s.sides.left) (C.left s.sides.right) };

    ghost invariant = { λ s. AreNonEmptyRanges C.Range.read
        (items_left C.Range.places C.given s.sides.first s.sides.last
        (C.left s.sides.left) (C.left s.sides.right)) };
}

impl<C: Peek> Union<C> {
    /// Returns the union of what is left in two iterators.
    pub fn new(left: Ranges<C>, right: Ranges<C>) -> Self
        ensures items { result ≡ union_items C.Range.places left right }
        ensures hulls { AreHulls C.Range.read (left ++ right) result }
        ensures points { CoverEither C.Range.read left right result }
    {
        Union::over(left.into_cursor(), right.into_cursor())
    }

    /// Returns the union of the ranges of two cursors.
    ///
    /// # Requires
    ///
    /// The ranges that either cursor has left are a canonical list.
    pub fn over(left: C, right: C) -> Self
        requires left { IsCanonicalSet C.Range.read (ranges (C.left left)) }
        requires right { IsCanonicalSet C.Range.read (ranges (C.left right)) }
        ensures items { result ≡ union_items C.Range.places (ranges (C.left left)) (ranges (C.left right)) }
        ensures hulls { AreHulls C.Range.read (ranges (C.left left) ++ ranges (C.left right)) result }
        ensures points { CoverEither C.Range.read (ranges (C.left left)) (ranges (C.left right)) result }
    {
        Union {
            sides: Sides {
                first: None,
                last: None,
                left,
                right,
            },
            is_done: false,
        }
    }

    /// Returns the next range, made of clones.
    ///
    /// # Requires
    ///
    /// A clone of a key compares equal to its original.
    ///
    /// # Errors
    ///
    /// A clone was refused. Nothing has changed then. Clones of numbers, characters and references
    /// are never refused.
    pub fn try_next(&mut self) -> Result<Option<C::Range>, AllocError>
        requires { KeysCloneFaithfully C.Range.Key.is_clone C.Range.Key.cmp }
        ensures ok { IfOk result (λ item. TakesRange C.Range.read self.old item self.new) }
        ensures err { OnErr result (self.new ≡ self.old) }
        ensures refused { OnErr result (self.old ≢ []) }
        ensures succeeds { KeysCloneInfallibly C.Range.Key.is_infallible → IsOk result }
    {
        if self.is_done {
            return Ok(None);
        }
        self.sides.try_next()
    }
}

impl<C: Peek> Iterator for Union<C> {
    type Item = Result<C::Range, AllocError>;

    ghost can_next = { λ _. KeysCloneFaithfully C.Range.Key.is_clone C.Range.Key.cmp };

    ghost next_gives = { GivesNext C.Range.read (KeysCloneInfallibly C.Range.Key.is_infallible) };

    ghost remaining = { λ s. at_most (length s) };

    /// Returns the next range, made of clones. If a clone is refused, `next` returns
    /// `Some(Err(AllocError))` once, and `None` from then on. Clones of numbers, characters and
    /// references are never refused.
    fn next(&mut self) -> Option<Result<C::Range, AllocError>> {
        let item = self.try_next();
        if item.is_err() {
            // Nothing follows a refusal.
            self.is_done = true;
        }
        item.transpose()
    }

    fn size_hint(&self) -> (usize, Option<usize>)
        ensures lower { IsWithinCount result.0 (at_most (length self.now)) }
        ensures upper { IfSome result.1 (UpTo (at_most (length self.now))) }
        ensures exact { result ≡ (0, NoneWord) }
    {
        (0, None)
    }
}

// Whether the first range of the left list comes before that of the right one. Of two that start
// alike the right one does.
fn is_left_first<C: Peek>(left: &mut C, right: &mut C) -> bool
    ensures first { result ≡ left_first C.Range.places
        (ranges (C.left left.old)) (ranges (C.left right.old)) }
    ensures same_left { C.left left.new ≡ C.left left.old }
    ensures same_right { C.left right.new ≡ C.left right.old }
{
    match (left.peek(), right.peek()) {
        (Some(left_pair), Some(right_pair)) => {
            let (left, right) = (C::parts(&left_pair).0, C::parts(&right_pair).0);
            left.start().cmp(right.start()).is_lt()
        }
        (Some(_), None) => true,
        (None, _) => false,
    }
}

// Takes the pair that comes first in either list, if its range starts before `last` ends, or, of
// closed ranges, there.
fn take_reached<C: Peek>(
    last: &C::Range,
    left: &mut C,
    right: &mut C,
) -> Option<(C::Given, C::GivenValue)>
    ensures { MatchOption result
        ((C.left left.new ≡ C.left left.old) × (C.left right.new ≡ C.left right.old)
        × IsUnreached C.Range.places last.now
        (merged C.Range.places (ranges (C.left left.old)) (ranges (C.left right.old))))
        (λ first. (reaches C.Range.places last.now (shown_range C.given first) ≡ true)
        × (merged C.Range.places (ranges (C.left left.old)) (ranges (C.left right.old))
        ≡ shown_range C.given first
        ∷ merged C.Range.places (ranges (C.left left.new)) (ranges (C.left right.new)))) }
{
    if is_left_first(left, right) {
        take_if_reached(last, left)
    } else {
        take_if_reached(last, right)
    }
}

// Takes the first pair of one list, if its range starts before `last` ends, or, of closed ranges, there.
fn take_if_reached<C: Peek>(last: &C::Range, side: &mut C) -> Option<(C::Given, C::GivenValue)>
    ensures { MatchOption result
        ((C.left side.new ≡ C.left side.old)
        × IsUnreached C.Range.places last.now (ranges (C.left side.old)))
        (λ first. (reaches C.Range.places last.now (shown_range C.given first) ≡ true)
        × (ranges (C.left side.old) ≡ shown_range C.given first ∷ ranges (C.left side.new))) }
{
    match side.peek() {
        Some(first) if last.reaches(C::parts(&first).0.start()) => side.take_first(),
        _ => None,
    }
}

// The last of the ranges that are joined.
fn last_of<'b, C: Peek>(
    first: &'b (C::Given, C::GivenValue),
    last: &'b Option<(C::Given, C::GivenValue)>,
) -> &'b C::Range
where
    C::Value: 'b,
    ensures { result.now ≡ shown_range C.given (unwrap_or last.now first.now) }
{
    C::parts(last.as_ref().unwrap_or(first)).0
}

// Goes on as far as the next range overlaps what is joined, which goes from the first range up to
// the last so far.
fn join<C: Peek>(
    first: &(C::Given, C::GivenValue),
    last: &mut Option<(C::Given, C::GivenValue)>,
    left: &mut C,
    right: &mut C,
)
    ensures same { items_from C.Range.places
        (shown_range C.given first.now) (shown_range C.given (unwrap_or last.old first.now))
        (merged C.Range.places (ranges (C.left left.old)) (ranges (C.left right.old)))
        ≡ items_from C.Range.places
        (shown_range C.given first.now) (shown_range C.given (unwrap_or last.new first.now))
        (merged C.Range.places (ranges (C.left left.new)) (ranges (C.left right.new))) }
    ensures ended { items_from C.Range.places
        (shown_range C.given first.now) (shown_range C.given (unwrap_or last.new first.now))
        (merged C.Range.places (ranges (C.left left.new)) (ranges (C.left right.new)))
        ≡ C.Range.places.between (shown_range C.given first.now)
        (shown_range C.given (unwrap_or last.new first.now))
        ∷ items_of C.Range.places
        (merged C.Range.places (ranges (C.left left.new)) (ranges (C.left right.new))) }
{
    'joined: while let Some(next) = take_reached(last_of::<C>(first, last), left, right) {
        let end = C::parts(&next).0.end();
        if last_of::<C>(first, last).end().cmp(end).is_lt() {
            *last = Some(next);
        }
    }
}

// Both lists, and what of them is joined already.
#[derive(Drop)]
struct Sides<C: Cursor<Range: KeyRange>> {
    // Of the item at which a clone was refused: the pair that it starts with, and the one that it
    // ends with, if that is another.
    first: Option<(C::Given, C::GivenValue)>,
    last: Option<(C::Given, C::GivenValue)>,
    left: C,
    right: C,
}

impl<C: Peek> Sides<C> {
    // Takes what is begun, or begins with the next range. It answers the pair that an item starts with, and
    // the one that it ends with so far, if that is another.
    fn begin(&mut self) -> Option<((C::Given, C::GivenValue), Option<(C::Given, C::GivenValue)>)>
        ensures none_begun { self.new.first ≡ NoneWord }
        ensures begun { MatchOption result
            ((items_left C.Range.places C.given self.old.first self.old.last
            (C.left self.old.left) (C.left self.old.right) ≡ [])
            × (merged C.Range.places
            (ranges (C.left self.new.left)) (ranges (C.left self.new.right)) ≡ []))
            (λ begun.
            items_left C.Range.places C.given self.old.first self.old.last
            (C.left self.old.left) (C.left self.old.right)
            ≡ items_from C.Range.places
            (shown_range C.given begun.0) (shown_range C.given (unwrap_or begun.1 begun.0))
            (merged C.Range.places
            (ranges (C.left self.new.left)) (ranges (C.left self.new.right)))) }
    {
        if let Some(first) = self.first.take() {
            return Some((first, self.last.take()));
        }
        if is_left_first(&mut self.left, &mut self.right) {
            Some((self.left.take_first()?, None))
        } else {
            Some((self.right.take_first()?, None))
        }
    }

    // Takes the next item, made of clones. `Err` says that a clone was refused: no item is lost then.
    fn try_next(&mut self) -> Result<Option<C::Range>, AllocError>
        requires non_empty { AreNonEmptyRanges C.Range.read
            (items_left C.Range.places C.given self.now.first self.now.last
            (C.left self.now.left) (C.left self.now.right)) }
        requires faithful_keys { KeysCloneFaithfully C.Range.Key.is_clone C.Range.Key.cmp }
        ensures ok { IfOk result (λ item. TakesRange C.Range.read
            (items_left C.Range.places C.given self.old.first self.old.last
            (C.left self.old.left) (C.left self.old.right))
            item
            (items_left C.Range.places C.given self.new.first self.new.last
            (C.left self.new.left) (C.left self.new.right))) }
        ensures err { OnErr result (items_left C.Range.places C.given self.new.first self.new.last
            (C.left self.new.left) (C.left self.new.right)
            ≡ items_left C.Range.places C.given self.old.first self.old.last
            (C.left self.old.left) (C.left self.old.right)) }
        ensures refused { OnErr result
            (items_left C.Range.places C.given self.old.first self.old.last
            (C.left self.old.left) (C.left self.old.right) ≢ []) }
        ensures succeeds { KeysCloneInfallibly C.Range.Key.is_infallible → IsOk result }
    {
        let Some((first, mut last)) = self.begin() else {
            return Ok(None);
        };
        join(&first, &mut last, &mut self.left, &mut self.right);
        match between(C::parts(&first).0, last_of::<C>(&first, &last)) {
            Ok(item) => Ok(Some(item)),
            Err(error) => {
                // What was begun is kept, so that it may be asked for again.
                self.first = Some(first);
                self.last = last;
                Err(error)
            }
        }
    }
}
