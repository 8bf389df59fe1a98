//! Every iterator of the library ends, and stays ended.
//!
//! Each function except the first makes the calls that its law speaks of, and returns what they
//! returned. Each item leaves fewer to come. A call returns none only if none is to come, and from then
//! on.
//!
//! They serve any iterator: what is still to come is any count to which its calls keep (`AllGoToEnd`,
//! `AllTryToEnd`). `items_go_to_the_end` says that the contracts of the library's iterators keep to the
//! number of their items.
ghost use Rattle.std.specs.Prelude.{◌≡◌, ◌≢◌, ◌<◌, ℕ, [], IfNone, IfOk, IsNone, List, None as NoneWord, Ok as OkWord, OnErr, OnSome, Option as OptionOf, Result as ResultOf, length};
ghost use Rattle.std.specs.Fn.{FnOnceReturnsAtMut};
ghost use Rattle.std.specs.Map.Iter.{TakesFirst, TakesLast};
ghost use Rattle.std.specs.declared.alloc.AllocError.{AllocError as Refusal};
ghost use Rattle.rangemap_core.specs.Clones.{KeysCloneInfallibly};
ghost use Rattle.rangemap_core.specs.MadeRanges.{GivesNext, TakesRange};
ghost use Rattle.rangemap_laws.specs.IteratorEnds.{AllGoToEnd, AllTryToEnd, GoesToEnd, TriesToEnd};

use rangemap_core::key_range::KeyRange;
use rangemap_core::kind::Kind;
use std::alloc::AllocError;
use std::iter::{DoubleEndedIterator, Iterator};

/// By its contract, a call of an iterator of the library comes closer to the end. `next` and `next_back`
/// of one that lends or hands over what is stored take the first and the last item. `next` of gaps, of
/// unions and of intersections gives a range, and `try_next` takes one, or is refused.
pub fn items_go_to_the_end<Q: Kind<R>, R: KeyRange, ItemT, ShownT>()
    ensures first { (shows : ItemT → ShownT) (before : List ShownT)
        (answer : OptionOf ItemT) (after : List ShownT)
        → TakesFirst shows before answer after
        → GoesToEnd length before answer after }
    ensures last { (shows : ItemT → ShownT) (before : List ShownT)
        (answer : OptionOf ItemT) (after : List ShownT)
        → TakesLast shows before answer after
        → GoesToEnd length before answer after }
    ensures given { (before : List R) (answer : OptionOf (ResultOf R Refusal)) (after : List R)
        → GivesNext Q.kind (KeysCloneInfallibly R.Key.is_infallible) before answer after
        → GoesToEnd length before answer after }
    ensures tried { (before : List R) (answer : ResultOf (OptionOf R) Refusal) (after : List R)
        → IfOk answer (λ item. TakesRange Q.kind before item after)
        → OnErr answer (after ≡ before)
        → OnErr answer (before ≢ [])
        → TriesToEnd length before answer after }
{}

/// After `next` returned none it returns none again, and nothing has changed. An item leaves fewer to
/// come, so the iterator ends.
pub fn next_stays_ended<I: Iterator>(iter: &mut I) -> (Option<I::Item>, Option<I::Item>)
    requires ready { (it : I) → I.can_next it }
    ensures calls { (between : I) × I.next_gives iter.old result.0 between
        × I.next_gives between result.1 iter.new }
    ensures ends { (left : I → ℕ) → AllGoToEnd left I.next_gives
        → OnSome result.0 (left iter.new < left iter.old) }
    ensures stays { (left : I → ℕ) → AllGoToEnd left I.next_gives
        → IfNone result.0 ((left iter.old ≡ 0) × IsNone result.1 × (iter.new ≡ iter.old)) }
{
    let first = iter.next();
    let again = iter.next();
    (first, again)
}

/// After `next` returned none, `next_back` returns none, and nothing has changed.
pub fn next_ends_both_ends<I: DoubleEndedIterator>(
    iter: &mut I,
) -> (Option<I::Item>, Option<I::Item>)
    requires ready { (it : I) → I.can_next it × I.can_next_back it }
    ensures calls { (between : I) × I.next_gives iter.old result.0 between
        × I.next_back_gives between result.1 iter.new }
    ensures ends { (left : I → ℕ) → AllGoToEnd left I.next_gives → AllGoToEnd left I.next_back_gives
        → OnSome result.0 (left iter.new < left iter.old) }
    ensures stays { (left : I → ℕ) → AllGoToEnd left I.next_gives
        → AllGoToEnd left I.next_back_gives
        → IfNone result.0 ((left iter.old ≡ 0) × IsNone result.1 × (iter.new ≡ iter.old)) }
{
    let front = iter.next();
    let back = iter.next_back();
    (front, back)
}

/// After `next_back` returned none it returns none again, so does `next`, and nothing has changed. An
/// item leaves fewer to come, so the iterator ends.
pub fn next_back_ends_both_ends<I: DoubleEndedIterator>(
    iter: &mut I,
) -> (Option<I::Item>, Option<I::Item>, Option<I::Item>)
    requires ready { (it : I) → I.can_next it × I.can_next_back it }
    ensures calls { (first : I) × (second : I) × I.next_back_gives iter.old result.0 first
        × I.next_back_gives first result.1 second
        × I.next_gives second result.2 iter.new }
    ensures ends { (left : I → ℕ) → AllGoToEnd left I.next_gives → AllGoToEnd left I.next_back_gives
        → OnSome result.0 (left iter.new < left iter.old) }
    ensures stays { (left : I → ℕ) → AllGoToEnd left I.next_gives
        → AllGoToEnd left I.next_back_gives
        → IfNone result.0 ((left iter.old ≡ 0) × IsNone result.1 × IsNone result.2
        × (iter.new ≡ iter.old)) }
{
    let first = iter.next_back();
    let again = iter.next_back();
    let front = iter.next();
    (first, again, front)
}

/// After `next` returned none, `try_next` returns none, so does `next` again, and nothing has changed.
/// An item leaves fewer to come, so the iterator ends. `try_next` is the iterator's own call.
pub fn next_ends_tries<I: Iterator, T, F: Fn(&mut I) -> Result<Option<T>, AllocError>>(
    iter: &mut I,
    try_next: F,
) -> (
    Option<I::Item>,
    Result<Option<T>, AllocError>,
    Option<I::Item>,
)
    requires ready { (it : I) → I.can_next it }
    requires callable { F.IsAlwaysCallable try_next }
    ensures calls { (first : I) × (second : I) × I.next_gives iter.old result.0 first
        × FnOnceReturnsAtMut F.FnOnce try_next first result.1 second
        × I.next_gives second result.2 iter.new }
    ensures ends { (left : I → ℕ) → AllGoToEnd left I.next_gives
        → AllTryToEnd left (FnOnceReturnsAtMut F.FnOnce try_next)
        → OnSome result.0 (left iter.new < left iter.old) }
    ensures stays { (left : I → ℕ) → AllGoToEnd left I.next_gives
        → AllTryToEnd left (FnOnceReturnsAtMut F.FnOnce try_next)
        → IfNone result.0 ((left iter.old ≡ 0) × (result.1 ≡ OkWord NoneWord) × IsNone result.2
        × (iter.new ≡ iter.old)) }
{
    let item = iter.next();
    let tried = try_next(iter);
    let last = iter.next();
    (item, tried, last)
}

/// After `try_next` returned none it returns none again, so does `next`, and nothing has changed. An
/// item leaves fewer to come, so the iterator ends. `try_next` is the iterator's own call.
pub fn try_next_ends_tries<I: Iterator, T, F: Fn(&mut I) -> Result<Option<T>, AllocError>>(
    iter: &mut I,
    try_next: F,
) -> (
    Result<Option<T>, AllocError>,
    Result<Option<T>, AllocError>,
    Option<I::Item>,
)
    requires ready { (it : I) → I.can_next it }
    requires callable { F.IsAlwaysCallable try_next }
    ensures calls { (first : I) × (second : I)
        × FnOnceReturnsAtMut F.FnOnce try_next iter.old result.0 first
        × FnOnceReturnsAtMut F.FnOnce try_next first result.1 second
        × I.next_gives second result.2 iter.new }
    ensures ends { (left : I → ℕ) → AllGoToEnd left I.next_gives
        → AllTryToEnd left (FnOnceReturnsAtMut F.FnOnce try_next)
        → IfOk result.0 (λ answer. OnSome answer (left iter.new < left iter.old)) }
    ensures stays { (left : I → ℕ) → AllGoToEnd left I.next_gives
        → AllTryToEnd left (FnOnceReturnsAtMut F.FnOnce try_next)
        → IfOk result.0 (λ answer. IfNone answer ((left iter.old ≡ 0) × (result.1 ≡ OkWord NoneWord)
        × IsNone result.2 × (iter.new ≡ iter.old))) }
{
    let first = try_next(iter);
    let again = try_next(iter);
    let item = iter.next();
    (first, again, item)
}
