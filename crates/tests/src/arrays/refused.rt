//! Containers that are made of an array of two items, each request for memory refused in its turn.
//!
//! An array takes a list, through which it is read, beside what inserts of its items take. In a tree
//! the first pair takes a node and its key, and the second what it clones. In chunks all takes the
//! list of them besides, and a chunk of three pairs is cut in two where it may have two, for which it
//! asks, and does without. A second item inside the first pair clones both ends of the two pieces,
//! four, or of closed ranges the end at which each is cut, two; one that joins a range both ends, two;
//! and one that stays apart none. In a tree two keys are cloned besides. Of texts each piece clones its
//! own.
ghost use Rattle.std.specs.Prelude.{IfOk};

use crate::checks::{MANY, Requests, check_tried};
use rangemap::map::Map;
use rangemap::set::Set;
use rangemap::{RangeInclusiveMap, RangeInclusiveSet, RangeMap, RangeSet, tree_map, tree_set};
use rangemap_chunked::Chunks;
use rangemap_core::closed::Closed;
use rangemap_core::half_open::HalfOpen;
use rangemap_core::key_range::KeyRange;
use rangemap_core::kind::Kind;
use rows_text::{Costly, Fault, Heap, Refusing, Text, Word, pair_of};
use std::alloc::{AllocError, Global};
use std::fmt::Debug;
use std::ops::{Range, RangeInclusive};
use std::test::Fail;

// Two items of an array, and the text of what they make.
type Row<'t> = (&'t str, &'t str, &'t str);

// What an array made, unless it was refused memory.
type OfArray<M> = Result<Result<M, AllocError>, Fault>;

// A container that is made of an array of two items. Over any keys and values it would have to be
// shown that the array is not too long for memory, so each type has an impl of its own.
trait OfTwo<'a>: Debug + Drop + Sized {
    // Makes it of the items of a row. The request that comes after `granted` others is refused.
    fn of_two(heap: &'a Heap, row: Row<'_>, granted: u64) -> OfArray<Self>;
}

// Compares what the items of a row make, each request refused in its turn.
fn check_row<'a, M: OfTwo<'a>>(
    heap: &'a Heap,
    alloc: Global,
    row: Row<'_>,
    requests: Requests,
) -> Result<(), Fail> {
    for granted in 0..=requests.0.saturating_add(requests.1) {
        let made = M::of_two(heap, row, granted)?;
        check_tried((heap, alloc), requests, granted, made, row.2)?;
    }
    Ok(())
}

// Makes the two pairs of a row, whose requests are granted.
fn two_pairs<'a, Q: Kind<R>, R: KeyRange<Key: Word<&'a Heap>>, V: Word<&'a Heap>>(
    heap: &'a Heap,
    row: Row<'_>,
    granted: u64,
) -> Result<((R, V), (R, V)), Fault>
    ensures { IfOk result (λ both. Q.kind.IsNonEmpty both.0.0 × Q.kind.IsNonEmpty both.1.0) }
{
    heap.refuse_after(MANY);
    let first = pair_of::<Q, R, V, &Heap>(heap, row.0)?;
    let second = pair_of::<Q, R, V, &Heap>(heap, row.1)?;
    heap.refuse_after(granted);
    Ok((first, second))
}

// Maps and sets in chunks of up to two.
type InChunks<'a> = Map<Chunks<HalfOpen, Range<Costly<'a>>, char, &'a Heap, 2>>;

type ClosedInChunks<'a> = Map<
    Chunks<Closed<Costly<'a>>, RangeInclusive<Costly<'a>>, char, &'a Heap, 2>,
>;

type SetInChunks<'a> = Set<Chunks<HalfOpen, Range<Costly<'a>>, (), &'a Heap, 2>>;

type ClosedSetInChunks<'a> = Set<
    Chunks<Closed<Costly<'a>>, RangeInclusive<Costly<'a>>, (), &'a Heap, 2>,
>;

impl<'a> OfTwo<'a> for RangeMap<u32, Text<'a>, &'a Heap> {
    fn of_two(heap: &'a Heap, row: Row<'_>, granted: u64) -> OfArray<Self> {
        let (first, second) = two_pairs::<HalfOpen, Range<u32>, Text<'_>>(heap, row, granted)?;
        Ok(Self::from(heap, [first, second]))
    }
}

impl<'a> OfTwo<'a> for RangeMap<Costly<'a>, char, &'a Heap> {
    fn of_two(heap: &'a Heap, row: Row<'_>, granted: u64) -> OfArray<Self> {
        let (first, second) = two_pairs::<HalfOpen, Range<Costly<'_>>, char>(heap, row, granted)?;
        Ok(Self::from(heap, [first, second]))
    }
}

impl<'a> OfTwo<'a> for tree_map::RangeMap<Costly<'a>, char, &'a Heap> {
    fn of_two(heap: &'a Heap, row: Row<'_>, granted: u64) -> OfArray<Self> {
        let (first, second) = two_pairs::<HalfOpen, Range<Costly<'_>>, char>(heap, row, granted)?;
        Ok(Self::from(heap, [first, second]))
    }
}

impl<'a> OfTwo<'a> for InChunks<'a> {
    fn of_two(heap: &'a Heap, row: Row<'_>, granted: u64) -> OfArray<Self> {
        let (first, second) = two_pairs::<HalfOpen, Range<Costly<'_>>, char>(heap, row, granted)?;
        Ok(Self::from(heap, [first, second]))
    }
}

impl<'a> OfTwo<'a> for RangeInclusiveMap<Costly<'a>, char, Costly<'a>, &'a Heap> {
    fn of_two(heap: &'a Heap, row: Row<'_>, granted: u64) -> OfArray<Self> {
        let (first, second) = two_pairs::<Closed<Costly<'_>>, RangeInclusive<Costly<'_>>, char>(
            heap, row, granted,
        )?;
        Ok(Self::from(heap, [first, second]))
    }
}

impl<'a> OfTwo<'a> for ClosedInChunks<'a> {
    fn of_two(heap: &'a Heap, row: Row<'_>, granted: u64) -> OfArray<Self> {
        let (first, second) = two_pairs::<Closed<Costly<'_>>, RangeInclusive<Costly<'_>>, char>(
            heap, row, granted,
        )?;
        Ok(Self::from(heap, [first, second]))
    }
}

impl<'a> OfTwo<'a> for RangeSet<Costly<'a>, &'a Heap> {
    fn of_two(heap: &'a Heap, row: Row<'_>, granted: u64) -> OfArray<Self> {
        let (first, second) = two_pairs::<HalfOpen, Range<Costly<'_>>, ()>(heap, row, granted)?;
        Ok(Self::from(heap, [first.0, second.0]))
    }
}

impl<'a> OfTwo<'a> for tree_set::RangeSet<Costly<'a>, &'a Heap> {
    fn of_two(heap: &'a Heap, row: Row<'_>, granted: u64) -> OfArray<Self> {
        let (first, second) = two_pairs::<HalfOpen, Range<Costly<'_>>, ()>(heap, row, granted)?;
        Ok(Self::from(heap, [first.0, second.0]))
    }
}

impl<'a> OfTwo<'a> for SetInChunks<'a> {
    fn of_two(heap: &'a Heap, row: Row<'_>, granted: u64) -> OfArray<Self> {
        let (first, second) = two_pairs::<HalfOpen, Range<Costly<'_>>, ()>(heap, row, granted)?;
        Ok(Self::from(heap, [first.0, second.0]))
    }
}

impl<'a> OfTwo<'a> for RangeInclusiveSet<Costly<'a>, Costly<'a>, &'a Heap> {
    fn of_two(heap: &'a Heap, row: Row<'_>, granted: u64) -> OfArray<Self> {
        let (first, second) = two_pairs::<Closed<Costly<'_>>, RangeInclusive<Costly<'_>>, ()>(
            heap, row, granted,
        )?;
        Ok(Self::from(heap, [first.0, second.0]))
    }
}

impl<'a> OfTwo<'a> for ClosedSetInChunks<'a> {
    fn of_two(heap: &'a Heap, row: Row<'_>, granted: u64) -> OfArray<Self> {
        let (first, second) = two_pairs::<Closed<Costly<'_>>, RangeInclusive<Costly<'_>>, ()>(
            heap, row, granted,
        )?;
        Ok(Self::from(heap, [first.0, second.0]))
    }
}

#[test]
fn maps_of_arrays_may_be_refused(rt: HostRuntime) -> Result<(), Fail> {
    let alloc = rt.alloc();
    let heap = Refusing::new(alloc, MANY);
    let row = ("0..10 a", "3..6 b", r#"{0..3: "a", 3..6: "b", 6..10: "a"}"#);
    check_row::<RangeMap<u32, Text<'_>, &Heap>>(&heap, alloc, row, (4, 0))?;
    let row = ("0..10 a", "3..6 b", "{0..3: 'a', 3..6: 'b', 6..10: 'a'}");
    check_row::<RangeMap<Costly<'_>, char, &Heap>>(&heap, alloc, row, (6, 0))?;
    check_row::<InChunks<'_>>(&heap, alloc, row, (7, 1))?;
    let row = ("0..10 a", "2..5 b", "{0..2: 'a', 2..5: 'b', 5..10: 'a'}");
    check_row::<tree_map::RangeMap<Costly<'_>, char, &Heap>>(&heap, alloc, row, (9, 0))?;
    let row = ("0..=9 a", "3..=5 b", "{0..=2: 'a', 3..=5: 'b', 6..=9: 'a'}");
    check_row::<RangeInclusiveMap<Costly<'_>, char, Costly<'_>, &Heap>>(&heap, alloc, row, (4, 0))?;
    check_row::<ClosedInChunks<'_>>(&heap, alloc, row, (5, 1))
}

#[test]
fn sets_of_arrays_may_be_refused(rt: HostRuntime) -> Result<(), Fail> {
    let alloc = rt.alloc();
    let heap = Refusing::new(alloc, MANY);
    let apart = ("0..5", "7..10", "{0..5, 7..10}");
    let joined = ("0..5", "5..10", "{0..10}");
    check_row::<RangeSet<Costly<'_>, &Heap>>(&heap, alloc, apart, (2, 0))?;
    check_row::<RangeSet<Costly<'_>, &Heap>>(&heap, alloc, joined, (4, 0))?;
    check_row::<tree_set::RangeSet<Costly<'_>, &Heap>>(&heap, alloc, apart, (4, 0))?;
    check_row::<tree_set::RangeSet<Costly<'_>, &Heap>>(&heap, alloc, joined, (5, 0))?;
    check_row::<SetInChunks<'_>>(&heap, alloc, apart, (3, 0))?;
    check_row::<SetInChunks<'_>>(&heap, alloc, joined, (5, 0))?;
    let apart = ("0..=4", "9..=255", "{0..=4, 9..=255}");
    let joined = ("0..=4", "5..=255", "{0..=255}");
    check_row::<RangeInclusiveSet<Costly<'_>, Costly<'_>, &Heap>>(&heap, alloc, apart, (2, 0))?;
    check_row::<RangeInclusiveSet<Costly<'_>, Costly<'_>, &Heap>>(&heap, alloc, joined, (4, 0))?;
    check_row::<ClosedSetInChunks<'_>>(&heap, alloc, joined, (5, 0))
}
