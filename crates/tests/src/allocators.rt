//! Which allocator a container names, and in whose memory lie the result of an operator, a clone, and
//! what a replay makes.
ghost use Rattle.std.specs.Prelude.{IfOk};
ghost use Rattle.rangemap.specs.Clones.{KeysCloneFaithfully, ValuesCloneFaithfully};

use crate::checks::{MANY, check_same, check_that};
use rangemap::container::Container;
use rangemap::map::Map;
use rangemap::range_set::calls::SetCall;
use rangemap::set::Set;
use rangemap_chunked::{Chunks, SIZE};
use rangemap_containers::calls::Change;
use rangemap_containers::replay::{CallOn, replay};
use rangemap_core::closed::Closed;
use rangemap_core::half_open::HalfOpen;
use rangemap_core::key_range::KeyRange;
use rangemap_core::kind::Kind;
use rangemap_core::store::StoreMut;
use rangemap_maps::range_map::calls::Call;
use rangemap_sorted::SortedVec;
use rangemap_tree::Tree;
use rows_text::{Heap, Refusing};
use std::alloc::{AllocError, Global};
use std::ops::{Range, RangeInclusive};
use std::test::Fail;

// The heaps of the containers at even places of a list and at odd ones, what a replay is handed, and
// what its calls have their memory of.
#[derive(Drop)]
struct Heaps {
    left: Heap,
    right: Heap,
    given: Heap,
    own: Heap,
}

impl Heaps {
    // Nothing is refused.
    fn new(alloc: Global) -> Heaps {
        Heaps {
            left: Refusing::new(alloc, MANY),
            right: Refusing::new(alloc, MANY),
            given: Refusing::new(alloc, MANY),
            own: Refusing::new(alloc, MANY),
        }
    }

    // How many blocks are held now of the first three.
    fn held(&self) -> (u64, u64, u64) {
        (self.left.held(), self.right.held(), self.given.held())
    }

    // The heap of which more blocks are held than were, if there is one, and no other beside it.
    fn grown(&self, held: (u64, u64, u64)) -> &'static str {
        let (left, right, given) = self.held();
        match (left > held.0, right > held.1, given > held.2) {
            (true, false, false) => "left",
            (false, true, false) => "right",
            (false, false, true) => "given",
            (false, false, false) => "none",
            _ => "several",
        }
    }
}

// The same heaps, as what containers have their memory of.
#[derive(Drop)]
struct Allocs<A> {
    left: A,
    right: A,
    given: A,
    own: A,
}

// The heaps themselves, lent.
fn lent(heaps: &Heaps) -> Allocs<&Heap> {
    Allocs {
        left: &heaps.left,
        right: &heaps.right,
        given: &heaps.given,
        own: &heaps.own,
    }
}

// The heaps, and what lies in them.
type All<'h, A> = (&'h Heaps, &'h Allocs<A>);

// Replays one call on a list of containers, which has to be accepted, and compares which heap what it
// makes lies in.
fn check_owner<M: Container<Alloc: Copy>, C: CallOn<M>>(
    all: All<'_, M::Alloc>,
    containers: &mut Vec<M, M::Alloc>,
    call: C,
    owner: &str,
) -> Result<(), Fail>
    requires non_empty { C.has_non_empty call }
    requires faithful_keys { KeysCloneFaithfully M.Range.Key.is_clone M.Range.Key.cmp }
    requires faithful_values { ValuesCloneFaithfully M.Value.is_clone M.Value.eq }
{
    let (heaps, allocs) = all;
    let mut calls = Vec::new(allocs.own);
    calls.push(call)?;
    let held = heaps.held();
    let answers = replay(allocs.given, containers, calls)?;
    let is_accepted = !answers.as_slice().contains(&false);
    drop(answers);
    check_that(is_accepted, "a call is refused")?;
    check_same(heaps.grown(held), owner)
}

// The range between two ends, which holds a key.
fn span<Q: Kind<R>, R: KeyRange<Key = u32>>(start: u32, end: u32) -> Result<R, Fail>
    ensures { IfOk result Q.kind.IsNonEmpty }
{
    Ok(R::between(start, end).ok_or("a range is empty")?)
}

// Makes a map of one pair.
fn map_of<S>(alloc: S::Alloc, start: u32, end: u32) -> Result<Map<S>, Fail>
where
    S: StoreMut<Range: KeyRange<Key = u32>, Value = char> + Drop,
{
    let mut map = Map::new_with_step_fns(alloc);
    map.insert(span::<S::Kind, S::Range>(start, end)?, 'a')?;
    Ok(map)
}

// Compares where what calls on maps make lies: a clone beside its original, and what is made of no
// other in what the replay is handed.
fn check_maps<S>(heaps: &Heaps, allocs: &Allocs<S::Alloc>) -> Result<(), Fail>
where
    S: StoreMut<Range: KeyRange<Key = u32>, Value = char, Alloc: Copy> + Drop,
    S::Kind: Kind<S::Range, Steps = u32>,
{
    let all = (heaps, allocs);
    let mut maps: Vec<Map<S>, S::Alloc> = Vec::new(allocs.given);
    maps.push(map_of::<S>(allocs.left, 0, 5)?)?;
    maps.push(map_of::<S>(allocs.right, 3, 9)?)?;
    maps.push(Map::new_with_step_fns(allocs.left))?;
    check_owner(all, &mut maps, Change::Clone { at: 0 }, "left")?;
    check_owner(all, &mut maps, Change::Clone { at: 1 }, "right")?;
    check_owner(all, &mut maps, Change::Clone { at: 2 }, "none")?;
    let range = span::<S::Kind, S::Range>(4, 6)?;
    check_owner(all, &mut maps, Change::Remove { at: 1, range }, "none")?;
    check_owner(all, &mut maps, Change::New, "none")?;
    let range = span::<S::Kind, S::Range>(0, 1)?;
    let insert = Change::Insert {
        at: 6,
        range,
        value: 'a',
    };
    check_owner(all, &mut maps, insert, "given")?;
    let mut pairs = Vec::new(allocs.own);
    pairs.push((span::<S::Kind, S::Range>(0, 5)?, 'a'))?;
    pairs.push((span::<S::Kind, S::Range>(7, 9)?, 'b'))?;
    check_owner(all, &mut maps, Call::FromIter { pairs }, "given")?;
    let mut pairs = Vec::new(allocs.own);
    pairs.push((span::<S::Kind, S::Range>(7, 9)?, 'b'))?;
    pairs.push((span::<S::Kind, S::Range>(10, 12)?, 'a'))?;
    check_owner(all, &mut maps, Call::Extend { at: 0, pairs }, "none")
}

// Makes a set of one range.
fn set_of<S>(alloc: S::Alloc, start: u32, end: u32) -> Result<Set<S>, Fail>
where
    S: StoreMut<Range: KeyRange<Key = u32>, Value = ()> + Drop,
{
    let mut set = Set::new_with_step_fns(alloc);
    set.insert(span::<S::Kind, S::Range>(start, end)?)?;
    Ok(set)
}

// Makes a list of four sets, of which the third is empty.
fn four_sets<S>(allocs: &Allocs<S::Alloc>) -> Result<Vec<Set<S>, S::Alloc>, Fail>
where
    S: StoreMut<Range: KeyRange<Key = u32>, Value = (), Alloc: Copy> + Drop,
{
    let mut sets = Vec::new(allocs.given);
    sets.push(set_of::<S>(allocs.left, 0, 5)?)?;
    sets.push(set_of::<S>(allocs.right, 3, 9)?)?;
    sets.push(Set::new_with_step_fns(allocs.left))?;
    sets.push(set_of::<S>(allocs.right, 7, 9)?)?;
    Ok(sets)
}

// Compares where clones of the first three sets lie, and their unions: each beside the left set.
fn check_unions<S>(all: All<'_, S::Alloc>, sets: &mut Vec<Set<S>, S::Alloc>) -> Result<(), Fail>
where
    S: StoreMut<Range: KeyRange<Key = u32>, Value = (), Alloc: Copy> + Drop,
    S::Kind: Kind<S::Range, Steps = u32>,
{
    check_owner(all, sets, SetCall::Clone { at: 0 }, "left")?;
    check_owner(all, sets, SetCall::Clone { at: 1 }, "right")?;
    check_owner(all, sets, SetCall::Clone { at: 2 }, "none")?;
    for (left, right, owner) in [
        (0, 1, "left"),
        (1, 0, "right"),
        (1, 1, "right"),
        (2, 1, "left"),
        (1, 2, "right"),
    ] {
        check_owner(all, sets, SetCall::Union { left, right }, owner)?;
    }
    Ok(())
}

// Compares where what sets have in common lies, the last time with the first union, and a union with
// that.
fn check_common<S>(all: All<'_, S::Alloc>, sets: &mut Vec<Set<S>, S::Alloc>) -> Result<(), Fail>
where
    S: StoreMut<Range: KeyRange<Key = u32>, Value = (), Alloc: Copy> + Drop,
    S::Kind: Kind<S::Range, Steps = u32>,
{
    for (left, right, owner) in [
        (0, 1, "left"),
        (1, 0, "right"),
        (0, 3, "none"),
        (0, 7, "left"),
    ] {
        check_owner(all, sets, SetCall::Intersection { left, right }, owner)?;
    }
    check_owner(all, sets, SetCall::Union { left: 0, right: 15 }, "left")
}

// Compares where what calls on sets make lies: as of maps, and what the operators make lies beside the
// left one.
fn check_sets<S>(heaps: &Heaps, allocs: &Allocs<S::Alloc>) -> Result<(), Fail>
where
    S: StoreMut<Range: KeyRange<Key = u32>, Value = (), Alloc: Copy> + Drop,
    S::Kind: Kind<S::Range, Steps = u32>,
{
    let all = (heaps, allocs);
    let mut sets = four_sets::<S>(allocs)?;
    check_unions(all, &mut sets)?;
    check_common(all, &mut sets)?;
    check_owner(all, &mut sets, SetCall::New, "none")?;
    let range = span::<S::Kind, S::Range>(0, 1)?;
    check_owner(all, &mut sets, SetCall::Insert { at: 17, range }, "given")?;
    let mut ranges = Vec::new(allocs.own);
    ranges.push(span::<S::Kind, S::Range>(0, 5)?)?;
    ranges.push(span::<S::Kind, S::Range>(7, 9)?)?;
    check_owner(all, &mut sets, SetCall::FromIter { ranges }, "given")?;
    let mut ranges = Vec::new(allocs.own);
    ranges.push(span::<S::Kind, S::Range>(7, 9)?)?;
    ranges.push(span::<S::Kind, S::Range>(10, 12)?)?;
    check_owner(all, &mut sets, SetCall::Extend { at: 0, ranges }, "none")
}

#[test]
fn each_container_lies_where_it_belongs(rt: HostRuntime) -> Result<(), Fail> {
    let heaps = Heaps::new(rt.alloc());
    let allocs = lent(&heaps);
    check_maps::<SortedVec<HalfOpen, Range<u32>, char, &Heap>>(&heaps, &allocs)?;
    check_maps::<SortedVec<Closed<u32>, RangeInclusive<u32>, char, &Heap>>(&heaps, &allocs)?;
    check_maps::<Tree<u32, char, &Heap>>(&heaps, &allocs)?;
    check_sets::<SortedVec<HalfOpen, Range<u32>, (), &Heap>>(&heaps, &allocs)?;
    check_sets::<SortedVec<Closed<u32>, RangeInclusive<u32>, (), &Heap>>(&heaps, &allocs)?;
    check_sets::<Tree<u32, (), &Heap>>(&heaps, &allocs)
}

// In chunks of up to four pairs none is cut where no block is to be added.
#[test]
fn each_chunk_lies_where_it_belongs(rt: HostRuntime) -> Result<(), Fail> {
    let heaps = Heaps::new(rt.alloc());
    let allocs = lent(&heaps);
    check_maps::<Chunks<HalfOpen, Range<u32>, char, &Heap, 4>>(&heaps, &allocs)?;
    check_maps::<Chunks<Closed<u32>, RangeInclusive<u32>, char, &Heap, 4>>(&heaps, &allocs)?;
    check_sets::<Chunks<HalfOpen, Range<u32>, (), &Heap, 4>>(&heaps, &allocs)?;
    check_sets::<Chunks<Closed<u32>, RangeInclusive<u32>, (), &Heap, 4>>(&heaps, &allocs)
}

#[test]
fn a_container_names_its_allocator(rt: HostRuntime) -> Result<(), Fail> {
    let heap = Refusing::new(rt.alloc(), MANY);
    check_named::<SortedVec<HalfOpen, Range<u32>, (), &Heap>>(&heap, &heap)?;
    check_named::<Chunks<HalfOpen, Range<u32>, (), &Heap, SIZE>>(&heap, &heap)?;
    check_named::<Tree<u32, (), &Heap>>(&heap, &heap)
}

// Asks the allocators that a map and a set of a store name for a block each, of which the heap tells.
fn check_named<S: StoreMut<Value = (), Alloc: Copy> + Drop>(
    heap: &Heap,
    alloc: S::Alloc,
) -> Result<(), Fail> {
    let map: Map<S> = Map::new_with_step_fns(alloc);
    let set: Set<S> = Set::new_with_step_fns(alloc);
    let mut first = Vec::new(*map.allocator());
    first.push(1u8)?;
    let mut second = Vec::new(*set.allocator());
    second.push(1u8)?;
    check_that(heap.held() == 2, "a container names another allocator")
}

#[test]
fn a_result_has_the_allocator_of_the_left_set(rt: HostRuntime) -> Result<(), Fail> {
    let one = Refusing::new(rt.alloc(), MANY);
    let other = Refusing::new(rt.alloc(), MANY);
    check_results::<SortedVec<HalfOpen, Range<u32>, (), &Heap>>(&one, &other)
}

// Puts a set of each allocator together, and clones the second.
fn check_results<'a, S>(one: &'a Heap, other: &'a Heap) -> Result<(), Fail>
where
    S: StoreMut<Range: KeyRange<Key = u32>, Value = (), Alloc = &'a Heap> + Drop,
    S::Kind: Kind<S::Range, Steps = u32>,
{
    let left = set_of::<S>(one, 0, 5)?;
    let right = set_of::<S>(other, 3, 10)?;
    let is_either = is_held(&left | &right, one, other);
    let is_common = is_held(&left & &right, one, other);
    let is_copy = is_held(right.clone(), other, one);
    check_that(
        is_either && is_common && is_copy,
        "a block has another allocator",
    )
}

// Whether a set of one range was made, whose block is the second of an allocator. The other
// allocator has one.
fn is_held<S: StoreMut<Value = ()> + Drop>(
    made: Result<Set<S>, AllocError>,
    own: &Heap,
    other: &Heap,
) -> bool {
    match made {
        Ok(set) => set.len() == 1 && (own.held(), other.held()) == (2, 1),
        Err(AllocError) => false,
    }
}
