//! Calls on a list of sets, as values, each made by the public call of the set at its place.
ghost use Rattle.std.specs.Prelude.{◌+◌, ◌<◌, ◌≤◌, IfOk, vec_len, vec_capacity};
ghost use Rattle.rangemap.specs.Clones.{KeysCloneFaithfully};
ghost use Rattle.rangemap.specs.Histories.{Makes};
ghost use Rattle.rangemap.specs.Joined.{joining, made_by};
ghost use Rattle.rangemap.specs.Ranges.{IsCanonOfPoints, covers, unit_eq, with_unit};
ghost use Rattle.rangemap.specs.SetHistories.{SetStep};

use super::Set;
use rangemap_containers::calls::Change;
use rangemap_containers::replay::{CallOn, push_made};
use rangemap_core::store::StoreMut;
use std::alloc::{AllocError, Allocator};
use std::vec::Vec;

/// A call that makes a set or changes one, over ranges of type `R`. It names a set by its place in
/// the list.
///
/// Unlike a map's `Call` it holds no `Change`: a caller would have to write `value: ()`.
#[derive(Debug, Drop)]
pub enum SetCall<R, A: Allocator> {
    /// Makes an empty set.
    New,
    /// Adds the keys of the range to the set at the place.
    Insert { at: usize, range: R },
    /// Takes the keys of the range out of the set at the place.
    Remove { at: usize, range: R },
    /// Empties the set at the place.
    Clear { at: usize },
    /// Makes a clone of the set at the place.
    Clone { at: usize },
    /// Makes a set of the ranges, inserted in order.
    FromIter { ranges: Vec<R, A> },
    /// Inserts the ranges, in order, into the set at the place.
    Extend { at: usize, ranges: Vec<R, A> },
    /// Makes the set of the keys of either of two sets.
    Union { left: usize, right: usize },
    /// Makes the set of the keys of both of two sets.
    Intersection { left: usize, right: usize },
    /// Makes the set of the keys that the left one of two sets has and the right one lacks.
    Difference { left: usize, right: usize },
    /// Makes the set of the keys that exactly one of two sets has.
    SymmetricDifference { left: usize, right: usize },
}

impl<S: StoreMut<Value = ()> + Drop> CallOn<Set<S>> for SetCall<S::Range, S::Alloc>
where
    S::Alloc: Clone,
{
    ghost use Rattle.rangemap.specs.SetHistories.{SetHasNonEmptyRanges, SetStep};

    ghost has_non_empty = { SetHasNonEmptyRanges S.Kind.kind };

    ghost step = { SetStep S.Kind.kind };

    fn make(self, alloc: S::Alloc, sets: &mut Vec<Set<S>, S::Alloc>) -> bool {
        match self {
            SetCall::New => push_made(sets, Ok(Set::new_with_step_fns(alloc))),
            SetCall::Insert { at, range } => Change::Insert {
                at,
                range,
                value: (),
            }
            .make(alloc, sets),
            SetCall::Remove { at, range } => Change::Remove { at, range }.make(alloc, sets),
            SetCall::Clear { at } => Change::Clear { at }.make(alloc, sets),
            SetCall::Clone { at } => Change::Clone { at }.make(alloc, sets),
            SetCall::FromIter { ranges } => push_made(sets, Set::from_items(alloc, ranges)),
            SetCall::Extend { at, ranges } => match sets.get_mut(at) {
                Some(set) => set.extend(ranges).is_ok(),
                None => false,
            },
            SetCall::Union { left, right } => push_joined(Join::Union, sets, left, right),
            SetCall::Intersection { left, right } => {
                push_joined(Join::Intersection, sets, left, right)
            }
            SetCall::Difference { left, right } => push_joined(Join::Difference, sets, left, right),
            SetCall::SymmetricDifference { left, right } => {
                push_joined(Join::SymmetricDifference, sets, left, right)
            }
        }
    }
}

// One of the four operators, as a call makes it.
#[derive(Clone, Copy)]
enum Join {
    Union,
    Intersection,
    Difference,
    SymmetricDifference,
}

impl Join {
    // Returns the set that the operator makes of the two.
    fn apply<S: StoreMut<Value = ()> + Drop>(
        self,
        left: &Set<S>,
        right: &Set<S>,
    ) -> Result<Set<S>, AllocError>
    where
        S::Alloc: Clone,
        requires faithful_keys { KeysCloneFaithfully S.Range.Key.is_clone S.Range.Key.cmp }
        ensures { IfOk result (IsCanonOfPoints S.Kind.kind
            (made_by self (covers S.Kind.kind left.now) (covers S.Kind.kind right.now))) }
    {
        match self {
            Join::Union => left | right,
            Join::Intersection => left & right,
            Join::Difference => left - right,
            Join::SymmetricDifference => left ^ right,
        }
    }
}

// Pushes what the operator makes of two sets, for which there is room. Returns whether it was made.
fn push_joined<S: StoreMut<Value = ()> + Drop>(
    join: Join,
    sets: &mut Vec<Set<S>, S::Alloc>,
    left: usize,
    right: usize,
) -> bool
where
    S::Alloc: Clone,
    requires room { vec_len sets.old < vec_capacity sets.old }
    requires faithful_keys { KeysCloneFaithfully S.Range.Key.is_clone S.Range.Key.cmp }
    ensures made { Makes S.Kind.kind (unit_eq S.Kind.kind)
        (with_unit S.Kind.kind) (SetStep {A = S.Alloc} S.Kind.kind) sets.old.items
        (joining join left right) result sets.new.items }
    ensures len { vec_len sets.new ≤ vec_len sets.old + 1 }
    ensures capacity { vec_capacity sets.old ≤ vec_capacity sets.new }
{
    let Some(first) = sets.get(left) else {
        return false;
    };
    let Some(second) = sets.get(right) else {
        return false;
    };
    let made = join.apply(first, second);
    push_made(sets, made)
}
