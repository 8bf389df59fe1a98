//! The run of any calls on a list of containers, written once for all of them and for every sort of
//! call.
//!
//! A sort of call is a type with the trait `CallOn`: `Change` for every container, `Call` for maps and
//! `SetCall` for sets, each beside its container. Each container's module gives users the runs under its
//! own name.
ghost use Rattle.std.specs.Prelude.{◌≡◌, ◌+◌, ◌<◌, ◌≤◌, [], Bool, IfOk, List, OnErr, Option, vec_len, vec_capacity};
ghost use Rattle.std.specs.List.{AllByRecursion};
ghost use Rattle.rangemap_core.specs.Clones.{KeysCloneFaithfully, ValuesCloneFaithfully};
ghost use Rattle.rangemap_containers.specs.Histories.{Makes, MakesAll, Run};

use crate::container::Container;
use std::alloc::AllocError;

mod changes;

pub use changes::push_made;

/// A call on a list of containers of type `M`.
pub trait CallOn<M: Container>: Drop {
    /// That no range that the call is given is empty.
    ghost has_non_empty: { Self → Type 0 };

    /// What the call makes of the functions that the containers stand for, by its answer.
    ghost step: { List (M.Range.Key → Option M.Value) → Self → Bool
        → List (M.Range.Key → Option M.Value) → Type 0 };

    /// Makes the call, and returns whether it was accepted. A container that it adds at the end has its
    /// memory of `alloc`. If it is made of containers in the list, it has its memory of a clone of the
    /// allocator of the first one named. The list has room for it, so only the call itself can be
    /// refused.
    ///
    /// # Requires
    ///
    /// The list has room for one container more. No range is empty, or was iterated to its end, and
    /// clones are faithful, as for `insert`.
    fn make(self, alloc: M::Alloc, containers: &mut Vec<M, M::Alloc>) -> bool
        requires room { vec_len containers.old < vec_capacity containers.old }
        requires non_empty { has_non_empty self }
        requires faithful_keys { KeysCloneFaithfully M.Range.Key.is_clone M.Range.Key.cmp }
        requires faithful_values { ValuesCloneFaithfully M.Value.is_clone M.Value.eq }
        ensures made { Makes M.Kind.kind M.Value.eq M.pairs step containers.old.items self result
            containers.new.items }
        ensures len { vec_len containers.new ≤ vec_len containers.old + 1 }
        ensures capacity { vec_capacity containers.old ≤ vec_capacity containers.new };
}

/// Makes any list of calls, in order, on a list of containers, and returns for each whether it was
/// accepted.
///
/// Each container's module gives it under its own path, with its sorts of call: `map::replay` takes a
/// `map::Call` or a `map::Change`. `New` calls `new_with_step_fns`. Modules of closed containers also have
/// this function by the name `replay_with_step_fns`. A replay costs what its calls cost.
///
/// A call names a container by its place in the list; an operator of sets names two. A call that makes a
/// container adds it at the end, unless the call is refused. A call that names a place without a
/// container is not made, and counts as refused.
///
/// The contract, in `MakesAll`, is what this function is for. Whatever point functions the containers
/// stood for, they then stand for the functions that the accepted calls give by overriding and erasing,
/// and by what the operators make of two; and each container's list is the canonical list of its
/// function. A refused call changes no function, except that a refused `Extend` keeps some beginning of
/// its items, without the last of them at least. A `New` is always accepted. If they name a container,
/// so are a `Clear`, a `Remove` of a range on which the function is nowhere defined, and an `Extend` by
/// nothing.
///
/// # Requires
///
/// No range is empty, or was iterated to its end, and clones are faithful, as for `insert`.
///
/// # Errors
///
/// The memory for the answers, for the containers to come or for the allocators to hand to them, one
/// for each call, or a clone of `alloc`, was refused. Then no call was made, and the containers are
/// as they were.
///
/// # Examples
///
/// ```text
/// let mut maps = Vec::new(alloc);
/// let insert = Call::Change(Change::Insert { at: 0, range: 0..10, value: 'a' });
/// let clear = Call::Change(Change::Clear { at: 7 });
/// let calls = [Call::Change(Change::New), insert, clear];
/// let answers = replay(alloc, &mut maps, Vec::from_array(alloc, calls)?)?; // true, true, false
/// ```
pub fn replay<M: Container, C: CallOn<M>>(
    alloc: M::Alloc,
    containers: &mut Vec<M, M::Alloc>,
    calls: Vec<C, M::Alloc>,
) -> Result<Vec<bool, M::Alloc>, AllocError>
where
    M::Alloc: Clone,
    requires non_empty { AllByRecursion C.has_non_empty calls.items }
    requires faithful_keys { KeysCloneFaithfully M.Range.Key.is_clone M.Range.Key.cmp }
    requires faithful_values { ValuesCloneFaithfully M.Value.is_clone M.Value.eq }
    ensures ok { IfOk result (λ answers. MakesAll M.Kind.kind M.Value.eq M.pairs C.step
        containers.old.items calls.items answers.items containers.new.items) }
    ensures err { OnErr result (containers.new.items ≡ containers.old.items) }
{
    let count = calls.len();
    containers.reserve(count)?;
    let mut answers = Vec::with_capacity(alloc.clone()?, count)?;
    let allocators = Vec::from_elem(alloc.clone()?, alloc, count)?;
    make_all(allocators, containers, calls, &mut answers);
    Ok(answers)
}

// Makes the calls, for which there is room, with an allocator for each.
fn make_all<M: Container, C: CallOn<M>>(
    allocators: Vec<M::Alloc, M::Alloc>,
    containers: &mut Vec<M, M::Alloc>,
    calls: Vec<C, M::Alloc>,
    answers: &mut Vec<bool, M::Alloc>,
)
    requires allocators { vec_len allocators ≡ vec_len calls }
    requires room { vec_len containers.old + vec_len calls ≤ vec_capacity containers.old }
    requires room_for_answers { vec_len calls ≤ vec_capacity answers.old }
    requires no_answers { answers.old.items ≡ [] }
    requires non_empty { AllByRecursion C.has_non_empty calls.items }
    requires faithful_keys { KeysCloneFaithfully M.Range.Key.is_clone M.Range.Key.cmp }
    requires faithful_values { ValuesCloneFaithfully M.Value.is_clone M.Value.eq }
    ensures { Run (Makes M.Kind.kind M.Value.eq M.pairs C.step)
        containers.old.items calls.items answers.new.items containers.new.items }
{
    for (call, alloc) in calls.into_iter().zip(allocators) {
        answers.push_reserved(call.make(alloc, containers));
    }
}
