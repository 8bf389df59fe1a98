//! One call that every container has, by the public call of the one at its place.
ghost use Rattle.std.specs.Prelude.{◌≡◌, ◌+◌, ◌<◌, ◌≤◌, ◌++◌, ◌∷◌, [], IfOk, OnErr, is_ok, vec_len, vec_capacity};

use super::CallOn;
use crate::calls::Change;
use crate::container::Container;
use rangemap_core::kind::known_ends;
use std::alloc::AllocError;

impl<M: Container> CallOn<M> for Change<M::Range, M::Value> {
    ghost use Rattle.rangemap_containers.specs.Histories.{ChangeStep, HasNonEmptyRange};

    ghost has_non_empty = { HasNonEmptyRange M.Kind.kind };

    ghost step = { ChangeStep M.Kind.kind };

    fn make(self, alloc: M::Alloc, containers: &mut Vec<M, M::Alloc>) -> bool {
        match self {
            Change::New => push_made(containers, Ok(M::new_with_step_fns(alloc))),
            Change::Insert { at, range, value } => match containers.get_mut(at) {
                Some(container) => container.insert(range, value).is_ok(),
                None => false,
            },
            Change::Remove { at, range } => {
                // A removal that meets nothing is accepted. This contract says so of keys without a
                // value, and `remove` of stored ranges that do not overlap. The one follows from the
                // other if the ends of the range are keys.
                known_ends::<M::Kind, M::Range>(&range);
                match containers.get_mut(at) {
                    Some(container) => container.remove(range).is_ok(),
                    None => false,
                }
            }
            Change::Clear { at } => match containers.get_mut(at) {
                Some(container) => {
                    container.clear();
                    true
                }
                None => false,
            },
            Change::Clone { at } => {
                let Some(container) = containers.get(at) else {
                    return false;
                };
                let made = container.clone();
                push_made(containers, made)
            }
        }
    }
}

/// Pushes what was made. Returns whether it was made.
///
/// # Requires
///
/// The list has room for one container more.
pub fn push_made<M: Container>(
    containers: &mut Vec<M, M::Alloc>,
    made: Result<M, AllocError>,
) -> bool
    requires room { vec_len containers.old < vec_capacity containers.old }
    ensures answer { result ≡ is_ok made }
    ensures ok { IfOk made (λ container. containers.new.items ≡ containers.old.items ++ container ∷ []) }
    ensures err { OnErr made (containers.new.items ≡ containers.old.items) }
    ensures len { vec_len containers.new ≤ vec_len containers.old + 1 }
    ensures capacity { vec_capacity containers.old ≤ vec_capacity containers.new }
{
    let Ok(container) = made else {
        return false;
    };
    containers.push_reserved(container);
    true
}
