//! What a map returns for one command.
ghost use Rattle.rangemap_core.specs.Clones.{KeysCloneFaithfully, ValuesCloneFaithfully};
ghost use Rattle.rangemap_laws.specs.Runs.{CommandStep, IsAllowed};
ghost use Rattle.rangemap_laws.specs.declared.commands.command.Command.TheVariants as command_word;

use super::command::{Answer, Command};
use super::runs::Outcome;
use rangemap::container::Container;
use rangemap_core::key_range::KeyRange;
use rangemap_core::pairs::clone_pair;
use std::alloc::Allocator;

/// Makes a command on a map, and returns clones, in memory of clones of `alloc`.
pub(super) fn answer<M: Container, A: Allocator + Clone>(
    alloc: &A,
    map: &mut M,
    command: Command<<M::Range as KeyRange>::Key, M::Range, M::Value>,
) -> Outcome<M::Range, M::Value, A>
    requires allowed { IsAllowed M.Kind.kind command }
    requires faithful_keys { KeysCloneFaithfully M.Range.Key.is_clone M.Range.Key.cmp }
    requires faithful_values { ValuesCloneFaithfully M.Value.is_clone M.Value.eq }
    ensures { CommandStep M.Kind.kind M.Value.eq (M.pairs map.old) command result (M.pairs map.new) }
{
    match command {
        Command::Insert(range, value) => {
            map.insert(range, value)?;
            Ok(Answer::Done)
        }
        Command::Remove(range) => {
            map.remove(range)?;
            Ok(Answer::Done)
        }
        Command::Clear => {
            map.clear();
            Ok(Answer::Done)
        }
        Command::Len => Ok(Answer::Len(map.len())),
        Command::Get(key) => get(map, &key),
        Command::GetKeyValue(key) => get_key_value(map, &key),
        Command::All => {
            let mut pairs = Vec::new(alloc.clone()?);
            map.append_all(&mut pairs)?;
            Ok(Answer::Pairs(pairs))
        }
        Command::Overlapping(query) => {
            let mut pairs = Vec::new(alloc.clone()?);
            map.append_overlapping(&query, &mut pairs)?;
            Ok(Answer::Pairs(pairs))
        }
    }
}

// Returns a clone of the value of a key, if it has one.
fn get<M: Container, A: Allocator>(
    map: &M,
    key: &<M::Range as KeyRange>::Key,
) -> Outcome<M::Range, M::Value, A>
    requires { ValuesCloneFaithfully M.Value.is_clone M.Value.eq }
    ensures { CommandStep M.Kind.kind M.Value.eq (M.pairs map.now) (command_word.Get key.now) result
        (M.pairs map.now) }
{
    match map.get(key) {
        Some(value) => Ok(Answer::Value(Some(value.clone()?))),
        None => Ok(Answer::Value(None)),
    }
}

// Returns clones of the stored range that has a key and of its value, if there is one.
fn get_key_value<M: Container, A: Allocator>(
    map: &M,
    key: &<M::Range as KeyRange>::Key,
) -> Outcome<M::Range, M::Value, A>
    requires faithful_keys { KeysCloneFaithfully M.Range.Key.is_clone M.Range.Key.cmp }
    requires faithful_values { ValuesCloneFaithfully M.Value.is_clone M.Value.eq }
    ensures { CommandStep M.Kind.kind M.Value.eq (M.pairs map.now)
        (command_word.GetKeyValue key.now) result (M.pairs map.now) }
{
    map.known();
    match map.get_key_value(key) {
        Some((range, value)) => {
            let pair = clone_pair::<M::Kind, M::Range, M::Value>(range, value)?;
            Ok(Answer::Pair(Some(pair)))
        }
        None => Ok(Answer::Pair(None)),
    }
}
