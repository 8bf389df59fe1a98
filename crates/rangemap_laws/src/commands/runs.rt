//! The run of a list of commands on a map, whatever it is made of.
ghost use Rattle.std.specs.Prelude.{◌≡◌, IfOk, OnErr};
ghost use Rattle.std.specs.List.{AllByRecursion};
ghost use Rattle.rangemap_core.specs.Clones.{KeysCloneFaithfully, ValuesCloneFaithfully};
ghost use Rattle.rangemap_laws.specs.Runs.{CommandStep, IsAllowed, Ran};

use super::answers::answer;
use super::command::{Answer, Command};
use rangemap::container::Container;
use rangemap_core::key_range::KeyRange;
use std::alloc::{AllocError, Allocator};

/// What a command returned, or that it was refused.
pub type Outcome<R, V, A> = Result<Answer<R, V, A>, AllocError>;

/// Runs the commands on a map, in order, and returns what each gives. It costs what the calls cost.
///
/// The contract, in `Ran`, says what each command returns, up to equality, and what it makes of the
/// map's pairs, in words of the map's point function. A refused command changes nothing, and the
/// commands after it are run. `Clear` and `Len` are never refused, nor is a `Remove` that meets nothing,
/// or a `Get` or `GetKeyValue` of a key that no range has. The law `accepted_runs_answer_alike` says that
/// two equal maps of half-open ranges return the same, whatever they are made of.
///
/// # Requires
///
/// No range that is inserted or removed is empty, and clones are faithful, as for `insert`.
///
/// # Errors
///
/// The memory for the results, or a clone of `alloc`, was refused. Then no command was run.
///
/// # Examples
///
/// ```text
/// let commands = [Command::Insert(0..10, 'a'), Command::Remove(3..6), Command::Get(7)];
/// let answers = run(alloc, &mut map, Vec::from_array(alloc, commands)?)?;
/// // Ok(Done), Ok(Done), Ok(Value(Some('a')))
/// ```
pub fn run<M: Container, A: Allocator + Clone>(
    alloc: A,
    map: &mut M,
    commands: Vec<Command<<M::Range as KeyRange>::Key, M::Range, M::Value>, A>,
) -> Result<Vec<Outcome<M::Range, M::Value, A>, A>, AllocError>
    requires allowed { AllByRecursion (IsAllowed M.Kind.kind) commands.items }
    requires faithful_keys { KeysCloneFaithfully M.Range.Key.is_clone M.Range.Key.cmp }
    requires faithful_values { ValuesCloneFaithfully M.Value.is_clone M.Value.eq }
    ensures ok { IfOk result (λ answers. Ran (CommandStep M.Kind.kind M.Value.eq)
        (M.pairs map.old) commands.items answers.items (M.pairs map.new)) }
    ensures err { OnErr result (M.pairs map.new ≡ M.pairs map.old) }
{
    let mut answers = Vec::with_capacity(alloc.clone()?, commands.len())?;
    for command in commands {
        let given = answer(&alloc, map, command);
        answers.push_reserved(given);
    }
    Ok(answers)
}
