//! The calls of replays, which name a container by its place before a colon, as in `1: clear`.
ghost use Rattle.std.specs.Prelude.{IfOk};
ghost use Rattle.rangemap_containers.specs.Histories.{HasNonEmptyRange};

use crate::fault::Fault;
use crate::list::first_word;
use crate::ranges::{pair_of, range_of};
use crate::word::Word;
use rangemap_containers::calls::Change;
use rangemap_core::key_range::KeyRange;
use rangemap_core::kind::Kind;

/// Divides the place of the container from a call, which is the first where none is named.
pub fn place(text: &str) -> Result<(usize, &str), Fault> {
    match text.split_once(": ") {
        Some((at, call)) => Ok((at.parse::<usize>().ok().ok_or(Fault::NoOperand)?, call)),
        None => Ok((0, text)),
    }
}

/// Makes the call that a text names, on the container at a place.
pub fn change_of<Q: Kind<R>, R: KeyRange<Key: Word<A>>, V: Word<A>, A: Copy>(
    alloc: A,
    at: usize,
    text: &str,
) -> Result<Change<R, V>, Fault>
    ensures { IfOk result (HasNonEmptyRange Q.kind) }
{
    let (name, operand) = first_word(text);
    match name {
        "insert" => {
            let (range, value) = pair_of::<Q, R, V, A>(alloc, operand)?;
            Ok(Change::Insert { at, range, value })
        }
        "remove" => {
            let range = range_of::<Q, R, A>(alloc, operand)?;
            Ok(Change::Remove { at, range })
        }
        "clear" => Ok(Change::Clear { at }),
        "clone" => Ok(Change::Clone { at }),
        "new" => Ok(Change::New),
        _ => Err(Fault::NoOperand),
    }
}
