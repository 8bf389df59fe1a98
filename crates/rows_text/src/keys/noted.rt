//! A value that is equal to others in part.

use crate::fault::Fault;
use crate::word::Word;

/// A number with a note. The number alone decides how two compare.
#[derive(Clone, Copy)]
#[derive_where(PartialEq, Eq, PartialOrd, Ord, Hash, Debug)]
pub struct Noted {
    /// By which two are compared.
    pub number: u32,
    /// What no comparison reads.
    #[derive_where(skip(EqHashOrd))]
    pub note: char,
}

/// A word has a slash between the number and the note, as in `1/x`.
impl<A: Copy> Word<A> for Noted {
    ghost use Rattle.std.proofs.Common.{rules};
    ghost use Rattle.std.specs.Cmp.Rules.{comparing};

    ghost keys_clone = { Prim.search (comparing, rules) };

    ghost values_clone = { Prim.search (comparing, rules) };

    fn read(_alloc: A, word: &str) -> Result<Self, Fault> {
        let (number, note) = word.split_once('/').ok_or(Fault::NoWord)?;
        let number = number.parse::<u32>().ok().ok_or(Fault::NoWord)?;
        let note = note.parse::<char>().ok().ok_or(Fault::NoWord)?;
        Ok(Noted { number, note })
    }

    fn write(&self, out: &mut String) -> Result<(), Fault> {
        write!(out, "{}/{}", self.number, self.note)?;
        Ok(())
    }
}
