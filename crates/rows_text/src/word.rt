//! Keys and values, as words.
ghost use Rattle.rangemap_core.specs.Clones.{KeysCloneFaithfully, ValuesCloneFaithfully};

use crate::fault::Fault;
use std::alloc::Allocator;
use std::fmt::{Debug, Display};
use std::hash::Hash;
use std::str::FromStr;

/// A key or a value that a word names.
pub trait Word<A: Copy>: Ord + Clone + Hash + Debug {
    /// Makes what the word names, in memory of `alloc`.
    fn read(alloc: A, word: &str) -> Result<Self, Fault>;

    /// Appends its word.
    fn write(&self, out: &mut String) -> Result<(), Fault>;

    /// A clone ties with its original.
    ghost keys_clone: { KeysCloneFaithfully Self.is_clone Self.cmp };

    /// A clone equals its original.
    ghost values_clone: { ValuesCloneFaithfully Self.is_clone Self.eq };
}

/// A type whose values std reads of a text and prints as that text.
pub trait Plain: FromStr<Err: Drop> + Display + Ord + Clone + Hash + Debug {
    /// A clone ties with its original.
    ghost ties: { KeysCloneFaithfully Self.is_clone Self.cmp };

    /// A clone equals its original.
    ghost equals: { ValuesCloneFaithfully Self.is_clone Self.eq };
}

impl<T: Plain, A: Copy> Word<A> for T {
    ghost keys_clone = { T.ties };

    ghost values_clone = { T.equals };

    fn read(_alloc: A, word: &str) -> Result<T, Fault> {
        match word.parse::<T>() {
            Ok(value) => Ok(value),
            Err(_) => Err(Fault::NoWord),
        }
    }

    fn write(&self, out: &mut String) -> Result<(), Fault> {
        write!(out, "{self}")?;
        Ok(())
    }
}

/// A text is the word.
impl<A: Allocator + Copy> Word<A> for String<A> {
    ghost use Rattle.std.proofs.Common.{rules};
    ghost use Rattle.std.specs.Cmp.Rules.{comparing};

    ghost keys_clone = { Prim.search (comparing, rules) };

    ghost values_clone = { Prim.search (comparing, rules) };

    fn read(alloc: A, word: &str) -> Result<String<A>, Fault> {
        Ok(String::from_str(alloc, word)?)
    }

    fn write(&self, out: &mut String) -> Result<(), Fault> {
        out.push_str(self.as_str())?;
        Ok(())
    }
}

/// The value of a set's ranges has an empty word.
impl<A: Copy> Word<A> for () {
    ghost use Rattle.std.proofs.Common.{rules};
    ghost use Rattle.std.specs.Cmp.Rules.{comparing};

    ghost keys_clone = { Prim.search (comparing, rules) };

    ghost values_clone = { Prim.search (comparing, rules) };

    fn read(_alloc: A, word: &str) -> Result<(), Fault> {
        if word.is_empty() {
            Ok(())
        } else {
            Err(Fault::NoWord)
        }
    }

    fn write(&self, _out: &mut String) -> Result<(), Fault> {
        Ok(())
    }
}

/// A character is its word, or `U+` and the four to six digits of its number, as in `U+D7FF`.
impl<A: Copy> Word<A> for char {
    ghost use Rattle.std.proofs.Common.{rules};
    ghost use Rattle.std.specs.Cmp.Rules.{comparing};

    ghost keys_clone = { Prim.search (comparing, rules) };

    ghost values_clone = { Prim.search (comparing, rules) };

    fn read(_alloc: A, word: &str) -> Result<char, Fault> {
        if let Some(digits) = word.strip_prefix("U+") {
            let number = u32::from_str_radix(digits, 16).ok().ok_or(Fault::NoWord)?;
            return char::from_u32(number).ok_or(Fault::NoWord);
        }
        word.parse::<char>().ok().ok_or(Fault::NoWord)
    }

    fn write(&self, out: &mut String) -> Result<(), Fault> {
        if self.is_ascii_alphanumeric() {
            out.push(*self)?;
        } else {
            write!(out, "U+{:04X}", u32::from(*self))?;
        }
        Ok(())
    }
}

/// A pair has a slash between the words of its parts.
impl<A: Copy> Word<A> for (u8, u8) {
    ghost use Rattle.std.proofs.Common.{rules};
    ghost use Rattle.std.specs.Cmp.Rules.{comparing};

    ghost keys_clone = { Prim.search (comparing, rules) };

    ghost values_clone = { Prim.search (comparing, rules) };

    fn read(alloc: A, word: &str) -> Result<(u8, u8), Fault> {
        let (first, second) = word.split_once('/').ok_or(Fault::NoWord)?;
        Ok((Word::read(alloc, first)?, Word::read(alloc, second)?))
    }

    fn write(&self, out: &mut String) -> Result<(), Fault> {
        write!(out, "{}/{}", self.0, self.1)?;
        Ok(())
    }
}

/// So has a pair of a text and a number.
impl<A: Allocator + Copy> Word<A> for (String<A>, u32) {
    ghost use Rattle.std.proofs.Common.{rules};
    ghost use Rattle.std.specs.Cmp.Rules.{comparing};

    ghost keys_clone = { Prim.search (comparing, rules) };

    ghost values_clone = { Prim.search (comparing, rules) };

    fn read(alloc: A, word: &str) -> Result<(String<A>, u32), Fault> {
        let (first, second) = word.split_once('/').ok_or(Fault::NoWord)?;
        let first = Word::read(alloc, first)?;
        Ok((first, Word::read(alloc, second)?))
    }

    fn write(&self, out: &mut String) -> Result<(), Fault> {
        write!(out, "{}/{}", self.0, self.1)?;
        Ok(())
    }
}
