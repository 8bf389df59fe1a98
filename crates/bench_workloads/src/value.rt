//! The values of the maps: a number, a text, or nothing, as sets have it.
ghost use Rattle.rangemap.specs.Clones.{ValuesCloneFaithfully};

use std::alloc::{AllocError, Global};

/// A value that the workloads store.
pub trait Stored: Eq + Clone {
    /// Makes the value of an entry, of the entry's number.
    fn made_of(alloc: Global, number: u32) -> Result<Self, AllocError>;

    /// Returns a number that tells the value from others.
    fn number(&self) -> u64;

    /// A clone of a value equals it.
    ghost faithful: { ValuesCloneFaithfully Self.is_clone Self.eq };
}

impl Stored for u32 {
    ghost use Rattle.std.proofs.Common.{sym};
    ghost use Rattle.std.proofs.lemmas.Bool.{eq-eqb};

    ghost faithful = { λ x y same. eq-eqb x y (sym same) };

    #[inline(always)]
    fn made_of(_alloc: Global, number: u32) -> Result<u32, AllocError> {
        Ok(number)
    }

    #[inline(always)]
    fn number(&self) -> u64 {
        u64::from(*self)
    }
}

// The texts that are stored, each of another length.
const TEXTS: [&str; 8] = [
    "free",
    "taken",
    "booked",
    "waiting",
    "reserved",
    "cancelled",
    "out of use",
    "not known yet",
];

impl Stored for String {
    ghost use Rattle.std.proofs.Common.{rules};

    ghost faithful = { Prim.search rules };

    #[inline(always)]
    fn made_of(alloc: Global, number: u32) -> Result<String, AllocError> {
        String::from_str(alloc, TEXTS[(number % 8) as usize])
    }

    #[inline(always)]
    fn number(&self) -> u64 {
        self.len() as u64
    }
}

impl Stored for () {
    ghost faithful = { Prim.search };

    #[inline(always)]
    fn made_of(_alloc: Global, _number: u32) -> Result<(), AllocError> {
        Ok(())
    }

    #[inline(always)]
    fn number(&self) -> u64 {
        0
    }
}
