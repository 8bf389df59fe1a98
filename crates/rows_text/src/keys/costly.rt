//! Keys with steps whose clone takes memory.
ghost use Rattle.std.specs.Prelude.{◌≡◌, ◌<◌, ◌^◌, option_map, nat_eq, refl};
ghost use Rattle.std.proofs.Common.{rules};
ghost use Rattle.std.specs.Cmp.{nat_eq_equiv, on_equiv, on_per, partial_equiv_from_equiv, partial_order_from_own_ties};
ghost use Rattle.std.specs.Cmp.Rules.{comparing, hashing};
ghost use Rattle.std.specs.Hash as fed;
ghost use Rattle.std.specs.Ordering.{as_partial_cmp, nat_cmp, on};
ghost use Rattle.rangemap_steps.specs.StepLaws.{held_follows, held_precedes, nat_after, nat_before, nat_follows, nat_precedes};

use crate::fault::Fault;
use crate::memory::Heap;
use crate::word::Word;
use rangemap_steps::StepLite;
use std::alloc::AllocError;
use std::cmp::Ordering;
use std::fmt::{self, Debug, Formatter};
use std::hash::{Hash, Hasher};

/// A byte. A clone of it takes a block of memory and gives it back at once, so it may be refused.
#[derive(Drop)]
pub struct Costly<'a> {
    /// The byte, by which keys are compared.
    pub byte: u8,
    /// Where the block is taken from.
    pub heap: &'a Heap,
}

impl<'a> Clone for Costly<'a> {
    ghost is_clone = { λ key copy. copy ≡ key };

    fn clone(&self) -> Result<Self, AllocError> {
        let _block: Vec<u8, _> = Vec::with_capacity(self.heap, 1)?;
        Ok(Costly {
            byte: self.byte,
            heap: self.heap,
        })
    }
}

impl<'a> PartialEq for Costly<'a> {
    ghost eq = { on (λ key. key.byte) nat_eq };

    ghost laws = { on_per (λ key. key.byte) (partial_equiv_from_equiv nat_eq_equiv) };

    fn eq(&self, other: &Self) -> bool {
        self.byte == other.byte
    }
}

impl<'a> Eq for Costly<'a> {
    ghost laws = { on_equiv (λ key. key.byte) nat_eq_equiv };
}

impl<'a> PartialOrd for Costly<'a> {
    ghost partial_cmp = { as_partial_cmp (on (λ key. key.byte) nat_cmp) };

    ghost laws = { partial_order_from_own_ties (Prim.search (comparing, rules)) (Prim.search (comparing, rules)) };

    fn partial_cmp(&self, other: &Self) -> Option<Ordering> {
        Some(self.cmp(other))
    }
}

impl<'a> Ord for Costly<'a> {
    ghost cmp = { on (λ key. key.byte) nat_cmp };

    ghost total = { Prim.search (comparing, rules) };

    ghost matches_partial_cmp = { Prim.search (comparing, rules) };

    ghost matches_eq = { Prim.search (comparing, rules) };

    fn cmp(&self, other: &Self) -> Ordering {
        self.byte.cmp(&other.byte)
    }
}

impl<'a> StepLite for Costly<'a> {
    ghost is_key = { λ key. key.byte < 2 ^ 8 };

    ghost after = { λ key. option_map (λ n. record { byte = n; heap = key.heap }) (nat_after (2 ^ 8) key.byte) };

    ghost before = { λ key. option_map (λ n. record { byte = n; heap = key.heap }) (nat_before key.byte) };

    ghost follows = { held_follows (λ n. n < 2 ^ 8) nat_cmp (λ key. key.byte) (λ key n. record { byte = n; heap = key.heap }) (λ _ _. refl) (nat_after (2 ^ 8)) (nat_follows (2 ^ 8)) };

    ghost precedes = { held_precedes (λ n. n < 2 ^ 8) nat_cmp (λ key. key.byte) (λ key n. record { byte = n; heap = key.heap }) (λ _ _. refl) nat_before (nat_precedes (2 ^ 8)) };

    fn known(&self) {
        let _byte = self.byte;
    }

    fn add_one(&self) -> Self {
        Costly {
            byte: self.byte + 1,
            heap: self.heap,
        }
    }

    fn sub_one(&self) -> Self {
        Costly {
            byte: self.byte - 1,
            heap: self.heap,
        }
    }
}

impl<'a> Debug for Costly<'a> {
    ghost debug_output = { λ key. ⟦<u8 as Debug>⟧.debug_output key.byte };

    fn fmt<W: fmt::Write>(&self, f: &mut Formatter<W>) -> fmt::Result {
        self.byte.fmt(f)
    }
}

impl<'a> Hash for Costly<'a> {
    ghost hash_input = { λ key. fed.u8 key.byte };

    ghost respects_eq = { Prim.search (hashing, rules) };

    fn hash<H: Hasher>(&self, state: &mut H) {
        self.byte.hash(state);
    }
}

impl<'a> Word<&'a Heap> for Costly<'a> {
    ghost keys_clone = { Prim.search (comparing, rules) };

    ghost values_clone = { Prim.search (comparing, rules) };

    fn read(heap: &'a Heap, word: &str) -> Result<Self, Fault> {
        let byte = word.parse::<u8>().ok().ok_or(Fault::NoWord)?;
        Ok(Costly { byte, heap })
    }

    fn write(&self, out: &mut String) -> Result<(), Fault> {
        write!(out, "{}", self.byte)?;
        Ok(())
    }
}
