//! Bytes in the reversed order.
ghost use Rattle.std.specs.Prelude.{◌<◌, ◌^◌, option_map, nat_eq, refl};
ghost use Rattle.std.proofs.Common.{rules};
ghost use Rattle.std.specs.Cmp.{nat_eq_equiv, on_equiv, on_per, partial_equiv_from_equiv, partial_order_from_own_ties};
ghost use Rattle.std.specs.Cmp.Rules.{comparing, hashing};
ghost use Rattle.std.specs.Hash as fed;
ghost use Rattle.std.specs.Ordering.{as_partial_cmp, nat_cmp, on};
ghost use Rattle.rangemap_steps.specs.StepLaws.{held_follows, held_precedes, nat_after, nat_before, nat_follows, nat_precedes};
ghost use Rattle.rows_text.specs.Reversed.{reversed, reversed_follows, reversed_precedes};

use crate::fault::Fault;
use crate::word::Word;
use rangemap_steps::StepLite;
use std::cmp::Ordering;
use std::hash::{Hash, Hasher};

/// A byte, in the order in which the greater comes first.
#[derive(Clone, Copy, Debug)]
pub struct Down(pub u8);

impl PartialEq for Down {
    ghost eq = { on (λ key. key.0) nat_eq };

    ghost laws = { on_per (λ key. key.0) (partial_equiv_from_equiv nat_eq_equiv) };

    fn eq(&self, other: &Self) -> bool {
        self.0 == other.0
    }
}

impl Eq for Down {
    ghost laws = { on_equiv (λ key. key.0) nat_eq_equiv };
}

impl PartialOrd for Down {
    ghost partial_cmp = { as_partial_cmp (on (λ key. key.0) (reversed nat_cmp)) };

    ghost laws = { partial_order_from_own_ties (Prim.search (comparing, rules)) (Prim.search (comparing, rules)) };

    fn partial_cmp(&self, other: &Self) -> Option<Ordering> {
        Some(self.cmp(other))
    }
}

impl Ord for Down {
    ghost cmp = { on (λ key. key.0) (reversed nat_cmp) };

    ghost total = { Prim.search (comparing, rules) };

    ghost matches_partial_cmp = { Prim.search (comparing, rules) };

    ghost matches_eq = { Prim.search (comparing, rules) };

    fn cmp(&self, other: &Self) -> Ordering {
        other.0.cmp(&self.0)
    }
}

impl StepLite for Down {
    ghost is_key = { λ key. key.0 < 2 ^ 8 };

    ghost after = { λ key. option_map (λ n. record { 0 = n }) (nat_before key.0) };

    ghost before = { λ key. option_map (λ n. record { 0 = n }) (nat_after (2 ^ 8) key.0) };

    ghost follows = { held_follows (λ n. n < 2 ^ 8) (reversed nat_cmp) (λ key. key.0) (λ _ n. record { 0 = n }) (λ _ _. refl) nat_before (reversed_follows (λ n. n < 2 ^ 8) nat_cmp nat_before (nat_precedes (2 ^ 8))) };

    ghost precedes = { held_precedes (λ n. n < 2 ^ 8) (reversed nat_cmp) (λ key. key.0) (λ _ n. record { 0 = n }) (λ _ _. refl) (nat_after (2 ^ 8)) (reversed_precedes (λ n. n < 2 ^ 8) nat_cmp (nat_after (2 ^ 8)) (nat_follows (2 ^ 8))) };

    fn known(&self) {
        let _byte = self.0;
    }

    fn add_one(&self) -> Down {
        Down(self.0 - 1)
    }

    fn sub_one(&self) -> Down {
        Down(self.0 + 1)
    }
}

impl Hash for Down {
    ghost hash_input = { λ key. fed.u8 key.0 };

    ghost respects_eq = { Prim.search (hashing, rules) };

    fn hash<H: Hasher>(&self, state: &mut H) {
        self.0.hash(state);
    }
}

impl<A: Copy> Word<A> for Down {
    ghost keys_clone = { Prim.search (comparing, rules) };

    ghost values_clone = { Prim.search (comparing, rules) };

    fn read(_alloc: A, word: &str) -> Result<Self, Fault> {
        match word.parse::<u8>() {
            Ok(byte) => Ok(Down(byte)),
            Err(_) => Err(Fault::NoWord),
        }
    }

    fn write(&self, out: &mut String) -> Result<(), Fault> {
        write!(out, "{}", self.0)?;
        Ok(())
    }
}
