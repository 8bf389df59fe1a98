//! Keys and values that count what is asked of them, which shows the calls of a function whose answer
//! does not.
ghost use Rattle.std.specs.Prelude.{nat_eq};
ghost use Rattle.std.proofs.Common.{rules};
ghost use Rattle.std.specs.Cmp.{nat_eq_equiv, on_equiv, on_per, partial_equiv_from_equiv, partial_order_from_own_ties};
ghost use Rattle.std.specs.Cmp.Rules.{comparing, hashing};
ghost use Rattle.std.specs.Hash as fed;
ghost use Rattle.std.specs.Ordering.{as_partial_cmp, nat_cmp, on};

use std::cell::Cell;
use std::cmp::Ordering;
use std::hash::{Hash, Hasher};

/// How often they took part in an `==` and in a `cmp`, and were fed to a hasher.
pub type Counts = (u32, u32, u32);

/// Where they count.
#[derive(Drop)]
pub struct Tally(Cell<Counts>);

impl Tally {
    /// Nothing was counted yet.
    pub fn new() -> Tally {
        Tally(Cell::new((0, 0, 0)))
    }

    /// What was counted since this was last asked.
    pub fn taken(&self) -> Counts {
        self.0.replace((0, 0, 0))
    }

    // Counts these too.
    fn count(&self, equal: u32, ordered: u32, hashed: u32) {
        let (equals, orders, hashes) = self.0.get();
        self.0.set((
            equals.wrapping_add(equal),
            orders.wrapping_add(ordered),
            hashes.wrapping_add(hashed),
        ));
    }
}

/// A number, by which two are compared, with a tally of the calls.
#[derive(Clone, Copy)]
pub struct Tallied<'a> {
    /// What it is.
    pub number: u32,
    /// Where it counts.
    pub tally: &'a Tally,
}

impl<'a> PartialEq for Tallied<'a> {
    ghost eq = { on (λ value. value.number) nat_eq };

    ghost laws = { on_per (λ value. value.number) (partial_equiv_from_equiv nat_eq_equiv) };

    fn eq(&self, other: &Self) -> bool {
        self.tally.count(1, 0, 0);
        other.tally.count(1, 0, 0);
        self.number == other.number
    }
}

impl<'a> Eq for Tallied<'a> {
    ghost laws = { on_equiv (λ value. value.number) nat_eq_equiv };
}

impl<'a> PartialOrd for Tallied<'a> {
    ghost partial_cmp = { as_partial_cmp (on (λ value. value.number) nat_cmp) };

    ghost laws = { partial_order_from_own_ties (Prim.search (comparing, rules)) (Prim.search (comparing, rules)) };

    fn partial_cmp(&self, other: &Self) -> Option<Ordering> {
        Some(self.cmp(other))
    }
}

impl<'a> Ord for Tallied<'a> {
    ghost cmp = { on (λ value. value.number) nat_cmp };

    ghost total = { Prim.search (comparing, rules) };

    ghost matches_partial_cmp = { Prim.search (comparing, rules) };

    ghost matches_eq = { Prim.search (comparing, rules) };

    fn cmp(&self, other: &Self) -> Ordering {
        self.tally.count(0, 1, 0);
        other.tally.count(0, 1, 0);
        self.number.cmp(&other.number)
    }
}

impl<'a> Hash for Tallied<'a> {
    ghost hash_input = { λ value. fed.u32 value.number };

    ghost respects_eq = { Prim.search (hashing, rules) };

    fn hash<H: Hasher>(&self, state: &mut H) {
        self.tally.count(0, 0, 1);
        self.number.hash(state);
    }
}
