//! Blocks of IPv4 addresses, and who holds them.
ghost use Rattle.std.specs.Prelude.{◌≡◌, ◌+◌, ◌<◌, ◌≤◌, ◌^◌, ◌↔◌, ℕ, [], IfNone, IfOk, IfSome, OnErr, OnOk, Some, false, true};
ghost use Rattle.examples.specs.Planner.{IsFree, IsLowestFree, owner_of};

use rangemap::RangeInclusiveMap;
use std::alloc::{AllocError, Global};

/// Which addresses are held, and by whom. Owners are numbers.
#[derive(Drop)]
pub struct Planner {
    blocks: RangeInclusiveMap<u32, u32>,
}

impl Planner {
    /// Returns a planner of which nobody holds an address.
    pub fn new(alloc: Global) -> Self
        ensures { result.blocks ≡ [] }
    {
        Planner {
            blocks: RangeInclusiveMap::new(alloc),
        }
    }

    /// Returns who holds the address, if somebody does.
    pub fn owner(&self, address: u32) -> Option<u32>
        ensures { result ≡ owner_of self.now.blocks address }
    {
        self.blocks.get(&address).copied()
    }

    /// Gives the addresses from `first` to `last` to the owner and returns true, or returns false
    /// where somebody holds one of them.
    ///
    /// # Requires
    ///
    /// The first address is not past the last.
    ///
    /// # Errors
    ///
    /// Memory was refused. Then nothing has changed.
    pub fn reserve(&mut self, first: u32, last: u32, owner: u32) -> Result<bool, AllocError>
        requires { first ≤ last }
        ensures granted { IfOk result (λ granted. granted ≡ true ↔ IsFree self.old.blocks first (last + 1)) }
        ensures held { IfOk result (λ granted. granted ≡ true → (at : ℕ) → first ≤ at → at ≤ last → owner_of self.new.blocks at ≡ Some owner) }
        ensures before { OnOk result ((at : ℕ) → at < first → owner_of self.new.blocks at ≡ owner_of self.old.blocks at) }
        ensures behind { OnOk result ((at : ℕ) → last < at → at < 2 ^ 32 → owner_of self.new.blocks at ≡ owner_of self.old.blocks at) }
        ensures kept { IfOk result (λ granted. granted ≡ false → self.new.blocks ≡ self.old.blocks) }
        ensures refused { OnErr result (self.new.blocks ≡ self.old.blocks) }
    {
        let block = first..=last;
        if self.blocks.overlaps(&block) {
            return Ok(false);
        }
        self.blocks.insert(block, owner)?;
        Ok(true)
    }

    /// Takes the addresses from `first` to `last` back, whoever holds them.
    ///
    /// # Requires
    ///
    /// The first address is not past the last.
    ///
    /// # Errors
    ///
    /// Memory was refused. Then nothing has changed.
    pub fn release(&mut self, first: u32, last: u32) -> Result<(), AllocError>
        requires { first ≤ last }
        ensures free { OnOk result (IsFree self.new.blocks first (last + 1)) }
        ensures before { OnOk result ((at : ℕ) → at < first → owner_of self.new.blocks at ≡ owner_of self.old.blocks at) }
        ensures behind { OnOk result ((at : ℕ) → last < at → at < 2 ^ 32 → owner_of self.new.blocks at ≡ owner_of self.old.blocks at) }
        ensures refused { OnErr result (self.new.blocks ≡ self.old.blocks) }
    {
        self.blocks.remove(first..=last)
    }

    /// Returns the first address of the lowest block of `size` addresses that nobody holds, if
    /// there is one.
    ///
    /// # Requires
    ///
    /// The size is not 0.
    pub fn first_free(&self, size: u32) -> Option<u32>
        requires { 0 < size }
        ensures found { IfSome result (λ first. IsLowestFree self.now.blocks size first) }
        ensures none { IfNone result ((first : ℕ) → first + size ≤ 2 ^ 32 → ¬ (IsFree self.now.blocks first (first + size))) }
    {
        let all = 0..=u32::MAX;
        for gap in self.blocks.gaps(&all) {
            // A gap is made of clones, and those of a `u32` are never refused.
            let Ok(gap) = gap else { unreachable!() };
            let first = *gap.start();
            let last = *gap.end();
            if last - first >= size - 1 {
                return Some(first);
            }
        }
        None
    }
}
