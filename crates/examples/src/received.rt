//! Which sequence numbers were received, and what to acknowledge.
ghost use Rattle.std.specs.Prelude.{◌≡◌, ◌≢◌, ◌+◌, ◌<◌, ◌≤◌, ◌^◌, ◌↔◌, ℕ, [], IfNone, IfOk, IfSome, OnErr, OnOk, false, true};
ghost use Rattle.examples.specs.Received.{IsLowestMissing, is_in};

use rangemap::RangeInclusiveSet;
use std::alloc::{AllocError, Global};

/// The numbers that were received. A run of them takes the room of one range.
#[derive(Drop)]
pub struct Received {
    numbers: RangeInclusiveSet<u64>,
}

impl Received {
    /// Returns the tracker that received nothing.
    pub fn new(alloc: Global) -> Self
        ensures { result.numbers ≡ [] }
    {
        Received {
            numbers: RangeInclusiveSet::new(alloc),
        }
    }

    /// Notes a number, and returns whether it is new; false tells a duplicate.
    ///
    /// # Errors
    ///
    /// Memory was refused. Then nothing has changed.
    pub fn receive(&mut self, number: u64) -> Result<bool, AllocError>
        ensures new { IfOk result (λ is_new. is_new ≡ true ↔ is_in self.old.numbers number ≡ false) }
        ensures noted { OnOk result (is_in self.new.numbers number ≡ true) }
        ensures others { OnOk result ((other : ℕ) → other < 2 ^ 64 → other ≢ number → is_in self.new.numbers other ≡ is_in self.old.numbers other) }
        ensures refused { OnErr result (self.new.numbers ≡ self.old.numbers) }
    {
        if self.numbers.contains(&number) {
            return Ok(false);
        }
        self.numbers.insert(number..=number)?;
        Ok(true)
    }

    /// Returns the lowest number from `start` on that was not received, if there is one.
    pub fn lowest_missing(&self, start: u64) -> Option<u64>
        ensures found { IfSome result (λ number. IsLowestMissing self.now.numbers start number) }
        ensures none { IfNone result ((other : ℕ) → start ≤ other → other < 2 ^ 64 → is_in self.now.numbers other ≡ true) }
    {
        let Some(run) = self.numbers.get(&start) else {
            return Some(start);
        };
        let last = *run.end();
        if last < u64::MAX {
            Some(last + 1)
        } else {
            None
        }
    }

    /// Returns what to acknowledge: the greatest number up to which all were received, if 0 was.
    pub fn acknowledged(&self) -> Option<u64>
        ensures all { IfSome result (λ last. (number : ℕ) → number ≤ last → is_in self.now.numbers number ≡ true) }
        ensures greatest { IfSome result (λ last. last + 1 < 2 ^ 64 → is_in self.now.numbers (last + 1) ≡ false) }
        ensures none { IfNone result (is_in self.now.numbers 0 ≡ false) }
    {
        match self.lowest_missing(0) {
            None => Some(u64::MAX),
            Some(0) => None,
            Some(missing) => Some(missing - 1),
        }
    }
}
