//! Which numbers wait behind those that were delivered.
ghost use Rattle.std.specs.Prelude.{◌≡◌, ◌<◌, ◌≤◌, ◌&&◌, ◌||◌, ℕ, [], OnErr, OnOk, nat_le, nat_lt, not, true};
ghost use Rattle.std.specs.Ordering.{nat_cmp};
ghost use Rattle.rangemap.specs.Ranges.{covers, half_open};

use rangemap::RangeSet;
use std::alloc::{AllocError, Global};

/// The numbers that were received and wait, and the next one to be delivered. A run of numbers
/// takes the room of one range, and what was delivered takes none.
#[derive(Drop)]
pub struct Window {
    waiting: RangeSet<u64>,
    next: u64,
    ghost none_delivered: { (number : ℕ) → covers (half_open nat_cmp) waiting number ≡ true → next ≤ number },
}

impl Window {
    /// Returns the window that received nothing and delivers 0 next.
    pub fn new(alloc: Global) -> Self
        ensures { result.waiting ≡ [] × (result.next ≡ 0) }
    {
        Window {
            waiting: RangeSet::new(alloc),
            next: 0,
        }
    }

    /// Notes that the numbers from `from` up to and without `to` were received. Those that were
    /// delivered already are passed over.
    ///
    /// # Requires
    ///
    /// There is such a number.
    ///
    /// # Errors
    ///
    /// Memory was refused. Then nothing has changed.
    pub fn receive(&mut self, from: u64, to: u64) -> Result<(), AllocError>
        requires { from < to }
        ensures noted { OnOk result ((number : ℕ) → covers (half_open nat_cmp) self.new.waiting number ≡ (covers (half_open nat_cmp) self.old.waiting number || ((nat_le from number && nat_lt number to) && nat_le self.old.next number))) }
        ensures refused { OnErr result (self.new.waiting ≡ self.old.waiting) }
        ensures next { self.new.next ≡ self.old.next }
    {
        let from = from.max(self.next);
        if from < to {
            self.waiting.insert(from..to)?;
        }
        Ok(())
    }

    /// Drops the numbers up to and without `to`, which were delivered.
    ///
    /// # Requires
    ///
    /// They go further than what was delivered before.
    ///
    /// # Errors
    ///
    /// Memory was refused. Then nothing has changed.
    pub fn deliver(&mut self, to: u64) -> Result<(), AllocError>
        requires { self.old.next < to }
        ensures dropped { OnOk result ((number : ℕ) → covers (half_open nat_cmp) self.new.waiting number ≡ (covers (half_open nat_cmp) self.old.waiting number && not (nat_le self.old.next number && nat_lt number to))) }
        ensures next { OnOk result (self.new.next ≡ to) }
        ensures refused { OnErr result ((self.new.waiting ≡ self.old.waiting) × (self.new.next ≡ self.old.next)) }
    {
        self.waiting.remove(self.next..to)?;
        self.next = to;
        Ok(())
    }

    /// Returns the number that is delivered next.
    pub fn next(&self) -> u64
        ensures { result ≡ self.now.next }
    {
        self.next
    }

    /// Returns whether the number waits.
    pub fn is_waiting(&self, number: u64) -> bool
        ensures { result ≡ covers (half_open nat_cmp) self.now.waiting number }
    {
        self.waiting.contains(&number)
    }
}
