//! A rota: who is on duty at which hour.
ghost use Rattle.std.specs.Prelude.{◌≡◌, ◌≢◌, ◌<◌, ◌≤◌, ◌⊎◌, ℕ, [], None, IfOk, OnErr, OnOk, Some, false, true};
ghost use Rattle.examples.specs.Rota.{AreUncovered, IsSwapped, on_duty};

use rangemap::RangeMap;
use rangemap::map::Gaps;
use std::alloc::{AllocError, Global};
use std::ops::Range;

/// Who is on duty at which hour. Hours are counted from the start of the rota, and people are
/// numbers. A shift is a stretch of hours as long as one person is on without a break.
#[derive(Drop)]
pub struct Rota {
    shifts: RangeMap<u32, u32>,
}

impl Rota {
    /// Returns the rota on which nobody is.
    pub fn new(alloc: Global) -> Self
        ensures { result.shifts ≡ [] }
    {
        Rota {
            shifts: RangeMap::new(alloc),
        }
    }

    /// Returns who is on at the hour, if somebody is.
    pub fn on_at(&self, hour: u32) -> Option<u32>
        ensures { result ≡ on_duty self.now.shifts hour }
    {
        self.shifts.get(&hour).copied()
    }

    /// Returns up to which hour nobody is on: from `hour` on, at which nobody is, and up to `limit`.
    ///
    /// # Requires
    ///
    /// Nobody is on at `hour`, which comes before `limit`.
    pub fn off_until(&self, hour: u32, limit: u32) -> u32
        requires forward { hour < limit }
        requires off { on_duty self.now.shifts hour ≡ None }
        ensures forward { hour < result }
        ensures within { result ≤ limit }
        ensures off { (later : ℕ) → hour ≤ later → later < result → on_duty self.now.shifts later ≡ None }
        ensures ends { result < limit → on_duty self.now.shifts result ≢ None }
    {
        let rest = hour..limit;
        match self.shifts.gaps(&rest).try_next() {
            Ok(Some(gap)) => gap.end,
            Ok(None) => unreachable!(),
            Err(AllocError) => unreachable!(),
        }
    }

    /// Puts the person on for the hours, in place of whoever was.
    ///
    /// # Requires
    ///
    /// The hours are not empty.
    ///
    /// # Errors
    ///
    /// Memory was refused. Then nothing has changed.
    pub fn assign(&mut self, hours: Range<u32>, person: u32) -> Result<(), AllocError>
        requires { hours.start < hours.end }
        ensures within { OnOk result ((hour : ℕ) → hours.start ≤ hour → hour < hours.end → on_duty self.new.shifts hour ≡ Some person) }
        ensures before { OnOk result ((hour : ℕ) → hour < hours.start → on_duty self.new.shifts hour ≡ on_duty self.old.shifts hour) }
        ensures behind { OnOk result ((hour : ℕ) → hours.end ≤ hour → on_duty self.new.shifts hour ≡ on_duty self.old.shifts hour) }
        ensures refused { OnErr result (self.new.shifts ≡ self.old.shifts) }
    {
        self.shifts.insert(hours, person)
    }

    /// Swaps two shifts, that which has the hour `first` and that which has the hour `second`: each
    /// of the two people has the other's shift then. Returns false, and changes nothing, where
    /// nobody is on at one of the hours.
    ///
    /// # Errors
    ///
    /// Memory was refused. Then nothing has changed, since both changes are made to a copy.
    pub fn swap(&mut self, first: u32, second: u32) -> Result<bool, AllocError>
        ensures swapped { IfOk result (λ done. done ≡ true → IsSwapped self.old.shifts first second self.new.shifts) }
        ensures not_found { IfOk result (λ done. done ≡ false → (on_duty self.old.shifts first ≡ None) ⊎ (on_duty self.old.shifts second ≡ None)) }
        ensures kept { IfOk result (λ done. done ≡ false → self.new.shifts ≡ self.old.shifts) }
        ensures refused { OnErr result (self.new.shifts ≡ self.old.shifts) }
    {
        let Some((one, alice)) = self.shifts.get_key_value(&first) else {
            return Ok(false);
        };
        let Some((other, bob)) = self.shifts.get_key_value(&second) else {
            return Ok(false);
        };
        let mut swapped = self.shifts.clone()?;
        swapped.insert(one.start..one.end, *bob)?;
        swapped.insert(other.start..other.end, *alice)?;
        self.shifts = swapped;
        Ok(true)
    }

    /// Returns the stretches of the hours at which nobody is on, in order.
    pub fn uncovered<'a>(&'a self, hours: &'a Range<u32>) -> Gaps<'a, u32, u32>
        ensures { AreUncovered self.now.shifts hours.now.start hours.now.end result }
    {
        self.shifts.gaps(hours)
    }
}
