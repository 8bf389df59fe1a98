//! An extent table: on which physical block of a disk each logical block of a file lies.
ghost use Rattle.std.specs.Prelude.{◌≡◌, ◌+◌, ◌-◌, ◌<◌, ◌≤◌, ◌^◌, ◌↔◌, ℕ, IfOk, IfSome, None, OnErr, OnOk, Some, false, true};
ghost use Rattle.examples.specs.Extents.{IsOneToOne, IsOutside, IsUsed, LiesOn, place_of};

use rangemap::RangeInclusiveMap;
use std::alloc::{AllocError, Global};

/// Where the blocks of a file lie. No two of them lie on the same physical block.
///
/// An extent is a stretch of logical blocks that lie one behind another on the disk. What is stored
/// with it is its shift: by how much the physical block is ahead of the logical one, modulo 2^32.
/// So both parts of an extent that is cut keep its value, and extents that continue each other
/// become one.
#[derive(Drop)]
pub struct Extents {
    shifts: RangeInclusiveMap<u32, u32>,
    ghost one_to_one: { IsOneToOne shifts },
}

impl Extents {
    /// Returns the table of a file none of whose blocks lies on the disk.
    pub fn new(alloc: Global) -> Self
        ensures { (block : ℕ) → place_of result.shifts block ≡ None }
    {
        Extents {
            shifts: RangeInclusiveMap::new(alloc),
        }
    }

    /// Returns the physical block on which the logical block lies, if it lies on one. No other
    /// logical block lies there.
    pub fn physical(&self, logical: u32) -> Option<u32>
        ensures place { result ≡ place_of self.now.shifts logical }
        ensures alone { IfSome result (λ place. (other : ℕ) → other < 2 ^ 32 → place_of self.now.shifts other ≡ Some place → other ≡ logical) }
    {
        let shift = self.shifts.get(&logical)?;
        Some(logical.wrapping_add(*shift))
    }

    /// Lets `count` blocks from `logical` on lie on the physical blocks from `physical` on, and
    /// returns true, wherever they lay before. Returns false, and changes nothing, where a logical
    /// block lies on one of these physical blocks.
    ///
    /// # Requires
    ///
    /// The count is not 0, and no block's number goes past `u32::MAX`.
    ///
    /// # Errors
    ///
    /// Memory was refused. Then nothing has changed.
    pub fn map(&mut self, logical: u32, physical: u32, count: u32) -> Result<bool, AllocError>
        requires some { 0 < count }
        requires logical_fits { logical + count ≤ 2 ^ 32 }
        requires physical_fits { physical + count ≤ 2 ^ 32 }
        ensures granted { IfOk result (λ granted. granted ≡ true ↔ ¬ (IsUsed self.old.shifts physical (physical + count - 1))) }
        ensures mapped { IfOk result (λ granted. granted ≡ true → (step : ℕ) → step < count → place_of self.new.shifts (logical + step) ≡ Some (physical + step)) }
        ensures before { OnOk result ((block : ℕ) → block < logical → place_of self.new.shifts block ≡ place_of self.old.shifts block) }
        ensures behind { OnOk result ((block : ℕ) → logical + count ≤ block → block < 2 ^ 32 → place_of self.new.shifts block ≡ place_of self.old.shifts block) }
        ensures kept { IfOk result (λ granted. granted ≡ false → self.new.shifts ≡ self.old.shifts) }
        ensures refused { OnErr result (self.new.shifts ≡ self.old.shifts) }
    {
        let more = count - 1;
        if self.is_used(physical, physical + more) {
            return Ok(false);
        }
        let shift = physical.wrapping_sub(logical);
        self.shifts.insert(logical..=logical + more, shift)?;
        Ok(true)
    }

    /// Punches a hole: the logical blocks from `first` to `last` lie nowhere then.
    ///
    /// # Requires
    ///
    /// The first block is not past the last.
    ///
    /// # Errors
    ///
    /// Memory was refused. Then nothing has changed.
    pub fn punch(&mut self, first: u32, last: u32) -> Result<(), AllocError>
        requires { first ≤ last }
        ensures hole { OnOk result ((block : ℕ) → first ≤ block → block ≤ last → place_of self.new.shifts block ≡ None) }
        ensures before { OnOk result ((block : ℕ) → block < first → place_of self.new.shifts block ≡ place_of self.old.shifts block) }
        ensures behind { OnOk result ((block : ℕ) → last < block → block < 2 ^ 32 → place_of self.new.shifts block ≡ place_of self.old.shifts block) }
        ensures refused { OnErr result (self.new.shifts ≡ self.old.shifts) }
    {
        self.shifts.remove(first..=last)
    }

    // Returns whether a logical block lies on one of the physical blocks. It looks at each extent.
    fn is_used(&self, first: u32, last: u32) -> bool
        requires { first ≤ last }
        ensures used { result ≡ true → IsUsed self.now.shifts first last }
        ensures free { result ≡ false → ¬ (IsUsed self.now.shifts first last) }
    {
        for (extent, shift) in self.shifts.iter() {
            if lies_on(*extent.start(), *extent.end(), *shift, first, last) {
                return true;
            }
        }
        false
    }
}

// Returns whether one of the logical blocks from `start` to `end`, by their shift, lies on one of
// the physical blocks from `first` to `last`: of two stretches of a ring that meet, one has the
// start of the other.
fn lies_on(start: u32, end: u32, shift: u32, first: u32, last: u32) -> bool
    requires forward { start ≤ end }
    requires asked { first ≤ last }
    ensures yes { result ≡ true → LiesOn start end shift first last }
    ensures no { result ≡ false → IsOutside start end shift first last }
{
    let place = start.wrapping_add(shift);
    first.wrapping_sub(place) <= end - start || place.wrapping_sub(first) <= last - first
}
