//! The memory of a process: which addresses are mapped, what may be done there, and what is free.
ghost use Rattle.std.specs.Prelude.{◌≡◌, ◌+◌, ◌<◌, ◌≤◌, ◌↔◌, ℕ, [], IfNone, IfSome, IsTrue, OnErr, OnOk, Some};
ghost use Rattle.examples.specs.MemoryMap.{IsBoth, IsFree, IsLowestFree, IsShown, allows, answer_at, region_at};

use rangemap::chunked::RangeMap;
use std::alloc::{AllocError, Global};

/// What is to be done at an address.
#[derive(Clone, Copy, Debug, PartialEq, Eq)]
pub enum Access {
    /// A load.
    Read,
    /// A store.
    Write,
    /// A jump.
    Execute,
}

/// Where the bytes of a region come from, and what may be done with them. All may be read.
#[derive(Clone, Copy, Debug, PartialEq, Eq)]
pub struct Region {
    /// The file whose bytes they are, 0 for none.
    pub file: u32,
    /// Whether they may be changed.
    pub writable: bool,
    /// Whether they may be run.
    pub executable: bool,
}

/// Why an access fails.
#[derive(Clone, Copy, Debug, PartialEq, Eq)]
pub enum Fault {
    /// Nothing is mapped there.
    Unmapped,
    /// The region does not allow it.
    Forbidden,
}

impl Region {
    /// Returns whether the region allows the access.
    pub fn allows(&self, access: Access) -> bool
        ensures { result ≡ allows self.now access }
    {
        match access {
            Access::Read => true,
            Access::Write => self.writable,
            Access::Execute => self.executable,
        }
    }
}

/// The regions of a process. Neighbours that are alike take the room of one range. There may be
/// thousands, which come and go at random places, so they are kept in chunks.
#[derive(Drop)]
pub struct MemoryMap {
    regions: RangeMap<u64, Region>,
}

impl MemoryMap {
    /// Returns the memory in which nothing is mapped.
    pub fn new(alloc: Global) -> Self
        ensures { result.regions ≡ [] }
    {
        MemoryMap {
            regions: RangeMap::new(alloc),
        }
    }

    /// Returns the region that an address belongs to, if it is mapped.
    pub fn region_at(&self, address: u64) -> Option<Region>
        ensures { result ≡ region_at self.now.regions address }
    {
        self.regions.get(&address).copied()
    }

    /// Makes sure that an access is allowed.
    ///
    /// # Errors
    ///
    /// Nothing is mapped at the address, or the region there does not allow the access.
    pub fn check(&self, address: u64, access: Access) -> Result<(), Fault>
        ensures { result ≡ answer_at self.now.regions address access }
    {
        let region = self.regions.get(&address).ok_or(Fault::Unmapped)?;
        if region.allows(access) {
            Ok(())
        } else {
            Err(Fault::Forbidden)
        }
    }

    /// Maps a region to the addresses from `start` up to and without `end`, whatever was there.
    ///
    /// # Requires
    ///
    /// There is such an address.
    ///
    /// # Errors
    ///
    /// Memory was refused. Then nothing has changed.
    pub fn map(&mut self, start: u64, end: u64, region: Region) -> Result<(), AllocError>
        requires { start < end }
        ensures within { OnOk result ((at : ℕ) → start ≤ at → at < end → region_at self.new.regions at ≡ Some region) }
        ensures before { OnOk result ((at : ℕ) → at < start → region_at self.new.regions at ≡ region_at self.old.regions at) }
        ensures behind { OnOk result ((at : ℕ) → end ≤ at → region_at self.new.regions at ≡ region_at self.old.regions at) }
        ensures refused { OnErr result (self.new.regions ≡ self.old.regions) }
    {
        self.regions.insert(start..end, region)
    }

    /// Unmaps the addresses from `start` up to and without `end`.
    ///
    /// # Requires
    ///
    /// There is such an address.
    ///
    /// # Errors
    ///
    /// Memory was refused, as a region may have to be split. Then nothing has changed.
    pub fn unmap(&mut self, start: u64, end: u64) -> Result<(), AllocError>
        requires { start < end }
        ensures free { OnOk result (IsFree self.new.regions start end) }
        ensures before { OnOk result ((at : ℕ) → at < start → region_at self.new.regions at ≡ region_at self.old.regions at) }
        ensures behind { OnOk result ((at : ℕ) → end ≤ at → region_at self.new.regions at ≡ region_at self.old.regions at) }
        ensures refused { OnErr result (self.new.regions ≡ self.old.regions) }
    {
        self.regions.remove(start..end)
    }

    /// Returns whether nothing is mapped from `start` up to and without `end`.
    ///
    /// # Requires
    ///
    /// There is such an address.
    pub fn is_free(&self, start: u64, end: u64) -> bool
        requires { start < end }
        ensures { IsTrue result ↔ IsFree self.now.regions start end }
    {
        let range = start..end;
        !self.regions.overlaps(&range)
    }

    /// Returns the lowest address from `start` on from which `size` addresses are free, all below
    /// `end`, if there is one.
    ///
    /// # Requires
    ///
    /// The size is not 0.
    pub fn find_free(&self, start: u64, end: u64, size: u64) -> Option<u64>
        requires { 0 < size }
        ensures found { IfSome result (λ first. IsLowestFree self.now.regions start end size first) }
        ensures none { IfNone result ((first : ℕ) → start ≤ first → first + size ≤ end → ¬ (IsFree self.now.regions first (first + size))) }
    {
        let range = start..end;
        for gap in self.regions.gaps(&range) {
            // A gap is made of clones, and those of a `u64` are never refused.
            let Ok(gap) = gap else { unreachable!() };
            if gap.end - gap.start >= size {
                return Some(gap.start);
            }
        }
        None
    }

    /// Returns whether the file stands behind some address from `start` up to and without `end`.
    ///
    /// # Requires
    ///
    /// There is such an address.
    pub fn shows(&self, start: u64, end: u64, file: u32) -> bool
        requires { start < end }
        ensures { IsTrue result ↔ IsShown self.now.regions start end file }
    {
        self.regions.known();
        let range = start..end;
        for (_, region) in self.regions.overlapping(&range) {
            if region.file == file {
                return true;
            }
        }
        false
    }

    /// Returns whether bytes of some address may be changed and run, which lets an attacker who
    /// writes there run code.
    pub fn has_writable_code(&self) -> bool
        ensures { IsTrue result ↔ IsBoth self.now.regions }
    {
        for (_, region) in self.regions.iter() {
            if region.writable && region.executable {
                return true;
            }
        }
        false
    }
}
