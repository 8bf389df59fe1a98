//! Which addresses are blocked, and a range of them as CIDR blocks.
ghost use Rattle.std.specs.Prelude.{◌≡◌, ◌-◌, ◌<◌, ◌≤◌, ◌^◌, ◌&&◌, ◌||◌, ℕ, [], All, IfOk, OnErr, OnOk, nat_le};
ghost use Rattle.std.specs.Ordering.{nat_cmp};
ghost use Rattle.rangemap.specs.Ranges.{closed, covers};
ghost use Rattle.examples.specs.BlockList.{AreFewest, IsBlock, IsLargest, Tile};

use rangemap::RangeInclusiveSet;
use std::alloc::{AllocError, Global};

/// The addresses that are blocked. Blocks that touch take the room of one range.
#[derive(Drop)]
pub struct BlockList {
    blocked: RangeInclusiveSet<u32>,
}

impl BlockList {
    /// Returns the list that blocks nothing.
    pub fn new(alloc: Global) -> Self
        ensures { result.blocked ≡ [] }
    {
        BlockList {
            blocked: RangeInclusiveSet::new(alloc),
        }
    }

    /// Blocks the addresses from `first` to `last`.
    ///
    /// # Requires
    ///
    /// `first` is not behind `last`.
    ///
    /// # Errors
    ///
    /// Memory was refused. Then nothing has changed.
    pub fn block(&mut self, first: u32, last: u32) -> Result<(), AllocError>
        requires { first ≤ last }
        ensures blocked { OnOk result ((address : ℕ) → address < 2 ^ 32 → covers (closed (λ x. x < 2 ^ 32) nat_cmp) self.new.blocked address ≡ (covers (closed (λ x. x < 2 ^ 32) nat_cmp) self.old.blocked address || (nat_le first address && nat_le address last))) }
        ensures refused { OnErr result (self.new.blocked ≡ self.old.blocked) }
    {
        self.blocked.insert(first..=last)
    }

    /// Returns whether the address is blocked.
    pub fn is_blocked(&self, address: u32) -> bool
        ensures { result ≡ covers (closed (λ x. x < 2 ^ 32) nat_cmp) self.now.blocked address }
    {
        self.blocked.contains(&address)
    }
}

/// Addresses as networks are written (CIDR): all that begin with the first `prefix` bits of
/// `first`, whose other bits are 0.
#[derive(Clone, Copy, Debug, PartialEq, Eq)]
pub struct Block {
    /// The lowest of the addresses.
    pub first: u32,
    /// How many bits they have in common, at most 32.
    pub prefix: u32,
}

impl Block {
    /// Returns how many addresses the block has.
    ///
    /// # Requires
    ///
    /// `prefix` is at most 32.
    pub fn size(&self) -> u64
        requires { self.now.prefix ≤ 32 }
        ensures { result ≡ 2 ^ (32 - self.now.prefix) }
    {
        2u64.pow(32 - self.prefix)
    }
}

/// Splits the addresses from `start` up to and without `end` into the fewest blocks, in order.
///
/// # Requires
///
/// `start` is at most `end`, and `end` at most 2^32.
///
/// # Errors
///
/// Memory was refused.
pub fn split(alloc: Global, start: u64, end: u64) -> Result<Vec<Block>, AllocError>
    requires forward { start ≤ end }
    requires addresses { end ≤ 2 ^ 32 }
    ensures tile { IfOk result (λ blocks. Tile start end blocks.items) }
    ensures aligned { IfOk result (λ blocks. All IsBlock blocks.items) }
    ensures fewest { IfOk result (λ blocks. AreFewest start end blocks.items) }
{
    let mut blocks = Vec::new(alloc);
    let mut at = start;
    'split: while at < end {
        let block = largest(at, end);
        blocks.push(block)?;
        at += block.size();
    }
    Ok(blocks)
}

// Returns the largest block that starts at `at` and ends before `end`, or there.
fn largest(at: u64, end: u64) -> Block
    requires forward { at < end }
    requires addresses { end ≤ 2 ^ 32 }
    ensures starts { result.first ≡ at }
    ensures largest { IsLargest end result }
{
    let mut prefix = 32;
    let mut size = 1;
    'wider: while prefix > 0 && at % (2 * size) == 0 && at + 2 * size <= end {
        prefix -= 1;
        size *= 2;
    }
    Block {
        first: at as u32,
        prefix,
    }
}
