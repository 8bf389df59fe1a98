//! Callers of what sets are asked of ranges and of each other.
ghost use Rattle.std.specs.Ordering.{nat_cmp};
ghost use Rattle.std.specs.Prelude.{◌≡◌, ◌↔◌, ◌<◌, ◌≤◌, IfOk, IsTrue, true, ℕ};
ghost use Rattle.rangemap.specs.Ranges.{covers, half_open};
ghost use Rattle.rangemap.specs.Sets.{AreDisjoint, AreWithout};

use rangemap::RangeSet;
use std::alloc::{AllocError, Global};
use std::ops::Range;

/// Returns true only if every port of a range is open.
pub fn all_open(allowed: &RangeSet<u32>, from: u32, to: u32) -> bool
    ensures { result ≡ true → (port : ℕ) → from ≤ port → port < to → covers (half_open nat_cmp) allowed.now port ≡ true }
{
    allowed.covers(&(from..to))
}

/// Returns whether two guests share no hour.
pub fn are_apart(left: &RangeSet<u32>, right: &RangeSet<u32>) -> bool
    ensures { IsTrue result ↔ AreDisjoint (half_open nat_cmp) left.now right.now }
{
    left.is_disjoint(right)
}

/// Collects the parts of a first set that a second one lacks.
pub fn missing_parts(
    alloc: Global,
    wanted: &RangeSet<u32>,
    held: &RangeSet<u32>,
) -> Result<Vec<Range<u32>>, AllocError>
    ensures { IfOk result (λ parts. AreWithout (half_open nat_cmp) wanted.now held.now parts.items) }
{
    let mut parts = Vec::new(alloc);
    for part in wanted.difference(held) {
        parts.push(part?)?;
    }
    Ok(parts)
}
