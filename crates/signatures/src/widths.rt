//! Calls at given types of keys, as users make them, and what they promise there.
ghost use Rattle.std.specs.Prelude.{◌≡◌, ◌≤◌, ◌<◌, ◌^◌, ◌&&◌, ◌||◌, ℕ, IfOk, OnErr, OnOk, Some as SomeWord, false, not, true};
ghost use Rattle.std.specs.Ordering.{nat_cmp};
ghost use Rattle.rangemap.specs.CharLaws.{IsChar};
ghost use Rattle.rangemap.specs.Ranges.{IsCanonOfPoints, closed, covers, half_open, value_at};

use rangemap::{RangeInclusiveSet, RangeSet, chunked};
use std::alloc::{AllocError, Global};

pub fn either(
    left: &RangeSet<u64, Global>,
    right: &RangeSet<u64, Global>,
) -> Result<RangeSet<u64, Global>, AllocError>
    ensures { IfOk result (λ set. IsCanonOfPoints (half_open nat_cmp) (λ x. covers (half_open nat_cmp) left.now x || covers (half_open nat_cmp) right.now x) set) }
{
    left | right
}

pub fn both(
    left: &RangeSet<usize, Global>,
    right: &RangeSet<usize, Global>,
) -> Result<RangeSet<usize, Global>, AllocError>
    ensures { IfOk result (λ set. IsCanonOfPoints (half_open nat_cmp) (λ x. covers (half_open nat_cmp) left.now x && covers (half_open nat_cmp) right.now x) set) }
{
    left & right
}

pub fn either_closed(
    left: &RangeInclusiveSet<u64, u64, Global>,
    right: &RangeInclusiveSet<u64, u64, Global>,
) -> Result<RangeInclusiveSet<u64, u64, Global>, AllocError>
    ensures { IfOk result (λ set. IsCanonOfPoints (closed (λ x. x < 2 ^ 64) nat_cmp) (λ x. covers (closed (λ x. x < 2 ^ 64) nat_cmp) left.now x || covers (closed (λ x. x < 2 ^ 64) nat_cmp) right.now x) set) }
{
    left | right
}

pub fn both_of_characters(
    left: &RangeInclusiveSet<char, char, Global>,
    right: &RangeInclusiveSet<char, char, Global>,
) -> Result<RangeInclusiveSet<char, char, Global>, AllocError>
    ensures { IfOk result (λ set. IsCanonOfPoints (closed IsChar nat_cmp) (λ x. covers (closed IsChar nat_cmp) left.now x && covers (closed IsChar nat_cmp) right.now x) set) }
{
    left & right
}

pub fn first_closed(
    left: &RangeInclusiveSet<u64, u64, Global>,
    right: &RangeInclusiveSet<u64, u64, Global>,
) -> Result<RangeInclusiveSet<u64, u64, Global>, AllocError>
    ensures { IfOk result (λ set. IsCanonOfPoints (closed (λ x. x < 2 ^ 64) nat_cmp) (λ x. covers (closed (λ x. x < 2 ^ 64) nat_cmp) left.now x && not (covers (closed (λ x. x < 2 ^ 64) nat_cmp) right.now x)) set) }
{
    left - right
}

pub fn exactly_one_closed(
    left: &RangeInclusiveSet<u64, u64, Global>,
    right: &RangeInclusiveSet<u64, u64, Global>,
) -> Result<RangeInclusiveSet<u64, u64, Global>, AllocError>
    ensures { IfOk result (λ set. (x : ℕ) → x < 2 ^ 64 → covers (closed (λ x. x < 2 ^ 64) nat_cmp) set x ≡ ((covers (closed (λ x. x < 2 ^ 64) nat_cmp) left.now x && not (covers (closed (λ x. x < 2 ^ 64) nat_cmp) right.now x)) || (covers (closed (λ x. x < 2 ^ 64) nat_cmp) right.now x && not (covers (closed (λ x. x < 2 ^ 64) nat_cmp) left.now x)))) }
{
    left ^ right
}

pub fn receive(
    numbers: &mut RangeInclusiveSet<usize, usize, Global>,
    first: usize,
    last: usize,
) -> Result<(), AllocError>
    requires { first ≤ last }
    ensures within { OnOk result ((x : ℕ) → x < 2 ^ 64 → first ≤ x → x ≤ last → covers (closed (λ x. x < 2 ^ 64) nat_cmp) numbers.new x ≡ true) }
    ensures refused { OnErr result (numbers.new ≡ numbers.old) }
{
    numbers.insert(first..=last)
}

pub fn give_back(days: &mut RangeSet<u32, Global>, start: u32, end: u32) -> Result<(), AllocError>
    requires { start < end }
    ensures within { OnOk result ((x : ℕ) → start ≤ x → x < end → covers (half_open nat_cmp) days.new x ≡ false) }
    ensures refused { OnErr result (days.new ≡ days.old) }
{
    days.remove(start..end)
}

pub fn is_letter(letters: &RangeInclusiveSet<char, char, Global>, character: char) -> bool
    ensures { result ≡ covers (closed IsChar nat_cmp) letters.now character }
{
    letters.contains(&character)
}

pub fn assign(
    map: &mut chunked::RangeMap<u32, char>,
    start: u32,
    end: u32,
    value: char,
) -> Result<(), AllocError>
    requires { start < end }
    ensures within { OnOk result ((x : ℕ) → start ≤ x → x < end → value_at (half_open nat_cmp) map.new x ≡ SomeWord value) }
    ensures refused { OnErr result (map.new ≡ map.old) }
{
    map.insert(start..end, value)
}

pub fn at(map: &chunked::RangeMap<u64, u32>, key: u64) -> Option<&u32> {
    map.get(&key)
}

pub fn give_back_to_chunks(
    set: &mut chunked::RangeSet<u64>,
    start: u64,
    end: u64,
) -> Result<(), AllocError>
    requires { start < end }
    ensures within { OnOk result ((x : ℕ) → start ≤ x → x < end → covers (half_open nat_cmp) set.new x ≡ false) }
    ensures refused { OnErr result (set.new ≡ set.old) }
{
    set.remove(start..end)
}

pub fn either_of_chunks(
    left: &chunked::RangeSet<u64>,
    right: &chunked::RangeSet<u64>,
) -> Result<chunked::RangeSet<u64>, AllocError>
    ensures { IfOk result (λ set. IsCanonOfPoints (half_open nat_cmp) (λ x. covers (half_open nat_cmp) left.now x || covers (half_open nat_cmp) right.now x) set) }
{
    left | right
}

pub fn either_closed_of_chunks(
    left: &chunked::RangeInclusiveSet<u64>,
    right: &chunked::RangeInclusiveSet<u64>,
) -> Result<chunked::RangeInclusiveSet<u64>, AllocError>
    ensures { IfOk result (λ set. IsCanonOfPoints (closed (λ x. x < 2 ^ 64) nat_cmp) (λ x. covers (closed (λ x. x < 2 ^ 64) nat_cmp) left.now x || covers (closed (λ x. x < 2 ^ 64) nat_cmp) right.now x) set) }
{
    left | right
}

pub fn last_value(map: chunked::RangeMap<u64, u32>) -> u32 {
    let mut last = 0;
    for (_, value) in map {
        last = value;
    }
    last
}
