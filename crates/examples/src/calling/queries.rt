//! Questions to sets that a range limits: what overlaps it, what it lacks, and what is there after a
//! change. Each is a caller of lemmas about sets.
ghost use Rattle.std.specs.Ordering.{nat_cmp};
ghost use Rattle.std.specs.Prelude.{◌≡◌, ◌+◌, ◌<◌, ◌≤◌, ◌^◌, ◌↔◌, ◌&&◌, ℕ, IfNone, IfSome, IsTrue, OnOk, count_by, filter, nat_le, nat_lt, not, false, true};
ghost use Rattle.rangemap.specs.Ranges.{closed, covers, half_open};

use rangemap::{RangeInclusiveSet, RangeSet};
use std::alloc::{AllocError, Global};
use std::ops::Range;

/// Returns whether a set has no number from `first` up to `last`.
pub fn is_free(taken: &RangeInclusiveSet<u32>, first: u32, last: u32) -> bool
    requires { first ≤ last }
    ensures { IsTrue result ↔ ((x : ℕ) → first ≤ x → x ≤ last → covers (closed (λ y. y < 2 ^ 32) nat_cmp) taken.now x ≡ false) }
{
    let range = first..=last;
    !taken.overlaps(&range)
}

/// Returns the last hour of a range of a set that overlaps some hours and ends behind a limit, if
/// there is such a range.
pub fn overtime(shifts: &RangeSet<u32>, hours: &Range<u32>, limit: u32) -> Option<u32>
    requires { hours.now.start < hours.now.end }
    ensures found { IfSome result (λ last. (limit ≤ last) × (covers (half_open nat_cmp) shifts.now last ≡ true)) }
    ensures none { IfNone result ((x : ℕ) → hours.now.start ≤ x → x < hours.now.end → covers (half_open nat_cmp) shifts.now x ≡ true → x < limit) }
{
    shifts.known();
    for range in shifts.overlapping(hours) {
        if range.end > limit {
            return Some(range.end - 1);
        }
    }
    None
}

/// Returns how many of the ranges of a set that overlap some hours begin within them.
pub fn count_begun(shifts: &RangeSet<u32>, hours: &Range<u32>) -> usize
    ensures { result ≡ count_by (λ shift. nat_le hours.now.start shift.start) (filter (λ shift. nat_lt hours.now.start shift.end && nat_lt shift.start hours.now.end) shifts.now) }
{
    // The count is at most this `usize`, so it does not wrap.
    let _stored = shifts.len();
    let mut count = 0;
    for range in shifts.overlapping(hours) {
        if range.start >= hours.start {
            count += 1;
        }
    }
    count
}

/// Returns the first of so many numbers in a row, from `first` up to `last`, that a set lacks, if
/// it lacks so many.
pub fn block_for(taken: &RangeInclusiveSet<u32>, first: u32, last: u32, size: u32) -> Option<u32>
    requires { 0 < size }
    ensures found { IfSome result (λ at. (first ≤ at) × (at + size ≤ last + 1) × ((x : ℕ) → at ≤ x → x < at + size → covers (closed (λ y. y < 2 ^ 32) nat_cmp) taken.now x ≡ false)) }
    ensures none { IfNone result ((at : ℕ) → first ≤ at → at + size ≤ last + 1 → ¬ ((x : ℕ) → at ≤ x → x < at + size → covers (closed (λ y. y < 2 ^ 32) nat_cmp) taken.now x ≡ false)) }
{
    let range = first..=last;
    for gap in taken.gaps(&range) {
        let Ok(gap) = gap else { unreachable!() };
        let at = *gap.start();
        let end = *gap.end();
        if end - at >= size - 1 {
            return Some(at);
        }
    }
    None
}

/// Returns the last of the numbers from `first` on that a set lacks without a break, at most `last`.
pub fn free_to(taken: &RangeInclusiveSet<u32>, first: u32, last: u32) -> u32
    requires forward { first ≤ last }
    requires free { covers (closed (λ y. y < 2 ^ 32) nat_cmp) taken.now first ≡ false }
    ensures { (first ≤ result) × (result ≤ last) × ((x : ℕ) → first ≤ x → x ≤ result → covers (closed (λ y. y < 2 ^ 32) nat_cmp) taken.now x ≡ false) × (result < last → covers (closed (λ y. y < 2 ^ 32) nat_cmp) taken.now (result + 1) ≡ true) }
{
    let range = first..=last;
    match taken.gaps(&range).try_next() {
        Ok(Some(gap)) => *gap.end(),
        Ok(None) => unreachable!(),
        Err(AllocError) => unreachable!(),
    }
}

/// Takes the numbers from `first` up to `last` out of a set.
pub fn release(taken: &mut RangeInclusiveSet<u32>, first: u32, last: u32) -> Result<(), AllocError>
    requires { first ≤ last }
    ensures { OnOk result ((x : ℕ) → x < 2 ^ 32 → covers (closed (λ y. y < 2 ^ 32) nat_cmp) taken.new x ≡ (covers (closed (λ y. y < 2 ^ 32) nat_cmp) taken.old x && not (nat_le first x && nat_le x last))) }
{
    taken.remove(first..=last)
}

/// Returns the highest hour of a set, if it has any.
pub fn highest(shifts: &RangeSet<u32>) -> Option<u32>
    ensures { IfSome result (λ hour. covers (half_open nat_cmp) shifts.now hour ≡ true) }
{
    let Some(range) = shifts.last() else {
        return None;
    };
    Some(range.end - 1)
}

/// Returns whether two sets are equal. Then they have the same hours.
pub fn have_same(left: &RangeSet<u32>, right: &RangeSet<u32>) -> bool
    ensures { IsTrue result → (hour : ℕ) → covers (half_open nat_cmp) left.now hour ≡ covers (half_open nat_cmp) right.now hour }
{
    left.known();
    right.known();
    left == right
}
