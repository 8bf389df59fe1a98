//! Snippets of README.md and docs/PROVING.md, whole, and callers of other lemmas that
//! docs/LEMMAS.md names.
//!
//! A function that returns a `Result` returns `Err` if memory or a clone was refused. Its clauses say
//! what it requires and what then holds.
ghost use Rattle.std.specs.Prelude.{◌≡◌, ◌≢◌, ◌+◌, ◌<◌, ◌≤◌, ◌^◌, ◌/◌, ◌&&◌, ◌||◌, ℕ, [], IfNone, IfOk, IfSome, OnErr, OnOk, map, nat_le, nat_lt, option_map, Some, None, false, true};
ghost use Rattle.std.specs.Ordering.{nan_last_cmp, nat_cmp};
ghost use Rattle.std.specs.String.{string_cmp};
ghost use Rattle.rangemap.specs.Clones.{KeysCloneFaithfully, ValuesCloneFaithfully};
ghost use Rattle.rangemap.specs.Ranges.{AreGaps, IsCanonOf, closed, covers, half_open, overlapped, override, value_at};
ghost use Rattle.rangemap.specs.Sets.{AreCommon, CoverEither};

use rangemap::container::{Container, update};
use rangemap::{RangeInclusiveMap, RangeMap, RangeSet, tree_map, tree_set};
use std::alloc::{AllocError, Global};
use std::cmp::OrderedFloat;
use std::ops::Range;

pub mod queries;
pub mod set_algebra;

/// Puts a person on for the hours from `from` up to `to`.
pub fn assign(
    shifts: &mut RangeMap<u32, u32>,
    from: u32,
    to: u32,
    person: u32,
) -> Result<(), AllocError>
    requires { from < to }
    ensures within { OnOk result ((hour : ℕ) → from ≤ hour → hour < to → value_at (half_open nat_cmp) shifts.new hour ≡ Some person) }
    ensures refused { OnErr result (shifts.new ≡ shifts.old) }
{
    shifts.insert(from..to, person)
}

/// Puts one person on from 0 up to 5, and then another from 3 up to 9.
pub fn put_both(shifts: &mut RangeMap<u32, u32>, one: u32, other: u32) -> Result<(), AllocError>
    ensures early { OnOk result ((hour : ℕ) → hour < 3 → value_at (half_open nat_cmp) shifts.new hour ≡ Some one) }
    ensures late { OnOk result ((hour : ℕ) → 3 ≤ hour → hour < 9 → value_at (half_open nat_cmp) shifts.new hour ≡ Some other) }
    ensures behind { OnOk result ((hour : ℕ) → 9 ≤ hour → value_at (half_open nat_cmp) shifts.new hour ≡ value_at (half_open nat_cmp) shifts.old hour) }
{
    shifts.extend([(0..5, one), (3..9, other)])
}

/// Returns a map of three inserts, whose value at each end the clauses say.
pub fn ends(alloc: Global) -> Result<RangeInclusiveMap<u8, u32>, AllocError>
    ensures at_0 { IfOk result (λ map. value_at (closed (λ x. x < 2 ^ 8) nat_cmp) map 0 ≡ Some 1) }
    ensures at_2 { IfOk result (λ map. value_at (closed (λ x. x < 2 ^ 8) nat_cmp) map 2 ≡ Some 1) }
    ensures at_3 { IfOk result (λ map. value_at (closed (λ x. x < 2 ^ 8) nat_cmp) map 3 ≡ Some 2) }
    ensures at_6 { IfOk result (λ map. value_at (closed (λ x. x < 2 ^ 8) nat_cmp) map 6 ≡ Some 2) }
    ensures at_7 { IfOk result (λ map. value_at (closed (λ x. x < 2 ^ 8) nat_cmp) map 7 ≡ Some 1) }
    ensures at_10 { IfOk result (λ map. value_at (closed (λ x. x < 2 ^ 8) nat_cmp) map 10 ≡ Some 1) }
    ensures at_11 { IfOk result (λ map. value_at (closed (λ x. x < 2 ^ 8) nat_cmp) map 11 ≡ None) }
    ensures at_199 { IfOk result (λ map. value_at (closed (λ x. x < 2 ^ 8) nat_cmp) map 199 ≡ None) }
    ensures at_200 { IfOk result (λ map. value_at (closed (λ x. x < 2 ^ 8) nat_cmp) map 200 ≡ Some 3) }
    ensures at_255 { IfOk result (λ map. value_at (closed (λ x. x < 2 ^ 8) nat_cmp) map 255 ≡ Some 3) }
{
    let mut map = RangeInclusiveMap::new(alloc);
    map.insert(0..=10, 1)?;
    map.insert(3..=6, 2)?;
    map.insert(200..=255, 3)?;
    Ok(map)
}

/// Adds the keys of a range to a set.
pub fn add(set: &mut RangeSet<u64>, from: u64, to: u64) -> Result<(), AllocError>
    requires { from < to }
    ensures added { OnOk result ((key : ℕ) → covers (half_open nat_cmp) set.new key ≡ (covers (half_open nat_cmp) set.old key || (nat_le from key && nat_lt key to))) }
    ensures refused { OnErr result (set.new ≡ set.old) }
{
    set.insert(from..to)
}

/// Adds the hours of two shifts to a set: those from 0 up to 5, and those from 7 up to 9.
pub fn add_shifts(hours: &mut RangeSet<u32>) -> Result<(), AllocError>
    ensures { OnOk result ((hour : ℕ) → covers (half_open nat_cmp) hours.new hour ≡ (covers (half_open nat_cmp) hours.old hour || (nat_lt hour 5 || (nat_le 7 hour && nat_lt hour 9)))) }
{
    hours.extend([0..5, 7..9])
}

/// Puts the ranges of a second list behind those of a first.
pub fn chain(ranges: &mut Vec<Range<u64>>, more: &mut Vec<Range<u64>>) -> Result<(), AllocError>
    ensures { OnOk result ((key : ℕ) → covers (half_open nat_cmp) ranges.new.items key ≡ (covers (half_open nat_cmp) ranges.old.items key || covers (half_open nat_cmp) more.old.items key)) }
{
    ranges.append(more)?;
    Ok(())
}

/// Adds the texts from one up to another to a set, if there are any. No clause says what it adds.
pub fn add_texts(set: &mut RangeSet<String>, from: String, to: String) -> Result<(), AllocError>
    ensures { OnErr result (set.new ≡ set.old) }
{
    let range = from..to;
    if range.is_empty() {
        return Ok(());
    }
    set.insert(range)
}

/// Returns whether a text is in a set.
pub fn has_text(set: &RangeSet<String>, text: &String) -> bool
    ensures { result ≡ covers (half_open string_cmp) set.now text.now }
{
    set.contains(text)
}

/// Puts the temperatures from one up to and without another into a class, if there are any. No
/// clause says what it puts there.
pub fn classify(
    classes: &mut RangeMap<OrderedFloat<f64>, u8>,
    from: OrderedFloat<f64>,
    to: OrderedFloat<f64>,
    class: u8,
) -> Result<(), AllocError>
    ensures { OnErr result (classes.new ≡ classes.old) }
{
    let range = from..to;
    if range.is_empty() {
        return Ok(());
    }
    classes.insert(range, class)
}

/// Returns the class of a temperature, if it has one.
pub fn class_at(classes: &RangeMap<OrderedFloat<f64>, u8>, at: &OrderedFloat<f64>) -> Option<u8>
    ensures { result ≡ value_at (half_open (λ x y. nan_last_cmp x.0 y.0)) classes.now at.now }
{
    classes.get(at).copied()
}

/// Returns the hours of a range at which nobody is on.
pub fn uncovered(
    alloc: Global,
    shifts: &RangeMap<u32, u32>,
    hours: &Range<u32>,
) -> Result<Vec<Range<u32>>, AllocError>
    ensures { IfOk result (λ gaps. AreGaps (half_open nat_cmp) (map (λ shift. shift.0) shifts.now) hours.now gaps.items) }
{
    let mut gaps = Vec::new(alloc);
    for gap in shifts.gaps(hours) {
        gaps.push(gap?)?;
    }
    Ok(gaps)
}

/// Returns up to where the keys from `at` on lack a value, at most `limit`.
pub fn free_until(map: &RangeMap<u64, u8>, at: u64, limit: u64) -> Result<u64, AllocError>
    requires forward { at < limit }
    requires free { value_at (half_open nat_cmp) map.now at ≡ None }
    ensures { IfOk result (λ end. (at < end) × (end ≤ limit) × ((key : ℕ) → at ≤ key → key < end → value_at (half_open nat_cmp) map.now key ≡ None) × (end < limit → value_at (half_open nat_cmp) map.now end ≢ None)) }
{
    let rest = at..limit;
    match map.gaps(&rest).next() {
        Some(gap) => Ok(gap?.end),
        None => unreachable!(),
    }
}

/// Halves the prices of the hours from `from` up to `to`. Hours without a price stay without one.
pub fn halve(
    alloc: Global,
    prices: &mut RangeMap<u32, u32>,
    from: u32,
    to: u32,
) -> Result<(), AllocError>
    ensures within { OnOk result ((hour : ℕ) → from ≤ hour → hour < to → value_at (half_open nat_cmp) prices.new hour ≡ option_map (λ price. price / 2) (value_at (half_open nat_cmp) prices.old hour)) }
    ensures before { OnOk result ((hour : ℕ) → hour < from → value_at (half_open nat_cmp) prices.new hour ≡ value_at (half_open nat_cmp) prices.old hour) }
    ensures behind { OnOk result ((hour : ℕ) → to ≤ hour → value_at (half_open nat_cmp) prices.new hour ≡ value_at (half_open nat_cmp) prices.old hour) }
{
    update(alloc, prices, &(from..to), |price| Ok(*price / 2))
}

/// Gives the keys of a range a value if no stored range overlaps it, and returns whether it did.
pub fn put_if_free<M: Container>(
    container: &mut M,
    range: M::Range,
    value: M::Value,
) -> Result<bool, AllocError>
    requires non_empty { M.Kind.kind.IsNonEmpty range }
    requires faithful_keys { KeysCloneFaithfully M.Range.Key.is_clone M.Range.Key.cmp }
    requires faithful_values { ValuesCloneFaithfully M.Value.is_clone M.Value.eq }
    ensures put { IfOk result (λ put. put ≡ true → IsCanonOf M.Kind.kind M.Value.eq (override M.Kind.kind (value_at M.Kind.kind (M.pairs container.old)) range value) (M.pairs container.new)) }
    ensures free { IfOk result (λ put. put ≡ true → overlapped M.Kind.kind (M.pairs container.old) range ≡ []) }
    ensures taken { IfOk result (λ put. put ≡ false → overlapped M.Kind.kind (M.pairs container.old) range ≡ [] → ⊥) }
    ensures kept { IfOk result (λ put. put ≡ false → M.pairs container.new ≡ M.pairs container.old) }
    ensures refused { OnErr result (M.pairs container.new ≡ M.pairs container.old) }
{
    if container.overlaps(&range) {
        return Ok(false);
    }
    container.insert(range, value)?;
    Ok(true)
}

/// Returns true only where every person's number is below a limit.
pub fn all_below(shifts: &RangeMap<u32, u32>, limit: u32) -> bool
    ensures { result ≡ true → (hour person : ℕ) → value_at (half_open nat_cmp) shifts.now hour ≡ Some person → person < limit }
{
    for (_, person) in shifts.iter() {
        if *person >= limit {
            return false;
        }
    }
    true
}

/// Returns true only where every key of a set is below a limit.
pub fn is_below(set: &RangeSet<u32>, limit: u32) -> bool
    ensures { result ≡ true → (key : ℕ) → covers (half_open nat_cmp) set.now key ≡ true → key < limit }
{
    for range in set.iter() {
        if range.end > limit {
            return false;
        }
    }
    true
}

/// Adds the keys of each range of a list to a set. Empty ranges have none.
pub fn add_all(set: &mut RangeSet<u64>, ranges: &[Range<u64>]) -> Result<(), AllocError>
    ensures { OnOk result ((key : ℕ) → covers (half_open nat_cmp) set.new key ≡ (covers (half_open nat_cmp) set.old key || covers (half_open nat_cmp) ranges.now key)) }
{
    for range in ranges {
        if range.start < range.end {
            set.insert(range.start..range.end)?;
        }
    }
    Ok(())
}

/// Returns whether two sets with the same keys are equal: they always are.
pub fn are_equal(left: &RangeSet<u32>, right: &RangeSet<u32>) -> bool
    requires { (key : ℕ) → covers (half_open nat_cmp) left.now key ≡ covers (half_open nat_cmp) right.now key }
    ensures { result ≡ true }
{
    left.known();
    right.known();
    left == right
}

/// Notes that the numbers from one up to and without another were seen.
pub fn note(seen: &mut tree_set::RangeSet<u64>, from: u64, to: u64) -> Result<(), AllocError>
    requires { from < to }
    ensures noted { OnOk result ((number : ℕ) → covers (half_open nat_cmp) seen.new number ≡ (covers (half_open nat_cmp) seen.old number || (nat_le from number && nat_lt number to))) }
    ensures refused { OnErr result (seen.new ≡ seen.old) }
{
    seen.insert(from..to)
}

/// Makes two inserts on equal maps, in either order, and returns whether the maps are equal.
pub fn either_way(
    left: &mut RangeInclusiveMap<u8, u32>,
    right: &mut RangeInclusiveMap<u8, u32>,
) -> Result<bool, AllocError>
    requires { left.old ≡ right.old }
    ensures equal { IfOk result (λ equal. equal ≡ true) }
    ensures inserted { OnOk result ((key : ℕ) → key < 10 → value_at (closed (λ x. x < 2 ^ 8) nat_cmp) left.new key ≡ Some 1) }
    ensures in_either { OnOk result ((key : ℕ) → key < 10 → value_at (closed (λ x. x < 2 ^ 8) nat_cmp) right.new key ≡ Some 1) }
{
    left.insert(0..=9, 1)?;
    left.insert(20..=29, 2)?;
    right.insert(20..=29, 2)?;
    right.insert(0..=9, 1)?;
    Ok(left == right)
}

/// Collects the ranges of a union.
pub fn union_of(
    alloc: Global,
    left: &RangeSet<u64>,
    right: &RangeSet<u64>,
) -> Result<Vec<Range<u64>>, AllocError>
    ensures { IfOk result (λ ranges. CoverEither (half_open nat_cmp) left.now right.now ranges.items) }
{
    let mut ranges = Vec::new(alloc);
    for range in left.union(right) {
        ranges.push(range?)?;
    }
    Ok(ranges)
}

/// Collects the ranges of an intersection.
pub fn intersection_of(
    alloc: Global,
    left: &RangeSet<u64>,
    right: &RangeSet<u64>,
) -> Result<Vec<Range<u64>>, AllocError>
    ensures { IfOk result (λ ranges. AreCommon (half_open nat_cmp) left.now right.now ranges.items) }
{
    let mut ranges = Vec::new(alloc);
    for range in left.intersection(right) {
        ranges.push(range?)?;
    }
    Ok(ranges)
}

/// Returns true only where each value within a range is below a limit.
pub fn are_below(stock: &tree_map::RangeMap<u32, u32>, from: u32, to: u32, limit: u32) -> bool
    requires { from < to }
    ensures { result ≡ true → (x v : ℕ) → from ≤ x → x < to → value_at (half_open nat_cmp) stock.now x ≡ Some v → v < limit }
{
    stock.known();
    let query = from..to;
    for (_, value) in stock.overlapping(&query) {
        if *value >= limit {
            return false;
        }
    }
    true
}

/// Returns where so many keys of a range begin that the set lacks, if it lacks so many in a row.
pub fn room_for(held: &RangeSet<u32>, within: &Range<u32>, size: u32) -> Option<u32>
    requires { 0 < size }
    ensures found { IfSome result (λ first. (within.now.start ≤ first) × (first + size ≤ within.now.end) × ((x : ℕ) → first ≤ x → x < first + size → covers (half_open nat_cmp) held.now x ≡ false)) }
    ensures none { IfNone result ((first : ℕ) → within.now.start ≤ first → first + size ≤ within.now.end → ¬ ((x : ℕ) → first ≤ x → x < first + size → covers (half_open nat_cmp) held.now x ≡ false)) }
{
    for gap in held.gaps(within) {
        let Ok(gap) = gap else { unreachable!() };
        if gap.end - gap.start >= size {
            return Some(gap.start);
        }
    }
    None
}
