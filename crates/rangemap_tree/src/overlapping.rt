//! The pairs of a tree that overlap a range.
ghost use Rattle.std.specs.Prelude.{◌≡◌, filter};
ghost use Rattle.std.specs.BTreeMap.Range.{range_contains, IsLeBy, IsLtBy};
ghost use Rattle.std.specs.Range.Bound.{bound_map, IsForward};
ghost use Rattle.std.specs.declared.ops.Bound.TheVariants.{Excluded};
ghost use Rattle.rangemap_core.specs.Ranges.{IsCanonical, half_open, overlapped};

use crate::by_start::ByStart;
use crate::pairs::Pairs;
use std::alloc::Allocator;
use std::ops::{Bound, Range};

/// Returns the pairs of a canonical list that overlap the query, which may be empty or reversed.
///
/// One search finds where they begin, and another takes them from there up to the query's end.
pub fn overlapping_pairs<'a, K: Ord, V: Eq, A: Allocator>(
    pairs: &'a ByStart<K, V, A>,
    query: &Range<K>,
) -> Pairs<'a, K, V>
    requires { IsCanonical (half_open K.cmp) V.eq pairs.now }
    ensures { result ≡ overlapped (half_open K.cmp) pairs.now query.now }
{
    pairs.between(overlap_start(pairs, query), &query.end)
}

// Where the pairs begin that overlap the query. Of those that start no later than it only the last
// can reach past its start; where it doesn't, they start within the query, and not where it starts.
fn overlap_start<'b, K: Ord, V: Eq, A: Allocator>(
    pairs: &'b ByStart<K, V, A>,
    query: &'b Range<K>,
) -> Bound<&'b K>
    requires { IsCanonical (half_open K.cmp) V.eq pairs.now }
    ensures forward { IsForward (IsLeBy K.cmp) (IsLtBy K.cmp) (bound_map (λ x. x.now) result)
        (Excluded query.now.end) }
    ensures overlapped { filter (λ p. range_contains K.cmp
        (bound_map (λ x. x.now) result) (Excluded query.now.end) p.0.start)
        pairs.now
        ≡ overlapped (half_open K.cmp) pairs.now query.now }
{
    match pairs.last_within(..=&query.start) {
        Some((range, _)) if range.end.cmp(&query.start).is_gt() => {
            if range.start.cmp(&query.end).is_lt() {
                Bound::Included(&range.start)
            } else {
                Bound::Included(&query.end)
            }
        }
        _ => {
            if query.start.cmp(&query.end).is_lt() {
                Bound::Excluded(&query.start)
            } else {
                Bound::Included(&query.end)
            }
        }
    }
}
