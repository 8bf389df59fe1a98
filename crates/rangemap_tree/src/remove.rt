//! Taking the keys of a range out of a tree of pairs.
ghost use Rattle.std.specs.Prelude.{◌≡◌, [], ◌≤◌, ◌+◌, length, IsOk, OnOk, OnErr};
ghost use Rattle.rangemap_core.specs.Clones.{KeysCloneFaithfully, ValuesCloneFaithfully};
ghost use Rattle.rangemap_core.specs.Ranges.{IsCanonOf, IsCanonical, erase, half_open, overlapped, value_at};

use crate::by_start::ByStart;
use crate::pieces::Remains;
use crate::sides::{left_side, right_side};
use std::alloc::{AllocError, Allocator};
use std::ops::{Bound, Range};

/// Takes every key of `range` out of a canonical list, as `Store::remove` does.
///
/// # Errors
///
/// As for `insert`. If no stored range overlaps the given one, the call takes no memory, succeeds and
/// changes nothing.
pub fn remove<K: Ord + Clone, V: Eq + Clone, A: Allocator + Clone>(
    pairs: &mut ByStart<K, V, A>,
    range: &Range<K>,
) -> Result<(), AllocError>
    requires canonical { IsCanonical (half_open K.cmp) V.eq pairs.old }
    requires non_empty { (half_open K.cmp).IsNonEmpty range.now }
    requires faithful_keys { KeysCloneFaithfully K.is_clone K.cmp }
    requires faithful_values { ValuesCloneFaithfully V.is_clone V.eq }
    ensures ok { OnOk result (IsCanonOf (half_open K.cmp) V.eq
        (erase (half_open K.cmp) (value_at (half_open K.cmp) pairs.old) range.now) pairs.new) }
    ensures err { OnErr result (pairs.new ≡ pairs.old) }
    ensures growth { OnOk result (length pairs.new ≤ length pairs.old + 1) }
    ensures meets_nothing { overlapped (half_open K.cmp) pairs.old range.now ≡ []
        → IsOk result × (pairs.new ≡ pairs.old) }
{
    let near = pairs.last_within(..&range.end);
    let Some((last, _)) = near else {
        return Ok(());
    };
    if last.end.cmp(&range.start).is_le() {
        return Ok(());
    }
    let left = left_side(pairs, near, range, None)?;
    let right = right_side(pairs, near, range, None)?;
    let remains = Remains {
        cut: left.rest,
        piece: right.rest,
    };
    if last.start.cmp(&range.start).is_lt() {
        // All others start before it, so none starts within the range, and the tree is not searched.
        return pairs.erase(range, remains, &[]);
    }
    let starts = pairs.starts_between(Bound::Included(&range.start), &range.end)?;
    pairs.erase(range, remains, starts.as_slice())
}
