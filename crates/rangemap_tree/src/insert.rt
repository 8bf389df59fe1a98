//! Giving the keys of a range a value, in a tree of pairs.
ghost use Rattle.std.specs.Prelude.{◌≡◌, true, ◌≤◌, ◌+◌, length, OnOk, OnErr};
ghost use Rattle.rangemap_core.specs.Clones.{KeysCloneFaithfully, ValuesCloneFaithfully};
ghost use Rattle.rangemap_core.specs.Ranges.{IsCanonOf, IsCanonical, IsNewest, half_open, override, value_at};

use crate::by_start::ByStart;
use crate::pieces::Remains;
use crate::sides::{left_side, right_side};
use std::alloc::{AllocError, Allocator};
use std::ops::{Bound, Range};

/// Gives every key of `range` the `value` in a canonical list, as `Store::insert` does.
///
/// It makes one clone of a value at most, for a part that it cuts off. All clones are made before
/// the first change.
///
/// # Errors
///
/// The growth of the tree, a list of keys, or a clone of the allocator, of a key or of a stored value
/// was refused: then the list is as it was, and the range and the value are dropped.
pub fn insert<K: Ord + Clone, V: Eq + Clone, A: Allocator + Clone>(
    pairs: &mut ByStart<K, V, A>,
    range: Range<K>,
    value: V,
) -> Result<(), AllocError>
    requires canonical { IsCanonical (half_open K.cmp) V.eq pairs.old }
    requires non_empty { (half_open K.cmp).IsNonEmpty range }
    requires faithful_keys { KeysCloneFaithfully K.is_clone K.cmp }
    requires faithful_values { ValuesCloneFaithfully V.is_clone V.eq }
    ensures ok { OnOk result (IsCanonOf (half_open K.cmp) V.eq
        (override (half_open K.cmp) (value_at (half_open K.cmp) pairs.old) range value) pairs.new) }
    ensures newest { OnOk result (IsNewest (half_open K.cmp) range value pairs.new) }
    ensures err { OnErr result (pairs.new ≡ pairs.old) }
    ensures growth { OnOk result (length pairs.new ≤ length pairs.old + 2) }
    ensures growth_where_all_are_equal { OnOk result (((v w : V) → V.eq v w ≡ true)
        → length pairs.new ≤ length pairs.old + 1) }
{
    let near = pairs.last_within(..=&range.end);
    let left = left_side(pairs, near, &range, Some(&value))?;
    let right = right_side(pairs, near, &range, Some(&value))?;
    let Range { start, end } = range;
    let middle = left.outer_end.unwrap_or(start)..right.outer_end.unwrap_or(end);
    let key = middle.start.clone()?;
    let remains = Remains {
        cut: left.rest,
        piece: right.rest,
    };
    match near {
        Some((last, _)) if last.start.cmp(&middle.start).is_gt() => {
            let starts = pairs.starts_between(Bound::Excluded(&middle.start), &middle.end)?;
            pairs.replace(key, middle, value, remains, starts.as_slice())
        }
        // None behind `near` starts before `middle` ends, the new range with what is taken into it. So where
        // `near` starts no later than `middle`, no other pair starts within, and the tree is not searched.
        _ => pairs.replace(key, middle, value, remains, &[]),
    }
}
