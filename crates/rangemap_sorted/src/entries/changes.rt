//! Giving the keys of a range a value, or taking them out, in a list of pairs.
ghost use Rattle.std.specs.Prelude.{◌≡◌, true, ◌≤◌, ◌+◌, [], length, IsOk, OnOk, OnErr, None as NoneWord, vec_len, vec_capacity};
ghost use Rattle.rangemap_core.specs.Clones.{KeysCloneFaithfully, KeysCloneInfallibly, ValuesCloneFaithfully, ValuesCloneInfallibly};
ghost use Rattle.rangemap_core.specs.Ranges.{IsCanonical, overlapped, value_at};
ghost use Rattle.rangemap_sorted.specs.Changes.{IsChanged, grown};

use super::stretch::{at_range, middle, sides, stretch};
use crate::splice::splice;
use rangemap_core::key_range::KeyRange;
use rangemap_core::kind::{Kind, known_ends};
use std::alloc::{AllocError, Allocator};

/// Gives every key of `range` the `value`, whatever it had before, or takes it out if there is none.
///
/// # Errors
///
/// The growth of the list, or a clone of a key or value, was refused. The list is then as it was.
///
/// If clones are never refused and the list has room for two more pairs, the call succeeds. It also
/// succeeds if there is no value and no stored range overlaps the given one. It then takes no memory and
/// changes nothing.
pub fn change<Q: Kind<R>, R: KeyRange, V: Eq + Clone, A: Allocator>(
    list: &mut Vec<(R, V), A>,
    range: R,
    value: Option<V>,
) -> Result<(), AllocError>
    requires canonical { IsCanonical Q.kind V.eq list.old.items }
    requires non_empty { Q.kind.IsNonEmpty range }
    requires faithful_keys { KeysCloneFaithfully R.Key.is_clone R.Key.cmp }
    requires faithful_values { ValuesCloneFaithfully V.is_clone V.eq }
    ensures ok { OnOk result
        (IsChanged Q.kind V.eq (value_at Q.kind list.old.items) range value list.new.items) }
    ensures err { OnErr result (list.new.items ≡ list.old.items) }
    ensures growth { OnOk result (length list.new.items ≤ length list.old.items + grown value) }
    ensures growth_where_all_are_equal { OnOk result (((v w : V) → V.eq v w ≡ true)
        → length list.new.items ≤ length list.old.items + 1) }
    ensures meets_nothing { value ≡ NoneWord → overlapped Q.kind list.old.items range ≡ []
        → IsOk result × (list.new.items ≡ list.old.items) }
    ensures succeeds { KeysCloneInfallibly R.Key.is_infallible
        → ValuesCloneInfallibly V.is_infallible
        → vec_len list.old + grown value ≤ vec_capacity list.old → IsOk result }
    ensures room { vec_capacity list.old ≤ vec_capacity list.new }
{
    known_ends::<Q, R>(&range);
    let pairs = list.as_slice();
    let places = stretch::<Q, R, V>(pairs, &range, value.as_ref());
    let (left, right) = sides::<Q, R, V>(pairs, &places, &range, value.as_ref())?;
    let range = middle::<Q, R, V>(pairs, &places, &left, &right, range)?;
    let pair = at_range(range, value);
    splice(list, places, left.piece, pair, right.piece)
}
