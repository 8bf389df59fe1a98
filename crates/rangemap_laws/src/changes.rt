//! What inserts and removes leave, alone and one after the other.
//!
//! No range that is inserted or removed is empty, and clones are faithful, as for `insert`.
ghost use Rattle.std.specs.Prelude.{◌≡◌, ◌&&◌, ◌∷◌, [], true, false, IsTrue, IsOk, Some as SomeWord, None as NoneWord, OnErr, OnOk};
ghost use Rattle.std.specs.Option.{option_eq};
ghost use Rattle.rangemap_core.specs.Clones.{KeysCloneFaithfully, ValuesCloneFaithfully};
ghost use Rattle.rangemap_core.specs.Ranges.{IsCanonOf, IsCanonical, erase, overlapped, override, same_pairs, value_at};
ghost use Rattle.rangemap_laws.specs.Refusals.{IsOneOfOrOld};

use crate::clones::{insert_clone, remove_clone};
use rangemap::container::Container;
use std::alloc::AllocError;

/// After an insert each key of the range has the value, and any other key is covered exactly as
/// before, with an equal value.
///
/// # Errors
///
/// The insert was refused. The container is as it was.
pub fn insert_changes_its_range_alone<M: Container>(
    map: &mut M,
    range: M::Range,
    value: M::Value,
) -> Result<(), AllocError>
    requires non_empty { M.Kind.kind.IsNonEmpty range }
    requires faithful_keys { KeysCloneFaithfully M.Range.Key.is_clone M.Range.Key.cmp }
    requires faithful_values { ValuesCloneFaithfully M.Value.is_clone M.Value.eq }
    ensures canonical { OnOk result (IsCanonical M.Kind.kind M.Value.eq (M.pairs map.new)) }
    ensures within { OnOk result
        ((x : M.Range.Key) → M.Kind.kind.is_key x → M.Kind.kind.holds range x ≡ true
        → option_eq M.Value.eq (value_at M.Kind.kind (M.pairs map.new) x) (SomeWord value) ≡ true) }
    ensures elsewhere { OnOk result
        ((x : M.Range.Key) → M.Kind.kind.is_key x → M.Kind.kind.holds range x ≡ false
        → option_eq M.Value.eq (value_at M.Kind.kind (M.pairs map.new) x)
        (value_at M.Kind.kind (M.pairs map.old) x) ≡ true) }
    ensures err { OnErr result (M.pairs map.new ≡ M.pairs map.old) }
{
    map.insert(range, value)
}

/// After a remove no key of the range is covered, and any other key is covered exactly as before, with
/// an equal value. If no stored range overlaps it, the remove succeeds and changes nothing.
///
/// # Errors
///
/// The remove was refused. The container is as it was.
pub fn remove_changes_its_range_alone<M: Container>(
    map: &mut M,
    range: M::Range,
) -> Result<(), AllocError>
    requires non_empty { M.Kind.kind.IsNonEmpty range }
    requires faithful_keys { KeysCloneFaithfully M.Range.Key.is_clone M.Range.Key.cmp }
    requires faithful_values { ValuesCloneFaithfully M.Value.is_clone M.Value.eq }
    ensures canonical { OnOk result (IsCanonical M.Kind.kind M.Value.eq (M.pairs map.new)) }
    ensures within { OnOk result ((x : M.Range.Key) → M.Kind.kind.is_key x
        → M.Kind.kind.holds range x ≡ true → value_at M.Kind.kind (M.pairs map.new) x ≡ NoneWord) }
    ensures elsewhere { OnOk result
        ((x : M.Range.Key) → M.Kind.kind.is_key x → M.Kind.kind.holds range x ≡ false
        → option_eq M.Value.eq (value_at M.Kind.kind (M.pairs map.new) x)
        (value_at M.Kind.kind (M.pairs map.old) x) ≡ true) }
    ensures err { OnErr result (M.pairs map.new ≡ M.pairs map.old) }
    ensures meets_nothing { overlapped M.Kind.kind (M.pairs map.old) range ≡ []
        → IsOk result × (M.pairs map.new ≡ M.pairs map.old) }
{
    map.remove(range)
}

/// The same insert twice leaves what it leaves once: given two equal containers, it inserts into
/// `once` a single time and into `twice` two times, and they are equal again.
///
/// # Errors
///
/// An insert, or the clone of a range or a value for it, was refused. Each container is as it was, or
/// as one insert leaves it.
pub fn insert_twice_equals_once<M: Container>(
    once: &mut M,
    twice: &mut M,
    range: &M::Range,
    value: &M::Value,
) -> Result<(), AllocError>
    requires equal { IsTrue (same_pairs M.Kind.kind M.Value.eq (M.pairs once.old) (M.pairs twice.old)) }
    requires non_empty { M.Kind.kind.IsNonEmpty range.now }
    requires faithful_keys { KeysCloneFaithfully M.Range.Key.is_clone M.Range.Key.cmp }
    requires faithful_values { ValuesCloneFaithfully M.Value.is_clone M.Value.eq }
    ensures once { OnOk result (IsCanonOf M.Kind.kind M.Value.eq
        (override M.Kind.kind (value_at M.Kind.kind (M.pairs once.old)) range.now value.now)
        (M.pairs once.new)) }
    ensures twice { OnOk result (IsCanonOf M.Kind.kind M.Value.eq
        (override M.Kind.kind
        (override M.Kind.kind (value_at M.Kind.kind (M.pairs twice.old)) range.now value.now)
        range.now value.now)
        (M.pairs twice.new)) }
    ensures equal { OnOk result
        (IsTrue (same_pairs M.Kind.kind M.Value.eq (M.pairs once.new) (M.pairs twice.new))) }
    ensures err_once { OnErr result (IsOneOfOrOld M.Kind.kind M.Value.eq
        (override M.Kind.kind (value_at M.Kind.kind (M.pairs once.old)) range.now value.now ∷ [])
        (M.pairs once.old) (M.pairs once.new)) }
    ensures err_twice { OnErr result (IsOneOfOrOld M.Kind.kind M.Value.eq
        (override M.Kind.kind (value_at M.Kind.kind (M.pairs twice.old)) range.now value.now ∷ [])
        (M.pairs twice.old) (M.pairs twice.new)) }
{
    insert_clone(once, range, value)?;
    insert_clone(twice, range, value)?;
    insert_clone(twice, range, value)
}

/// Inserts on ranges with no common point commute: given two equal containers, it makes both
/// inserts into each, in the one order and in the other, and they are equal again.
///
/// # Errors
///
/// An insert, or the clone of a range or a value for it, was refused. Each container is as it was, or
/// as one of its inserts left it.
pub fn inserts_commute<M: Container>(
    forth: &mut M,
    back: &mut M,
    first: (&M::Range, &M::Value),
    second: (&M::Range, &M::Value),
) -> Result<(), AllocError>
    requires equal { IsTrue (same_pairs M.Kind.kind M.Value.eq (M.pairs forth.old) (M.pairs back.old)) }
    requires first_non_empty { M.Kind.kind.IsNonEmpty first.0.now }
    requires second_non_empty { M.Kind.kind.IsNonEmpty second.0.now }
    requires no_common_point { (x : M.Range.Key) → M.Kind.kind.is_key x
        → (M.Kind.kind.holds first.0.now x && M.Kind.kind.holds second.0.now x) ≡ false }
    requires faithful_keys { KeysCloneFaithfully M.Range.Key.is_clone M.Range.Key.cmp }
    requires faithful_values { ValuesCloneFaithfully M.Value.is_clone M.Value.eq }
    ensures forth { OnOk result (IsCanonOf M.Kind.kind M.Value.eq
        (override M.Kind.kind (override M.Kind.kind
        (value_at M.Kind.kind (M.pairs forth.old)) first.entry.0.now first.entry.1.now)
        second.entry.0.now second.entry.1.now)
        (M.pairs forth.new)) }
    ensures back { OnOk result (IsCanonOf M.Kind.kind M.Value.eq
        (override M.Kind.kind (override M.Kind.kind
        (value_at M.Kind.kind (M.pairs back.old)) second.entry.0.now second.entry.1.now)
        first.entry.0.now first.entry.1.now)
        (M.pairs back.new)) }
    ensures equal { OnOk result
        (IsTrue (same_pairs M.Kind.kind M.Value.eq (M.pairs forth.new) (M.pairs back.new))) }
    ensures err_forth { OnErr result (IsOneOfOrOld M.Kind.kind M.Value.eq
        (override M.Kind.kind
        (value_at M.Kind.kind (M.pairs forth.old)) first.entry.0.now first.entry.1.now
        ∷ override M.Kind.kind (override M.Kind.kind
        (value_at M.Kind.kind (M.pairs forth.old)) first.entry.0.now first.entry.1.now)
        second.entry.0.now second.entry.1.now ∷ [])
        (M.pairs forth.old) (M.pairs forth.new)) }
    ensures err_back { OnErr result (IsOneOfOrOld M.Kind.kind M.Value.eq
        (override M.Kind.kind
        (value_at M.Kind.kind (M.pairs back.old)) second.entry.0.now second.entry.1.now ∷ [])
        (M.pairs back.old) (M.pairs back.new)) }
{
    insert_clone(forth, first.0, first.1)?;
    insert_clone(forth, second.0, second.1)?;
    insert_clone(back, second.0, second.1)?;
    insert_clone(back, first.0, first.1)
}

/// A remove takes back the insert before it: given two equal containers, it inserts into
/// `changed` and removes the range again, removes it from `removed` alone, and they are equal again.
///
/// # Errors
///
/// A call, or a clone for it, was refused. `changed` is as it was, or as one of its calls left it, and
/// `removed` is as it was.
pub fn remove_after_insert_equals_remove<M: Container>(
    changed: &mut M,
    removed: &mut M,
    range: &M::Range,
    value: &M::Value,
) -> Result<(), AllocError>
    requires equal { IsTrue (same_pairs M.Kind.kind M.Value.eq (M.pairs changed.old) (M.pairs removed.old)) }
    requires non_empty { M.Kind.kind.IsNonEmpty range.now }
    requires faithful_keys { KeysCloneFaithfully M.Range.Key.is_clone M.Range.Key.cmp }
    requires faithful_values { ValuesCloneFaithfully M.Value.is_clone M.Value.eq }
    ensures changed { OnOk result (IsCanonOf M.Kind.kind M.Value.eq
        (erase M.Kind.kind
        (override M.Kind.kind (value_at M.Kind.kind (M.pairs changed.old)) range.now value.now)
        range.now)
        (M.pairs changed.new)) }
    ensures removed { OnOk result (IsCanonOf M.Kind.kind M.Value.eq
        (erase M.Kind.kind (value_at M.Kind.kind (M.pairs removed.old)) range.now)
        (M.pairs removed.new)) }
    ensures equal { OnOk result
        (IsTrue (same_pairs M.Kind.kind M.Value.eq (M.pairs changed.new) (M.pairs removed.new))) }
    ensures err_changed { OnErr result (IsOneOfOrOld M.Kind.kind M.Value.eq
        (override M.Kind.kind (value_at M.Kind.kind (M.pairs changed.old)) range.now value.now
        ∷ erase M.Kind.kind
        (override M.Kind.kind (value_at M.Kind.kind (M.pairs changed.old)) range.now value.now)
        range.now ∷ [])
        (M.pairs changed.old) (M.pairs changed.new)) }
    ensures err_removed { OnErr result (M.pairs removed.new ≡ M.pairs removed.old) }
{
    insert_clone(changed, range, value)?;
    remove_clone(changed, range)?;
    remove_clone(removed, range)
}
