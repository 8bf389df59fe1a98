//! Calls with clones of a range and a value, which the laws make more than once.
ghost use Rattle.std.specs.Prelude.{◌≡◌, OnErr, OnOk};
ghost use Rattle.rangemap_core.specs.Clones.{KeysCloneFaithfully, ValuesCloneFaithfully};
ghost use Rattle.rangemap_core.specs.Ranges.{IsCanonOf, IsCanonical, erase, override, value_at};

use rangemap::container::Container;
use rangemap_core::kind::{Endpoint, Kind, known_ends};
use rangemap_core::pairs::clone_pair;
use std::alloc::AllocError;

/// Inserts clones of a range and a value. The map is canonical before, which the laws need of what
/// they are lent.
pub fn insert_clone<M: Container>(
    map: &mut M,
    range: &M::Range,
    value: &M::Value,
) -> Result<(), AllocError>
    requires non_empty { M.Kind.kind.IsNonEmpty range.now }
    requires faithful_keys { KeysCloneFaithfully M.Range.Key.is_clone M.Range.Key.cmp }
    requires faithful_values { ValuesCloneFaithfully M.Value.is_clone M.Value.eq }
    ensures before { IsCanonical M.Kind.kind M.Value.eq (M.pairs map.old) }
    ensures ok { OnOk result (IsCanonOf M.Kind.kind M.Value.eq
        (override M.Kind.kind (value_at M.Kind.kind (M.pairs map.old)) range.now value.now)
        (M.pairs map.new)) }
    ensures err { OnErr result (M.pairs map.new ≡ M.pairs map.old) }
{
    map.known();
    known_ends::<M::Kind, M::Range>(range);
    let (range, value) = clone_pair::<M::Kind, M::Range, M::Value>(range, value)?;
    map.insert(range, value)
}

/// Removes a clone of a range: the part from its own start up to its own end.
pub fn remove_clone<M: Container>(map: &mut M, range: &M::Range) -> Result<(), AllocError>
    requires non_empty { M.Kind.kind.IsNonEmpty range.now }
    requires faithful_keys { KeysCloneFaithfully M.Range.Key.is_clone M.Range.Key.cmp }
    requires faithful_values { ValuesCloneFaithfully M.Value.is_clone M.Value.eq }
    ensures before { IsCanonical M.Kind.kind M.Value.eq (M.pairs map.old) }
    ensures ok { OnOk result (IsCanonOf M.Kind.kind M.Value.eq
        (erase M.Kind.kind (value_at M.Kind.kind (M.pairs map.old)) range.now) (M.pairs map.new)) }
    ensures err { OnErr result (M.pairs map.new ≡ M.pairs map.old) }
{
    map.known();
    known_ends::<M::Kind, M::Range>(range);
    map.remove(M::Kind::part(Endpoint::Start(range), Endpoint::End(range))?)
}
