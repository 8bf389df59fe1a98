//! New values for the covered keys of a range, over any container.
ghost use Rattle.std.specs.Fn.{FnReturnsAt};
ghost use Rattle.std.specs.Prelude.{◌≡◌, ◌&&◌, if◌then◌else◌, OnErr, OnOk, Some as SomeWord};
ghost use Rattle.rangemap_core.specs.Clones.{KeysCloneFaithfully, ValuesCloneFaithfully};
ghost use Rattle.rangemap_core.specs.Ranges.{IsCanonOf, value_at};
ghost use Rattle.rangemap_containers.specs.Updates.{UpdatesAll, UpdatesSome};

use super::Container;
use rangemap_core::common::common;
use rangemap_core::cursor::Cursor;
use rangemap_core::kind::known_ends;
use std::alloc::{AllocError, Allocator};

/// Gives each covered key of `range` the value that `change` makes of its own. Keys without a value
/// stay without one.
///
/// It makes clones of the *k* pairs that overlap the range, in memory of `alloc`, and an insert for
/// each, at its cost. The range may be empty or reversed. Only the two ends of a closed range are
/// read, even if it was iterated.
///
/// # Requires
///
/// `change` may be called with any value, and a clone of a key or value compares equal to its
/// original.
///
/// # Errors
///
/// Memory, a clone, or `change` for a pair was refused. The pairs before that one then have their new
/// values, and the others have their old ones.
///
/// # Examples
///
/// ```text
/// let mut map = RangeMap::from(alloc, [(0..4, 1), (6..9, 2)])?;
/// update(alloc, &mut map, &(2..8), |value| Ok(value + 5))?;
/// // (0..2, 1), (2..4, 6), (6..8, 7), (8..9, 2)
/// ```
pub fn update<M: Container, B: Allocator, F>(
    alloc: B,
    container: &mut M,
    range: &M::Range,
    change: F,
) -> Result<(), AllocError>
where
    F: Fn(&M::Value) -> Result<M::Value, AllocError>,
    requires callable { F.IsAlwaysCallable change }
    requires faithful_keys { KeysCloneFaithfully M.Range.Key.is_clone M.Range.Key.cmp }
    requires faithful_values { ValuesCloneFaithfully M.Value.is_clone M.Value.eq }
    ensures ok { OnOk result (UpdatesAll M.Kind.kind M.Value.eq (FnReturnsAt F.Fn change) range.now
        (M.pairs container.old) (M.pairs container.new)) }
    ensures err { OnErr result (UpdatesSome M.Kind.kind M.Value.eq
        (FnReturnsAt F.Fn change) range.now (M.pairs container.old) (M.pairs container.new)) }
{
    known_ends::<M::Kind, M::Range>(range);
    container.known();
    let mut found = Vec::new(alloc);
    container.append_overlapping(range, &mut found)?;
    let mut rest = found.into_iter();
    'pairs: while let Some((stored, value)) = rest.take_first() {
        let changed = change(&value)?;
        insert_shared(container, range, &stored, changed)?;
    }
    Ok(())
}

// Gives the keys that the two ranges share the value. If memory or a clone is refused, nothing has
// changed.
fn insert_shared<M: Container>(
    container: &mut M,
    first: &M::Range,
    second: &M::Range,
    value: M::Value,
) -> Result<(), AllocError>
    requires faithful_keys { KeysCloneFaithfully M.Range.Key.is_clone M.Range.Key.cmp }
    requires faithful_values { ValuesCloneFaithfully M.Value.is_clone M.Value.eq }
    ensures ok { OnOk result (IsCanonOf M.Kind.kind M.Value.eq
        (λ key. if M.Kind.kind.holds first.now key && M.Kind.kind.holds second.now key
        then SomeWord value else value_at M.Kind.kind (M.pairs container.old) key)
        (M.pairs container.new)) }
    ensures err { OnErr result (M.pairs container.new ≡ M.pairs container.old) }
{
    let Some(shared) = common::<M::Kind, M::Range>(first, second)? else {
        container.known();
        return Ok(());
    };
    container.insert(shared, value)
}
