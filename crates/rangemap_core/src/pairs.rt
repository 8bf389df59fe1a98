//! Pairs of a range and a value, and what a change leaves of them.
ghost use Rattle.std.specs.Prelude.{◌≡◌, IfOk, IsOk, true};
ghost use Rattle.std.specs.Option.{option_to_list};
ghost use Rattle.rangemap_core.specs.Clones.{KeysCloneFaithfully, KeysCloneInfallibly, ValuesCloneFaithfully, ValuesCloneInfallibly};
ghost use Rattle.rangemap_core.specs.Ranges.{IsStorable, same_pair};
ghost use Rattle.rangemap_core.specs.engine.Endpoints.{IsAskedAt, endpoint_of, place_of};
ghost use Rattle.rangemap_core.specs.engine.Shape.{shape_of};
ghost use Rattle.rangemap_core.specs.engine.Stretch.{Every, IsCut};

use crate::key_range::KeyRange;
use crate::kind::{Endpoint, Kind, part_between};
use std::alloc::AllocError;

/// Returns whether the ranges have the same ends, and the values are equal.
pub fn is_same<Q: Kind<R>, R: KeyRange, V: Eq>(
    range: &R,
    value: &V,
    other: &R,
    other_value: &V,
) -> bool
    ensures { result ≡ same_pair Q.kind V.eq (range.now, value.now) (other.now, other_value.now) }
{
    range.start().cmp(other.start()).is_eq()
        && range.end().cmp(other.end()).is_eq()
        && *value == *other_value
}

/// Returns the same pair, cloned: two clones of a key and one of the value.
///
/// # Requires
///
/// The range may be stored, and a clone of a key or value compares equal to its original.
///
/// # Errors
///
/// A clone was refused.
pub fn clone_pair<Q: Kind<R>, R: KeyRange, V: Eq + Clone>(
    range: &R,
    value: &V,
) -> Result<(R, V), AllocError>
    requires stored { IsStorable Q.kind range.now }
    requires faithful_keys { KeysCloneFaithfully R.Key.is_clone R.Key.cmp }
    requires faithful_values { ValuesCloneFaithfully V.is_clone V.eq }
    ensures storable { IfOk result (λ copy. IsStorable Q.kind copy.0) }
    ensures same { IfOk result (λ copy. same_pair Q.kind V.eq (range.now, value.now) copy ≡ true) }
{
    let copy = Q::part(Endpoint::Start(range), Endpoint::End(range))?;
    Ok((copy, value.clone()?))
}

/// Returns what lies between two endpoints, with the value, if a key does: all made of clones.
///
/// # Requires
///
/// The ends of the ranges are keys, and a clone of a key or value compares equal to its original.
///
/// # Errors
///
/// A clone was refused.
pub fn piece<Q: Kind<R>, R: KeyRange, V: Eq + Clone>(
    from: Endpoint<'_, R>,
    to: Endpoint<'_, R>,
    value: &V,
) -> Result<Option<(R, V)>, AllocError>
    requires from { IsAskedAt Q.kind (endpoint_of from) }
    requires to { IsAskedAt Q.kind (endpoint_of to) }
    requires faithful_keys { KeysCloneFaithfully R.Key.is_clone R.Key.cmp }
    requires faithful_values { ValuesCloneFaithfully V.is_clone V.eq }
    ensures cut { IfOk result (IsCut (shape_of Q.kind Q.end_place V.eq)
        (place_of Q.kind Q.end_place (endpoint_of from.entry))
        (place_of Q.kind Q.end_place (endpoint_of to.entry)) value.now) }
    ensures storable { IfOk result (λ piece. Every (λ a. IsStorable Q.kind a.0) (option_to_list piece)) }
    ensures succeeds { KeysCloneInfallibly R.Key.is_infallible
        → ValuesCloneInfallibly V.is_infallible → IsOk result }
{
    let Some(range) = part_between::<Q, R>(from, to)? else {
        return Ok(None);
    };
    Ok(Some((range, value.clone()?)))
}
