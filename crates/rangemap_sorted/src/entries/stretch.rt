//! The stretch of a list of pairs that a change replaces.
ghost use Rattle.std.specs.Prelude.{◌≡◌, ◌-◌, false, None as NoneWord, Some as SomeWord, IfOk, IsOk};
ghost use Rattle.std.specs.Option.{option_copied, option_to_list};
ghost use Rattle.rangemap_core.specs.Clones.{KeysCloneFaithfully, KeysCloneInfallibly, ValuesCloneFaithfully, ValuesCloneInfallibly};
ghost use Rattle.rangemap_core.specs.engine.Endpoints.{IsAskedAt, endpoint_of};
ghost use Rattle.rangemap_core.specs.engine.Places.{Spans};
ghost use Rattle.rangemap_core.specs.Ranges.{IsCanonical, IsStorable};
ghost use Rattle.rangemap_core.specs.engine.Shape.{optional, shape_of};
ghost use Rattle.rangemap_core.specs.engine.Stretch.{are_apart, middle_of, taken_or_new, IsStretch, IsLeftSide, IsRightSide, IsPiece, IsTaken};
ghost use Rattle.rangemap_sorted.specs.Sides.{IsSide};

use crate::overlapping::overlap;
use rangemap_core::key_range::KeyRange;
use rangemap_core::kind::{Endpoint, Kind, Touch};
use rangemap_core::pairs::piece;
use std::alloc::AllocError;
use std::ops::Range;

/// What a change makes of the stored pair at one end of its stretch: it leaves a piece of it, takes it
/// into the new one, or neither.
#[derive(Drop)]
pub struct Side<R, V> {
    /// The piece, if one is left.
    pub piece: Option<(R, V)>,
    /// Whether the pair is taken into the new one.
    pub is_taken: bool,
}

impl<R, V> Side<R, V> {
    // What is left where there is no pair.
    fn none() -> Self
        ensures piece { result.piece ≡ NoneWord }
        ensures not_taken { result.is_taken ≡ false }
    {
        Side {
            piece: None,
            is_taken: false,
        }
    }
}

/// Returns the places of the pairs that overlap the range or are to be joined with it: those that
/// overlap it, and the pair on either side, where it touches and has the value.
pub fn stretch<Q: Kind<R>, R: KeyRange, V: Eq>(
    pairs: &[(R, V)],
    range: &R,
    value: Option<&V>,
) -> Range<usize>
    requires canonical { IsCanonical Q.kind V.eq pairs.now }
    requires range { IsStorable Q.kind range.now }
    ensures { IsStretch (shape_of Q.kind Q.end_place V.eq) pairs.now
        (range.now, option_copied value.entry) result.start result.end }
{
    let mut places = overlap::<Q, R, V>(pairs, range);
    if 0 < places.start {
        let before = &pairs[places.start - 1];
        if !is_apart::<Q, R, V>(&before.0, Some(&before.1), range, value) {
            places.start -= 1;
        }
    }
    if places.end < pairs.len() {
        let behind = &pairs[places.end];
        if !is_apart::<Q, R, V>(range, value, &behind.0, Some(&behind.1)) {
            places.end += 1;
        }
    }
    places
}

/// Returns what a change leaves of the first pair of its stretch, and of the last.
///
/// # Errors
///
/// A clone was refused.
pub fn sides<Q: Kind<R>, R: KeyRange, V: Eq + Clone>(
    pairs: &[(R, V)],
    places: &Range<usize>,
    range: &R,
    value: Option<&V>,
) -> Result<(Side<R, V>, Side<R, V>), AllocError>
    requires canonical { IsCanonical Q.kind V.eq pairs.now }
    requires range { IsStorable Q.kind range.now }
    requires stretch { IsStretch (shape_of Q.kind Q.end_place V.eq) pairs.now
        (range.now, option_copied value) places.now.start places.now.end }
    requires faithful_keys { KeysCloneFaithfully R.Key.is_clone R.Key.cmp }
    requires faithful_values { ValuesCloneFaithfully V.is_clone V.eq }
    ensures left { IfOk result (λ sides. IsLeftSide (shape_of Q.kind Q.end_place V.eq) pairs.now
        (range.now, option_copied value.entry)
        places.now.start places.now.end sides.0.piece sides.0.is_taken) }
    ensures left_piece { IfOk result (λ sides. IsPiece Q.kind V.eq
        (option_copied value.entry) places.now.start places.now.end sides.0.piece) }
    ensures right { IfOk result (λ sides. IsRightSide (shape_of Q.kind Q.end_place V.eq) pairs.now
        (range.now, option_copied value.entry)
        places.now.start places.now.end sides.1.piece sides.1.is_taken) }
    ensures right_piece { IfOk result (λ sides. IsPiece Q.kind V.eq
        (option_copied value.entry) places.now.start places.now.end sides.1.piece) }
    ensures of_nothing { places.now.start ≡ places.now.end → IsOk result }
    ensures succeeds { KeysCloneInfallibly R.Key.is_infallible
        → ValuesCloneInfallibly V.is_infallible → IsOk result }
{
    if places.start == places.end {
        return Ok((Side::none(), Side::none()));
    }
    let first = &pairs[places.start];
    let before = Endpoint::Start(&first.0);
    let left = side_between::<Q, R, V>(before, Endpoint::Start(range), &first.1, value)?;
    let last = &pairs[places.end - 1];
    let behind = Endpoint::End(&last.0);
    let right = side_between::<Q, R, V>(Endpoint::End(range), behind, &last.1, value)?;
    Ok((left, right))
}

// What is left between two endpoints of a pair that a change meets: the piece, unless its value
// equals the new one, which then takes the pair in.
#[inline(always)]
fn side_between<Q: Kind<R>, R: KeyRange, V: Eq + Clone>(
    from: Endpoint<'_, R>,
    to: Endpoint<'_, R>,
    stored: &V,
    value: Option<&V>,
) -> Result<Side<R, V>, AllocError>
    requires from { IsAskedAt Q.kind (endpoint_of from) }
    requires to { IsAskedAt Q.kind (endpoint_of to) }
    requires faithful_keys { KeysCloneFaithfully R.Key.is_clone R.Key.cmp }
    requires faithful_values { ValuesCloneFaithfully V.is_clone V.eq }
    ensures side { IfOk result (λ side. IsSide Q.kind Q.end_place V.eq (endpoint_of from.entry)
        (endpoint_of to.entry) stored.now (option_copied value.entry) side.piece side.is_taken) }
    ensures succeeds { KeysCloneInfallibly R.Key.is_infallible
        → ValuesCloneInfallibly V.is_infallible → IsOk result }
{
    if Some(stored) == value {
        return Ok(Side {
            piece: None,
            is_taken: Q::is_before(from, to),
        });
    }
    Ok(Side {
        piece: piece::<Q, R, V>(from, to, stored)?,
        is_taken: false,
    })
}

/// Returns the range of the middle: the given one, from the start of the stretch's first pair if that is
/// taken in, and up to the end of its last if that is.
///
/// # Errors
///
/// A clone was refused. If nothing is taken in, no clone is made.
pub fn middle<Q: Kind<R>, R: KeyRange, V: Eq + Clone>(
    pairs: &[(R, V)],
    places: &Range<usize>,
    left: &Side<R, V>,
    right: &Side<R, V>,
    range: R,
) -> Result<R, AllocError>
    requires canonical { IsCanonical Q.kind V.eq pairs.now }
    requires range { IsStorable Q.kind range }
    requires taken { IsTaken (shape_of Q.kind Q.end_place V.eq)
        pairs.now range places.now.start places.now.end left.now.is_taken right.now.is_taken }
    requires faithful_keys { KeysCloneFaithfully R.Key.is_clone R.Key.cmp }
    ensures ok { IfOk result (Spans Q.kind Q.end_place
        (SomeWord (Q.kind.start (taken_or_new pairs.now places.now.start left.now.is_taken range)))
        (Q.end_place (taken_or_new pairs.now (places.now.end - 1) right.now.is_taken range))) }
    ensures of_nothing { left.now.is_taken ≡ false → right.now.is_taken ≡ false → IsOk result }
    ensures succeeds { KeysCloneInfallibly R.Key.is_infallible → IsOk result }
{
    if !left.is_taken && !right.is_taken {
        return Ok(range);
    }
    let first = if left.is_taken {
        &pairs[places.start].0
    } else {
        &range
    };
    let last = if right.is_taken {
        &pairs[places.end - 1].0
    } else {
        &range
    };
    Q::part(Endpoint::Start(first), Endpoint::End(last))
}

/// Returns the value at the range, if there is one.
#[inline(always)]
pub fn at_range<R: Drop, V: Drop>(range: R, value: Option<V>) -> Option<(R, V)>
    ensures { option_to_list result ≡ middle_of range value }
{
    Some((range, value?))
}

// Whether the first pair lies wholly before the second, and they are not to be joined into one.
fn is_apart<Q: Kind<R>, R: KeyRange, V: Eq>(
    first: &R,
    first_value: Option<&V>,
    second: &R,
    second_value: Option<&V>,
) -> bool
    requires first { IsStorable Q.kind first.now }
    requires second { IsStorable Q.kind second.now }
    ensures { result ≡ are_apart (optional (shape_of Q.kind Q.end_place V.eq))
        (first.now, option_copied first_value.entry)
        (second.now, option_copied second_value.entry) }
{
    match Q::touch_test(first, second) {
        Touch::Apart => true,
        Touch::Touching => first_value != second_value,
        Touch::NotBefore => false,
    }
}
