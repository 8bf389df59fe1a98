//! What an insert or a remove of a range does to the two stored pairs at the ends of the range.
//!
//! At either end the range can meet a pair that reaches out past that end. If that pair has the value
//! that is inserted, the new range takes it in. Else the pair is cut, and what lies outside the range is
//! left of it. A remove inserts no value (`None`), so it only cuts.
ghost use Rattle.std.specs.Prelude.{◌≡◌, List, Option as OptionWord, None as NoneWord, IfOk};
ghost use Rattle.std.specs.Option.{option_copied};
ghost use Rattle.std.specs.Map.Iter.{TakesLast, deref_pair};
ghost use Rattle.rangemap_core.specs.Clones.{KeysCloneFaithfully, ValuesCloneFaithfully};
ghost use Rattle.rangemap_core.specs.Ranges.{IsCanonical, half_open};
ghost use Rattle.rangemap_tree.specs.Sides.{IsLeft, IsRight};
ghost use Rattle.rangemap_tree.specs.Starts.{before, near_end};

use crate::by_start::ByStart;
use crate::pieces::Keyed;
use std::alloc::{AllocError, Allocator};
use std::ops::Range;

/// What a change does to the stored pair at one end of its range. One field is set at most.
#[derive(Drop)]
pub struct Side<K, P> {
    /// The outer end of that pair, if the new range takes it in: the new range then goes up to there.
    pub outer_end: Option<K>,
    /// What is left of that pair, if it is cut.
    pub rest: Option<P>,
}

impl<K, P> Side<K, P> {
    // No pair is taken in or cut at this end.
    fn none() -> Self
        ensures outer_end { result.outer_end ≡ NoneWord }
        ensures rest { result.rest ≡ NoneWord }
    {
        Side {
            outer_end: None,
            rest: None,
        }
    }
}

/// Returns what a change does to the pair that reaches the start of the range from before it. Only the
/// last pair that starts before the range can do that. `near` is the last pair that starts before the
/// end of the range or, for an insert, at that end.
///
/// # Errors
///
/// A clone was refused.
pub fn left_side<'a, K: Ord + Clone, V: Eq, A: Allocator>(
    pairs: &'a ByStart<K, V, A>,
    near: Option<(&'a Range<K>, &'a V)>,
    range: &Range<K>,
    value: Option<&'a V>,
) -> Result<Side<K, Range<K>>, AllocError>
    requires canonical { IsCanonical (half_open K.cmp) V.eq pairs.now }
    requires near { (rest : List _) × TakesLast deref_pair
        (near_end K.cmp (option_copied value) range.now.end pairs.now) near rest }
    requires range { (half_open K.cmp).IsNonEmpty range.now }
    requires faithful_keys { KeysCloneFaithfully K.is_clone K.cmp }
    ensures { IfOk result (λ left. IsLeft K.cmp V.eq pairs.now range.now
        (option_copied value.entry) left.outer_end left.rest) }
{
    let Some((first, first_value)) = last_before(pairs, near, range) else {
        return Ok(Side::none());
    };
    let reach = first.end.cmp(&range.start);
    if reach.is_lt() {
        return Ok(Side::none());
    }
    if Some(first_value) == value {
        let taken = first.start.clone()?;
        return Ok(Side {
            outer_end: Some(taken),
            rest: None,
        });
    }
    if reach.is_le() {
        return Ok(Side::none());
    }
    let start = first.start.clone()?;
    let end = range.start.clone()?;
    Ok(Side {
        outer_end: None,
        rest: Some(start..end),
    })
}

// Returns the last pair that starts before the range. `near` is the last that starts before the end of
// the range, or at that end. Mostly that is the same pair, and then the tree is not searched.
fn last_before<'a, K: Ord, V: Eq, A: Allocator>(
    pairs: &'a ByStart<K, V, A>,
    near: Option<(&'a Range<K>, &'a V)>,
    range: &Range<K>,
) -> Option<(&'a Range<K>, &'a V)>
    requires canonical { IsCanonical (half_open K.cmp) V.eq pairs.now }
    requires near { (value : OptionWord _) × (rest : List _)
        × TakesLast deref_pair (near_end K.cmp value range.now.end pairs.now) near rest }
    requires range { (half_open K.cmp).IsNonEmpty range.now }
    ensures { (rest : List _) × TakesLast deref_pair (before K.cmp range.now.start pairs.now) result rest }
{
    let (last, _) = near?;
    if last.start.cmp(&range.start).is_lt() {
        near
    } else {
        pairs.last_within(..&range.start)
    }
}

/// Returns what a change does to the pair that reaches out past the end of the range, or touches it
/// there. Only `near` can do that. The body does not use `pairs`, of which the contract speaks.
///
/// # Errors
///
/// A clone was refused.
pub fn right_side<'a, K: Ord + Clone, V: Eq + Clone, A: Allocator>(
    pairs: &'a ByStart<K, V, A>,
    near: Option<(&'a Range<K>, &'a V)>,
    range: &Range<K>,
    value: Option<&'a V>,
) -> Result<Side<K, Keyed<K, V>>, AllocError>
    requires canonical { IsCanonical (half_open K.cmp) V.eq pairs.now }
    requires near { (rest : List _) × TakesLast deref_pair
        (near_end K.cmp (option_copied value) range.now.end pairs.now) near rest }
    requires faithful_keys { KeysCloneFaithfully K.is_clone K.cmp }
    requires faithful_values { ValuesCloneFaithfully V.is_clone V.eq }
    ensures { IfOk result (λ right. IsRight K.cmp V.eq pairs.now range.now
        (option_copied value.entry) right.outer_end right.rest) }
{
    let Some((last, last_value)) = near else {
        return Ok(Side::none());
    };
    if last.end.cmp(&range.end).is_le() {
        return Ok(Side::none());
    }
    if Some(last_value) == value {
        let taken = last.end.clone()?;
        return Ok(Side {
            outer_end: Some(taken),
            rest: None,
        });
    }
    if range.end.cmp(&last.start).is_le() {
        return Ok(Side::none());
    }
    let piece = piece_behind(range, last, last_value)?;
    Ok(Side {
        outer_end: None,
        rest: Some(piece),
    })
}

// Returns what is left of a stored pair behind the end of the range.
fn piece_behind<K: Clone, V: Clone>(
    range: &Range<K>,
    last: &Range<K>,
    value: &V,
) -> Result<Keyed<K, V>, AllocError>
    ensures { IfOk result (λ piece. K.is_clone range.now.end piece.0
        × K.is_clone range.now.end piece.1.0.start × K.is_clone last.now.end piece.1.0.end
        × V.is_clone value.now piece.1.1) }
{
    let start = range.end.clone()?;
    let end = last.end.clone()?;
    let key = range.end.clone()?;
    Ok((key, (start..end, value.clone()?)))
}
