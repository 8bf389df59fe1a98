//! The making of an item of a union or an intersection.
ghost use Rattle.std.specs.Prelude.{◌≡◌, IfOk, IsOk};
ghost use Rattle.std.specs.declared.cmp.Ordering.TheVariants.{Less};
ghost use Rattle.rangemap_core.specs.Clones.{KeysCloneFaithfully, KeysCloneInfallibly};
ghost use Rattle.rangemap_core.specs.MadeRanges.{IsSame};

use rangemap_core::key_range::KeyRange;
use std::alloc::AllocError;

/// Returns the item from the start of the first range up to the end of the last, made of clones.
///
/// # Requires
///
/// The first range starts before the last one ends. Closed ranges may also start where the last one
/// ends. A clone of a key compares equal to its original.
///
/// # Errors
///
/// A clone was refused. Clones of numbers, characters and references never are.
pub fn between<R: KeyRange>(first: &R, last: &R) -> Result<R, AllocError>
    requires in_order { R.places.order (R.places.start_place first.now) (R.places.end_place last.now) ≡ Less }
    requires faithful_keys { KeysCloneFaithfully R.Key.is_clone R.Key.cmp }
    ensures made { IfOk result (IsSame R.read (R.places.between first.now last.now)) }
    ensures succeeds { KeysCloneInfallibly R.Key.is_infallible → IsOk result }
{
    let start = first.start().clone()?;
    let end = last.end().clone()?;
    match R::between(start, end) {
        Some(item) => Ok(item),
        // Clones compare as the ends do, which are in order.
        None => unreachable!(),
    }
}
