//! Clones of a whole list of pairs.
ghost use Rattle.std.specs.Prelude.{◌≡◌, IfOk, true};
ghost use Rattle.rangemap_core.specs.Clones.{KeysCloneFaithfully, ValuesCloneFaithfully};
ghost use Rattle.rangemap_core.specs.Ranges.{IsCanonOf, IsCanonical, same_pairs, value_at};

use rangemap_core::key_range::KeyRange;
use rangemap_core::kind::Kind;
use rangemap_core::pairs::clone_pair;
use std::alloc::{AllocError, Allocator};

/// Makes an equal list out of clones, in memory of `alloc`.
///
/// # Errors
///
/// Memory or a clone was refused.
pub fn clone_pairs<Q: Kind<R>, R: KeyRange, V: Eq + Clone, A: Allocator>(
    alloc: A,
    pairs: &[(R, V)],
) -> Result<Vec<(R, V), A>, AllocError>
    requires canonical { IsCanonical Q.kind V.eq pairs.now }
    requires faithful_keys { KeysCloneFaithfully R.Key.is_clone R.Key.cmp }
    requires faithful_values { ValuesCloneFaithfully V.is_clone V.eq }
    ensures same { IfOk result (λ copy. same_pairs Q.kind V.eq pairs.now copy.items ≡ true) }
    ensures canon { IfOk result (λ copy. IsCanonOf Q.kind V.eq (value_at Q.kind pairs.now) copy.items) }
{
    let mut copy = Vec::with_capacity(alloc, pairs.len())?;
    for pair in pairs {
        copy.push_reserved(clone_pair::<Q, R, V>(&pair.0, &pair.1)?);
    }
    Ok(copy)
}
