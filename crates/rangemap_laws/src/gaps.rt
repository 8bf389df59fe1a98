//! Gaps and covered keys together make up a range.
ghost use Rattle.std.specs.Prelude.{is_some, map, IfOk};
ghost use Rattle.rangemap_core.specs.Clones.{KeysCloneFaithfully};
ghost use Rattle.rangemap_core.specs.Ranges.{AreGaps, covering};
ghost use Rattle.rangemap_laws.specs.GapPartition.{IsPartition};

use rangemap::container::{Container, collect_gaps};
use std::alloc::{AllocError, Allocator};

/// Gaps and covered keys make up a range: the gaps of `outer_range` and what `stored` covers of it
/// share no key, and together they have all its keys. No gap is empty, and no two touch.
///
/// Returns what `collect_gaps` does, at its cost.
///
/// # Errors
///
/// As of `collect_gaps`.
pub fn gaps_and_covered_keys_make_up_a_range<M: Container, B: Allocator>(
    alloc: B,
    stored: &M,
    outer_range: &M::Range,
) -> Result<Vec<M::Range, B>, AllocError>
    requires { KeysCloneFaithfully M.Range.Key.is_clone M.Range.Key.cmp }
    ensures gaps { IfOk result (λ gaps. AreGaps M.Kind.kind
        (map (λ pair. pair.0) (M.pairs stored.now)) outer_range.now gaps.items) }
    ensures parted { IfOk result (λ gaps. IsPartition M.Kind.kind outer_range.now gaps.items
        (λ key. is_some (covering M.Kind.kind (M.pairs stored.now) key))) }
{
    collect_gaps(alloc, stored, outer_range)
}
