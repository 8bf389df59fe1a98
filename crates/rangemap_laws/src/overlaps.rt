//! What `overlaps`, `overlapping` and `covers` say about the keys of a range.
ghost use Rattle.std.specs.Prelude.{◌≡◌, ◌↔◌, [], IfOk, IsTrue, length, nat_lt};
ghost use Rattle.rangemap.specs.DefinedIn.{IsDefinedIn};
ghost use Rattle.rangemap_containers.specs.Histories.{IsDefinedOn, IsUndefinedOn};
ghost use Rattle.rangemap_core.specs.Clones.{KeysCloneFaithfully};
ghost use Rattle.rangemap_core.specs.Ranges.{overlapped, value_at};

use rangemap::container::{Container, collect_gaps};
use rangemap_core::kind::known_ends;
use std::alloc::{AllocError, Allocator};

/// For a range that isn't empty, `overlaps` is true exactly if some key of the range is covered, and no
/// stored pair overlaps it exactly if none is. Returns what `overlaps` does.
pub fn overlaps_exactly_where_covered<M: Container>(map: &M, range: &M::Range) -> bool
    requires { M.Kind.kind.IsNonEmpty range.now }
    ensures answer { result ≡ nat_lt 0 (length (overlapped M.Kind.kind (M.pairs map.now) range.now)) }
    ensures some { IsTrue result
        ↔ IsDefinedIn M.Kind.kind (value_at M.Kind.kind (M.pairs map.now)) range.now }
    ensures none { (overlapped M.Kind.kind (M.pairs map.now) range.now ≡ [])
        ↔ IsUndefinedOn M.Kind.kind (value_at M.Kind.kind (M.pairs map.now)) range.now }
{
    map.known();
    known_ends::<M::Kind, M::Range>(range);
    map.overlaps(range)
}

/// `covers` is true exactly if no gap lies in the range, so that every key of it has a value. Returns
/// what `covers` does, and whether `collect_gaps` finds no gap.
///
/// # Requires
///
/// A clone of a key compares equal to its original.
///
/// # Errors
///
/// A clone, or the memory of the gaps, was refused.
pub fn covers_exactly_where_no_gap_lies<M: Container, A: Allocator>(
    alloc: A,
    map: &M,
    range: &M::Range,
) -> Result<(bool, bool), AllocError>
    requires { KeysCloneFaithfully M.Range.Key.is_clone M.Range.Key.cmp }
    ensures covers { IfOk result (λ answers. IsTrue answers.0
        ↔ IsDefinedOn M.Kind.kind (value_at M.Kind.kind (M.pairs map.now)) range.now) }
    ensures no_gap { IfOk result (λ answers. answers.1 ≡ answers.0) }
{
    let gaps = collect_gaps(alloc, map, range)?;
    let covers = map.covers(range);
    Ok((covers, gaps.is_empty()))
}

/// For a range that isn't empty, `covers` is true only if `overlaps` is. Returns both results.
pub fn covers_only_where_overlaps<M: Container>(map: &M, range: &M::Range) -> (bool, bool)
    requires { M.Kind.kind.IsNonEmpty range.now }
    ensures covers { IsTrue result.0
        ↔ IsDefinedOn M.Kind.kind (value_at M.Kind.kind (M.pairs map.now)) range.now }
    ensures overlaps { IsTrue result.1
        ↔ IsDefinedIn M.Kind.kind (value_at M.Kind.kind (M.pairs map.now)) range.now }
    ensures implies { IsTrue result.0 → IsTrue result.1 }
{
    known_ends::<M::Kind, M::Range>(range);
    let overlaps = overlaps_exactly_where_covered(map, range);
    let covers = map.covers(range);
    (covers, overlaps)
}
