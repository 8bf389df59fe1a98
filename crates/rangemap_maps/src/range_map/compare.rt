//! Equality and order of maps, and what a map feeds a hasher.

use super::Map;
use rangemap_core::key_range::KeyRange;
use rangemap_core::kind::Kind;
use rangemap_core::store::Store;
use rangemap_formats::compare::{are_same, compare};
use rangemap_formats::hash::feed;
use std::cmp::Ordering;
use std::hash::{Hash, Hasher};

impl<S: Store> PartialEq for Map<S> {
    ghost use Rattle.std.specs.Cmp.{partial_equiv_from_equiv};
    ghost use Rattle.rangemap_core.specs.Ranges.{same_pairs};
    ghost use Rattle.rangemap_core.specs.laws.Comparisons.{same_pairs_equiv};

    ghost eq = { λ left right. same_pairs S.Kind.kind S.Value.eq left right };

    ghost laws = { partial_equiv_from_equiv (same_pairs_equiv S.Kind.kind S.Kind.placed.total
        S.Value.Eq.laws) };

    /// Returns whether the maps have equal pairs. It compares the numbers of ranges first, and
    /// stops at the first two pairs that differ.
    fn eq(&self, other: &Self) -> bool {
        are_same(&self.stored, &other.stored)
    }
}

impl<S: Store> Eq for Map<S> {
    ghost use Rattle.rangemap_core.specs.laws.Comparisons.{same_pairs_equiv};

    ghost laws = { same_pairs_equiv S.Kind.kind S.Kind.placed.total S.Value.Eq.laws };
}

impl<S: Store<Value: Ord>> PartialOrd for Map<S> {
    ghost use Rattle.std.specs.Ordering.{as_partial_cmp};
    ghost use Rattle.rangemap_core.specs.ListOrder.{pairs_cmp};
    ghost use Rattle.rangemap_core.specs.laws.Comparisons.{pairs_cmp_partial};

    ghost partial_cmp = { as_partial_cmp (pairs_cmp S.Kind.kind S.Value.cmp) };

    ghost laws = { pairs_cmp_partial S.Kind.kind S.Value.cmp S.Value.matches_eq S.Kind.placed.total
        S.Value.total };

    /// Returns what `cmp` does.
    fn partial_cmp(&self, other: &Self) -> Option<Ordering> {
        Some(self.cmp(other))
    }
}

impl<S: Store<Value: Ord>> Ord for Map<S> {
    ghost use Rattle.std.specs.Prelude.{refl};
    ghost use Rattle.rangemap_core.specs.ListOrder.{pairs_cmp};
    ghost use Rattle.rangemap_core.specs.laws.Comparisons.{pairs_cmp_ties, pairs_cmp_total};

    ghost cmp = { pairs_cmp S.Kind.kind S.Value.cmp };

    ghost total = { pairs_cmp_total S.Kind.kind S.Kind.placed.total S.Value.total };

    ghost matches_partial_cmp = { λ left right. refl };

    ghost matches_eq = { pairs_cmp_ties S.Kind.kind S.Value.cmp S.Value.matches_eq };

    /// Compares the maps by the first two pairs that differ: by their starts, then by their ends, then
    /// by their values. A map that has only the first pairs of the other is less.
    fn cmp(&self, other: &Self) -> Ordering {
        compare(&self.stored, &other.stored)
    }
}

impl<S: Store<Value: Hash>> Hash for Map<S>
where
    <S::Range as KeyRange>::Key: Hash,
{
    ghost use Rattle.rangemap_core.specs.Hashes.{pairs_fed};
    ghost use Rattle.rangemap_core.specs.laws.Comparisons.{alike_by, pairs_fed_alike};
    ghost use Rattle.rangemap_core.specs.laws.KeyOrder.{alike_in, cmp_is};

    ghost hash_input = { pairs_fed S.Kind.kind S.Range.Key.hash_input S.Value.hash_input };

    ghost respects_eq = { (pairs_fed_alike S.Kind.kind
        (alike_in (cmp_is S.Kind.reads S.Range.order)
        (alike_by S.Range.Key.matches_eq (record { fed = S.Range.Key.respects_eq })))
        (record { fed = S.Value.respects_eq })).fed };

    /// Feeds the number of stored ranges, and then the start, the end and the value of each pair.
    fn hash<H: Hasher>(&self, state: &mut H) {
        feed(&self.stored, state);
    }
}
