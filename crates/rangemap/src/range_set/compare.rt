//! Equality and order of sets, and what a set feeds a hasher.

use super::Set;
use rangemap_core::key_range::KeyRange;
use rangemap_core::kind::Kind;
use rangemap_core::store::Store;
use rangemap_formats::compare::{are_same, compare};
use rangemap_formats::hash::feed;
use std::cmp::Ordering;
use std::hash::{Hash, Hasher};

impl<S: Store<Value = ()>> PartialEq for Set<S> {
    ghost use Rattle.std.specs.Cmp.{partial_equiv_from_equiv};
    ghost use Rattle.rangemap.specs.Ranges.{same_ranges};
    ghost use Rattle.rangemap_core.specs.laws.Comparisons.{same_ranges_equiv};

    ghost eq = { λ left right. same_ranges S.Kind.kind left right };

    ghost laws = { partial_equiv_from_equiv (same_ranges_equiv S.Kind.kind S.Kind.placed.total) };

    /// Returns whether the sets have equal ranges. It compares their numbers first, and stops at
    /// the first two that differ.
    fn eq(&self, other: &Self) -> bool {
        are_same(&self.stored, &other.stored)
    }
}

impl<S: Store<Value = ()>> Eq for Set<S> {
    ghost use Rattle.rangemap_core.specs.laws.Comparisons.{same_ranges_equiv};

    ghost laws = { same_ranges_equiv S.Kind.kind S.Kind.placed.total };
}

impl<S: Store<Value = ()>> PartialOrd for Set<S> {
    ghost use Rattle.std.specs.Ordering.{as_partial_cmp};
    ghost use Rattle.rangemap.specs.ListOrder.{ranges_cmp};
    ghost use Rattle.rangemap_core.specs.laws.Comparisons.{ranges_cmp_partial};

    ghost partial_cmp = { as_partial_cmp (ranges_cmp S.Kind.kind) };

    ghost laws = { ranges_cmp_partial S.Kind.kind S.Kind.placed.total };

    /// Returns what `cmp` does.
    fn partial_cmp(&self, other: &Self) -> Option<Ordering> {
        Some(self.cmp(other))
    }
}

impl<S: Store<Value = ()>> Ord for Set<S> {
    ghost use Rattle.std.specs.Prelude.{refl};
    ghost use Rattle.rangemap.specs.ListOrder.{ranges_cmp};
    ghost use Rattle.rangemap_core.specs.laws.Comparisons.{ranges_cmp_ties, ranges_cmp_total};

    ghost cmp = { ranges_cmp S.Kind.kind };

    ghost total = { ranges_cmp_total S.Kind.kind S.Kind.placed.total };

    ghost matches_partial_cmp = { λ left right. refl };

    ghost matches_eq = { ranges_cmp_ties S.Kind.kind };

    /// Compares the sets by the first two ranges that differ: by their starts, then by their ends. A set
    /// that has only the first ranges of the other is less.
    fn cmp(&self, other: &Self) -> Ordering {
        compare(&self.stored, &other.stored)
    }
}

impl<S: Store<Value = ()>> Hash for Set<S>
where
    <S::Range as KeyRange>::Key: Hash,
{
    ghost use Rattle.rangemap.specs.Hashes.{ranges_fed};
    ghost use Rattle.rangemap_core.specs.laws.Comparisons.{alike_by, ranges_fed_alike};
    ghost use Rattle.rangemap_core.specs.laws.KeyOrder.{alike_in, cmp_is};

    ghost hash_input = { ranges_fed S.Kind.kind S.Range.Key.hash_input };

    ghost respects_eq = { (ranges_fed_alike S.Kind.kind
        (alike_in (cmp_is S.Kind.reads S.Range.order)
        (alike_by S.Range.Key.matches_eq (record { fed = S.Range.Key.respects_eq })))).fed };

    /// Feeds the number of stored ranges, and then the start and the end of each.
    fn hash<H: Hasher>(&self, state: &mut H) {
        feed(&self.stored, state);
    }
}
