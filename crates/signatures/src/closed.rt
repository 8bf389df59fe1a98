//! What steps change in the calls of closed containers: those over any type of steps, with the gaps that
//! they give. The others are those of `maps` and `sets`; `wide_maps` and `wide_sets` make them.
ghost use Rattle.rangemap.specs.Clones.{KeysCloneFaithfully, ValuesCloneFaithfully};
ghost use Rattle.std.specs.Prelude.{◌≡◌, IsTrue, false};
ghost use Rattle.std.specs.Ordering.{is_le};
ghost use Rattle.std.specs.Range.{range_inclusive_start, range_inclusive_end, range_inclusive_exhausted};

use rangemap::StepFns;
use rangemap::inclusive_map::{self, RangeInclusiveMap};
use rangemap::inclusive_set::{self, RangeInclusiveSet};
use std::alloc::{AllocError, Allocator};
use std::ops::RangeInclusive;

pub fn map_by_step_fns<'a, K: Ord + Clone, V: Eq + Clone, S: StepFns<K>, A: Allocator>(
    alloc: A,
    map: &'a RangeInclusiveMap<K, V, S, A>,
    range: &'a RangeInclusive<K>,
) -> RangeInclusiveMap<K, V, S, A> {
    let _: inclusive_map::Gaps<'a, K, V, S> = map.gaps(range);
    RangeInclusiveMap::new_with_step_fns(alloc)
}

pub fn change_map<K: Ord + Clone, V: Eq + Clone, S: StepFns<K>, A: Allocator>(
    map: &mut RangeInclusiveMap<K, V, S, A>,
    given: RangeInclusive<K>,
    value: V,
) -> Result<(), AllocError>
    requires non_empty { IsTrue (is_le (K.cmp (range_inclusive_start given) (range_inclusive_end given))) }
    requires not_exhausted { range_inclusive_exhausted given ≡ false }
    requires faithful_keys { KeysCloneFaithfully K.is_clone K.cmp }
    requires faithful_values { ValuesCloneFaithfully V.is_clone V.eq }
{
    map.insert(given, value)
}

pub fn set_by_step_fns<'a, T: Ord + Clone, S: StepFns<T>, A: Allocator>(
    alloc: A,
    set: &'a RangeInclusiveSet<T, S, A>,
    range: &'a RangeInclusive<T>,
) -> RangeInclusiveSet<T, S, A> {
    let _: inclusive_set::Gaps<'a, T, S> = set.gaps(range);
    RangeInclusiveSet::new_with_step_fns(alloc)
}
