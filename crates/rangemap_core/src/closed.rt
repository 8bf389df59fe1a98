//! Closed ranges as a kind.
//!
//! A step from a key requires that a greater or a smaller key was seen. So nothing here steps past the
//! last key of a type.
ghost use Rattle.rangemap_core.specs.engine.Endpoints.{IsAskedAt, endpoint_of};
ghost use Rattle.rangemap_core.specs.Ranges.{closed};

use crate::kind::{Endpoint, Kind, Touch};
use rangemap_steps::StepFns;
use std::alloc::AllocError;
use std::marker::PhantomData;
use std::ops::RangeInclusive;

/// The ranges `a..=b`, over keys whose steps are `StepFnsT`.
pub struct Closed<StepFnsT>(PhantomData<StepFnsT>);

impl<K: Ord + Clone, StepFnsT: StepFns<K>> Kind<RangeInclusive<K>> for Closed<StepFnsT> {
    ghost use Rattle.rangemap_core.specs.engine.IntervalKinds.{closed_interval};
    ghost use Rattle.rangemap_core.specs.Ranges.{closed};
    ghost use Rattle.rangemap_core.specs.Clones.{KeysCloneFaithfully, KeysCloneInfallibly};
    ghost use Rattle.rangemap_core.specs.engine.Endpoints.{endpoint_of, is_before};
    ghost use Rattle.rangemap_core.specs.engine.ClosedEndpoints.{closed_part, closed_placed};
    ghost use Rattle.rangemap_core.specs.engine.Unstepped.{canonical_unstepped};
    ghost use Rattle.rangemap_core.specs.MadeRanges.{IsSame};
    ghost use Rattle.rangemap_core.specs.operations.PlaceKinds.{closed_has_places};
    ghost use Rattle.rangemap_core.specs.engine.ClosedPlaces.{closed_end_place};
    ghost use Rattle.std.specs.Prelude.{◌≡◌, true, IfOk, IsOk, refl};

    type Steps = StepFnsT;

    ghost kind = { closed StepFnsT.is_key K.cmp };

    ghost end_place = { closed_end_place StepFnsT.after };

    ghost part_of = { closed_part StepFnsT.after StepFnsT.before };

    ghost placed = { closed_placed StepFnsT.is_key K.cmp K.total StepFnsT.after StepFnsT.before
        StepFnsT.follows StepFnsT.precedes };

    ghost interval = { closed_interval K.total StepFnsT.is_key };

    ghost non_empty = { λ range h f. (h, f) };

    ghost has_key_of = { λ range h. h.0 };

    ghost is_fresh_of = { λ range h. h.1 };

    ghost reads = { record { start = λ r. refl; end = λ r. refl; cmp = λ x y. refl; holds = λ r x. refl } };

    ghost has_places = { closed_has_places K.cmp K.total StepFnsT.is_key };

    ghost canonical_unstepped = { canonical_unstepped StepFnsT.is_key K.cmp };

    ghost non_empty_stepped = { λ range h. h };

    fn known(key: &K) {
        StepFnsT::known(key)
    }

    /// Returns how the first range lies relative to the second. They touch where the first one's end is
    /// less than the second one's start and no key lies strictly between.
    fn touch_test(first: &RangeInclusive<K>, second: &RangeInclusive<K>) -> Touch {
        let end = first.end();
        let start = second.start();
        StepFnsT::known(end);
        StepFnsT::known(start);
        if end.cmp(start).is_ge() {
            Touch::NotBefore
        } else if StepFnsT::add_one(end).cmp(start).is_lt() {
            Touch::Apart
        } else {
            Touch::Touching
        }
    }

    fn is_before(from: Endpoint<'_, RangeInclusive<K>>, to: Endpoint<'_, RangeInclusive<K>>) -> bool
        ensures { result ≡ is_before (closed StepFnsT.is_key K.cmp)
            (closed_end_place StepFnsT.after) (endpoint_of from.entry) (endpoint_of to.entry) }
    {
        known_at::<K, StepFnsT>(from);
        known_at::<K, StepFnsT>(to);
        match (from, to) {
            (Endpoint::Start(from), Endpoint::Start(to)) => from.start().cmp(to.start()).is_lt(),
            (Endpoint::Start(from), Endpoint::End(to)) => from.start().cmp(to.end()).is_le(),
            (Endpoint::End(from), Endpoint::Start(to)) => {
                matches!(Self::touch_test(from, to), Touch::Apart)
            }
            (Endpoint::End(from), Endpoint::End(to)) => from.end().cmp(to.end()).is_lt(),
        }
    }

    fn part(
        from: Endpoint<'_, RangeInclusive<K>>,
        to: Endpoint<'_, RangeInclusive<K>>,
    ) -> Result<RangeInclusive<K>, AllocError>
        requires is_before { is_before (closed StepFnsT.is_key K.cmp)
            (closed_end_place StepFnsT.after) (endpoint_of from) (endpoint_of to) ≡ true }
        requires faithful_keys { KeysCloneFaithfully K.is_clone K.cmp }
        ensures ok { IfOk result (IsSame (closed StepFnsT.is_key K.cmp)
            (closed_part StepFnsT.after StepFnsT.before
            (endpoint_of from.entry) (endpoint_of to.entry))) }
        ensures succeeds { KeysCloneInfallibly K.is_infallible → IsOk result }
    {
        known_at::<K, StepFnsT>(from);
        known_at::<K, StepFnsT>(to);
        let start = match from {
            Endpoint::Start(range) => range.start().clone()?,
            Endpoint::End(range) => StepFnsT::add_one(range.end()),
        };
        let end = match to {
            Endpoint::Start(range) => StepFnsT::sub_one(range.start()),
            Endpoint::End(range) => range.end().clone()?,
        };
        StepFnsT::known(&start);
        StepFnsT::known(&end);
        Ok(RangeInclusive::new(start, end))
    }
}

// Does nothing at run time; its contract tells the check that the ends of the endpoint's range are keys.
fn known_at<K: Ord + Clone, StepFnsT: StepFns<K>>(endpoint: Endpoint<'_, RangeInclusive<K>>)
    ensures { IsAskedAt (closed StepFnsT.is_key K.cmp) (endpoint_of endpoint.entry) }
{
    match endpoint {
        Endpoint::Start(range) | Endpoint::End(range) => {
            StepFnsT::known(range.start());
            StepFnsT::known(range.end());
        }
    }
}
