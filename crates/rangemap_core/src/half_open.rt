//! Half-open ranges as a kind.
ghost use Rattle.std.specs.Prelude.{◌≡◌};
ghost use Rattle.rangemap_core.specs.engine.Endpoints.{endpoint_of};
ghost use Rattle.rangemap_core.specs.engine.EndpointKinds.{half_open_key};

use crate::kind::{Endpoint, Kind, Touch};
use std::alloc::AllocError;
use std::cmp::Ordering;
use std::ops::Range;

/// The ranges `a..b`.
pub struct HalfOpen;

impl<K: Ord + Clone> Kind<Range<K>> for HalfOpen {
    ghost use Rattle.rangemap_core.specs.Ranges.{half_open};
    ghost use Rattle.rangemap_core.specs.Clones.{KeysCloneFaithfully, KeysCloneInfallibly};
    ghost use Rattle.rangemap_core.specs.engine.Endpoints.{endpoint_of, is_before};
    ghost use Rattle.rangemap_core.specs.engine.EndpointKinds.{half_open_part, half_open_placed};
    ghost use Rattle.rangemap_core.specs.MadeRanges.{IsSame};
    ghost use Rattle.rangemap_core.specs.engine.PlacedKinds.{half_open_end_place};
    ghost use Rattle.rangemap_core.specs.engine.IntervalKinds.{half_open_interval};
    ghost use Rattle.rangemap_core.specs.operations.PlaceKinds.{half_open_has_places};
    ghost use Rattle.std.specs.Prelude.{◌≡◌, true, IfOk, IsOk, refl};

    type Steps = K;

    ghost kind = { half_open K.cmp };

    ghost end_place = { half_open_end_place };

    ghost part_of = { half_open_part };

    ghost placed = { half_open_placed K.total };

    ghost interval = { half_open_interval K.total };

    ghost non_empty = { λ range h _. h };

    ghost has_key_of = { λ range h. h };

    ghost is_fresh_of = { λ range h. tt };

    ghost reads = { record { start = λ r. refl; end = λ r. refl; cmp = λ x y. refl; holds = λ r x. refl } };

    ghost has_places = { half_open_has_places K.cmp K.total };

    ghost canonical_unstepped = { λ ranges h. h };

    ghost non_empty_stepped = { λ range h. h };

    fn known(key: &K) {}

    /// Returns how the first range lies relative to the second. They touch where the first one's end
    /// equals the second one's start.
    fn touch_test(first: &Range<K>, second: &Range<K>) -> Touch {
        match first.end.cmp(&second.start) {
            Ordering::Less => Touch::Apart,
            Ordering::Equal => Touch::Touching,
            Ordering::Greater => Touch::NotBefore,
        }
    }

    fn is_before(from: Endpoint<'_, Range<K>>, to: Endpoint<'_, Range<K>>) -> bool
        ensures { result ≡ is_before (half_open K.cmp) half_open_end_place
            (endpoint_of from.entry) (endpoint_of to.entry) }
    {
        key_at(from).cmp(key_at(to)).is_lt()
    }

    fn part(
        from: Endpoint<'_, Range<K>>,
        to: Endpoint<'_, Range<K>>,
    ) -> Result<Range<K>, AllocError>
        requires is_before { is_before (half_open K.cmp) half_open_end_place
            (endpoint_of from) (endpoint_of to) ≡ true }
        requires faithful_keys { KeysCloneFaithfully K.is_clone K.cmp }
        ensures ok { IfOk result (IsSame (half_open K.cmp)
            (half_open_part (endpoint_of from.entry) (endpoint_of to.entry))) }
        ensures succeeds { KeysCloneInfallibly K.is_infallible → IsOk result }
    {
        Ok(key_at(from).clone()?..key_at(to).clone()?)
    }
}

// The key at which the endpoint lies.
fn key_at<'a, K>(endpoint: Endpoint<'a, Range<K>>) -> &'a K
    ensures { result.now ≡ half_open_key (endpoint_of endpoint.entry) }
{
    match endpoint {
        Endpoint::Start(range) => &range.start,
        Endpoint::End(range) => &range.end,
    }
}
