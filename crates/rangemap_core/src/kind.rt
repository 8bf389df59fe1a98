//! The kinds of range that a map may store.
ghost use Rattle.std.specs.Option.{option_map};
ghost use Rattle.std.specs.Prelude.{◌≡◌, List, false, true, Option as OptionOf, IfOk, IsOk, MatchOption, OnErr};
ghost use Rattle.rangemap_core.specs.Clones.{KeysCloneFaithfully, KeysCloneInfallibly};
ghost use Rattle.rangemap_core.specs.engine.Endpoints.{EndpointOf, IsAsked, IsPlaced, endpoint_of, is_before};
ghost use Rattle.rangemap_core.specs.engine.Intervals.{IsInterval, ReadsAs};
ghost use Rattle.rangemap_core.specs.engine.PartStarts.{part_start};
ghost use Rattle.rangemap_core.specs.MadeRanges.{IsSame};
ghost use Rattle.rangemap_core.specs.operations.PlaceLaws.{HasPlaces};
ghost use Rattle.rangemap_core.specs.Ranges.{RangeKind};
ghost use Rattle.rangemap_core.specs.Sets.{IsCanonicalSet};
ghost use Rattle.rangemap_core.specs.Shown.{shown_range};
ghost use Rattle.rangemap_core.specs.Touch.{IsTouch};

use crate::cursor::Cursor;
use crate::key_range::KeyRange;
use std::alloc::AllocError;

/// An endpoint of a range.
#[derive(Drop)]
pub enum Endpoint<'a, R> {
    /// Where the range starts.
    Start(&'a R),
    /// Where it ends.
    End(&'a R),
}

impl<'a, R> Clone for Endpoint<'a, R> {
    ghost is_clone = { λ endpoint copy. copy ≡ endpoint };

    fn clone(&self) -> Result<Self, AllocError> {
        Ok(*self)
    }
}

impl<'a, R> Copy for Endpoint<'a, R> {}

/// How a range lies relative to another, as `Kind::touch_test` tells it.
#[derive(Clone, Copy, Debug, PartialEq, Eq)]
pub enum Touch {
    /// It lies wholly before the other, and the two don't touch.
    Apart,
    /// It lies wholly before the other, and the two touch: nothing lies between.
    Touching,
    /// It doesn't lie wholly before the other.
    NotBefore,
}

/// A kind of range that may be stored: what the steps of keys decide.
pub trait Kind<R: KeyRange> {
    /// The type whose steps the keys take. It is the key type if the ranges have no steps. `new`,
    /// `from`, `from_iter`, `extend`, `into_iter`, `to_value`, `from_value`, `{:?}`, and of sets `|`,
    /// `&`, `-` and `^` exist only if it is the key type.
    type Steps;

    /// What contracts know of the ranges.
    ghost kind: { RangeKind R.Key R };

    /// The place up to which a range goes: before a key, or after every key.
    ghost end_place: { R → OptionOf R.Key };

    /// The range from one endpoint up to another.
    ghost part_of: { EndpointOf R → EndpointOf R → R };

    /// Does nothing at run time; its contract tells the check that a value at hand is a key.
    fn known(key: &R::Key)
        ensures { kind.is_key key.now };

    /// Returns how the first range lies relative to the second: whether it lies wholly before it, and
    /// then whether they touch.
    fn touch_test(first: &R, second: &R) -> Touch
        ensures { IsTouch kind first.now second.now result };

    /// Returns whether the part from the first endpoint up to the second has a key.
    fn is_before(from: Endpoint<'_, R>, to: Endpoint<'_, R>) -> bool
        ensures { result ≡ is_before kind end_place (endpoint_of from.entry) (endpoint_of to.entry) };

    /// Returns that part, which has a key. Each end is a clone of a key. An end of a closed range beside
    /// a neighbour is a step from the neighbour's end.
    ///
    /// # Requires
    ///
    /// The part has a key, and a clone of a key compares equal to its original.
    ///
    /// # Errors
    ///
    /// A clone was refused. Clones of numbers, characters and references never are.
    fn part(from: Endpoint<'_, R>, to: Endpoint<'_, R>) -> Result<R, AllocError>
        requires is_before { is_before kind end_place (endpoint_of from) (endpoint_of to) ≡ true }
        requires faithful_keys { KeysCloneFaithfully R.Key.is_clone R.Key.cmp }
        ensures ok { IfOk result (IsSame kind (part_of (endpoint_of from.entry) (endpoint_of to.entry))) }
        ensures succeeds { KeysCloneInfallibly R.Key.is_infallible → IsOk result };

    /// Ranges lie between places in a total order. The places of its endpoints decide what a range holds
    /// and what it meets, also if it is empty or reversed.
    ghost placed: { IsPlaced kind end_place part_of };

    /// What a range holds, and what it meets, follows from its ends.
    ghost interval: { IsInterval kind R.has_end };

    /// A range that has a key and is fresh is not empty.
    ghost non_empty: { (range : R) → R.has_key range → R.is_fresh range → kind.IsNonEmpty range };

    /// A range that is not empty has a key.
    ghost has_key_of: { (range : R) → kind.IsNonEmpty range → R.has_key range };

    /// A range that is not empty is fresh.
    ghost is_fresh_of: { (range : R) → kind.IsNonEmpty range → R.is_fresh range };

    /// The order of keys, and the start, the end and the keys of a range, are those of `KeyRange::read`.
    ghost reads: { ReadsAs kind R.read };

    /// What a range holds follows from its places too, as `KeyRange::has_places` says.
    ghost has_places: { HasPlaces kind R.places (λ x. (x, false)) (λ x. (x, R.has_end)) };

    /// A canonical list is canonical where every value counts as a key, too.
    ghost canonical_unstepped: { (ranges : List R) → IsCanonicalSet kind ranges
        → IsCanonicalSet R.read ranges };

    /// A range that is not empty where every value counts as a key is not empty.
    ghost non_empty_stepped: { (range : R) → R.read.IsNonEmpty range → kind.IsNonEmpty range };
}

/// Does nothing at run time; its contract tells the check that the ends of a range at hand are keys.
pub fn known_ends<Q: Kind<R>, R: KeyRange>(range: &R)
    ensures { IsAsked Q.kind range.now }
{
    Q::known(range.start());
    Q::known(range.end());
}

/// Returns the part from one endpoint up to another, if it has a key, as `Kind::part` makes it.
///
/// # Requires
///
/// A clone of a key compares equal to its original.
///
/// # Errors
///
/// A clone was refused. Clones of numbers, characters and references never are.
pub fn part_between<Q: Kind<R>, R: KeyRange>(
    from: Endpoint<'_, R>,
    to: Endpoint<'_, R>,
) -> Result<Option<R>, AllocError>
    requires { KeysCloneFaithfully R.Key.is_clone R.Key.cmp }
    ensures ok { IfOk result (λ part. MatchOption part
        (is_before Q.kind Q.end_place (endpoint_of from.entry) (endpoint_of to.entry) ≡ false)
        (λ r. (is_before Q.kind Q.end_place (endpoint_of from.entry) (endpoint_of to.entry) ≡ true)
        × IsSame Q.kind (Q.part_of (endpoint_of from.entry) (endpoint_of to.entry)) r)) }
    ensures err { OnErr result
        (is_before Q.kind Q.end_place (endpoint_of from.entry) (endpoint_of to.entry) ≡ true) }
    ensures succeeds { KeysCloneInfallibly R.Key.is_infallible → IsOk result }
{
    if Q::is_before(from, to) {
        Ok(Some(Q::part(from, to)?))
    } else {
        Ok(None)
    }
}

/// Returns where the next part of a range may start that stored ranges leave free: behind the pair that was
/// passed last, or with the outer range where none was.
pub fn start_of<'b, C: Cursor>(
    passed: &'b Option<(C::Given, C::GivenValue)>,
    outer_range: &'b C::Range,
) -> Endpoint<'b, C::Range>
where
    C::Value: 'b,
    C::Range: 'b,
    ensures { endpoint_of result ≡ part_start (option_map (shown_range C.given) passed.now) outer_range.now }
{
    match passed {
        Some(pair) => Endpoint::End(C::parts(pair).0),
        None => Endpoint::Start(outer_range),
    }
}
