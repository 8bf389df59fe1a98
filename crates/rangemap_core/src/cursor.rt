//! Iteration over the pairs of a store, lent or handed over.
ghost use Rattle.std.specs.Prelude.{◌≡◌, ◌∷◌, [], List, MatchOption};
ghost use Rattle.std.specs.Map.Iter.{TakesFirst, TakesLast};
ghost use Rattle.rangemap_core.specs.Shown.{shown};

use crate::key_range::KeyRange;

/// Takes the pairs of a store one after another, from both ends.
///
/// The public iterators wrap one, so that no store writes an impl of std's `Iterator`. The trait has no
/// lifetime, so a struct can hold a cursor of any lifetime.
pub trait Cursor: Drop {
    /// A stored range.
    type Range;

    /// What a range is mapped to.
    type Value;

    /// What a caller gets of a range: the range itself, or a reference to it.
    type Given;

    /// What a caller gets of its value.
    type GivenValue;

    /// The pairs that are still to come.
    ghost left: { Self → List (Self.Range × Self.Value) };

    /// The range itself, or the one that the reference points to.
    ghost given: { Self.Given → Self.Range };

    /// The value itself, or the one that the reference points to.
    ghost given_value: { Self.GivenValue → Self.Value };

    /// Takes the first pair that is still to come.
    fn take_first(&mut self) -> Option<(Self::Given, Self::GivenValue)>
        ensures { TakesFirst (shown given given_value) (left self.old) result (left self.new) };

    /// Takes the last one.
    fn take_last(&mut self) -> Option<(Self::Given, Self::GivenValue)>
        ensures { TakesLast (shown given given_value) (left self.old) result (left self.new) };

    /// Returns the range and the value of a pair that was taken.
    fn parts<'a>(pair: &'a (Self::Given, Self::GivenValue)) -> (&'a Self::Range, &'a Self::Value)
        ensures range { result.0.now ≡ given pair.now.0 }
        ensures value { result.1.now ≡ given_value pair.now.1 };
}

/// A cursor that shows the next pair without taking it. Unions, intersections and differences need that.
pub trait Peek: Cursor<Range: KeyRange, Given: Drop, GivenValue: Drop> {
    /// Returns the first pair that is still to come.
    fn peek(&mut self) -> Option<(Self::Given, Self::GivenValue)>
        ensures same { Self.left self.new ≡ Self.left self.old }
        ensures first { MatchOption result (Self.left self.old ≡ [])
            (λ pair. (rest : List (Self.Range × Self.Value))
            × (Self.left self.old ≡ shown Self.given Self.given_value pair ∷ rest)) };
}

/// A cursor over pairs that are lent for `'a`. It gives references to the ranges.
pub trait LentCursor<'a, R: 'a>: Cursor<Range = R, Given = &'a R> {
    /// The reference leads to the range.
    ghost lent: { (range : _) → Self.given range ≡ range.now };
}
