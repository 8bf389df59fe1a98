//! Iterators that make their items out of clones, and are asked for the same item again.

use rangemap_core::cursor::{LentCursor, Peek};
use rangemap_core::gaps::Gaps;
use rangemap_core::key_range::KeyRange;
use rangemap_core::kind::Kind;
use rangemap_unions::{Difference, Intersection, SymmetricDifference, Union};
use std::alloc::AllocError;
use std::iter::Iterator;

/// An iterator whose items are made of clones, which may be refused: gaps, unions, intersections,
/// differences.
pub trait Tries: Iterator + Drop {
    /// What is made.
    type Range: Drop;

    /// The iterator's own call, after whose refusal the same item comes.
    fn try_next(&mut self) -> Result<Option<Self::Range>, AllocError>
        requires { Self.can_next self.old }
        ensures { Self.can_next self.new };
}

impl<'a, Q: Kind<R>, R: KeyRange + 'a, C: LentCursor<'a, R, GivenValue: Drop>> Tries
    for Gaps<'a, Q, R, C> {
    type Range = R;

    fn try_next(&mut self) -> Result<Option<R>, AllocError> {
        self.try_next()
    }
}

impl<C: Peek> Tries for Union<C> {
    type Range = C::Range;

    fn try_next(&mut self) -> Result<Option<C::Range>, AllocError> {
        self.try_next()
    }
}

impl<C: Peek> Tries for Intersection<C> {
    type Range = C::Range;

    fn try_next(&mut self) -> Result<Option<C::Range>, AllocError> {
        self.try_next()
    }
}

impl<Q: Kind<R>, R: KeyRange, C: Peek<Range = R>> Tries for Difference<Q, R, C> {
    type Range = R;

    fn try_next(&mut self) -> Result<Option<R>, AllocError> {
        self.try_next()
    }
}

impl<Q: Kind<R>, R: KeyRange, C: Peek<Range = R>> Tries for SymmetricDifference<Q, R, C> {
    type Range = R;

    fn try_next(&mut self) -> Result<Option<R>, AllocError> {
        self.try_next()
    }
}
