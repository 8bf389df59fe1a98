//! What the workloads ask of sets beside what they ask of every map.

use crate::keys::Keys;
use crate::readers::{ReadsGaps, tell_gaps};
use crate::store::Store;
use rangemap::set::Set;
use rangemap_chunked::Chunks;
use rangemap_core::kind::Kind;
use rangemap_sorted::SortedVec;
use std::alloc::{AllocError, Global};

/// A set of `u64` keys.
pub trait SetStore: Store {
    /// Tells a reader of the ranges of both sets, which come as gaps do: each may be refused.
    fn read_union<U: ReadsGaps<Self::Range>>(
        &self,
        other: &Self,
        reader: &mut U,
    ) -> Result<(), AllocError>;

    /// Tells a reader of the parts that both sets have, in the same way.
    fn read_intersection<U: ReadsGaps<Self::Range>>(
        &self,
        other: &Self,
        reader: &mut U,
    ) -> Result<(), AllocError>;

    /// Tells a reader of the parts that `other` leaves free, in the same way.
    fn read_difference<U: ReadsGaps<Self::Range>>(
        &self,
        other: &Self,
        reader: &mut U,
    ) -> Result<(), AllocError>;

    /// `self | other`.
    fn joined_with(&self, other: &Self) -> Result<Self, AllocError>;

    /// `self & other`.
    fn common_with(&self, other: &Self) -> Result<Self, AllocError>;

    /// `self - other`.
    fn without(&self, other: &Self) -> Result<Self, AllocError>;

    /// `is_subset`.
    fn is_within(&self, other: &Self) -> bool;
}

impl<Q: Kind<R, Steps = R::Key>, R: Keys> SetStore for Set<SortedVec<Q, R, (), Global>> {
    fn read_union<U: ReadsGaps<R>>(&self, other: &Self, reader: &mut U) -> Result<(), AllocError> {
        tell_gaps(self.union(other), reader)
    }

    fn read_intersection<U: ReadsGaps<R>>(
        &self,
        other: &Self,
        reader: &mut U,
    ) -> Result<(), AllocError> {
        tell_gaps(self.intersection(other), reader)
    }

    fn read_difference<U: ReadsGaps<R>>(
        &self,
        other: &Self,
        reader: &mut U,
    ) -> Result<(), AllocError> {
        tell_gaps(self.difference(other), reader)
    }

    fn joined_with(&self, other: &Self) -> Result<Self, AllocError> {
        self | other
    }

    fn common_with(&self, other: &Self) -> Result<Self, AllocError> {
        self & other
    }

    fn without(&self, other: &Self) -> Result<Self, AllocError> {
        self - other
    }

    fn is_within(&self, other: &Self) -> bool {
        self.is_subset(other)
    }
}

impl<Q: Kind<R, Steps = R::Key>, R: Keys, const N: usize> SetStore
    for Set<Chunks<Q, R, (), Global, N>> {
    fn read_union<U: ReadsGaps<R>>(&self, other: &Self, reader: &mut U) -> Result<(), AllocError> {
        tell_gaps(self.union(other), reader)
    }

    fn read_intersection<U: ReadsGaps<R>>(
        &self,
        other: &Self,
        reader: &mut U,
    ) -> Result<(), AllocError> {
        tell_gaps(self.intersection(other), reader)
    }

    fn read_difference<U: ReadsGaps<R>>(
        &self,
        other: &Self,
        reader: &mut U,
    ) -> Result<(), AllocError> {
        tell_gaps(self.difference(other), reader)
    }

    fn joined_with(&self, other: &Self) -> Result<Self, AllocError> {
        self | other
    }

    fn common_with(&self, other: &Self) -> Result<Self, AllocError> {
        self & other
    }

    fn without(&self, other: &Self) -> Result<Self, AllocError> {
        self - other
    }

    fn is_within(&self, other: &Self) -> bool {
        self.is_subset(other)
    }
}
