//! The maps and sets that the workloads run over, each of which tells what its iterators give.

use crate::keys::Keys;
use crate::readers::{ReadsGaps, ReadsPairs};
use crate::tell::{
    tell_all_pairs, tell_all_ranges, tell_gaps_of_map, tell_gaps_of_set, tell_overlapping_pairs,
    tell_overlapping_ranges,
};
use crate::value::Stored;
use rangemap::container::Container;
use rangemap::map::Map;
use rangemap::set::Set;
use rangemap::{RangeInclusiveMap, RangeInclusiveSet, RangeMap, RangeSet, chunked, tree_map};
use rangemap_chunked::Chunks;
use rangemap_core::kind::Kind;
use rangemap_sorted::SortedVec;
use std::alloc::{AllocError, Global};
use std::ops::Range;

/// A map from ranges of `u64` keys to values, which tells what it holds by its own iterators. A set is
/// one to nothing.
///
/// Beside `Drop` it builds on one trait alone: over two that share a third, each function here takes
/// many times as long to prove. And each container has an impl of its own: one for all that have what
/// is asked would make every use of a container twice as long to prove.
pub trait Store: Container<Range: Keys, Value: Stored, Alloc = Global> + Drop {
    /// Tells a reader of all pairs, in order.
    fn read_all<U: ReadsPairs<Self::Range, Self::Value>>(
        &self,
        reader: &mut U,
    ) -> Result<(), AllocError>;

    /// Tells a reader of the pairs that overlap `range`, in order.
    fn read_overlapping<U: ReadsPairs<Self::Range, Self::Value>>(
        &self,
        range: &Self::Range,
        reader: &mut U,
    ) -> Result<(), AllocError>;

    /// Tells a reader of the gaps in `outer_range`, in order. `Err` may say that a gap was refused.
    fn read_gaps<U: ReadsGaps<Self::Range>>(
        &self,
        outer_range: &Self::Range,
        reader: &mut U,
    ) -> Result<(), AllocError>;
}

impl<Q: Kind<R>, R: Keys, V: Stored> Store for Map<SortedVec<Q, R, V, Global>> {
    fn read_all<U: ReadsPairs<R, V>>(&self, reader: &mut U) -> Result<(), AllocError> {
        tell_all_pairs(self, reader)
    }

    fn read_overlapping<U: ReadsPairs<R, V>>(
        &self,
        range: &R,
        reader: &mut U,
    ) -> Result<(), AllocError> {
        tell_overlapping_pairs(self, range, reader)
    }

    fn read_gaps<U: ReadsGaps<R>>(
        &self,
        outer_range: &R,
        reader: &mut U,
    ) -> Result<(), AllocError> {
        tell_gaps_of_map(self, outer_range, reader)
    }
}

impl<V: Stored> Store for tree_map::RangeMap<u64, V, Global> {
    fn read_all<U: ReadsPairs<Range<u64>, V>>(&self, reader: &mut U) -> Result<(), AllocError> {
        tell_all_pairs(self, reader)
    }

    fn read_overlapping<U: ReadsPairs<Range<u64>, V>>(
        &self,
        range: &Range<u64>,
        reader: &mut U,
    ) -> Result<(), AllocError> {
        tell_overlapping_pairs(self, range, reader)
    }

    fn read_gaps<U: ReadsGaps<Range<u64>>>(
        &self,
        outer_range: &Range<u64>,
        reader: &mut U,
    ) -> Result<(), AllocError> {
        tell_gaps_of_map(self, outer_range, reader)
    }
}

impl<Q: Kind<R>, R: Keys, V: Stored, const N: usize> Store for Map<Chunks<Q, R, V, Global, N>> {
    fn read_all<U: ReadsPairs<R, V>>(&self, reader: &mut U) -> Result<(), AllocError> {
        tell_all_pairs(self, reader)
    }

    fn read_overlapping<U: ReadsPairs<R, V>>(
        &self,
        range: &R,
        reader: &mut U,
    ) -> Result<(), AllocError> {
        tell_overlapping_pairs(self, range, reader)
    }

    fn read_gaps<U: ReadsGaps<R>>(
        &self,
        outer_range: &R,
        reader: &mut U,
    ) -> Result<(), AllocError> {
        tell_gaps_of_map(self, outer_range, reader)
    }
}

impl<Q: Kind<R>, R: Keys> Store for Set<SortedVec<Q, R, (), Global>> {
    fn read_all<U: ReadsPairs<R, ()>>(&self, reader: &mut U) -> Result<(), AllocError> {
        tell_all_ranges(self, reader)
    }

    fn read_overlapping<U: ReadsPairs<R, ()>>(
        &self,
        range: &R,
        reader: &mut U,
    ) -> Result<(), AllocError> {
        tell_overlapping_ranges(self, range, reader)
    }

    fn read_gaps<U: ReadsGaps<R>>(
        &self,
        outer_range: &R,
        reader: &mut U,
    ) -> Result<(), AllocError> {
        tell_gaps_of_set(self, outer_range, reader)
    }
}

impl<Q: Kind<R>, R: Keys, const N: usize> Store for Set<Chunks<Q, R, (), Global, N>> {
    fn read_all<U: ReadsPairs<R, ()>>(&self, reader: &mut U) -> Result<(), AllocError> {
        tell_all_ranges(self, reader)
    }

    fn read_overlapping<U: ReadsPairs<R, ()>>(
        &self,
        range: &R,
        reader: &mut U,
    ) -> Result<(), AllocError> {
        tell_overlapping_ranges(self, range, reader)
    }

    fn read_gaps<U: ReadsGaps<R>>(
        &self,
        outer_range: &R,
        reader: &mut U,
    ) -> Result<(), AllocError> {
        tell_gaps_of_set(self, outer_range, reader)
    }
}

/// The map over half-open ranges.
pub type HalfOpenStore = RangeMap<u64, u32>;

/// The map over closed ranges.
pub type ClosedStore = RangeInclusiveMap<u64, u32>;

/// The map over half-open ranges that keeps them in a tree.
pub type TreeStore = tree_map::RangeMap<u64, u32>;

/// The map over half-open ranges to texts.
pub type TextStore = RangeMap<u64, String>;

/// The set over half-open ranges.
pub type HalfOpenSet = RangeSet<u64>;

/// The set over closed ranges.
pub type ClosedSet = RangeInclusiveSet<u64>;

/// The map over half-open ranges that keeps them in chunks.
pub type ChunkedStore = chunked::RangeMap<u64, u32>;

/// The map over closed ranges that keeps them in chunks.
pub type ClosedChunkedStore = chunked::RangeInclusiveMap<u64, u32>;

/// The set over half-open ranges that keeps them in chunks.
pub type ChunkedSet = chunked::RangeSet<u64>;

/// The set over closed ranges that keeps them in chunks.
pub type ClosedChunkedSet = chunked::RangeInclusiveSet<u64>;
