//! Readers that are told what a container holds, item by item and without a clone.
//!
//! The bench times a container's own iterators so. A reader may be told anything: no contract says
//! what.
ghost use Rattle.std.specs.Iterator.{IsFinite};

use std::alloc::AllocError;
use std::iter::Iterator;
use std::ops::Deref;

/// Is told of pairs of a range and a value, one after another.
pub trait ReadsPairs<R, V> {
    /// Takes note of a pair. `Err` says that it could not, and is told of no more.
    fn pair(&mut self, range: &R, value: &V) -> Result<(), AllocError>;
}

/// Is told of gaps, one after another.
pub trait ReadsGaps<R> {
    /// Takes note of a gap. `Err` says that it could not, and is told of no more.
    fn gap(&mut self, gap: R) -> Result<(), AllocError>;
}

/// Tells a reader of the pairs of an iterator.
#[inline(always)]
pub fn tell_pairs<
    L: Deref + Drop,
    W: Deref + Drop,
    I: Iterator<Item = (L, W)> + Drop,
    U: ReadsPairs<L::Target, W::Target>,
>(pairs: I, reader: &mut U) -> Result<(), AllocError>
    requires can { I.can_next pairs }
    requires ends { IsFinite (I.remaining pairs) }
{
    for (range, value) in pairs {
        reader.pair(&*range, &*value)?;
    }
    Ok(())
}

/// Tells a reader of the ranges of an iterator, each with the value that says nothing.
#[inline(always)]
pub fn tell_ranges<L: Deref + Drop, I: Iterator<Item = L> + Drop, U: ReadsPairs<L::Target, ()>>(
    ranges: I,
    reader: &mut U,
) -> Result<(), AllocError>
    requires can { I.can_next ranges }
    requires ends { IsFinite (I.remaining ranges) }
{
    for range in ranges {
        reader.pair(&*range, &())?;
    }
    Ok(())
}

/// Tells a reader of the gaps of an iterator. `Err` says that the reader could not take note, or
/// that a gap was refused.
#[inline(always)]
pub fn tell_gaps<R, I: Iterator<Item = Result<R, AllocError>> + Drop, U: ReadsGaps<R>>(
    gaps: I,
    reader: &mut U,
) -> Result<(), AllocError>
    requires can { I.can_next gaps }
    requires ends { IsFinite (I.remaining gaps) }
{
    for gap in gaps {
        reader.gap(gap?)?;
    }
    Ok(())
}
