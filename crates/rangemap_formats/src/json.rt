//! The JSON form of a store: a list of `[[start, end], value]` of a map and of `[start, end]` of a
//! set, in order.
//!
//! Keys and values are written and read by functions that the caller hands in. `write` goes over the
//! pairs of a store, and `read` makes one; both leave to a writer or a reader how an entry is laid out
//! and what is called for its parts. A set is here a store whose values are `()`.
ghost use Rattle.std.specs.Prelude.{◌≡◌};
ghost use Rattle.rangemap_formats.specs.declared.json.ReadError.TheVariants as read_error;
ghost use Rattle.rangemap_formats.specs.declared.json.WriteError.TheVariants as write_error;

use std::alloc::{AllocError, AllocFailed};

mod messages;
mod reading;
mod shapes;
mod writing;

pub use reading::read;
pub use shapes::{MapReader, MapWriter, SetReader, SetWriter};
pub use writing::write;

/// Which end of a range a key is.
#[derive(Clone, Copy, Debug, PartialEq, Eq)]
pub enum Part {
    /// The start.
    Start,
    /// The end.
    End,
}

/// Which lists of entries are read.
#[derive(Clone, Copy, Debug, PartialEq, Eq)]
pub enum Form {
    /// Any list, whose entries are inserted in order: they may overlap and stand in any order.
    Any,
    /// A canonical list alone, which is what `to_value` writes.
    Canonical,
}

/// Why a value was not read. `at` counts entries from 0, and the first fault is the answer.
#[derive(Debug, PartialEq, Eq, Drop)]
pub enum ReadError<E> {
    /// The value is not a list.
    NotAList,
    /// The entry is not laid out as those of the container are: `[[start, end], value]` of a map, and
    /// `[start, end]` of a set.
    BadEntry {
        /// Its place.
        at: usize,
    },
    /// The caller's function refused the start or the end.
    BadKey {
        /// The place of the entry.
        at: usize,
        /// Which of the two.
        part: Part,
        /// What the function answered.
        fault: E,
    },
    /// The caller's function refused the value.
    BadValue {
        /// The place of the entry.
        at: usize,
        /// What the function answered.
        fault: E,
    },
    /// The range is empty.
    EmptyRange {
        /// The place of the entry.
        at: usize,
    },
    /// A growth or a clone was refused.
    OutOfMemory,
    /// With `Form::Canonical`: the range does not lie wholly after the one before.
    OutOfOrder {
        /// The place of the entry.
        at: usize,
    },
    /// With `Form::Canonical`: the range touches the one before, and has an equal value.
    Uncoalesced {
        /// The place of the entry.
        at: usize,
    },
}

impl<E> From<AllocError> for ReadError<E> {
    ghost from_gives = { λ _ error. error ≡ read_error.OutOfMemory };

    fn from(_: AllocError) -> ReadError<E> {
        ReadError::OutOfMemory
    }
}

/// Why a container was not written. The first fault is the answer.
#[derive(Debug, PartialEq, Eq, Drop)]
pub enum WriteError<E> {
    /// The caller's function refused a part.
    Caller(E),
    /// The memory for the value was refused.
    OutOfMemory,
}

impl<E> From<AllocError> for WriteError<E> {
    ghost from_gives = { λ _ error. error ≡ write_error.OutOfMemory };

    fn from(_: AllocError) -> WriteError<E> {
        WriteError::OutOfMemory
    }
}

impl<E, T: Drop> From<AllocFailed<T>> for WriteError<E> {
    ghost from_gives = { λ _ error. error ≡ write_error.OutOfMemory };

    fn from(_: AllocFailed<T>) -> WriteError<E> {
        WriteError::OutOfMemory
    }
}
