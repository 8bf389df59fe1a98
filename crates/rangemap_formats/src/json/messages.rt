//! What the errors of reading and of writing print.

use super::{Part, ReadError, WriteError};
use std::error::Error;
use std::fmt::{self, Debug, Display};

impl<E: Display> Display for ReadError<E> {
    ghost use Rattle.rangemap_formats.specs.Faults.{read_error_text};

    ghost output = { read_error_text E.output };

    fn fmt<W: fmt::Write>(&self, f: &mut fmt::Formatter<W>) -> fmt::Result {
        match self {
            ReadError::NotAList => write!(f, "the value is not a list"),
            ReadError::BadEntry { at } => write!(f, "entry {at} has the wrong layout"),
            ReadError::BadKey {
                at,
                part: Part::Start,
                fault,
            } => write!(f, "the start of entry {at}: {fault}"),
            ReadError::BadKey {
                at,
                part: Part::End,
                fault,
            } => write!(f, "the end of entry {at}: {fault}"),
            ReadError::BadValue { at, fault } => write!(f, "the value of entry {at}: {fault}"),
            ReadError::EmptyRange { at } => write!(f, "the range of entry {at} is empty"),
            ReadError::OutOfMemory => write!(f, "out of memory"),
            ReadError::OutOfOrder { at } => {
                write!(f, "entry {at} does not lie behind the one before")
            }
            ReadError::Uncoalesced { at } => {
                write!(
                    f,
                    "entry {at} touches the one before and has an equal value"
                )
            }
        }
    }
}

impl<E: Debug + Display + Drop> Error for ReadError<E> {}

impl<E: Display> Display for WriteError<E> {
    ghost use Rattle.rangemap_formats.specs.Faults.{write_error_text};

    ghost output = { write_error_text E.output };

    fn fmt<W: fmt::Write>(&self, f: &mut fmt::Formatter<W>) -> fmt::Result {
        match self {
            WriteError::Caller(fault) => write!(f, "{fault}"),
            WriteError::OutOfMemory => write!(f, "out of memory"),
        }
    }
}

impl<E: Debug + Display + Drop> Error for WriteError<E> {}
