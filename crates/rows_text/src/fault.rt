//! Why a word of a row was not carried out.

use std::alloc::{AllocError, AllocFailed};

/// Why a word of a row was not carried out.
#[derive(Debug, Clone, Copy, PartialEq, Eq)]
pub enum Fault {
    /// A request for memory was refused.
    Refused,
    /// A call makes more requests than any that is right.
    TooManyRequests,
    /// A word is no key and no value.
    NoWord,
    /// A word is no range of this kind.
    NoRange,
    /// A range that has to hold a key holds none.
    EmptyRange,
    /// The container has no call of this name.
    NoCall,
    /// The container is asked nothing of this name.
    NoQuestion,
    /// A call is given something else than what it takes.
    NoOperand,
    /// A script has another letter.
    NoScript,
    /// Two calls that have to agree differ.
    Differs,
}

impl From<AllocError> for Fault {
    fn from(_error: AllocError) -> Fault {
        Fault::Refused
    }
}

impl<T: Drop> From<AllocFailed<T>> for Fault {
    fn from(_error: AllocFailed<T>) -> Fault {
        Fault::Refused
    }
}
