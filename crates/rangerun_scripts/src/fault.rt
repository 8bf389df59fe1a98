//! Why a script did not run as it says.

use std::alloc::{AllocError, AllocFailed, Global};
use std::num::ParseIntError;

/// Why a script did not run as it says.
#[derive(Drop)]
pub enum Fault {
    /// This was found, where that was wanted.
    Differs { found: String, wanted: String },
    /// A part of the line can't be read.
    Misread,
    /// Memory ran out.
    OutOfMemory,
}

impl From<AllocError> for Fault {
    fn from(_error: AllocError) -> Fault {
        Fault::OutOfMemory
    }
}

impl<T: Drop> From<AllocFailed<T>> for Fault {
    fn from(_error: AllocFailed<T>) -> Fault {
        Fault::OutOfMemory
    }
}

impl From<ParseIntError> for Fault {
    fn from(_error: ParseIntError) -> Fault {
        Fault::Misread
    }
}

/// Sees that what was found is what was wanted.
pub fn check_same(alloc: Global, found: &str, wanted: &str) -> Result<(), Fault> {
    if found == wanted {
        return Ok(());
    }
    Err(Fault::Differs {
        found: String::from_str(alloc, found)?,
        wanted: String::from_str(alloc, wanted)?,
    })
}
