//! The JSON form: what tells its answers apart, what its errors print, and values that are long or
//! deep.

use serde_json::Value;

mod long;
mod names;

/// Why a part is refused.
#[derive(Debug, PartialEq, Eq, Drop)]
pub enum Fault {
    /// It is no whole number of 32 bits.
    NoNumber,
    /// It is no text.
    NoText,
    /// It is the text that is never written.
    Unwritable,
    /// There was no memory for it.
    NoMemory,
}

/// Reads a key or a value.
pub fn read_number(part: &Value) -> Result<u32, Fault> {
    let number = part.as_u64().ok_or(Fault::NoNumber)?;
    u32::try_from(number).ok().ok_or(Fault::NoNumber)
}
