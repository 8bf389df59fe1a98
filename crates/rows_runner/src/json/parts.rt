//! The parts of an entry, keys and values, as rows write and read them.
ghost use Rattle.std.specs.Prelude.{◌≡◌, ◌<◌, ◌^◌, ℕ, IfOk, Ok as OkWord};
ghost use Rattle.serde_json.specs.Data.{number, unsigned};
ghost use Rattle.serde_json.specs.View.{view};

use rows_text::{Costly, Heap, Memory, Noted, Word};
use serde_json::Value;
use std::alloc::{AllocError, Global};

/// Why a part is refused.
#[derive(Debug, Drop)]
pub enum PartFault {
    /// It is no whole number of its size.
    NoNumber,
    /// It is no text.
    NoText,
    /// It is the text that is never written.
    Unwritable,
    /// It is the key that is never written.
    UnwritableKey,
    /// It is the other key that is never written.
    OtherUnwritableKey,
    /// There was no memory for it.
    NoMemory,
}

impl From<AllocError> for PartFault {
    fn from(_error: AllocError) -> PartFault {
        PartFault::NoMemory
    }
}

/// A key or a value that is written as JSON and read again.
pub trait JsonWord<A: Copy>: Word<A> {
    /// Writes it, unless it is one that is never written.
    fn write_json(&self, alloc: Global) -> Result<Value, PartFault>;

    /// Reads one, in memory of `alloc`.
    fn read_json(alloc: A, part: &Value) -> Result<Self, PartFault>;
}

/// Writes a number.
pub fn write_number(key: &u32) -> Result<Value, PartFault>
    ensures in_range { key.now < 2 ^ 32 }
    ensures value { IfOk result (λ part. view part ≡ number (unsigned key.now)) }
{
    Ok(Value::from(*key))
}

/// Reads a number.
pub fn read_number(part: &Value) -> Result<u32, PartFault>
    ensures { (key : ℕ) → key < 2 ^ 32 → view part.now ≡ number (unsigned key) → result ≡ OkWord key }
{
    let Some(number) = part.as_u64() else {
        return Err(PartFault::NoNumber);
    };
    match u32::try_from(number) {
        Ok(key) => Ok(key),
        Err(_) => Err(PartFault::NoNumber),
    }
}

/// 13 and 15 are never written.
impl<A: Copy> JsonWord<A> for u32 {
    fn write_json(&self, _alloc: Global) -> Result<Value, PartFault> {
        match *self {
            13 => Err(PartFault::UnwritableKey),
            15 => Err(PartFault::OtherUnwritableKey),
            _ => write_number(self),
        }
    }

    fn read_json(_alloc: A, part: &Value) -> Result<u32, PartFault> {
        read_number(part)
    }
}

/// The text `?` is never written.
impl<A: Memory> JsonWord<A> for String<A> {
    fn write_json(&self, alloc: Global) -> Result<Value, PartFault> {
        if self.as_str() == "?" {
            return Err(PartFault::Unwritable);
        }
        Ok(Value::String(String::from_str(alloc, self.as_str())?))
    }

    fn read_json(alloc: A, part: &Value) -> Result<String<A>, PartFault> {
        let text = part.as_str().ok_or(PartFault::NoText)?;
        Ok(String::from_str(alloc, text)?)
    }
}

/// A value that is equal to others in part is written as its word, a text.
impl<A: Copy> JsonWord<A> for Noted {
    fn write_json(&self, alloc: Global) -> Result<Value, PartFault> {
        let word = format!(in alloc; "{}/{}", self.number, self.note)?;
        Ok(Value::String(word))
    }

    fn read_json(alloc: A, part: &Value) -> Result<Noted, PartFault> {
        let word = part.as_str().ok_or(PartFault::NoText)?;
        Word::read(alloc, word).ok().ok_or(PartFault::NoText)
    }
}

impl<'a> JsonWord<&'a Heap> for Costly<'a> {
    fn write_json(&self, _alloc: Global) -> Result<Value, PartFault> {
        Ok(Value::from(self.byte))
    }

    fn read_json(heap: &'a Heap, part: &Value) -> Result<Self, PartFault> {
        let number = part.as_u64().ok_or(PartFault::NoNumber)?;
        let byte = u8::try_from(number).ok().ok_or(PartFault::NoNumber)?;
        Ok(Costly { byte, heap })
    }
}
