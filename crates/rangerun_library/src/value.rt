//! The values of containers: how a line gives one, and how it is printed.
ghost use Rattle.rangemap.specs.Clones.{ValuesCloneFaithfully};

use serde_json::Value as Json;
use std::alloc::{AllocError, Allocator, Global};

/// A value, as it is printed.
pub trait Shown {
    /// Appends what stands behind the range in an item.
    ///
    /// # Errors
    ///
    /// Memory for the text was refused.
    fn write<A: Allocator>(&self, text: &mut String<A>) -> Result<(), AllocError>;
}

/// A text, as maps have it.
impl<B: Allocator> Shown for String<B> {
    fn write<A: Allocator>(&self, text: &mut String<A>) -> Result<(), AllocError> {
        write!(text, ": \"{}\"", self)
    }
}

/// The number of a guest.
impl Shown for u32 {
    fn write<A: Allocator>(&self, text: &mut String<A>) -> Result<(), AllocError> {
        write!(text, ": {}", self)
    }
}

/// What sets have in a value's place.
impl Shown for () {
    fn write<A: Allocator>(&self, _text: &mut String<A>) -> Result<(), AllocError> {
        Ok(())
    }
}

/// A value that a container of the program stores.
pub trait Stored: Eq + Clone + Shown {
    /// Whether an insert has a word for it.
    const HAS_VALUE: bool;

    /// A clone of a value equals it.
    ghost faithful: { ValuesCloneFaithfully Self.is_clone Self.eq };
}

impl<A: Allocator + Clone> Stored for String<A> {
    ghost use Rattle.std.proofs.Common.{rules};

    const HAS_VALUE: bool = true;

    ghost faithful = { Prim.search rules };
}

impl Stored for () {
    const HAS_VALUE: bool = false;

    ghost faithful = { Prim.search };
}

/// Makes the JSON form of a key. It is a `Result` as that of a text is, and takes no memory.
pub fn write_key(key: &u32) -> Result<Json, AllocError> {
    Ok(Json::from(*key))
}

/// Makes the JSON form of a text.
///
/// # Errors
///
/// Memory for the text was refused.
pub fn write_text(alloc: Global, text: &str) -> Result<Json, AllocError> {
    Ok(Json::String(String::from_str(alloc, text)?))
}
