//! The containers that commands are carried out on.

use crate::range::NumberRange;
use crate::value::{Stored, write_key, write_text};
use rangemap::WriteError;
use rangemap::chunked::{RangeInclusiveMap, RangeInclusiveSet, RangeMap, RangeSet};
use rangemap::container::Container;
use rangemap::map::Map;
use rangemap::set::Set;
use rangemap_core::key_range::KeyRange;
use rangemap_core::kind::Kind;
use rangemap_core::store::StoreMut;
use serde_json::Value as Json;
use std::alloc::{AllocError, Allocator, Global};
use std::fmt::Debug;

/// A container of the library over the program's keys and values.
///
/// Its debug text is what the program prints of all its items.
pub trait NumberContainer: Container<Range: NumberRange, Value: Stored> + Debug + Drop {
    /// Makes the value that a word writes. A set has one value, and reads no word.
    ///
    /// # Errors
    ///
    /// Memory for the value was refused.
    fn value(alloc: Self::Alloc, word: &str) -> Result<Self::Value, AllocError>;

    /// Makes its JSON form, in memory of `json_alloc`.
    ///
    /// # Errors
    ///
    /// Memory for the form was refused.
    fn to_json(&self, json_alloc: Global) -> Result<Json, WriteError<AllocError>>;
}

/// The map over half-open ranges.
pub type HalfOpenMap<A> = RangeMap<u32, String<A>, A>;

/// The map over closed ranges.
pub type ClosedMap<A> = RangeInclusiveMap<u32, String<A>, u32, A>;

/// The set over half-open ranges.
pub type HalfOpenSet<A> = RangeSet<u32, A>;

/// The set over closed ranges.
pub type ClosedSet<A> = RangeInclusiveSet<u32, u32, A>;

impl<
    A: Allocator + Copy,
    S: StoreMut<Range: NumberRange, Value = String<A>, Alloc = A> + Drop,
> NumberContainer for Map<S>
where
    S::Kind: Kind<S::Range, Steps = <S::Range as KeyRange>::Key>,
{
    fn value(alloc: A, word: &str) -> Result<String<A>, AllocError> {
        String::from_str(alloc, word)
    }

    fn to_json(&self, json_alloc: Global) -> Result<Json, WriteError<AllocError>> {
        self.to_value(
            json_alloc,
            write_key,
            move |text| write_text(json_alloc, text),
        )
    }
}

impl<S: StoreMut<Range: NumberRange, Value = ()> + Drop> NumberContainer for Set<S>
where
    S::Alloc: Clone,
    S::Kind: Kind<S::Range, Steps = <S::Range as KeyRange>::Key>,
{
    fn value(_alloc: S::Alloc, _word: &str) -> Result<(), AllocError> {
        Ok(())
    }

    fn to_json(&self, json_alloc: Global) -> Result<Json, WriteError<AllocError>> {
        self.to_value(json_alloc, write_key)
    }
}
