//! The lines that items are printed on.
ghost use Rattle.std.specs.Prelude.{◌<◌, OnOk};
ghost use Rattle.std.specs.Iterator.{IsFinite};
ghost use Rattle.std.specs.String.{string_len};

use crate::container::NumberContainer;
use crate::range::NumberRange;
use crate::value::Shown;
use rangemap::WriteError;
use std::alloc::{AllocError, Allocator, Global};

/// One item of an answer.
pub trait Item: Drop {
    /// Appends the item to the text.
    ///
    /// # Errors
    ///
    /// Memory for the text was refused, or what the item is made of.
    fn write<A: Allocator>(self, text: &mut String<A>) -> Result<(), AllocError>;
}

/// A range and its value.
impl<'a, R: NumberRange, V: Shown> Item for (&'a R, &'a V) {
    fn write<A: Allocator>(self, text: &mut String<A>) -> Result<(), AllocError> {
        write!(text, "{:?}", self.0)?;
        self.1.write(text)
    }
}

/// A range alone.
impl<'a, R: NumberRange> Item for &'a R {
    fn write<A: Allocator>(self, text: &mut String<A>) -> Result<(), AllocError> {
        write!(text, "{self:?}")
    }
}

/// A gap of a calendar, which is made when it is asked for.
impl<R: NumberRange> Item for Result<R, AllocError> {
    fn write<A: Allocator>(self, text: &mut String<A>) -> Result<(), AllocError> {
        let gap = self?;
        write!(text, "{gap:?}")
    }
}

/// Writes the line of the item, or of `none`.
///
/// # Errors
///
/// As for `Item::write`.
pub fn write_item_or_none<A: Allocator, I: Item>(
    text: &mut String<A>,
    item: Option<I>,
) -> Result<(), AllocError> {
    match item {
        Some(item) => item.write(text)?,
        None => text.push_str("none")?,
    }
    text.push('\n')
}

/// Writes the line of the items that an iterator gives, in braces.
///
/// # Errors
///
/// As for `Item::write`.
pub fn write_items<A: Allocator, I: Item, Items: Iterator<Item = I> + Drop>(
    text: &mut String<A>,
    items: Items,
) -> Result<(), AllocError>
    requires can { Items.can_next items }
    requires ends { IsFinite (Items.remaining items) }
{
    text.push('{')?;
    let mut is_first = true;
    for item in items {
        if !is_first {
            text.push_str(", ")?;
        }
        is_first = false;
        item.write(text)?;
    }
    text.push_str("}\n")
}

/// Writes the line of the items that the range overlaps.
///
/// # Errors
///
/// Memory or a clone was refused.
pub fn write_overlapping<A: Allocator, C: NumberContainer<Alloc = A>>(
    alloc: A,
    text: &mut String<A>,
    container: &C,
    range: &C::Range,
) -> Result<(), AllocError> {
    let mut pairs = Vec::new(alloc);
    container.append_overlapping(range, &mut pairs)?;
    write_items(text, pairs.iter().map(|pair| (&pair.0, &pair.1)))
}

/// Writes the line of the parts of the range that no item has.
///
/// # Errors
///
/// Memory or a clone was refused.
pub fn write_gaps<A: Allocator, C: NumberContainer<Alloc = A>>(
    alloc: A,
    text: &mut String<A>,
    container: &C,
    range: &C::Range,
) -> Result<(), AllocError> {
    let mut gaps = Vec::new(alloc);
    container.append_gaps(range, &mut gaps)?;
    write_items(text, gaps.iter())
}

/// Writes the line of the JSON form, which is made in memory of `json_alloc`.
///
/// # Errors
///
/// Memory was refused. It is not passed over: where this answers `Ok`, something was written.
pub fn write_json<A: Allocator, C: NumberContainer>(
    json_alloc: Global,
    text: &mut String<A>,
    container: &C,
) -> Result<(), AllocError>
    ensures { OnOk result (string_len text.old < string_len text.new) }
{
    let json = match container.to_json(json_alloc) {
        Ok(json) => json,
        Err(WriteError::Caller(error)) => return Err(error),
        Err(WriteError::OutOfMemory) => return Err(AllocError),
    };
    text.push_str(json.to_string(json_alloc)?.as_str())?;
    text.push('\n')
}
