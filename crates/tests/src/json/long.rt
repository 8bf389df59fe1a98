//! Values that are long or deep.

use super::read_number;
use crate::checks::check_same;
use rangemap::Form;
use rangemap::map::Map;
use rangemap_chunked::{Chunks, SIZE};
use rangemap_core::half_open::HalfOpen;
use rangemap_core::store::StoreMut;
use rangemap_sorted::SortedVec;
use serde_json::Value;
use std::alloc::{AllocError, Global};
use std::fmt::Write;
use std::ops::Range;
use std::test::Fail;

// So many entries in order, each with a key between it and the next.
fn spread(alloc: Global, count: u32) -> Result<Value, Fail> {
    let mut text = String::from_str(alloc, "[[[0,2],7]")?;
    for at in 1..count {
        let start = at.wrapping_mul(3);
        write!(text, ",[[{start},{}],7]", start.wrapping_add(2))?;
    }
    text.push(']')?;
    Ok(Value::from_str(alloc, text.as_str())?)
}

// How many pairs a map of numbers is read to have, or why it is refused.
fn len_or_error<S>(alloc: Global, form: Form, value: &Value) -> Result<String, Fail>
where
    S: StoreMut<Kind = HalfOpen, Range = Range<u32>, Value = u32, Alloc = Global> + Drop,
{
    match Map::<S>::from_value(alloc, form, value, read_number, read_number) {
        Ok(map) => Ok(format!(in alloc; "{}", map.len())?),
        Err(error) => Ok(format!(in alloc; "{error:?}")?),
    }
}

// Compares what a value is read to in either form.
fn check_read<S>(alloc: Global, value: &Value, answer: &str) -> Result<(), Fail>
where
    S: StoreMut<Kind = HalfOpen, Range = Range<u32>, Value = u32, Alloc = Global> + Drop,
{
    for form in [Form::Any, Form::Canonical] {
        let found = len_or_error::<S>(alloc, form, value)?;
        check_same(found.as_str(), answer)?;
    }
    Ok(())
}

// Compares what a value is read to in a vector.
fn check_in_vector(alloc: Global, value: &Value, answer: &str) -> Result<(), Fail> {
    check_read::<SortedVec<HalfOpen, Range<u32>, u32, Global>>(alloc, value, answer)
}

// In chunks as well, of which it would fill 40.
#[test]
fn a_long_list_is_read_into_chunks(rt: HostRuntime) -> Result<(), Fail> {
    let value = spread(rt.alloc(), 20_000)?;
    check_read::<Chunks<HalfOpen, Range<u32>, u32, Global, SIZE>>(rt.alloc(), &value, "20000")
}

#[test]
fn a_long_list_is_read(rt: HostRuntime) -> Result<(), Fail> {
    let mut value = spread(rt.alloc(), 100_000)?;
    check_in_vector(rt.alloc(), &value, "100000")?;
    let start = value
        .pointer_mut("/99999/0/0")
        .ok_or("an entry is missing")?;
    *start = Value::Null;
    check_in_vector(
        rt.alloc(),
        &value,
        "BadKey { at: 99999, part: Start, fault: NoNumber }",
    )
}

// A list in a list in a list, and so on.
fn deep(alloc: Global) -> Result<Value, AllocError> {
    let mut deep = Value::Null;
    for _ in 0..1000u32 {
        deep = Value::Array(vec![in alloc; deep]?);
    }
    Ok(deep)
}

// The list of one entry, whose value is this one.
fn one_entry(alloc: Global, value: Value) -> Result<Value, Fail> {
    let range = Value::from_str(alloc, "[0,1]")?;
    let entry = Value::Array(vec![in alloc; range, value]?);
    Ok(Value::Array(vec![in alloc; entry]?))
}

#[test]
fn a_deep_value_is_refused(rt: HostRuntime) -> Result<(), Fail> {
    let alloc = rt.alloc();
    check_in_vector(alloc, &deep(alloc)?, "BadEntry { at: 0 }")?;
    let list = one_entry(alloc, deep(alloc)?)?;
    check_in_vector(alloc, &list, "BadValue { at: 0, fault: NoNumber }")
}
