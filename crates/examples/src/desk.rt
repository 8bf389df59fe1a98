//! A desk that guests share: who has it at which hour, on which days nobody has, and the bookings
//! as JSON.
ghost use Rattle.std.specs.Ordering.{nat_cmp};
ghost use Rattle.std.specs.Prelude.{◌<◌, ◌^◌, ◌≡◌, ◌↔◌, ◌≤◌, IfErr, IfOk, IsTrue, count_by, nat_eq, true, ℕ};
ghost use Rattle.rangemap.specs.Json.{IsForm, IsReading, IsRefusedForMemoryAlone, RefusesToRead, map_reader, map_writer};
ghost use Rattle.rangemap.specs.Ranges.{half_open, overlapped};
ghost use Rattle.examples.specs.Desk.{is_closed, reads_number, writes_number};

use rangemap::{Form, RangeInclusiveSet, RangeMap, ReadError, WriteError};
use serde_json::Value;
use std::alloc::Global;
use std::ops::Range;

/// A value that is no number of 32 bits.
#[derive(Clone, Copy, Debug, PartialEq, Eq)]
pub struct NotANumber;

/// Returns how many bookings of a guest overlap some hours.
pub fn bookings_of(sheet: &RangeMap<u32, u32>, hours: &Range<u32>, guest: u32) -> usize
    ensures { result ≡ count_by (λ booking. nat_eq booking.1 guest) (overlapped (half_open nat_cmp) sheet.now hours.now) }
{
    // The count is at most this `usize`, so it does not wrap.
    let _stored = sheet.len();
    let mut count = 0;
    for (_, who) in sheet.overlapping(hours) {
        if *who == guest {
            count += 1;
        }
    }
    count
}

/// Returns whether the house is closed on no day but those from `first` to `last`.
pub fn is_closed_only_within(days: &RangeInclusiveSet<u32>, first: u32, last: u32) -> bool
    ensures { IsTrue result ↔ ((day : ℕ) → day < 2 ^ 32 → is_closed days.now day ≡ true → (first ≤ day) × (day ≤ last)) }
{
    for range in days.iter() {
        if *range.start() < first || *range.end() > last {
            return false;
        }
    }
    true
}

/// Returns a number as JSON.
///
/// # Errors
///
/// None: every number has a form. The answer is a `Result` since `to_value` asks for one.
pub fn write_number(number: &u32) -> Result<Value, NotANumber>
    ensures { writes_number number.now result }
{
    Ok(Value::from(*number))
}

/// Returns the number that a JSON value is.
///
/// # Errors
///
/// The value is no number of 32 bits.
pub fn read_number(value: &Value) -> Result<u32, NotANumber>
    ensures { reads_number value.now result }
{
    let number = value.as_u64().ok_or(NotANumber)?;
    u32::try_from(number).map_err(|_| NotANumber)
}

/// Returns the bookings as JSON, a list of `[[start, end], guest]`.
///
/// # Errors
///
/// Memory was refused.
pub fn to_json(alloc: Global, sheet: &RangeMap<u32, u32>) -> Result<Value, WriteError<NotANumber>>
    ensures form { IfOk result (IsForm (half_open nat_cmp) (map_writer writes_number writes_number) sheet.now) }
    ensures refused { IfErr result (λ error. error ≡ WriteError.OutOfMemory) }
{
    sheet.to_value(alloc, write_number, write_number)
}

/// Returns the bookings that a JSON value holds, whose entries are in order and joined.
///
/// # Errors
///
/// The value is no list of such entries: then the first that is at fault is named, and how. Or memory
/// was refused.
pub fn from_json(alloc: Global, value: &Value) -> Result<RangeMap<u32, u32>, ReadError<NotANumber>>
    ensures reading { IfOk result (IsReading (half_open nat_cmp) (map_reader reads_number reads_number) nat_eq Form.Canonical value.now) }
    ensures refused { IfErr result (RefusesToRead (half_open nat_cmp) (map_reader reads_number reads_number) nat_eq Form.Canonical value.now) }
    ensures exact { IfErr result (IsRefusedForMemoryAlone (half_open nat_cmp) (map_reader reads_number reads_number) nat_eq Form.Canonical value.now) }
{
    RangeMap::from_value(alloc, Form::Canonical, value, read_number, read_number)
}
