//! The maps that rows are run on, by their kinds of range and their types of keys and values.

use crate::{json, runs};
use rangemap_core::closed::Closed;
use rangemap_core::half_open::HalfOpen;
use rows_runner::Session;
use rows_text::{Costly, Down, Heap, Noted, PairSteps, SignedSteps, Text};
use std::alloc::AllocError;
use std::ops::{Range, RangeInclusive};

/// Runs the rows of maps over half-open ranges.
pub fn run_maps<'h>(heap: &'h Heap, session: &mut Session<'_>) -> Result<(), AllocError> {
    runs::all_in_vector::<HalfOpen, Range<u32>, char, _>(heap, "map u32 char", session)?;
    runs::all_in_tree::<u32, char, _>(heap, "map u32 char", session)?;
    runs::any_in_chunks::<HalfOpen, Range<u32>, char, 1>(heap, "map u32 char", session)?;
    runs::all_in_chunks::<HalfOpen, Range<u32>, char, 2>(heap, "map u32 char", session)?;
    runs::any_in_chunks::<HalfOpen, Range<u32>, char, 3>(heap, "map u32 char", session)?;
    runs::all_in_chunks::<HalfOpen, Range<u32>, char, 4>(heap, "map u32 char", session)?;
    runs::any_in_chunks::<HalfOpen, Range<u32>, char, 128>(heap, "map u32 char", session)?;
    runs::all_in_vector::<HalfOpen, Range<Costly<'h>>, char, _>(heap, "map costly char", session)?;
    runs::all_in_tree::<Costly<'h>, char, _>(heap, "map costly char", session)?;
    runs::all_in_chunks::<HalfOpen, Range<Costly<'h>>, char, 4>(heap, "map costly char", session)
}

/// Runs the rows of maps over half-open ranges, of texts and of values that are equal in part.
pub fn run_texts<'h>(heap: &'h Heap, session: &mut Session<'_>) -> Result<(), AllocError> {
    runs::own_in_vector::<HalfOpen, Range<u32>, Text<'h>, _>(heap, "map u32 text", session)?;
    runs::own_in_tree::<u32, Text<'h>, _>(heap, "map u32 text", session)?;
    runs::own_in_chunks::<HalfOpen, Range<u32>, Text<'h>, 2>(heap, "map u32 text", session)?;
    runs::own_in_chunks::<HalfOpen, Range<u32>, Text<'h>, 4>(heap, "map u32 text", session)?;
    runs::all_in_vector::<HalfOpen, Range<u32>, Noted, _>(heap, "map u32 noted", session)?;
    runs::all_in_tree::<u32, Noted, _>(heap, "map u32 noted", session)?;
    runs::all_in_chunks::<HalfOpen, Range<u32>, Noted, 2>(heap, "map u32 noted", session)?;
    runs::any_in_vector::<HalfOpen, Range<Text<'h>>, char, _>(heap, "map text char", session)?;
    runs::any_in_tree::<Text<'h>, char, _>(heap, "map text char", session)?;
    runs::any_in_chunks::<HalfOpen, Range<Text<'h>>, char, 2>(heap, "map text char", session)?;
    runs::any_in_chunks::<HalfOpen, Range<Text<'h>>, char, 4>(heap, "map text char", session)?;
    runs::own_in_vector::<HalfOpen, Range<Costly<'h>>, Costly<'h>, _>(
        heap,
        "map costly costly",
        session,
    )?;
    runs::own_in_vector::<HalfOpen, Range<i8>, Text<'h>, _>(heap, "map i8 text", session)?;
    runs::own_in_tree::<i8, Text<'h>, _>(heap, "map i8 text", session)?;
    runs::own_in_vector::<HalfOpen, Range<char>, Text<'h>, _>(heap, "map char text", session)?;
    runs::any_in_tree::<char, Text<'h>, _>(heap, "map char text", session)?;
    runs::any_in_chunks::<HalfOpen, Range<char>, Text<'h>, 2>(heap, "map char text", session)?;
    runs::any_in_vector::<HalfOpen, Range<(Text<'h>, u32)>, char, _>(
        heap,
        "map text/u32 char",
        session,
    )
}

/// Runs the rows of maps over closed ranges.
pub fn run_closed_maps<'h>(heap: &'h Heap, session: &mut Session<'_>) -> Result<(), AllocError> {
    runs::all_in_vector::<Closed<u32>, RangeInclusive<u32>, char, _>(
        heap,
        "imap u32 char",
        session,
    )?;
    runs::any_in_chunks::<Closed<u32>, RangeInclusive<u32>, char, 1>(
        heap,
        "imap u32 char",
        session,
    )?;
    runs::all_in_chunks::<Closed<u32>, RangeInclusive<u32>, char, 2>(
        heap,
        "imap u32 char",
        session,
    )?;
    runs::any_in_chunks::<Closed<u32>, RangeInclusive<u32>, char, 3>(
        heap,
        "imap u32 char",
        session,
    )?;
    runs::any_in_chunks::<Closed<u32>, RangeInclusive<u32>, char, 4>(
        heap,
        "imap u32 char",
        session,
    )?;
    runs::own_in_vector::<Closed<u32>, RangeInclusive<u32>, Text<'h>, _>(
        heap,
        "imap u32 text",
        session,
    )?;
    runs::own_in_chunks::<Closed<u32>, RangeInclusive<u32>, Text<'h>, 2>(
        heap,
        "imap u32 text",
        session,
    )?;
    runs::own_in_chunks::<Closed<u32>, RangeInclusive<u32>, Text<'h>, 4>(
        heap,
        "imap u32 text",
        session,
    )?;
    runs::all_in_vector::<Closed<u32>, RangeInclusive<u32>, Noted, _>(
        heap,
        "imap u32 noted",
        session,
    )?;
    runs::all_in_chunks::<Closed<u32>, RangeInclusive<u32>, Noted, 2>(
        heap,
        "imap u32 noted",
        session,
    )
}

/// Runs the rows of maps over closed ranges of other keys.
pub fn run_closed_maps_of_keys<'h>(
    heap: &'h Heap,
    session: &mut Session<'_>,
) -> Result<(), AllocError> {
    runs::all_in_vector::<Closed<u8>, RangeInclusive<u8>, Text<'h>, _>(
        heap,
        "imap u8 text",
        session,
    )?;
    runs::all_in_chunks::<Closed<u8>, RangeInclusive<u8>, Text<'h>, 2>(
        heap,
        "imap u8 text",
        session,
    )?;
    runs::own_in_vector::<Closed<i8>, RangeInclusive<i8>, Text<'h>, _>(
        heap,
        "imap i8 text",
        session,
    )?;
    runs::own_in_chunks::<Closed<i8>, RangeInclusive<i8>, Text<'h>, 2>(
        heap,
        "imap i8 text",
        session,
    )?;
    runs::all_in_vector::<Closed<Costly<'h>>, RangeInclusive<Costly<'h>>, char, _>(
        heap,
        "imap costly char",
        session,
    )?;
    runs::all_in_chunks::<Closed<Costly<'h>>, RangeInclusive<Costly<'h>>, char, 4>(
        heap,
        "imap costly char",
        session,
    )?;
    runs::own_in_vector::<Closed<Costly<'h>>, RangeInclusive<Costly<'h>>, Costly<'h>, _>(
        heap,
        "imap costly costly",
        session,
    )?;
    runs::own_in_vector::<Closed<Down>, RangeInclusive<Down>, char, _>(
        heap,
        "imap down char",
        session,
    )?;
    runs::container_in_vector::<Closed<SignedSteps>, RangeInclusive<i8>, Text<'h>, _>(
        heap,
        "imap stepped text",
        session,
    )?;
    runs::container_in_chunks::<Closed<SignedSteps>, RangeInclusive<i8>, Text<'h>, 2>(
        heap,
        "imap stepped text",
        session,
    )?;
    runs::other_in_vector::<Closed<PairSteps>, RangeInclusive<(u8, u8)>, char, _>(
        heap,
        "imap pair char",
        session,
    )?;
    runs::other_in_chunks::<Closed<PairSteps>, RangeInclusive<(u8, u8)>, char, 2>(
        heap,
        "imap pair char",
        session,
    )
}

/// Runs the rows of maps over ranges of 64 bits and of characters.
pub fn run_wide_maps(heap: &Heap, session: &mut Session<'_>) -> Result<(), AllocError> {
    runs::any_in_vector::<HalfOpen, Range<u64>, char, _>(heap, "map u64 char", session)?;
    runs::any_in_tree::<u64, char, _>(heap, "map u64 char", session)?;
    runs::any_in_chunks::<HalfOpen, Range<u64>, char, 2>(heap, "map u64 char", session)?;
    runs::any_in_vector::<HalfOpen, Range<i64>, char, _>(heap, "map i64 char", session)?;
    runs::any_in_tree::<i64, char, _>(heap, "map i64 char", session)?;
    runs::any_in_chunks::<HalfOpen, Range<i64>, char, 2>(heap, "map i64 char", session)?;
    runs::any_in_vector::<Closed<u64>, RangeInclusive<u64>, char, _>(
        heap,
        "imap u64 char",
        session,
    )?;
    runs::any_in_chunks::<Closed<u64>, RangeInclusive<u64>, char, 2>(
        heap,
        "imap u64 char",
        session,
    )?;
    runs::any_in_vector::<Closed<i64>, RangeInclusive<i64>, char, _>(
        heap,
        "imap i64 char",
        session,
    )?;
    runs::any_in_chunks::<Closed<i64>, RangeInclusive<i64>, char, 2>(
        heap,
        "imap i64 char",
        session,
    )?;
    runs::any_in_vector::<Closed<char>, RangeInclusive<char>, char, _>(
        heap,
        "imap char char",
        session,
    )?;
    runs::any_in_chunks::<Closed<char>, RangeInclusive<char>, char, 2>(
        heap,
        "imap char char",
        session,
    )
}

/// Runs the rows of maps over half-open ranges.
pub fn run_json<'h>(heap: &'h Heap, session: &mut Session<'_>) -> Result<(), AllocError> {
    json::json_in_vector::<HalfOpen, Range<u32>, Text<'h>, _>(heap, "map u32 text", session)?;
    json::json_in_tree::<u32, Text<'h>, _>(heap, "map u32 text", session)?;
    json::json_in_chunks::<HalfOpen, Range<u32>, Text<'h>, 2>(heap, "map u32 text", session)?;
    json::numbers_in_vector::<HalfOpen, Range<u32>, _>(heap, "map u32 u32", session)?;
    json::numbers_in_tree(heap, "map u32 u32", session)?;
    json::numbers_in_chunks::<HalfOpen, Range<u32>, 2>(heap, "map u32 u32", session)?;
    json::numbers_in_chunks::<HalfOpen, Range<u32>, 512>(heap, "map u32 u32", session)?;
    json::json_in_vector::<HalfOpen, Range<u32>, Noted, _>(heap, "map u32 noted", session)?;
    json::json_in_tree::<u32, Noted, _>(heap, "map u32 noted", session)?;
    json::json_in_chunks::<HalfOpen, Range<u32>, Noted, 2>(heap, "map u32 noted", session)?;
    json::json_in_vector::<HalfOpen, Range<Costly<'h>>, Costly<'h>, _>(
        heap,
        "map costly costly",
        session,
    )?;
    json::json_in_tree::<Costly<'h>, Costly<'h>, _>(heap, "map costly costly", session)?;
    json::json_in_chunks::<HalfOpen, Range<Costly<'h>>, Costly<'h>, 2>(
        heap,
        "map costly costly",
        session,
    )
}

/// Runs the rows of maps over closed ranges.
pub fn run_closed_json<'h>(heap: &'h Heap, session: &mut Session<'_>) -> Result<(), AllocError> {
    json::json_in_vector::<Closed<u32>, RangeInclusive<u32>, Text<'h>, _>(
        heap,
        "imap u32 text",
        session,
    )?;
    json::json_in_chunks::<Closed<u32>, RangeInclusive<u32>, Text<'h>, 2>(
        heap,
        "imap u32 text",
        session,
    )?;
    json::numbers_in_vector::<Closed<u32>, RangeInclusive<u32>, _>(heap, "imap u32 u32", session)?;
    json::numbers_in_chunks::<Closed<u32>, RangeInclusive<u32>, 2>(heap, "imap u32 u32", session)?;
    json::numbers_in_chunks::<Closed<u32>, RangeInclusive<u32>, 512>(
        heap,
        "imap u32 u32",
        session,
    )?;
    json::json_in_vector::<Closed<u32>, RangeInclusive<u32>, Noted, _>(
        heap,
        "imap u32 noted",
        session,
    )?;
    json::json_in_chunks::<Closed<u32>, RangeInclusive<u32>, Noted, 2>(
        heap,
        "imap u32 noted",
        session,
    )?;
    json::json_in_vector::<Closed<Costly<'h>>, RangeInclusive<Costly<'h>>, Costly<'h>, _>(
        heap,
        "imap costly costly",
        session,
    )?;
    json::json_in_chunks::<Closed<Costly<'h>>, RangeInclusive<Costly<'h>>, Costly<'h>, 2>(
        heap,
        "imap costly costly",
        session,
    )
}
