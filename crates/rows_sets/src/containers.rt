//! The sets that rows are run on, by their kinds of range and their types of keys and values.

use crate::{json, runs};
use rangemap_core::closed::Closed;
use rangemap_core::half_open::HalfOpen;
use rows_runner::Session;
use rows_text::{Costly, Down, Heap, PairSteps, SignedSteps, Text};
use std::alloc::AllocError;
use std::ops::{Range, RangeInclusive};

/// Runs the rows of sets of half-open ranges.
pub fn run_sets<'h>(heap: &'h Heap, session: &mut Session<'_>) -> Result<(), AllocError> {
    runs::all_in_vector::<HalfOpen, Range<u32>, _>(heap, "set u32", session)?;
    runs::all_in_tree::<u32, _>(heap, "set u32", session)?;
    runs::any_in_chunks::<HalfOpen, Range<u32>, 1>(heap, "set u32", session)?;
    runs::all_in_chunks::<HalfOpen, Range<u32>, 2>(heap, "set u32", session)?;
    runs::any_in_chunks::<HalfOpen, Range<u32>, 3>(heap, "set u32", session)?;
    runs::any_in_chunks::<HalfOpen, Range<u32>, 4>(heap, "set u32", session)?;
    runs::any_in_chunks::<HalfOpen, Range<u32>, 128>(heap, "set u32", session)?;
    runs::own_in_chunks::<HalfOpen, Range<u32>, 512>(heap, "set u32", session)?;
    runs::own_in_vector::<HalfOpen, Range<Text<'h>>, _>(heap, "set text", session)?;
    runs::any_in_tree::<Text<'h>, _>(heap, "set text", session)?;
    runs::operators_in_tree::<Text<'h>, _>(heap, "set text", session)?;
    runs::any_in_chunks::<HalfOpen, Range<Text<'h>>, 4>(heap, "set text", session)?;
    runs::operators_in_chunks::<HalfOpen, Range<Text<'h>>, 4>(heap, "set text", session)?;
    runs::all_in_vector::<HalfOpen, Range<Costly<'h>>, _>(heap, "set costly", session)?;
    runs::all_in_tree::<Costly<'h>, _>(heap, "set costly", session)?;
    runs::all_in_chunks::<HalfOpen, Range<Costly<'h>>, 4>(heap, "set costly", session)
}

/// Runs the rows of sets of half-open ranges of other keys.
pub fn run_sets_of_keys(heap: &Heap, session: &mut Session<'_>) -> Result<(), AllocError> {
    runs::own_in_vector::<HalfOpen, Range<u64>, _>(heap, "set u64", session)?;
    runs::any_in_tree::<u64, _>(heap, "set u64", session)?;
    runs::operators_in_tree::<u64, _>(heap, "set u64", session)?;
    runs::any_in_chunks::<HalfOpen, Range<u64>, 2>(heap, "set u64", session)?;
    runs::operators_in_chunks::<HalfOpen, Range<u64>, 2>(heap, "set u64", session)?;
    runs::any_in_vector::<HalfOpen, Range<i64>, _>(heap, "set i64", session)?;
    runs::operators_in_vector::<HalfOpen, Range<i64>, _>(heap, "set i64", session)?;
    runs::own_in_tree::<i64, _>(heap, "set i64", session)?;
    runs::any_in_chunks::<HalfOpen, Range<i64>, 2>(heap, "set i64", session)?;
    runs::operators_in_chunks::<HalfOpen, Range<i64>, 2>(heap, "set i64", session)?;
    runs::any_in_vector::<HalfOpen, Range<char>, _>(heap, "set char", session)?;
    runs::operators_in_vector::<HalfOpen, Range<char>, _>(heap, "set char", session)?;
    runs::any_in_tree::<char, _>(heap, "set char", session)?;
    runs::operators_in_tree::<char, _>(heap, "set char", session)?;
    runs::own_in_chunks::<HalfOpen, Range<char>, 2>(heap, "set char", session)
}

/// Runs the rows of sets of closed ranges.
pub fn run_closed_sets<'h>(heap: &'h Heap, session: &mut Session<'_>) -> Result<(), AllocError> {
    runs::all_in_vector::<Closed<u32>, RangeInclusive<u32>, _>(heap, "iset u32", session)?;
    runs::any_in_chunks::<Closed<u32>, RangeInclusive<u32>, 1>(heap, "iset u32", session)?;
    runs::all_in_chunks::<Closed<u32>, RangeInclusive<u32>, 2>(heap, "iset u32", session)?;
    runs::any_in_chunks::<Closed<u32>, RangeInclusive<u32>, 3>(heap, "iset u32", session)?;
    runs::any_in_chunks::<Closed<u32>, RangeInclusive<u32>, 4>(heap, "iset u32", session)?;
    runs::all_in_vector::<Closed<Costly<'h>>, RangeInclusive<Costly<'h>>, _>(
        heap,
        "iset costly",
        session,
    )?;
    runs::all_in_chunks::<Closed<Costly<'h>>, RangeInclusive<Costly<'h>>, 4>(
        heap,
        "iset costly",
        session,
    )?;
    runs::own_in_chunks::<Closed<u32>, RangeInclusive<u32>, 512>(heap, "iset u32", session)?;
    runs::all_in_vector::<Closed<u64>, RangeInclusive<u64>, _>(heap, "iset u64", session)?;
    runs::container_in_chunks::<Closed<u64>, RangeInclusive<u64>, 2>(heap, "iset u64", session)?;
    runs::operators_in_chunks::<Closed<u64>, RangeInclusive<u64>, 2>(heap, "iset u64", session)?;
    runs::own_in_vector::<Closed<char>, RangeInclusive<char>, _>(heap, "iset char", session)?;
    runs::any_in_chunks::<Closed<char>, RangeInclusive<char>, 1>(heap, "iset char", session)?;
    runs::operators_in_chunks::<Closed<char>, RangeInclusive<char>, 1>(heap, "iset char", session)?;
    runs::container_in_vector::<Closed<SignedSteps>, RangeInclusive<i8>, _>(
        heap,
        "iset stepped",
        session,
    )?;
    runs::container_in_chunks::<Closed<SignedSteps>, RangeInclusive<i8>, 2>(
        heap,
        "iset stepped",
        session,
    )?;
    runs::other_in_vector::<Closed<PairSteps>, RangeInclusive<(u8, u8)>, _>(
        heap,
        "iset pair",
        session,
    )?;
    runs::other_in_chunks::<Closed<PairSteps>, RangeInclusive<(u8, u8)>, 1>(
        heap,
        "iset pair",
        session,
    )
}

/// Runs the rows of sets that go from the least key of a type to its greatest.
pub fn run_ends(heap: &Heap, session: &mut Session<'_>) -> Result<(), AllocError> {
    runs::own_in_vector::<Closed<u8>, RangeInclusive<u8>, _>(heap, "iset u8", session)?;
    runs::any_in_vector::<Closed<u16>, RangeInclusive<u16>, _>(heap, "iset u16", session)?;
    runs::any_in_vector::<Closed<u128>, RangeInclusive<u128>, _>(heap, "iset u128", session)?;
    runs::any_in_vector::<Closed<usize>, RangeInclusive<usize>, _>(heap, "iset usize", session)?;
    runs::any_in_vector::<Closed<i8>, RangeInclusive<i8>, _>(heap, "iset i8", session)?;
    runs::any_in_vector::<Closed<i16>, RangeInclusive<i16>, _>(heap, "iset i16", session)?;
    runs::any_in_vector::<Closed<i32>, RangeInclusive<i32>, _>(heap, "iset i32", session)?;
    runs::own_in_vector::<Closed<i64>, RangeInclusive<i64>, _>(heap, "iset i64", session)?;
    runs::any_in_chunks::<Closed<i64>, RangeInclusive<i64>, 2>(heap, "iset i64", session)?;
    runs::operators_in_chunks::<Closed<i64>, RangeInclusive<i64>, 2>(heap, "iset i64", session)?;
    runs::any_in_vector::<Closed<i128>, RangeInclusive<i128>, _>(heap, "iset i128", session)?;
    runs::any_in_vector::<Closed<isize>, RangeInclusive<isize>, _>(heap, "iset isize", session)?;
    runs::own_in_vector::<Closed<Down>, RangeInclusive<Down>, _>(heap, "iset down", session)
}

/// Runs the rows of sets.
pub fn run_json<'h>(heap: &'h Heap, session: &mut Session<'_>) -> Result<(), AllocError> {
    json::numbers_in_vector::<HalfOpen, Range<u32>, _>(heap, "set u32", session)?;
    json::numbers_in_tree(heap, "set u32", session)?;
    json::numbers_in_chunks::<HalfOpen, Range<u32>, 2>(heap, "set u32", session)?;
    json::numbers_in_chunks::<HalfOpen, Range<u32>, 512>(heap, "set u32", session)?;
    json::numbers_in_vector::<Closed<u32>, RangeInclusive<u32>, _>(heap, "iset u32", session)?;
    json::numbers_in_chunks::<Closed<u32>, RangeInclusive<u32>, 2>(heap, "iset u32", session)?;
    json::numbers_in_chunks::<Closed<u32>, RangeInclusive<u32>, 512>(heap, "iset u32", session)?;
    json::json_in_vector::<HalfOpen, Range<Costly<'h>>, _>(heap, "set costly", session)?;
    json::json_in_tree::<Costly<'h>, _>(heap, "set costly", session)?;
    json::json_in_chunks::<HalfOpen, Range<Costly<'h>>, 4>(heap, "set costly", session)?;
    json::json_in_vector::<Closed<Costly<'h>>, RangeInclusive<Costly<'h>>, _>(
        heap,
        "iset costly",
        session,
    )?;
    json::json_in_chunks::<Closed<Costly<'h>>, RangeInclusive<Costly<'h>>, 4>(
        heap,
        "iset costly",
        session,
    )
}
