//! The heap that refuses: which request it refuses, and how many blocks it counts.

use crate::checks::check_that;
use rows_text::{Heap, Refusing};
use std::alloc::AllocError;
use std::test::Fail;

#[test]
fn the_second_request_is_refused(rt: HostRuntime) -> Result<(), Fail> {
    let heap = Refusing::new(rt.alloc(), 1);
    let is_counted = is_counted(&heap)?;
    check_that(
        is_counted && heap.held() == 0,
        "another request is refused, or a block is not counted",
    )?;
    heap.refuse_after(7);
    check_that(!heap.has_refused(), "a refusal is still told")
}

// Whether the second request alone is refused, and the blocks of the others are counted.
fn is_counted(heap: &Heap) -> Result<bool, AllocError> {
    let mut first = Vec::new(heap);
    first.push(1u8)?;
    let is_granted = (heap.held(), heap.has_refused()) == (1, false);
    let mut second = Vec::new(heap);
    let is_refused = second.push(1u8).is_err();
    let is_told = (heap.held(), heap.has_refused()) == (1, true);
    second.push(1u8)?;
    Ok(is_granted && is_refused && is_told && heap.held() == 2)
}
