//! The four macros: their lists are inserted in order, may be empty, and may end in a comma, and each
//! request for memory that they make may be refused.

use crate::checks::{MANY, check_made, check_tried};
use rangemap::{
    RangeInclusiveMap, RangeInclusiveSet, RangeMap, RangeSet, range_inclusive_map,
    range_inclusive_set, range_map, range_set,
};
use rows_text::{Heap, Refusing};
use std::alloc::{AllocError, Global};
use std::test::Fail;

// The macros take two requests each here: for the list, and for the container's first growth.
const TWO: (u64, u64) = (2, 0);

fn check_maps(alloc: Global, heap: &Heap) -> Result<(), Fail> {
    let none: Result<RangeMap<u32, &str, &Heap>, AllocError> = range_map! { in heap; };
    check_made(alloc, none, "{}")?;
    let made = range_map! { in heap; 0..5u32 => "a", };
    check_made(alloc, made, r#"{0..5: "a"}"#)?;
    let made = range_map! { in heap; 0..100u32 => "abc", 200..300 => "ghi" };
    check_made(alloc, made, r#"{0..100: "abc", 200..300: "ghi"}"#)?;
    let made = range_map! { in heap; 0..10u32 => "a", 3..6 => "b" };
    check_made(alloc, made, r#"{0..3: "a", 3..6: "b", 6..10: "a"}"#)?;
    for granted in 0..3 {
        heap.refuse_after(granted);
        let made = range_map! { in heap; 0..5u32 => "a", 7..9 => "b" };
        let text = r#"{0..5: "a", 7..9: "b"}"#;
        check_tried((heap, alloc), TWO, granted, made, text)?;
    }
    Ok(())
}

fn check_inclusive_maps(alloc: Global, heap: &Heap) -> Result<(), Fail> {
    let none: Result<RangeInclusiveMap<u32, &str, u32, &Heap>, AllocError> =
        range_inclusive_map! { in heap; };
    check_made(alloc, none, "{}")?;
    let made = range_inclusive_map! { in heap; 0..=5u32 => "a", };
    check_made(alloc, made, r#"{0..=5: "a"}"#)?;
    let made =
        range_inclusive_map! { in heap; 0..=100u32 => "abc", 100..=200 => "def", 200..=300 => "ghi" };
    let text = r#"{0..=99: "abc", 100..=199: "def", 200..=300: "ghi"}"#;
    check_made(alloc, made, text)?;
    for granted in 0..3 {
        heap.refuse_after(granted);
        let made = range_inclusive_map! { in heap; 0..=5u32 => "a", 7..=9 => "b" };
        let text = r#"{0..=5: "a", 7..=9: "b"}"#;
        check_tried((heap, alloc), TWO, granted, made, text)?;
    }
    Ok(())
}

#[test]
fn a_list_makes_a_map(rt: HostRuntime) -> Result<(), Fail> {
    check_maps(rt.alloc(), &Refusing::new(rt.alloc(), MANY))?;
    check_inclusive_maps(rt.alloc(), &Refusing::new(rt.alloc(), MANY))
}

fn check_sets(alloc: Global, heap: &Heap) -> Result<(), Fail> {
    let none: Result<RangeSet<u32, &Heap>, AllocError> = range_set![in heap;];
    check_made(alloc, none, "{}")?;
    check_made(alloc, range_set![in heap; 5u32..9, 0..5,], "{0..9}")?;
    check_made(alloc, range_set![in heap; 5u32..9, 0..6], "{0..9}")?;
    let made = range_set![in heap; 0u32..100, 200..300, 400..500];
    check_made(alloc, made, "{0..100, 200..300, 400..500}")?;
    for granted in 0..3 {
        heap.refuse_after(granted);
        let made = range_set![in heap; 0..5u32, 7..9];
        check_tried((heap, alloc), TWO, granted, made, "{0..5, 7..9}")?;
    }
    Ok(())
}

fn check_inclusive_sets(alloc: Global, heap: &Heap) -> Result<(), Fail> {
    let none: Result<RangeInclusiveSet<u32, u32, &Heap>, AllocError> =
        range_inclusive_set![in heap;];
    check_made(alloc, none, "{}")?;
    let made = range_inclusive_set![in heap; 0u32..=100, 101..=200,];
    check_made(alloc, made, "{0..=200}")?;
    let made = range_inclusive_set![in heap; 5u32..=9, 0..=5];
    check_made(alloc, made, "{0..=9}")?;
    let made = range_inclusive_set![in heap; 0u32..=100, 200..=300, 400..=500];
    check_made(alloc, made, "{0..=100, 200..=300, 400..=500}")?;
    for granted in 0..3 {
        heap.refuse_after(granted);
        let made = range_inclusive_set![in heap; 0..=5u32, 7..=9];
        check_tried((heap, alloc), TWO, granted, made, "{0..=5, 7..=9}")?;
    }
    Ok(())
}

#[test]
fn a_list_makes_a_set(rt: HostRuntime) -> Result<(), Fail> {
    check_sets(rt.alloc(), &Refusing::new(rt.alloc(), MANY))?;
    check_inclusive_sets(rt.alloc(), &Refusing::new(rt.alloc(), MANY))
}
