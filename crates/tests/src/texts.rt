//! The laws of texts, which say what is written of numbers and of ASCII texts.

use crate::checks::assert_same;
use rangemap::{range_inclusive_map, range_map, range_set};
use rangemap_laws::texts::{ascii_text, signed_text, unsigned_set_text, unsigned_text};
use std::alloc::AllocError;
use std::process::Abort;

// Compares the text that a law writes.
fn check_written<R: Abort>(
    rt: &R,
    written: Result<String, AllocError>,
    text: &str,
) -> Result<(), AllocError> {
    assert_same(rt, written?.as_str(), text);
    Ok(())
}

// Compares that of a map of numbers without sign.
fn check_unsigned<R: AllocGlobal + Abort>(rt: &R) -> Result<(), AllocError> {
    let unsigned = range_map! { in rt.alloc(); 0..5u32 => 7u16 }?;
    check_written(rt, unsigned_text(rt.alloc(), &unsigned), "{0..5: 7}")
}

// Compares that of a map over closed ranges of signed numbers.
fn check_signed<R: AllocGlobal + Abort>(rt: &R) -> Result<(), AllocError> {
    let signed = range_inclusive_map! { in rt.alloc(); -128..=-1i8 => 7u64, 5..=127 => 8 }?;
    let written = signed_text(rt.alloc(), &signed);
    check_written(rt, written, "{-128..=-1: 7, 5..=127: 8}")
}

// Compares that of a set of numbers without sign.
fn check_unsigned_set<R: AllocGlobal + Abort>(rt: &R) -> Result<(), AllocError> {
    let set = range_set![in rt.alloc(); 0..5u32, 7..9]?;
    check_written(rt, unsigned_set_text(rt.alloc(), &set), "{0..5, 7..9}")
}

#[test]
fn the_laws_of_texts_write_them(rt: HostRuntime) -> Result<(), AllocError> {
    check_unsigned(&rt)?;
    check_signed(&rt)?;
    check_unsigned_set(&rt)
}

#[test]
fn the_law_of_ascii_texts_writes_them(rt: HostRuntime) -> Result<(), AllocError> {
    let alloc = rt.alloc();
    let texts = range_map! { in alloc; 0..5u32 => "a\"b" }?;
    // what the law asks for
    assert_eq!(rt; texts.len(), 1);
    let (_, text) = texts.first_range_value().expect(&rt, "a pair");
    assert!(rt; text.is_ascii());
    check_written(&rt, ascii_text(alloc, &texts), "{0..5: \"a\\\"b\"}")
}
