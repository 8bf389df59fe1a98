//! The debug text of a map or a set whose keys and values have known texts.
//!
//! The text is part of the contract of `{:?}`: `debug_output` of a map is `map_text` of its pairs, and
//! `debug_output` of a set is `set_text` of its ranges. Both are made of the `debug_output` of keys and
//! values.
//!
//! The laws of numbers and of ASCII texts are about certain containers, not about any: a law over any
//! store of such ranges was tried, and no caller of it could be proved.
ghost use Rattle.std.specs.Prelude.{◌≡◌, ℕ, codes, decimal, string_bytes, true, IfOk, List, Some as SomeWord};
ghost use Rattle.std.specs.Char.{is_ascii};
ghost use Rattle.std.specs.Fmt.{signed_decimal};
ghost use Rattle.std.specs.List.{list_all};
ghost use Rattle.std.specs.Ordering.{int_cmp, nat_cmp};
ghost use Rattle.rangemap_core.specs.Ranges.{closed, half_open};
ghost use Rattle.rangemap_formats.specs.Texts.{AreKeyTexts, AreTexts, map_text, plain_map, plain_set, quoted, set_text};

use rangemap::{RangeInclusiveMap, RangeMap, RangeSet, StepFns};
use rangemap_core::key_range::KeyRange;
use rangemap_core::kind::Kind;
use std::alloc::{AllocError, Global};
use std::fmt::Debug;

/// If the debug texts of the keys and values of a list of ranges are known, as of whole numbers and of
/// ASCII texts (`quoted`), so is the text of the list, which `{:?}` of a map writes: `{`, the pairs
/// joined by `, `, then `}`. A half-open range has `..` between its ends, a closed one `..=`.
pub fn texts_are_joined<Q: Kind<R>, R: KeyRange<Key: Debug>, V: Debug>()
    ensures { (key : R.Key → List ℕ) (value : V → List ℕ) (list : List (R × V))
        → AreTexts Q.kind R.dots key value R.Key.debug_output V.debug_output list
        → map_text Q.kind R.dots R.Key.debug_output V.debug_output list
        ≡ SomeWord (plain_map Q.kind R.dots key value list) }
{}

/// If the debug texts of the keys of a list of ranges are known, so is the text of the list, which
/// `{:?}` of a set writes.
pub fn set_texts_are_joined<Q: Kind<R>, R: KeyRange<Key: Debug>>()
    ensures { (key : R.Key → List ℕ) (list : List R)
        → AreKeyTexts Q.kind R.dots key R.Key.debug_output list
        → set_text Q.kind R.dots R.Key.debug_output list ≡ SomeWord (plain_set Q.kind R.dots key list) }
{}

/// Returns the debug text of a map of numbers to numbers, both without sign.
///
/// # Errors
///
/// Memory for the text was refused.
pub fn unsigned_text(alloc: Global, unsigned: &RangeMap<u32, u16>) -> Result<String, AllocError>
    ensures { IfOk result (λ text. string_bytes text
        ≡ plain_map (half_open nat_cmp) (codes "..") decimal decimal unsigned.now) }
{
    format!(in alloc; "{unsigned:?}")
}

/// Returns the debug text of a map over closed ranges of signed numbers.
///
/// # Errors
///
/// Memory for the text was refused.
pub fn signed_text(alloc: Global, signed: &RangeInclusiveMap<i8, u64>) -> Result<String, AllocError>
    ensures { IfOk result (λ text. string_bytes text
        ≡ plain_map (closed ⟦<i8 as StepFns<i8>>⟧.is_key int_cmp)
        (codes "..=") signed_decimal decimal signed.now) }
{
    format!(in alloc; "{signed:?}")
}

/// Returns the debug text of a set of numbers without sign.
///
/// # Errors
///
/// Memory for the text was refused.
pub fn unsigned_set_text(alloc: Global, set: &RangeSet<u32>) -> Result<String, AllocError>
    ensures { IfOk result
        (λ text. string_bytes text ≡ plain_set (half_open nat_cmp) (codes "..") decimal set.now) }
{
    format!(in alloc; "{set:?}")
}

/// Returns the debug text of a map of numbers to ASCII texts.
///
/// # Requires
///
/// Each value is ASCII.
///
/// # Errors
///
/// Memory for the text was refused.
pub fn ascii_text(alloc: Global, texts: &RangeMap<u32, &str>) -> Result<String, AllocError>
    requires ascii { list_all (λ pair. list_all is_ascii pair.1.now) texts.now ≡ true }
    ensures { IfOk result (λ text. string_bytes text
        ≡ plain_map (half_open nat_cmp) (codes "..") decimal
        (λ value. quoted value.now) texts.now) }
{
    format!(in alloc; "{texts:?}")
}
