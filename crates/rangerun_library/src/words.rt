//! The words of a line, and those that stand for numbers and values.
ghost use Rattle.std.specs.Prelude.{◌≡◌, ◌↔◌, IsOk, IfOk, IfErr};
ghost use Rattle.std.specs.Char.{is_ascii_digit, is_ascii_lowercase};
ghost use Rattle.std.specs.List.{list_all};
ghost use Rattle.std.specs.Result.{OkIff};
ghost use Rattle.rangerun_library.specs.Words.{IsDivision, IsNumber, IsValue, number_of, words_of};

use crate::fault::Cause;
use std::str;

/// The words of a line behind its first.
#[derive(Clone, Copy, Debug)]
pub enum Operands<'a> {
    /// There are none.
    None,
    /// There is one.
    One(&'a [u8]),
    /// There are two.
    Two(&'a [u8], &'a [u8]),
    /// There are three.
    Three(&'a [u8], &'a [u8], &'a [u8]),
    /// There are more than any command has.
    More,
}

/// Divides a line into its first word and those behind it.
///
/// Words are divided by one space each, so an empty word is a word too.
pub fn divide(line: &[u8]) -> (&[u8], Operands<'_>)
    ensures { IsDivision (words_of line.now) result.0.now result.1 }
{
    let mut words = line.split(|byte| *byte == b' ');
    let first = words.next().unwrap_or(line);
    let operands = match (words.next(), words.next(), words.next(), words.next()) {
        (None, _, _, _) => Operands::None,
        (Some(one), None, _, _) => Operands::One(one),
        (Some(one), Some(two), None, _) => Operands::Two(one, two),
        (Some(one), Some(two), Some(three), None) => Operands::Three(one, two, three),
        _ => Operands::More,
    };
    (first, operands)
}

/// Returns the number that a word writes: one or more ASCII digits, of value at most `u32::MAX`, and
/// nothing else.
///
/// # Errors
///
/// `Cause::Number`, where the word is none.
#[tactic(auto, using(crate::proofs::Ascii::digits_are_text))]
pub fn number(word: &[u8]) -> Result<u32, Cause>
    ensures value { OkIff result (IsNumber word.now) (number_of word.now) }
    ensures err { IfErr result (λ cause. cause ≡ Cause.Number) }
{
    if !are_digits(word) {
        return Err(Cause::Number);
    }
    match str::from_utf8(word) {
        Ok(digits) => digits.parse().map_err(|_| Cause::Number),
        Err(_) => Err(Cause::Number),
    }
}

/// Returns the two numbers that words are, in whichever order they are.
///
/// # Errors
///
/// `Cause::Number`, where one of the words is none.
pub fn ends(start: &[u8], end: &[u8]) -> Result<(u32, u32), Cause>
    ensures ok { IfOk result (λ ends. (ends.0 ≡ number_of start.now) × (ends.1 ≡ number_of end.now)) }
    ensures succeeds { IsOk result ↔ IsNumber start.now × IsNumber end.now }
    ensures err { IfErr result (λ cause. cause ≡ Cause.Number) }
{
    let start = number(start)?;
    let end = number(end)?;
    Ok((start, end))
}

// Whether all bytes are ASCII digits.
fn are_digits(word: &[u8]) -> bool
    ensures { result ≡ list_all is_ascii_digit word.now }
{
    word.iter().all(|byte| byte.is_ascii_digit())
}

/// Returns the value that a word is: one or more letters a to z.
///
/// # Errors
///
/// `Cause::Value`, where the word is none.
#[tactic(auto, using(crate::proofs::Ascii::letters_are_text))]
pub fn value(word: &[u8]) -> Result<&str, Cause>
    ensures ok { IsOk result ↔ IsValue word.now }
    ensures same { IfOk result (λ text. text.now ≡ word.now) }
    ensures err { IfErr result (λ cause. cause ≡ Cause.Value) }
{
    if word.is_empty() || !are_letters(word) {
        return Err(Cause::Value);
    }
    str::from_utf8(word).map_err(|_| Cause::Value)
}

// Whether all bytes are letters a to z.
fn are_letters(word: &[u8]) -> bool
    ensures { result ≡ list_all is_ascii_lowercase word.now }
{
    word.iter().all(|byte| byte.is_ascii_lowercase())
}
