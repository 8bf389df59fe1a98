//! The commands, and how a line is read as one.
ghost use Rattle.std.specs.Prelude.{◌≡◌, ◌≢◌, ◌↔◌, Bool, [], ◌∷◌, false, true, IsOk, IfOk, IfErr, IsErrOf};
ghost use Rattle.rangerun_library.specs.Words.{AreEnds, IsNumber, IsValue, holds_key, number_of, words_of};
ghost use Rattle.rangerun_library.specs.Readings.{IsReading};

use crate::fault::Cause;
use crate::range::{NumberRange, Span};
use crate::words::{self, Operands};
use std::str;

/// What a line asks for, of a container of ranges `R`.
#[derive(Debug, Drop)]
pub enum Command<'a, R: NumberRange> {
    /// Give the keys of a range the value that a word writes. The word is empty where the container is
    /// a set, whose inserts have none.
    Insert(Span<R>, &'a str),
    /// Take the keys of a range out.
    Remove(Span<R>),
    /// Take every key out.
    Clear,
    /// Print the answer to a question, which leaves the container as it is.
    Ask(Question<R>),
}

/// What a line asks a container of ranges `R`.
#[derive(Debug, Drop)]
pub enum Question<R> {
    /// Which item has a key.
    Get(u32),
    /// Which is the first item.
    First,
    /// Which is the last item.
    Last,
    /// Which are all items.
    Iter,
    /// How many items there are.
    Len,
    /// Which items a range overlaps.
    Overlapping(R),
    /// Whether a range overlaps any item.
    Overlaps(R),
    /// Which parts of a range no item has.
    Gaps(R),
    /// What the JSON form of the container is.
    Json,
}

impl<'a, R: NumberRange> Command<'a, R> {
    /// Reads a line, given without its newline, as a command on a container whose inserts have a
    /// value or have none.
    ///
    /// # Errors
    ///
    /// Of several faults in a line the one whose cause has the least number is told: `Cause::Command`,
    /// `Cause::Number`, `Cause::EmptyRange` or `Cause::Value`.
    pub fn parse(line: &'a [u8], has_value: bool) -> Result<Command<'a, R>, Cause>
        ensures { IsReading has_value (words_of line.now) result }
    {
        let (name, operands) = words::divide(line);
        let Ok(name) = str::from_utf8(name) else {
            return Err(Cause::Command);
        };
        match operands {
            Operands::None => parse_bare(name),
            Operands::One(key) => parse_get(name, key),
            Operands::Two(start, end) => parse_ends(name, start, end, has_value),
            Operands::Three(start, end, value) if has_value => {
                parse_valued(name, start, end, value)
            }
            _ => Err(Cause::Command),
        }
    }
}

// The command that a name alone is.
fn parse_bare<'a, R: NumberRange>(name: &str) -> Result<Command<'a, R>, Cause>
    ensures { (has_value : Bool) → IsReading has_value (name.now ∷ []) result }
{
    match name {
        "clear" => Ok(Command::Clear),
        "first" => Ok(Command::Ask(Question::First)),
        "last" => Ok(Command::Ask(Question::Last)),
        "iter" => Ok(Command::Ask(Question::Iter)),
        "len" => Ok(Command::Ask(Question::Len)),
        "json" => Ok(Command::Ask(Question::Json)),
        _ => Err(Cause::Command),
    }
}

// The command that a name and one operand are.
fn parse_get<'a, R: NumberRange>(name: &str, key: &[u8]) -> Result<Command<'a, R>, Cause>
    ensures { (has_value : Bool) → IsReading has_value (name.now ∷ key.now ∷ []) result }
{
    match name {
        "get" => Ok(Command::Ask(Question::Get(words::number(key)?))),
        _ => Err(Cause::Command),
    }
}

// The command that a name and two operands are.
fn parse_ends<'a, R: NumberRange>(
    name: &str,
    start: &[u8],
    end: &[u8],
    has_value: bool,
) -> Result<Command<'a, R>, Cause>
    ensures { IsReading has_value (name.now ∷ start.now ∷ end.now ∷ []) result }
{
    match name {
        "insert" => {
            if has_value {
                return Err(Cause::Command);
            }
            // An insert into a set has no word behind its range.
            Ok(Command::Insert(parse_span(start, end)?, ""))
        }
        "remove" => Ok(Command::Remove(parse_span(start, end)?)),
        "overlapping" => Ok(Command::Ask(Question::Overlapping(parse_query(start, end)?))),
        "overlaps" => Ok(Command::Ask(Question::Overlaps(parse_query(start, end)?))),
        "gaps" => Ok(Command::Ask(Question::Gaps(parse_query(start, end)?))),
        _ => Err(Cause::Command),
    }
}

// The command that a name and three operands are, where an insert has a value.
fn parse_valued<'a, R: NumberRange>(
    name: &str,
    start: &[u8],
    end: &[u8],
    value: &'a [u8],
) -> Result<Command<'a, R>, Cause>
    ensures { IsReading true (name.now ∷ start.now ∷ end.now ∷ value.now ∷ []) result }
{
    match name {
        "insert" => {
            let (span, value) = parse_pair(start, end, value)?;
            Ok(Command::Insert(span, value))
        }
        _ => Err(Cause::Command),
    }
}

// The range that two words give the ends of, and the value that a third is.
fn parse_pair<'a, R: NumberRange>(
    start: &[u8],
    end: &[u8],
    value: &'a [u8],
) -> Result<(Span<R>, &'a str), Cause>
    ensures ok { IfOk result (λ pair. (pair.0.start ≡ number_of start.now) × (pair.0.end ≡ number_of end.now) × (pair.1.now ≡ value.now)) }
    ensures succeeds { IsOk result ↔ AreEnds R.has_end start.now end.now × IsValue value.now }
    ensures number { IsErrOf result Cause.Number ↔ ¬ (IsNumber start.now × IsNumber end.now) }
    ensures empty { IsErrOf result Cause.EmptyRange ↔ IsNumber start.now × IsNumber end.now × (holds_key R.has_end (number_of start.now) (number_of end.now) ≡ false) }
    ensures value { IsErrOf result Cause.Value ↔ AreEnds R.has_end start.now end.now × (¬ IsValue value.now) }
{
    let span = parse_span(start, end)?;
    let value = words::value(value)?;
    Ok((span, value))
}

// The range, with a key in it, that two words give the ends of.
fn parse_span<R: NumberRange>(start: &[u8], end: &[u8]) -> Result<Span<R>, Cause>
    ensures ok { IfOk result (λ span. (span.start ≡ number_of start.now) × (span.end ≡ number_of end.now)) }
    ensures succeeds { IsOk result ↔ AreEnds R.has_end start.now end.now }
    ensures number { IsErrOf result Cause.Number ↔ ¬ (IsNumber start.now × IsNumber end.now) }
    ensures empty { IsErrOf result Cause.EmptyRange ↔ IsNumber start.now × IsNumber end.now × (holds_key R.has_end (number_of start.now) (number_of end.now) ≡ false) }
    ensures value { result ≢ Err Cause.Value }
{
    let (start, end) = words::ends(start, end)?;
    Span::new(start, end).ok_or(Cause::EmptyRange)
}

// The range that two words give the ends of, in whichever order they are.
fn parse_query<R: NumberRange>(start: &[u8], end: &[u8]) -> Result<R, Cause>
    ensures ok { IfOk result (λ range. (R.read.start range ≡ number_of start.now) × (R.read.end range ≡ number_of end.now)) }
    ensures succeeds { IsOk result ↔ IsNumber start.now × IsNumber end.now }
    ensures non_empty { IfOk result (λ range. R.read.IsNonEmpty range ↔ (holds_key R.has_end (number_of start.now) (number_of end.now) ≡ true)) }
    ensures err { IfErr result (λ cause. cause ≡ Cause.Number) }
{
    let (start, end) = words::ends(start, end)?;
    Ok(R::of_ends(start, end))
}
