//! The commands on a calendar, and how a line is read as one.
ghost use Rattle.std.specs.Prelude.{[], ◌∷◌};
ghost use Rattle.rangerun_library.specs.Bookings.{IsReading};
ghost use Rattle.rangerun_library.specs.Words.{words_of};

use crate::fault::Cause;
use crate::words::{self, Operands};
use calendar::Call;
use std::ops::RangeInclusive;
use std::str;

/// What a line asks for, of a calendar.
#[derive(Debug)]
pub enum CalendarCommand {
    /// Make the call.
    Change(Call),
    /// Print the stretches of days that nobody holds.
    Free(RangeInclusive<u32>),
    /// Print the stretches of days that guests hold.
    Iter,
}

impl CalendarCommand {
    /// Reads a line, given without its newline, as a command.
    ///
    /// # Errors
    ///
    /// `Cause::Command` where the line is none, and `Cause::Number` where a word in a number's place is
    /// none. Days in reverse are read: the calendar refuses them.
    pub fn parse(line: &[u8]) -> Result<CalendarCommand, Cause>
        ensures { IsReading (words_of line.now) result }
    {
        let (name, operands) = words::divide(line);
        let Ok(name) = str::from_utf8(name) else {
            return Err(Cause::Command);
        };
        match operands {
            Operands::None => parse_bare(name),
            Operands::Two(first, last) => parse_days(name, first, last),
            Operands::Three(first, last, guest) => parse_book(name, first, last, guest),
            _ => Err(Cause::Command),
        }
    }
}

// The command that a name alone is.
fn parse_bare(name: &str) -> Result<CalendarCommand, Cause>
    ensures { IsReading (name.now ∷ []) result }
{
    match name {
        "iter" => Ok(CalendarCommand::Iter),
        _ => Err(Cause::Command),
    }
}

// The command that a name and two operands are.
fn parse_days(name: &str, first: &[u8], last: &[u8]) -> Result<CalendarCommand, Cause>
    ensures { IsReading (name.now ∷ first.now ∷ last.now ∷ []) result }
{
    match name {
        "cancel" => {
            let (first, last) = words::ends(first, last)?;
            Ok(CalendarCommand::Change(Call::Cancel { first, last }))
        }
        "free" => {
            let (first, last) = words::ends(first, last)?;
            Ok(CalendarCommand::Free(first..=last))
        }
        _ => Err(Cause::Command),
    }
}

// The command that a name and three operands are.
fn parse_book(name: &str, first: &[u8], last: &[u8], guest: &[u8]) -> Result<CalendarCommand, Cause>
    ensures { IsReading (name.now ∷ first.now ∷ last.now ∷ guest.now ∷ []) result }
{
    match name {
        "book" => {
            let (first, last) = words::ends(first, last)?;
            let guest = words::number(guest)?;
            Ok(CalendarCommand::Change(Call::Book { first, last, guest }))
        }
        _ => Err(Cause::Command),
    }
}
