//! What the program runs its lines over: a container, or the calendar.

use crate::answer::answer;
use crate::calendar_command::CalendarCommand;
use crate::command::Command;
use crate::container::NumberContainer;
use crate::fault::Cause;
use crate::listing::write_items;
use crate::value::Stored;
use calendar::{BookError, Calendar};
use std::alloc::{Allocator, Global};

/// What lines are carried out on, in memory of an allocator `A`.
pub trait Target<A: Allocator>: Drop {
    /// Returns an empty one. Its memory will come from `alloc`, but that of JSON forms from
    /// `json_alloc`.
    fn new(alloc: A, json_alloc: Global) -> Self;

    /// Carries out a line, given without its newline, and appends what it prints, if anything, to
    /// `text`.
    ///
    /// # Errors
    ///
    /// The cause for which the program stops: the line is no command, has a fault, or memory ran out.
    fn carry_out(&mut self, line: &[u8], text: &mut String<A>) -> Result<(), Cause>;
}

/// A container of the library, as a target, with the allocators that its answers are made by.
#[derive(Drop)]
pub struct ContainerTarget<A, C> {
    alloc: A,
    json_alloc: Global,
    container: C,
}

impl<A: Allocator + Copy, C: NumberContainer<Alloc = A>> Target<A> for ContainerTarget<A, C> {
    fn new(alloc: A, json_alloc: Global) -> ContainerTarget<A, C> {
        ContainerTarget {
            alloc,
            json_alloc,
            container: C::new_with_step_fns(alloc),
        }
    }

    fn carry_out(&mut self, line: &[u8], text: &mut String<A>) -> Result<(), Cause> {
        let command = Command::parse(line, C::Value::HAS_VALUE)?;
        answer(
            self.alloc,
            self.json_alloc,
            &mut self.container,
            command,
            text,
        )?;
        Ok(())
    }
}

impl<A: Allocator> Target<A> for Calendar<A> {
    fn new(alloc: A, _json_alloc: Global) -> Calendar<A> {
        Calendar::new(alloc)
    }

    fn carry_out(&mut self, line: &[u8], text: &mut String<A>) -> Result<(), Cause> {
        match CalendarCommand::parse(line)? {
            CalendarCommand::Change(call) => write_refusal(text, self.make(call)),
            CalendarCommand::Free(days) => Ok(write_items(text, self.free(&days))?),
            CalendarCommand::Iter => Ok(write_items(text, self.iter())?),
        }
    }
}

// Writes the line of a booking that is refused since a day is taken. Other refusals stop the program.
fn write_refusal<A: Allocator>(
    text: &mut String<A>,
    answer: Result<(), BookError>,
) -> Result<(), Cause> {
    match answer {
        Ok(()) => Ok(()),
        Err(BookError::Empty) => Err(Cause::EmptyRange),
        Err(BookError::Taken) => Ok(text.push_str("taken\n")?),
        Err(BookError::OutOfMemory) => Err(Cause::Memory),
    }
}
