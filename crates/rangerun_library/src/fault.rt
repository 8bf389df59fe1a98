//! Why the program stops before the end of its input.
ghost use Rattle.std.specs.Prelude.{◌≡◌};
ghost use Rattle.rangerun_library.specs.declared.fault.Cause.TheVariants.{Memory};
ghost use Rattle.rangerun_library.specs.Faults.{fault_number, status_of};

use std::alloc::AllocError;
use std::error::Error;
use std::fmt;

/// What went wrong. The numbers are those that the program prints.
#[derive(Clone, Copy, Debug, PartialEq, Eq)]
pub enum Cause {
    /// The program was not given one word that asks for a map, a set or a calendar.
    Arguments = 1,
    /// A line begins with no command, or has too few or too many words for it.
    Command = 2,
    /// A word in a number's place is none.
    Number = 3,
    /// A range to insert or to remove holds no key.
    EmptyRange = 4,
    /// A word in a value's place is none.
    Value = 5,
    /// A read or a write failed.
    Stream = 6,
    /// Memory ran out.
    Memory = 7,
}

impl Cause {
    /// Returns the number that the program prints for this cause.
    pub fn number(self) -> u8
        ensures { result ≡ fault_number self }
    {
        self as u8
    }

    /// Returns the fault of this cause at a line. Lines count from 1, and 0 stands for the time before
    /// the first.
    pub fn at(self, line: u64) -> Fault
        ensures number { result.number ≡ fault_number self }
        ensures line { result.line ≡ line }
    {
        Fault {
            number: self.number(),
            line,
        }
    }
}

impl From<AllocError> for Cause {
    ghost from_gives = { λ _ cause. cause ≡ Memory };

    fn from(_error: AllocError) -> Cause {
        Cause::Memory
    }
}

/// The first thing that went wrong, and where.
#[derive(Clone, Copy, Debug, PartialEq, Eq)]
pub struct Fault {
    /// The number of its cause.
    pub number: u8,
    /// The line that was being read or answered, counted from 1; 0 before the first was asked for.
    pub line: u64,
}

impl Fault {
    /// Returns the exit status that tells of this fault: 3 for a stream, 4 for memory, and 2 for what
    /// was given to the program.
    pub fn status(self) -> u8
        ensures { result ≡ status_of self.number }
    {
        if self.number == Cause::Stream.number() {
            3
        } else if self.number == Cause::Memory.number() {
            4
        } else {
            2
        }
    }
}

impl fmt::Display for Fault {
    ghost use Rattle.rangerun_library.specs.Faults.{fault_text};

    ghost output = { fault_text };

    fn fmt<W: fmt::Write>(&self, f: &mut fmt::Formatter<W>) -> fmt::Result {
        write!(f, "fault {} at line {}", self.number, self.line)
    }
}

impl Error for Fault {}
