//! A calendar of reservations: which guest holds which day.
//!
//! It stands on the public calls of `RangeInclusiveMap` alone, with day numbers as keys and guest
//! numbers as values. `replay` has its theorem: the calendar keeps its days.
#![tactic(auto)]

ghost use Rattle.std.specs.Prelude.{◌≡◌, [], OnErr, OnOk, map, nat_eq};
ghost use Rattle.std.specs.Bool.{OnFalse, OnTrue};
ghost use Rattle.rangemap.specs.Ranges.{AreGaps, IsCanonOf, IsCanonical};
ghost use Rattle.std.specs.Range.{range_inclusive_end, range_inclusive_start};
ghost use Rattle.calendar.specs.Bookings.{AreFree, HasDay, IsBookAnswer, IsCancelAnswer, IsDaysAnswer, IsHeld, booked, cancelled, days as day_ranges, holder_of};

mod history;

pub use history::{Call, replay};
use rangemap::inclusive_map::{Gaps, Iter};
use rangemap::{RangeInclusiveMap, StepLite};
use std::alloc::{AllocError, Allocator, Global};
use std::error::Error;
use std::fmt;
use std::marker::Model;
use std::ops::RangeInclusive;

/// Why days were not booked or freed.
#[derive(Clone, Copy, Debug, PartialEq, Eq)]
pub enum BookError {
    /// The first day comes after the last, or the range of days was iterated to its end.
    Empty,
    /// A guest holds one of the days.
    Taken,
    /// Memory ran out.
    OutOfMemory,
}

impl From<AllocError> for BookError {
    ghost use Rattle.std.specs.Prelude.{◌≡◌};
    ghost use Rattle.calendar.specs.declared.BookError.TheVariants.{OutOfMemory};

    ghost from_gives = { λ _ error. error ≡ OutOfMemory };

    fn from(_error: AllocError) -> BookError {
        BookError::OutOfMemory
    }
}

impl fmt::Display for BookError {
    ghost use Rattle.std.specs.Prelude.{Some};
    ghost use Rattle.calendar.specs.Faults.{book_error_text};

    ghost output = { λ error. Some (book_error_text error) };

    fn fmt<W: fmt::Write>(&self, f: &mut fmt::Formatter<W>) -> fmt::Result {
        match self {
            BookError::Empty => f.write_str("there is no day in the range"),
            BookError::Taken => f.write_str("a guest holds one of the days"),
            BookError::OutOfMemory => f.write_str("out of memory"),
        }
    }
}

impl Error for BookError {}

/// Which guest holds which day.
///
/// Where *n* stretches of days are held, `holder` takes *O*(log *n*), `book` and `book_days` that
/// and a move of what lies behind the days, `cancel` *O*(log *n* + *k*) and such a move, where it
/// meets *k* stretches. `free` and `iter` take what the map's calls do.
#[derive(Drop)]
pub struct Calendar<A: Allocator = Global> {
    days: RangeInclusiveMap<u32, u32, u32, A>,
}

impl<A: Allocator> Model for Calendar<A> {
    ghost use Rattle.std.specs.Prelude.{List, ℕ};
    ghost use Rattle.std.specs.declared.ops.RangeInclusive.{RangeInclusive as RangeOf};

    ghost Value = { List (RangeOf ℕ × ℕ) };

    ghost view = { λ c. c.days };
}

impl<A: Allocator> Calendar<A> {
    /// Returns the empty calendar, whose memory will come from `alloc`. It takes none yet.
    pub fn new(alloc: A) -> Self
        ensures { result ≡ [] }
    {
        Calendar {
            days: RangeInclusiveMap::new(alloc),
        }
    }

    /// Gives the days from `first` to `last` to the guest. Bookings of one guest that touch become
    /// one.
    ///
    /// # Errors
    ///
    /// Refused are, in this order, a first day after the last, days of which one is held, and want
    /// of memory. A refusal changes nothing.
    pub fn book(&mut self, first: u32, last: u32, guest: u32) -> Result<(), BookError>
        ensures answer { IsBookAnswer (holder_of self.old) first last result }
        ensures ok { OnOk result (IsCanonOf day_ranges nat_eq (booked first last guest (holder_of self.old)) self.new) }
        ensures err { OnErr result (self.new ≡ self.old) }
    {
        self.book_days(first..=last, guest)
    }

    /// Gives the days of a range to the guest, as `book` does.
    ///
    /// # Errors
    ///
    /// Those of `book`. A range that was iterated to its end has no day, whatever its ends say, and
    /// is refused as empty; of one that was iterated in part the days that are left are booked.
    pub fn book_days(&mut self, days: RangeInclusive<u32>, guest: u32) -> Result<(), BookError>
        ensures answer { IsDaysAnswer (holder_of self.old) days result }
        ensures ok { OnOk result (IsCanonOf day_ranges nat_eq (booked (range_inclusive_start days) (range_inclusive_end days) guest (holder_of self.old)) self.new) }
        ensures err { OnErr result (self.new ≡ self.old) }
    {
        // This sees more than the ends do: an iteration moves the start up to the end, and not past
        // it.
        if days.is_empty() {
            return Err(BookError::Empty);
        }
        if self.is_held(&days) {
            return Err(BookError::Taken);
        }
        self.days.insert(days, guest)?;
        Ok(())
    }

    // Whether someone holds one of the days.
    fn is_held(&self, days: &RangeInclusive<u32>) -> bool
        requires { HasDay days.now }
        ensures held { OnTrue result (IsHeld (holder_of self.now) (range_inclusive_start days.now) (range_inclusive_end days.now)) }
        ensures free { OnFalse result (AreFree (holder_of self.now) (range_inclusive_start days.now) (range_inclusive_end days.now)) }
    {
        self.days.known();
        // The end of the days is a key, as the lemma on `overlaps` asks.
        days.end().known();
        self.days.overlaps(days)
    }

    /// Frees the days from `first` to `last`, whoever holds them.
    ///
    /// # Errors
    ///
    /// Refused are a first day after the last, and want of memory, which is met only where one of
    /// the days is held. A refusal changes nothing.
    pub fn cancel(&mut self, first: u32, last: u32) -> Result<(), BookError>
        ensures answer { IsCancelAnswer (holder_of self.old) first last result }
        ensures ok { OnOk result (IsCanonOf day_ranges nat_eq (cancelled first last (holder_of self.old)) self.new) }
        ensures err { OnErr result (self.new ≡ self.old) }
    {
        if first > last {
            return Err(BookError::Empty);
        }
        self.days.known();
        self.days.remove(first..=last)?;
        Ok(())
    }

    /// Returns the guest who holds the day, if one does.
    pub fn holder(&self, day: u32) -> Option<u32>
        ensures { result ≡ holder_of self.now day }
    {
        self.days.get(&day).copied()
    }

    /// Returns the stretches of `days` that nobody holds, in order. Nothing is asked of `days`.
    pub fn free<'a>(&'a self, days: &'a RangeInclusive<u32>) -> Gaps<'a, u32, u32>
        ensures { AreGaps day_ranges (map (λ pair. pair.0) self.now) days.now result }
    {
        self.days.gaps(days)
    }

    /// Returns the stretches of days that one guest holds, in order, from both ends.
    pub fn iter(&self) -> Iter<'_, u32, u32>
        ensures all { result ≡ self.now }
        ensures canonical { IsCanonical day_ranges nat_eq self.now }
    {
        self.days.iter()
    }
}
