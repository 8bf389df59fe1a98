//! Which handler each interrupt line has: a table that never lacks memory once it is made.
ghost use Rattle.std.specs.Prelude.{◌≡◌, ◌<◌, ◌≤◌, ℕ, [], IfOk, None, Some};
ghost use Rattle.examples.specs.Interrupts.{IsWithin, handler_of};

use rangemap::with_room::RangeMap;
use std::alloc::{AllocError, Global};

/// The handlers of sixteen lines. Each range has a line of its own, so there are at most sixteen, and a
/// change needs room for two more.
#[derive(Drop)]
pub struct Interrupts {
    handlers: RangeMap<u32, u32>,
    ghost within: { IsWithin 16 handlers.0 },
    ghost room: { 18 ≤ handlers.1 },
}

impl Interrupts {
    /// Returns the table in which no line has a handler. It takes all memory that it will need.
    ///
    /// # Errors
    ///
    /// Memory was refused.
    pub fn new(alloc: Global) -> Result<Self, AllocError>
        ensures { IfOk result (λ made. made.handlers.0 ≡ []) }
    {
        Ok(Interrupts {
            handlers: RangeMap::with_room(alloc, 18)?,
        })
    }

    /// Returns the handler of a line, if it has one.
    pub fn handler(&self, line: u32) -> Option<u32>
        ensures { result ≡ handler_of self.now.handlers.0 line }
    {
        self.handlers.get(&line).copied()
    }

    /// Gives the lines from `first` up to and without `end` a handler, whatever they had. It never
    /// fails.
    ///
    /// # Requires
    ///
    /// There is such a line, and all are among the sixteen.
    pub fn route(&mut self, first: u32, end: u32, handler: u32)
        requires some { first < end }
        requires lines { end ≤ 16 }
        ensures within { (line : ℕ) → first ≤ line → line < end → handler_of self.new.handlers.0 line ≡ Some handler }
        ensures before { (line : ℕ) → line < first → handler_of self.new.handlers.0 line ≡ handler_of self.old.handlers.0 line }
        ensures behind { (line : ℕ) → end ≤ line → handler_of self.new.handlers.0 line ≡ handler_of self.old.handlers.0 line }
    {
        self.handlers.known();
        let Ok(()) = self.handlers.insert(first..end, handler) else {
            unreachable!()
        };
    }
}
