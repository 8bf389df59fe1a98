//! Any list of calls on a calendar, and what they leave.
ghost use Rattle.std.specs.Prelude.{◌≡◌, ℕ, IfOk, OnErr};
ghost use Rattle.calendar.specs.Bookings.{AreAnswers, IsDay, IsMadeAnswer, holder_of, holders, made};

use crate::{BookError, Calendar};
use std::alloc::{AllocError, Allocator};

/// A call that changes a calendar.
#[derive(Clone, Copy, Debug, PartialEq, Eq)]
pub enum Call {
    /// Gives the days to the guest, if nobody holds one of them.
    Book { first: u32, last: u32, guest: u32 },
    /// Frees the days.
    Cancel { first: u32, last: u32 },
}

impl<A: Allocator> Calendar<A> {
    /// Makes the call, and returns its answer.
    ///
    /// # Errors
    ///
    /// Those of `book` and `cancel`.
    pub fn make(&mut self, call: Call) -> Result<(), BookError>
        ensures answer { IsMadeAnswer (holder_of self.old) call result }
        ensures holders { (day : ℕ) → IsDay day → holder_of self.new day ≡ made (holder_of self.old) call result day }
        ensures err { OnErr result (self.new ≡ self.old) }
    {
        match call {
            Call::Book { first, last, guest } => self.book(first, last, guest),
            Call::Cancel { first, last } => self.cancel(first, last),
        }
    }
}

/// Makes any list of calls on a calendar, in order, and returns their answers. It takes what the
/// calls take.
///
/// The calendar keeps its days: what `holder` then gives are the holders of these calls, which an
/// accepted `book` overrides and an accepted `cancel` erases, and each answer is as the holders
/// were when the call was made. So an accepted `book` covered only free days.
///
/// # Errors
///
/// There was no memory for the answers: then no call was made.
pub fn replay<A: Allocator>(
    alloc: A,
    calendar: &mut Calendar<A>,
    calls: Vec<Call, A>,
) -> Result<Vec<Result<(), BookError>, A>, AllocError>
    ensures answers { IfOk result (λ answers. AreAnswers (holder_of calendar.old) calls.items answers.items) }
    ensures holders { IfOk result (λ answers. (day : ℕ) → IsDay day → holder_of calendar.new day ≡ holders (holder_of calendar.old) calls.items answers.items day) }
    ensures err { OnErr result (calendar.new ≡ calendar.old) }
{
    let mut answers = Vec::with_capacity(alloc, calls.len())?;
    for call in calls {
        let answer = calendar.make(call);
        answers.push_reserved(answer);
    }
    Ok(answers)
}
