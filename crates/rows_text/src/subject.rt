//! A container that is changed and asked by text.

use crate::fault::Fault;
use crate::list::first_word;

/// A container that is changed and asked by text.
///
/// It builds on no other trait and has no type of its own, so that a call through it costs the check
/// next to nothing, whatever container is behind it.
pub trait Subject {
    /// Makes it empty, and gives all memory back.
    fn renew(&mut self);

    /// Makes the call that a text names. Once it has what the call is given, the request for memory that
    /// comes after `granted` others is refused.
    fn change(&mut self, call: &str, granted: u64) -> Result<(), Fault>;

    /// Appends the answer to a question.
    fn ask(&self, question: &Question<'_>, out: &mut String) -> Result<(), Fault>;
}

/// A question, in its parts.
#[derive(Clone, Copy)]
pub struct Question<'t> {
    /// The name of the call that answers it.
    pub name: &'t str,
    /// What that is given.
    pub operand: &'t str,
    /// What is taken of an iterator.
    pub script: &'t str,
    /// The request for memory that comes after so many others is refused.
    pub granted: u64,
}

impl<'t> Question<'t> {
    /// The question that a text has: a name and what the call is given, and for an iterator what is
    /// taken of it, behind the first semicolon.
    pub fn of(text: &'t str, granted: u64) -> Question<'t> {
        let (asked, script) = text.split_once("; ").unwrap_or((text, ""));
        let (name, operand) = first_word(asked);
        Question {
            name,
            operand,
            script,
            granted,
        }
    }
}
