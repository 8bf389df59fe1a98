//! The run of commands on any container.

mod answers;
mod command;
mod runs;

pub use command::{Answer, Command};
pub use runs::{Outcome, run};
