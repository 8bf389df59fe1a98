//! What the program `rangerun` does: the commands of its lines, carried out over a map, a set or a
//! calendar of ranges.
//!
//! `serve` takes the arguments and the streams that the system hands to the program, or others that a
//! test hands to it. `run` takes the arguments as texts, and `run_in` an allocator too, which a test can
//! let refuse.
#![tactic(auto)]

mod answer;
mod calendar_command;
mod command;
mod container;
mod fault;
mod lines;
mod listing;
mod program;
mod range;
mod session;
mod target;
mod value;
mod words;

pub use fault::{Cause, Fault};
pub use program::{arguments_fault, report, serve};
pub use session::{run, run_in};
