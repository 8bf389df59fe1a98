//! Any container as rows see it: what is written once for maps and sets.
//!
//! `subject` has the container that is changed and asked by text; `laws` runs the laws on clones of it,
//! `appends` and `stretches` make lists and maps of its pairs, `commands` runs commands on it, and
//! `replays` makes calls on a list of containers of its type. `lists` writes what a container holds.

mod appends;
mod commands;
mod laws;
mod lists;
mod replays;
mod stretches;
mod subject;

pub use subject::AnyContainer;
