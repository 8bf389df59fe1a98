//! The JSON form as rows see it: what is written of a container, what is read again, and what is
//! refused.
//!
//! `parts` writes and reads keys and values, and `readings` the operands of questions. `maps` and
//! `sets` have the containers that are written and read; `map_round_trips` and `set_round_trips` those
//! of numbers, of which the laws make what they are made again of.

mod map_round_trips;
mod maps;
mod parts;
mod readings;
mod set_round_trips;
mod sets;

pub use map_round_trips::MapRoundTrips;
pub use maps::JsonMap;
pub use parts::{JsonWord, PartFault};
pub use set_round_trips::SetRoundTrips;
pub use sets::JsonSet;
