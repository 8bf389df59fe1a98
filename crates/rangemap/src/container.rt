//! The trait `Container`, for code that works on any container, and the functions that use it:
//! `collect_gaps`, `insert_pairs`, `segments` and `update`.

pub use crate::segments::segments;
pub use rangemap_containers::container::{Container, collect_gaps, insert_pairs, update};
