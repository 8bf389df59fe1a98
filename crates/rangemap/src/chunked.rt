//! The containers that keep their ranges in chunks, for more than about a thousand ranges that
//! change at random places: the maps and the sets over half-open and closed ranges, and the runs of
//! any calls that make or change them.
//!
//! They have every call that the containers in a sorted vector have, with the same contracts. Each chunk
//! owns a handle of the allocator, so `A` must be `Clone`, as in std's B-tree.
//!
//! Each container has a module here, with the same names as the module of the container in a sorted
//! vector: `chunked::set::Gaps` beside `set::Gaps`.

pub mod inclusive_map;
pub mod inclusive_set;
pub mod map;
pub mod set;

pub use crate::range_set::Set;
pub use inclusive_map::RangeInclusiveMap;
pub use inclusive_set::RangeInclusiveSet;
pub use map::RangeMap;
pub use rangemap_containers::replay::{replay, replay as replay_with_step_fns};
pub use rangemap_maps::range_map::Map;
pub use set::RangeSet;
