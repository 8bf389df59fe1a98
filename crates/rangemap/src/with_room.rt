//! Maps for programs that may not fail later: drivers, interrupt tables, loops with a deadline.
//!
//! Such a program takes its memory when it starts. `with_room` makes an empty map that has room for a
//! number of ranges. If clones of keys and values cannot fail, as those of numbers, characters and
//! references, these calls are proved to succeed:
//!
//! - `insert`, if two more ranges have room;
//! - `remove`, if one more range has room.
//!
//! The contracts of a `Map` do not say when a change succeeds, because they see only its list.
//!
//! A call that lacks room asks the allocator for more. If the allocator refuses, the call returns an
//! error, drops its arguments and changes no range. Room never shrinks.
//!
//! A set with room is a map with the value `()`: `insert(range, ())` adds the keys of a range, and
//! `contains_key`, `overlaps` and `covers` ask for them.
//!
//! # Examples
//!
//! ```text
//! // sixteen lines need sixteen ranges at most, and a change needs room for two more
//! let mut handlers: RangeMap<u32, u32> = RangeMap::with_room(alloc, 18)?;
//! let Ok(()) = handlers.insert(0..16, 7) else { unreachable!() };
//! let Ok(()) = handlers.remove(4..6) else { unreachable!() };
//! ```

use rangemap_core::closed::Closed;
use rangemap_core::half_open::HalfOpen;
pub use rangemap_maps::range_map::with_room::MapWithRoom;
use rangemap_sorted::SortedVec;
use std::alloc::Global;
use std::ops::{Range, RangeInclusive};

/// A map with room of disjoint half-open ranges, `a..b`, to values, in one sorted vector.
///
/// `MapWithRoom` describes each call with its contract.
pub type RangeMap<K, V, A = Global> = MapWithRoom<SortedVec<HalfOpen, Range<K>, V, A>>;

/// A map with room of disjoint closed ranges, `a..=b`, to values, in one sorted vector. The steps of
/// `StepFnsT`, mostly `K` itself, tell which ranges touch.
///
/// `MapWithRoom` describes each call with its contract.
pub type RangeInclusiveMap<K, V, StepFnsT = K, A = Global> = MapWithRoom<
    SortedVec<Closed<StepFnsT>, RangeInclusive<K>, V, A>,
>;
