//! Maps and sets whose keys are stored as ranges. Each function is proved to keep its contract.
//!
//! A map stores ranges of keys, each with one value. A set stores ranges of keys. Ranges that touch
//! and have equal values become one. So two containers are equal exactly if they give every key an
//! equal value, whatever calls built them. The library is a port of the Rust crate `rangemap`
//! 1.8.0.
//!
//! # Examples
//!
//! ```text
//! let mut rota = RangeMap::from(rt.alloc(), [(0..9u32, "Ann")])?;
//! rota.insert(3..6, "Bob")?;
//! println!(rt; "{rota:?}")?;
//! rota.insert(3..6, "Ann")?;
//! println!(rt; "{rota:?}")?;
//! rota.remove(2..7)?;
//! println!(rt; "{rota:?}, and at 8 {:?}", rota.get(&8))?;
//! for gap in rota.gaps(&(0..9)) {
//!     println!(rt; "nobody in {:?}", gap?)?;
//! }
//! ```
//!
//! prints `{0..3: "Ann", 3..6: "Bob", 6..9: "Ann"}`, `{0..9: "Ann"}`,
//! `{0..2: "Ann", 7..9: "Ann"}, and at 8 Some("Ann")` and `nobody in 2..7`.
//!
//! # Containers
//!
//! | Container | Keys, and what keeps the ranges |
//! |---|---|
//! | `RangeMap`, `RangeSet` | any with an order, in half-open ranges `a..b`, in a sorted vector |
//! | `RangeInclusiveMap`, `RangeInclusiveSet` | integers, `char`, and keys with steps of your own, in closed ranges `a..=b`, so that the greatest key has its place, in a sorted vector |
//! | `chunked::RangeMap`, `chunked::RangeSet`, `chunked::RangeInclusiveMap`, `chunked::RangeInclusiveSet` | as those above, in many sorted vectors, for more than about a thousand ranges that change at random places |
//! | `tree_map::RangeMap`, `tree_set::RangeSet` | as `RangeMap`, in a B-tree |
//!
//! Each container is an alias of `map::Map` or `set::Set`, where its calls are described with their
//! contracts. `container` has the trait for code that works on any container. `replay`, in the module
//! of each container, makes any list of calls. Laws of all containers are in the crate
//! `rangemap_laws`.
//!
//! `with_room` has maps in a sorted vector that are made with room for a number of ranges. Their
//! changes are proved to succeed if there is room.
//!
//! # Differences from the Rust crate
//!
//! `new` takes the allocator, calls that take memory return a `Result`, and the caller must give a range
//! that is not empty. docs/DIFFERENCES.md has all differences, and a program in both forms.
#![tactic(auto)]

pub mod chunked;
pub mod container;
pub mod inclusive_map;
pub mod inclusive_set;
mod macros;
pub mod map;
pub mod range_set;
mod segments;
pub mod set;
pub mod tree_map;
pub mod tree_set;
pub mod with_room;

pub use inclusive_map::RangeInclusiveMap;
pub use inclusive_set::RangeInclusiveSet;
pub use map::RangeMap;
pub use rangemap_formats::json::{Form, Part, ReadError, WriteError};
pub use rangemap_steps::{StepFns, StepLite};
pub use set::RangeSet;
