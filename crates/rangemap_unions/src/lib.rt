//! The iterators of sets, over whatever store: their ranges, those that overlap a range, unions,
//! intersections and differences.
//!
//! Users name the crate `rangemap`, which has the set itself. What a list of ranges means is said in
//! `specs/Sets.antt`, beside `specs/Ranges.antt`, of `rangemap_core`.
#![tactic(auto)]

mod difference;
mod edges;
pub mod inserts;
mod intersection;
mod item;
mod ranges;
mod symmetric_difference;
mod union;

pub use difference::Difference;
pub use intersection::Intersection;
pub use ranges::{OverlappingRanges, Ranges};
pub use symmetric_difference::SymmetricDifference;
pub use union::Union;
