//! The pairs of a map or a set in one sorted vector.
//!
//! The engine goes over slices of pairs, for any kind of range: the search by halving, what a query
//! meets, and the changes, which make every clone and all room that they need first.
//! `SortedVec` makes a store of it, for `Map` and `Set`.
#![tactic(auto)]

pub mod entries;
pub mod overlapping;
mod probe;
mod search;
mod sorted_vec;
pub mod splice;

pub use sorted_vec::SortedVec;
