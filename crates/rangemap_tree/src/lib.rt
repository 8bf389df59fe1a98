//! The pairs of a map or a set in a B-tree.
//!
//! `ByStart` keeps half-open ranges by their starts, in std's tree. The engine goes over it: what a
//! query meets, and the changes, which make every clone first. `Tree` makes a store of it, for `Map`
//! and `Set`.
#![tactic(auto)]

mod by_start;
mod insert;
pub mod into_iter;
mod overlapping;
pub mod pairs;
mod pieces;
mod remove;
mod sides;
mod tree;

pub use tree::Tree;
