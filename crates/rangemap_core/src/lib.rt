//! The base of every map and set: ranges and their kinds, the traits of a store, and the iterators over
//! its pairs.
//!
//! Users name the crate `rangemap`, which exports the containers. `specs/Ranges.antt` says what a list
//! of ranges with values means. Every public contract uses its words.
#![tactic(auto)]

pub mod closed;
pub mod common;
pub mod cursor;
pub mod gaps;
pub mod half_open;
pub mod key_range;
pub mod kind;
pub mod pair_iter;
pub mod pairs;
pub mod reader;
pub mod store;
mod vectors;
