//! The pairs of a map or a set in chunks, each a sorted vector of up to some hundreds of pairs, so that
//! changes at random places stay fast at any size. `Chunks` makes a store of them, for `Map` and `Set`.
#![tactic(auto)]

mod changes;
mod chunk;
mod chunks;
pub mod into_iter;
pub mod iter;
mod rebalance;
mod search;

pub use chunks::{Chunks, SIZE};
