//! Whole workloads over the maps and sets, each inside one call, for a timing program.
//!
//! A workload makes a container of `entries`, does its work `rounds` times and answers a digest of
//! all that the container answered. What is proved of it is that it is safe and returns; what it
//! answers is tested, and each run of the bench compares the digests with those of the Rust crate.
#![tactic(auto)]

pub mod containers;
pub mod digest;
pub mod dispatch;
pub mod input;
pub mod keys;
pub mod readers;
pub mod set_store;
pub mod store;
mod tell;
pub mod value;
pub mod workloads;
