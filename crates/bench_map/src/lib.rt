//! The workloads of `bench_workloads` as calls of C, for a timing program that links this library.
//!
//! The program in `bench/` makes the same calls of the Rust crate, and compares both the times and
//! the digests.
//!
//! `u64::MAX` is the answer where memory was refused, or where a number names no container that the
//! call is for.
#![tactic(auto)]

mod answer;
pub mod exports;
