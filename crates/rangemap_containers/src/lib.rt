//! What every container does, for code over any of them, and the run of any calls on a list of them.
//!
//! Users name the crate `rangemap`, which exports the trait, and the run under each container's own
//! name.
#![tactic(auto)]

pub mod calls;
pub mod container;
pub mod replay;
