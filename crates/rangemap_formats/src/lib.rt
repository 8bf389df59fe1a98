//! What is done with all pairs of a store, for every map and set: equality and order, what a hasher
//! is fed, the debug text and the JSON form.
#![tactic(auto)]

pub mod compare;
pub mod hash;
pub mod json;
pub mod text;
