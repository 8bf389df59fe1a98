//! Types of keys and values that rows have beside those of std, and steps that another type brings.

pub mod costly;
pub mod down;
pub mod noted;
pub mod pairs;
pub mod signed;
