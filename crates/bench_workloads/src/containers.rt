//! The numbers by which a timing program names the containers. Those of maps come before `SET`, by
//! which the crate `bench_map` tells them from those of sets.

/// The map over half-open ranges.
pub const HALF_OPEN: u32 = 0;

/// The map over closed ranges.
pub const CLOSED: u32 = 1;

/// The map over half-open ranges in a tree.
pub const TREE: u32 = 2;

/// The map over half-open ranges to texts.
pub const TEXTS: u32 = 3;

/// The map over half-open ranges in chunks.
pub const CHUNKED: u32 = 4;

/// The map over closed ranges in chunks.
pub const CLOSED_CHUNKED: u32 = 5;

/// The set over half-open ranges.
pub const SET: u32 = 6;

/// The set over closed ranges.
pub const CLOSED_SET: u32 = 7;

/// The set over half-open ranges in chunks.
pub const CHUNKED_SET: u32 = 8;

/// The set over closed ranges in chunks.
pub const CLOSED_CHUNKED_SET: u32 = 9;
