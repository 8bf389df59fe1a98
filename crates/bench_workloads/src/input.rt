//! What a timing program passes.

/// The keys from `start` up to, and without, `end`, and their value.
#[repr(C)]
pub struct Entry {
    /// The first key.
    pub start: u64,
    /// The key behind the last.
    pub end: u64,
    /// The value.
    pub value: u32,
    /// Fills the struct up to a multiple of eight bytes, as C lays it out.
    pub pad: u32,
}

/// The keys from `start` up to, and without, `end`.
#[repr(C)]
pub struct Query {
    /// The first key.
    pub start: u64,
    /// The key behind the last.
    pub end: u64,
}
