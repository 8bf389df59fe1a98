//! Commands on a map, and what they return, as values.
use std::alloc::Allocator;
use std::vec::Vec;

/// A command on a map with keys of type `K`, over ranges of type `R`.
#[derive(Debug, Drop)]
pub enum Command<K, R, V> {
    /// Gives the keys of the range the value.
    Insert(R, V),
    /// Takes the keys of the range out.
    Remove(R),
    /// Takes every key out.
    Clear,
    /// Asks for the number of stored ranges.
    Len,
    /// Asks for the value of a key.
    Get(K),
    /// Asks for the stored range that has a key, and its value.
    GetKeyValue(K),
    /// Asks for all pairs.
    All,
    /// Asks for the pairs that overlap a range.
    Overlapping(R),
}

/// What an accepted command returns: clones of what it asked for.
#[derive(Debug, Drop)]
pub enum Answer<R, V, A: Allocator> {
    /// The map was changed.
    Done,
    /// The number of stored ranges.
    Len(usize),
    /// The value of the key, if it has one.
    Value(Option<V>),
    /// The stored range that has the key, if there is one, and its value.
    Pair(Option<(R, V)>),
    /// The pairs, in order.
    Pairs(Vec<(R, V), A>),
}
