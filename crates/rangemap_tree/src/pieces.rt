//! What a range leaves of a stored one that it cuts.

use std::ops::Range;

/// A pair of its own, and first a clone of its start, at which a tree keeps it.
pub type Keyed<K, V> = (K, (Range<K>, V));

/// What a change leaves of the stored pairs that its range cuts.
#[derive(Drop)]
pub struct Remains<K, V> {
    /// What is left in front, of the last pair that starts before the range: its range, cut short.
    pub cut: Option<Range<K>>,
    /// What is left behind.
    pub piece: Option<Keyed<K, V>>,
}
