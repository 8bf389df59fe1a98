//! Containers that are compared and hashed.
ghost use Rattle.std.specs.Prelude.{◌≡◌};

use std::cmp::Ordering;
use std::hash::{Hash, Hasher};

/// Whether containers lie in ascending order, and so do the same ones made again: each of the first is
/// compared with all of the others.
pub fn are_ascending<M: Ord>(made: &[M], again: &[M]) -> bool {
    for (place, one) in made.iter().enumerate() {
        if !is_at(place, one, again) {
            return false;
        }
    }
    true
}

// Whether one is equal to that at this place of a list in ascending order.
fn is_at<M: Ord>(place: usize, one: &M, all: &[M]) -> bool {
    for (at, other) in all.iter().enumerate() {
        if !lies(one, other, place.cmp(&at)) {
            return false;
        }
    }
    true
}

// Whether one lies so to the other, by `cmp`, by `partial_cmp`, by the operators and by `==`.
fn lies<M: Ord>(one: &M, other: &M, order: Ordering) -> bool {
    let by_operators = (one < other, one == other, one > other);
    one.cmp(other) == order
        && one.partial_cmp(other) == Some(order)
        && by_operators == (order.is_lt(), order.is_eq(), order.is_gt())
}

/// Whether the first two of some containers are equal and hash alike, and no other is equal to them or
/// hashes so.
///
/// That equal ones hash alike is proved. That others mostly do not is shown so: one that feeds less
/// than its pairs would still hash alike where it is equal.
pub fn are_hashed<M: Ord + Hash>(made: &[M]) -> bool {
    let Some(first) = made.first() else {
        return false;
    };
    let hash = hash_of(first);
    for (place, other) in made.iter().enumerate() {
        let is_same = place < 2;
        if (hash_of(other) == hash) != is_same || first.cmp(other).is_eq() != is_same {
            return false;
        }
    }
    made.len() > 2
}

/// What the folding hasher makes of a container.
pub fn hash_of<M: Hash>(container: &M) -> u64 {
    let mut state = Folding::new();
    container.hash(&mut state);
    state.finish()
}

/// Folds each byte into its value as `value * 31 + byte`, wrapping. Any byte that is left out of what a
/// container feeds, or fed in another order, so gives another value.
#[derive(Drop)]
pub struct Folding(u64);

impl Folding {
    /// Was fed nothing yet.
    pub fn new() -> Folding
        ensures { result ≡ record { 0 = 0 } }
    {
        Folding(0)
    }
}

impl Hasher for Folding {
    ghost use Rattle.std.specs.Prelude.{◌+◌, ◌*◌, ◌%◌, ◌^◌, fold};

    ghost write = { λ hasher bytes. record { 0 = fold (λ value byte. ((value * 31) % 2 ^ 64 + byte) % 2 ^ 64) hasher.0 bytes } };

    ghost finish = { λ hasher. hasher.0 };

    fn finish(&self) -> u64 {
        self.0
    }

    fn write(&mut self, bytes: &[u8]) {
        for byte in bytes {
            self.0 = self.0.wrapping_mul(31).wrapping_add(*byte as u64);
        }
    }
}
