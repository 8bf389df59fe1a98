//! What a call of C answers.

use std::alloc::AllocError;

/// Returns the digest, or `u64::MAX` where memory was refused or the call is for no such container.
pub fn answer(digest: Result<u64, AllocError>) -> u64 {
    match digest {
        Ok(digest) => digest,
        Err(_) => u64::MAX,
    }
}
