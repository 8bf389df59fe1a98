//! Memory of which a request can be refused.

use crate::refusing::Refusing;
use std::alloc::{Allocator, Global};

/// Where containers of rows take their memory from.
pub type Heap = Refusing<Global>;

/// A text in such memory.
pub type Text<'h> = String<&'h Heap>;

/// Memory of which a request can be refused.
pub trait Memory: Allocator + Copy {
    /// From now on the request that comes after `granted` others is refused.
    fn begin(self, granted: u64);

    /// No request is refused any more.
    fn end(self);
}

impl<'h> Memory for &'h Heap {
    fn begin(self, granted: u64) {
        self.refuse_after(granted);
    }

    fn end(self) {
        // After a refusal none follows, and whether there was one stays to be asked.
        if !self.has_refused() {
            self.refuse_after(u64::MAX);
        }
    }
}
