//! An allocator that refuses one request for memory, named by its number, and counts the blocks that
//! are held.

use std::alloc::{AllocError, Allocator};
use std::cell::Cell;

/// Asks another allocator for memory, refuses one request, and counts the blocks that are held.
#[derive(Drop)]
pub struct Refusing<B: Allocator> {
    inner: B,
    requests: Cell<Requests>,
}

// What an allocator was asked for.
#[derive(Clone, Copy)]
struct Requests {
    // How many more are passed on before one is refused.
    left: u64,
    // Whether that one was refused.
    has_refused: bool,
    // How many blocks were asked for, were not refused here, and were not given back.
    held: u64,
}

impl<B: Allocator> Refusing<B> {
    /// Over `inner`. The request that comes after `granted` others is refused.
    pub fn new(inner: B, granted: u64) -> Refusing<B> {
        let requests = Requests {
            left: granted,
            has_refused: false,
            held: 0,
        };
        Refusing {
            inner,
            requests: Cell::new(requests),
        }
    }

    /// From now on `granted` requests are passed on, and the one after them is refused.
    pub fn refuse_after(&self, granted: u64) {
        let mut requests = self.requests.get();
        requests.left = granted;
        requests.has_refused = false;
        self.requests.set(requests);
    }

    /// Returns whether a request was refused since it was last said which one is to be.
    pub fn has_refused(&self) -> bool {
        self.requests.get().has_refused
    }

    /// Returns the number of blocks that were asked for, were not refused here, and were not given back.
    /// One that the other allocator refused stays counted.
    pub fn held(&self) -> u64 {
        self.requests.get().held
    }
}

// Whether this request is to be refused; counts it.
fn is_refused(cell: &Cell<Requests>) -> bool {
    let mut requests = cell.get();
    let is_refused = requests.left == 0 && !requests.has_refused;
    if is_refused {
        requests.has_refused = true;
    } else {
        requests.left = requests.left.saturating_sub(1);
        requests.held = requests.held.wrapping_add(1);
    }
    cell.set(requests);
    is_refused
}

// A block is given back. (The proof of what hands it back needs a call here.)
fn give_back(cell: &Cell<Requests>) {
    let mut requests = cell.get();
    requests.held = requests.held.wrapping_sub(1);
    cell.set(requests);
}

unsafe impl<B: Allocator> Allocator for Refusing<B> {
    ghost dealloc_token = { λ heap ty ptr. B.dealloc_token heap.inner ty ptr };

    fn allocate(&self, size: usize, align: usize) -> Result<*mut u8, AllocError> {
        if is_refused(&self.requests) {
            return Err(AllocError);
        }
        self.inner.allocate(size, align)
    }

    unsafe fn deallocate(&self, ptr: *mut u8, size: usize, align: usize) {
        give_back(&self.requests);
        self.inner.deallocate(ptr, size, align);
    }
}
