//! What was found, compared with what is expected.
//!
//! What differs is told as a `Fail`, except by `assert_same`, which ends the test.

use rows_text::Heap;
use std::alloc::{AllocError, Global};
use std::fmt::{Debug, Display};
use std::process::Abort;
use std::test::Fail;

/// A number of requests that no call here makes.
pub const MANY: u64 = 1000;

/// Tells what is not as it is expected.
pub fn check_that<T: Display + Drop>(is_expected: bool, what: T) -> Result<(), Fail> {
    if is_expected {
        Ok(())
    } else {
        Err(Fail::new(what))
    }
}

/// Tells of a value that is not the one expected.
pub fn check_same<T: PartialEq + Debug + Drop>(found: T, expected: T) -> Result<(), Fail> {
    check_that(
        found == expected,
        format_args!("{found:?} is not {expected:?}"),
    )
}

/// Compares the debug text of a value.
pub fn check_text<T: Debug>(alloc: Global, value: &T, text: &str) -> Result<(), Fail> {
    let written = format!(in alloc; "{value:?}")?;
    check_same(written.as_str(), text)
}

/// Compares the debug text of what a call made, unless it was refused memory. Where several calls are
/// compared, this costs the check less than a `?` at each.
pub fn check_made<T: Debug + Drop>(
    alloc: Global,
    made: Result<T, AllocError>,
    text: &str,
) -> Result<(), Fail> {
    check_text(alloc, &made?, text)
}

/// Of a call, how many requests for memory it is refused without, and how many it makes behind these
/// and does without.
pub type Requests = (u64, u64);

/// Compares the debug text of what a call made in a heap that was to refuse the request that comes
/// after `granted` others, or sees that it was refused. It made as many requests as it is said to,
/// and no block of it stays held.
pub fn check_tried<T: Debug + Drop>(
    (heap, alloc): (&Heap, Global),
    requests: Requests,
    granted: u64,
    made: Result<T, AllocError>,
    text: &str,
) -> Result<(), Fail> {
    let has_refused = heap.has_refused();
    let is_made = match made {
        Ok(made) => {
            check_text(alloc, &made, text)?;
            true
        }
        Err(AllocError) => false,
    };
    let all = requests.0.saturating_add(requests.1);
    check_same(
        (is_made, has_refused, heap.held()),
        (requests.0 <= granted, granted < all, 0),
    )
}

/// Ends the test where what was found is not what is expected, as `assert_eq!` does, to which it
/// hands both.
///
/// A test calls it in place of that macro, which borrows both sides: with several of these the
/// check of a test takes five times as long. Where the proof of a later call rests on what was
/// compared, the macro stays.
pub fn assert_same<T: PartialEq + Debug + Drop, R: Abort>(rt: &R, found: T, expected: T) {
    assert_eq!(rt; found, expected);
}
