//! The macros that create a container from a list.

/// Creates a `RangeMap` from a list of ranges and values, as `RangeMap::from` does from these
/// pairs.
///
/// The allocator comes first. The list may be empty, and may end in a comma.
///
/// # Requires
///
/// What `RangeMap::from` does.
///
/// # Errors
///
/// Those of `RangeMap::from`.
///
/// # Examples
///
/// ```text
/// let map = range_map!{ in alloc; 0..100 => "abc", 200..300 => "ghi" }?;
/// ```
#[macro_export]
macro_rules! range_map {
    (in $alloc:expr; $($range:expr => $value:expr),* $(,)?) => {
        $crate::RangeMap::from($alloc, [$(($range, $value)),*])
    };
}

/// Creates a `RangeInclusiveMap` from a list of ranges and values, as `RangeInclusiveMap::from`
/// does from these pairs. The list is written as in `range_map!`.
///
/// # Requires
///
/// What `RangeInclusiveMap::from` does.
///
/// # Errors
///
/// Those of `RangeInclusiveMap::from`.
///
/// # Examples
///
/// ```text
/// let map = range_inclusive_map!{ in alloc; 0..=100 => "abc", 200..=300 => "ghi" }?;
/// ```
#[macro_export]
macro_rules! range_inclusive_map {
    (in $alloc:expr; $($range:expr => $value:expr),* $(,)?) => {
        $crate::RangeInclusiveMap::from($alloc, [$(($range, $value)),*])
    };
}

/// Creates a `RangeSet` from a list of ranges, as `RangeSet::from` does. The allocator comes first.
/// The list may be empty, and may end in a comma.
///
/// # Requires
///
/// What `RangeSet::from` does.
///
/// # Errors
///
/// Those of `RangeSet::from`.
///
/// # Examples
///
/// ```text
/// let set = range_set![in alloc; 0..100, 200..300]?;
/// ```
#[macro_export]
macro_rules! range_set {
    (in $alloc:expr; $($range:expr),* $(,)?) => {
        $crate::RangeSet::from($alloc, [$($range),*])
    };
}

/// Creates a `RangeInclusiveSet` from a list of ranges, as `RangeInclusiveSet::from` does. The list
/// is written as in `range_set!`.
///
/// # Requires
///
/// What `RangeInclusiveSet::from` does.
///
/// # Errors
///
/// Those of `RangeInclusiveSet::from`.
///
/// # Examples
///
/// ```text
/// let set = range_inclusive_set![in alloc; 0..=100, 200..=300]?;
/// ```
#[macro_export]
macro_rules! range_inclusive_set {
    (in $alloc:expr; $($range:expr),* $(,)?) => {
        $crate::RangeInclusiveSet::from($alloc, [$($range),*])
    };
}
