//! Which bytes of a file are at hand, and which have to be fetched.
ghost use Rattle.std.specs.Prelude.{◌≡◌, ◌<◌, List, [], ◌∷◌, IfOk, OnErr, OnOk};
ghost use Rattle.std.specs.Ordering.{nat_cmp};
ghost use Rattle.std.specs.declared.ops.Range.{Range as RangeOf};
ghost use Rattle.rangemap.specs.Ranges.{AreGaps, half_open};
ghost use Rattle.rangemap.specs.Sets.{Adds};

use rangemap::RangeSet;
use std::alloc::{AllocError, Global};
use std::ops::Range;

/// The bytes of a file that are at hand.
#[derive(Drop)]
pub struct ByteCache {
    held: RangeSet<u64>,
}

impl ByteCache {
    /// Returns a cache that has no byte.
    pub fn new(alloc: Global) -> Self
        ensures { result.held ≡ [] }
    {
        ByteCache {
            held: RangeSet::new(alloc),
        }
    }

    /// Returns what to fetch for a request: the parts of it that are not at hand, in order, and
    /// nothing else. No two of them touch.
    ///
    /// # Errors
    ///
    /// Memory was refused.
    pub fn missing(
        &self,
        alloc: Global,
        request: &Range<u64>,
    ) -> Result<Vec<Range<u64>>, AllocError>
        ensures { IfOk result (λ parts. AreGaps (half_open nat_cmp) self.now.held request.now parts.items) }
    {
        let mut parts = Vec::new(alloc);
        for gap in self.held.gaps(request) {
            parts.push(gap?)?;
        }
        Ok(parts)
    }

    /// Notes that the bytes of the range are at hand. Whatever `missing` then answers for the
    /// range, it is nothing.
    ///
    /// # Requires
    ///
    /// The range is not empty.
    ///
    /// # Errors
    ///
    /// Memory was refused. Then nothing has changed.
    pub fn fetched(&mut self, range: Range<u64>) -> Result<(), AllocError>
        requires { range.start < range.end }
        ensures added { OnOk result (Adds (half_open nat_cmp) self.old.held (range ∷ []) self.new.held) }
        ensures none_missing { OnOk result ((parts : List (RangeOf _)) → AreGaps (half_open nat_cmp) self.new.held range parts → parts ≡ []) }
        ensures refused { OnErr result (self.new.held ≡ self.old.held) }
    {
        self.held.insert(range)
    }
}
