//! Giving the keys of a range a value, and taking them out.
ghost use Rattle.std.specs.Prelude.{◌≡◌, true, ◌≤◌, ◌+◌, [], length, IsOk, OnOk, OnErr};
ghost use Rattle.rangemap_core.specs.Clones.{KeysCloneFaithfully, ValuesCloneFaithfully};
ghost use Rattle.rangemap_core.specs.Ranges.{IsCanonOf, IsNewest, erase, overlapped, override, value_at};

use super::Map;
use rangemap_core::key_range::KeyRange;
use rangemap_core::kind::Kind;
use rangemap_core::store::StoreMut;
use std::alloc::AllocError;

impl<S: StoreMut> Map<S> {
    /// Gives every key of `range` the `value`, whatever it had before.
    ///
    /// What is left of stored ranges on either side of it keeps a value equal to its own. Stored ranges
    /// with an equal value that it overlaps or touches become one range with it. That range carries the
    /// new value. The map grows by at most two ranges.
    ///
    /// # Requires
    ///
    /// The range is not empty: `start < end` for `a..b`, `start <= end` for `a..=b`. A closed range was
    /// not iterated to its end. A clone of a key or value compares equal to its original. This holds for
    /// std's types.
    ///
    /// # Errors
    ///
    /// The growth of the map, or a clone of a key, of a value or of the allocator, was refused, or the
    /// change might leave more ranges than the store can count. The map is then as it was, and the range
    /// and the value are dropped.
    ///
    /// # Examples
    ///
    /// ```text
    /// let mut map = RangeMap::new(alloc);
    /// map.insert(0..10, 'a')?;
    /// map.insert(3..6, 'b')?; // (0..3, 'a'), (3..6, 'b'), (6..10, 'a')
    /// map.insert(3..6, 'a')?; // (0..10, 'a')
    /// ```
    pub fn insert(&mut self, range: S::Range, value: S::Value) -> Result<(), AllocError>
        requires non_empty { S.Range.has_key range }
        requires not_exhausted { S.Range.is_fresh range }
        requires faithful_keys { KeysCloneFaithfully S.Range.Key.is_clone S.Range.Key.cmp }
        requires faithful_values { ValuesCloneFaithfully S.Value.is_clone S.Value.eq }
        ensures ok { OnOk result (IsCanonOf S.Kind.kind S.Value.eq
            (override S.Kind.kind (value_at S.Kind.kind self.old) range value) self.new) }
        ensures newest { OnOk result (IsNewest S.Kind.kind range value self.new) }
        ensures err { OnErr result (self.new ≡ self.old) }
        ensures growth { OnOk result (length self.new ≤ length self.old + 2) }
        ensures growth_where_all_are_equal { OnOk result (((v w : S.Value) → S.Value.eq v w ≡ true)
            → length self.new ≤ length self.old + 1) }
    {
        self.stored.insert(range, value)
    }

    /// Takes every key of `range` out.
    ///
    /// A stored range that is covered in part is cut. One that reaches past both ends becomes two, so
    /// the map grows by at most one range.
    ///
    /// # Requires
    ///
    /// As for `insert`.
    ///
    /// # Errors
    ///
    /// As for `insert`. If no stored range overlaps the given one, the call takes no memory, succeeds
    /// and changes nothing.
    ///
    /// # Examples
    ///
    /// ```text
    /// map.insert(0..10, 'a')?;
    /// map.remove(3..6)?; // (0..3, 'a'), (6..10, 'a')
    /// ```
    pub fn remove(&mut self, range: S::Range) -> Result<(), AllocError>
        requires non_empty { S.Range.has_key range }
        requires not_exhausted { S.Range.is_fresh range }
        requires faithful_keys { KeysCloneFaithfully S.Range.Key.is_clone S.Range.Key.cmp }
        requires faithful_values { ValuesCloneFaithfully S.Value.is_clone S.Value.eq }
        ensures ok { OnOk result (IsCanonOf S.Kind.kind S.Value.eq
            (erase S.Kind.kind (value_at S.Kind.kind self.old) range) self.new) }
        ensures err { OnErr result (self.new ≡ self.old) }
        ensures growth { OnOk result (length self.new ≤ length self.old + 1) }
        ensures meets_nothing { overlapped S.Kind.kind self.old range ≡ []
            → IsOk result × (self.new ≡ self.old) }
    {
        self.stored.remove(range)
    }

    /// Takes every key out. It takes no memory.
    pub fn clear(&mut self)
        ensures { self.new ≡ [] }
    {
        self.stored.clear();
    }
}
