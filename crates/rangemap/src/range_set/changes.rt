//! Adding keys to a set, and taking them out.
ghost use Rattle.std.specs.Prelude.{◌≡◌, ◌≤◌, ◌+◌, [], ◌∷◌, length, IsOk, OnOk, OnErr};
ghost use Rattle.rangemap.specs.Clones.{KeysCloneFaithfully};
ghost use Rattle.rangemap.specs.Sets.{Adds, TakesOut, met};

use super::Set;
use rangemap_core::key_range::KeyRange;
use rangemap_core::kind::Kind;
use rangemap_core::store::StoreMut;
use std::alloc::AllocError;

impl<S: StoreMut<Value = ()>> Set<S> {
    /// Adds every key of `range`. Stored ranges that it overlaps or touches become one with it, so the
    /// set grows by at most one range.
    ///
    /// # Requires
    ///
    /// The range is not empty; a closed one was not iterated to its end either. A clone of a key
    /// compares equal to its original.
    ///
    /// # Errors
    ///
    /// The growth of the set, or a clone of a key or of the allocator, was refused, or the change might
    /// leave more ranges than the store can count. The set is then as it was, and the range is dropped.
    ///
    /// # Examples
    ///
    /// ```text
    /// let mut set = range_set![in alloc; 0..3, 6..9]?;
    /// set.insert(3..7)?; // 0..9
    /// ```
    pub fn insert(&mut self, range: S::Range) -> Result<(), AllocError>
        requires non_empty { S.Range.has_key range }
        requires not_exhausted { S.Range.is_fresh range }
        requires faithful_keys { KeysCloneFaithfully S.Range.Key.is_clone S.Range.Key.cmp }
        ensures ok { OnOk result (Adds S.Kind.kind self.old (range ∷ []) self.new) }
        ensures err { OnErr result (self.new ≡ self.old) }
        ensures growth { OnOk result (length self.new ≤ length self.old + 1) }
    {
        self.stored.insert(range, ())
    }

    /// Takes every key of `range` out. A stored range that is covered in part is cut. One that reaches
    /// past both ends becomes two, so the set grows by at most one range.
    ///
    /// # Requires
    ///
    /// As for `insert`.
    ///
    /// # Errors
    ///
    /// As for `insert`. If no stored range overlaps the given one, the call takes no memory, succeeds
    /// and changes nothing.
    ///
    /// # Examples
    ///
    /// ```text
    /// let mut set = range_inclusive_set![in alloc; 0..=9]?;
    /// set.remove(3..=5)?; // 0..=2, 6..=9
    /// ```
    pub fn remove(&mut self, range: S::Range) -> Result<(), AllocError>
        requires non_empty { S.Range.has_key range }
        requires not_exhausted { S.Range.is_fresh range }
        requires faithful_keys { KeysCloneFaithfully S.Range.Key.is_clone S.Range.Key.cmp }
        ensures ok { OnOk result (TakesOut S.Kind.kind self.old range self.new) }
        ensures err { OnErr result (self.new ≡ self.old) }
        ensures growth { OnOk result (length self.new ≤ length self.old + 1) }
        ensures meets_nothing { met S.Kind.kind self.old range ≡ [] → IsOk result × (self.new ≡ self.old) }
    {
        self.stored.remove(range)
    }

    /// Takes every key out. It takes no memory.
    pub fn clear(&mut self)
        ensures { self.new ≡ [] }
    {
        self.stored.clear();
    }
}
