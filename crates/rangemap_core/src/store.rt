//! The traits of a store, which keeps the pairs of a map or a set: a sorted vector, a tree, chunks.
//!
//! `Store`, `StoreMut`, `HandsOver` and `Lends` are all that a representation has to do. `Map` and
//! `Set` make every public call of them, so a store has no `extend`, no comparison, no text and no
//! JSON form of its own.
ghost use Rattle.std.specs.Prelude.{◌≡◌, ◌-◌, ◌+◌, ◌≤◌, List, [], IfOk, IsOk, OnErr, OnOk, length, map, slice_get, true, ℕ};
ghost use Rattle.std.specs.Map.Iter.{deref_pair};
ghost use Rattle.std.specs.Option.{option_map};
ghost use Rattle.rangemap_core.specs.Appends.{AppendsGaps};
ghost use Rattle.rangemap_core.specs.Clones.{KeysCloneFaithfully, KeysCloneInfallibly, ValuesCloneFaithfully, ValuesCloneInfallibly};
ghost use Rattle.rangemap_core.specs.Ranges.{AreGaps, IsCanonOf, IsCanonical, IsNewest, covering, erase, overlapped, override, same_pairs, value_at};
ghost use Rattle.rangemap_core.specs.Shown.{shown};

use crate::cursor::{Cursor, LentCursor};
use crate::key_range::KeyRange;
use crate::kind::Kind;
use crate::reader::{Reader, ReaderOfBoth};
use std::alloc::{AllocError, Allocator};

/// Keeps pairs of a range and a value, as a canonical list.
///
/// A bound that only one representation needs stands at its impl.
pub trait Store {
    /// A stored range.
    type Range: KeyRange;

    /// What a range is mapped to.
    type Value: Eq + Clone;

    /// The kind of the ranges.
    type Kind: Kind<Self::Range>;

    /// The allocator.
    type Alloc: Allocator;

    /// The stored pairs, in order.
    ghost pairs: { Self → List (Self.Range × Self.Value) };

    /// Does nothing at run time; its contract tells the check that the list is canonical.
    fn known(&self)
        ensures { IsCanonical Self.Kind.kind Self.Value.eq (pairs self.now) };

    /// Returns a reference to the underlying allocator.
    fn allocator(&self) -> &Self::Alloc;

    /// Returns the number of stored ranges.
    fn len(&self) -> usize
        ensures { result ≡ length (pairs self.now) };

    /// Returns the stored range that has the key, and its value, if there is one.
    fn covering(&self, key: &<Self::Range as KeyRange>::Key) -> Option<(&Self::Range, &Self::Value)>
        ensures { option_map (λ pair. (pair.0.now, pair.1.now)) result
            ≡ covering Self.Kind.kind (pairs self.now) key.now };

    /// Returns the first stored range and its value, if there is one.
    fn first(&self) -> Option<(&Self::Range, &Self::Value)>
        ensures { option_map (λ pair. (pair.0.now, pair.1.now)) result ≡ slice_get (pairs self.now) 0 };

    /// Returns the last stored range and its value, if there is one.
    fn last(&self) -> Option<(&Self::Range, &Self::Value)>
        ensures { option_map (λ pair. (pair.0.now, pair.1.now)) result
            ≡ slice_get (pairs self.now) (length (pairs self.now) - 1) };

    /// Has a reader read all pairs, in order.
    ///
    /// # Requires
    ///
    /// What the reader asks of the pairs and of its state (`may_read`).
    fn read<U: Reader<Self::Range, Self::Value>>(&self, state: &mut U::State) -> U::Answer
        requires { U.may_read (pairs self.now) state.old }
        ensures { U.reads (pairs self.now) state.old result state.new };

    /// Has a reader read the pairs of this store and of another one side by side.
    ///
    /// # Requires
    ///
    /// What the reader asks of the pairs of either and of its state (`may_read`).
    fn read_both<U: ReaderOfBoth<Self::Range, Self::Value>>(
        &self,
        other: &Self,
        state: &mut U::State,
    ) -> U::Answer
        requires { U.may_read (pairs self.now) (pairs other.now) state.old }
        ensures { U.reads (pairs self.now) (pairs other.now) state.old result state.new };

    /// Has a reader read the pairs that overlap `range`, in order. `range` may be any range.
    ///
    /// # Requires
    ///
    /// What the reader asks of these pairs and of its state (`may_read`).
    fn read_overlapping<U: Reader<Self::Range, Self::Value>>(
        &self,
        range: &Self::Range,
        state: &mut U::State,
    ) -> U::Answer
        requires { U.may_read (overlapped Self.Kind.kind (pairs self.now) range.now) state.old }
        ensures { U.reads (overlapped Self.Kind.kind (pairs self.now) range.now) state.old result state.new };

    /// Appends the parts of `outer_range` that no stored range covers, in order. `outer_range` may be
    /// any range.
    ///
    /// # Requires
    ///
    /// A clone of a key compares equal to its original.
    ///
    /// # Errors
    ///
    /// A clone of a key, or the growth of `out`, was refused. `out` is then as it was. If there is no
    /// gap, the call takes no memory, succeeds and changes nothing.
    fn append_gaps<B: Allocator>(
        &self,
        outer_range: &Self::Range,
        out: &mut Vec<Self::Range, B>,
    ) -> Result<(), AllocError>
        requires faithful_keys { KeysCloneFaithfully Self.Range.Key.is_clone Self.Range.Key.cmp }
        ensures ok { OnOk result (AppendsGaps Self.Kind.kind
            (map (λ pair. pair.0) (pairs self.now)) outer_range.now out.old.items out.new.items) }
        ensures err { OnErr result (out.new.items ≡ out.old.items) }
        ensures of_nothing { AreGaps Self.Kind.kind
            (map (λ pair. pair.0) (pairs self.now)) outer_range.now []
            → IsOk result × (out.new.items ≡ out.old.items) };
}

/// A store that is made and changed.
///
/// It is a trait of its own, because the check of a call takes time for each method of each trait in its
/// bounds. Code that only looks up does not pay for the changes.
pub trait StoreMut: Store {
    /// For how many pairs there is room, as far as the store shows it: 0 where it does not.
    ghost room: { Self → ℕ };

    /// Returns the empty store, whose memory comes from `alloc`. It takes none yet.
    fn empty(alloc: Self::Alloc) -> Self
        ensures { Self.pairs result ≡ [] };

    /// Gives every key of `range` the `value`, whatever it had before.
    ///
    /// # Requires
    ///
    /// The range is not empty, and a clone of a key or value compares equal to its original.
    ///
    /// # Errors
    ///
    /// Memory, or a clone of a key, of a value or of the allocator, was refused, or the change might
    /// leave more pairs than the store can count. The store is then as it was.
    fn insert(&mut self, range: Self::Range, value: Self::Value) -> Result<(), AllocError>
        requires non_empty { Self.Kind.kind.IsNonEmpty range }
        requires faithful_keys { KeysCloneFaithfully Self.Range.Key.is_clone Self.Range.Key.cmp }
        requires faithful_values { ValuesCloneFaithfully Self.Value.is_clone Self.Value.eq }
        ensures ok { OnOk result (IsCanonOf Self.Kind.kind Self.Value.eq
            (override Self.Kind.kind (value_at Self.Kind.kind (Self.pairs self.old)) range value)
            (Self.pairs self.new)) }
        ensures newest { OnOk result (IsNewest Self.Kind.kind range value (Self.pairs self.new)) }
        ensures err { OnErr result (Self.pairs self.new ≡ Self.pairs self.old) }
        ensures growth { OnOk result (length (Self.pairs self.new) ≤ length (Self.pairs self.old) + 2) }
        ensures growth_where_all_are_equal { OnOk result
            (((v w : Self.Value) → Self.Value.eq v w ≡ true)
            → length (Self.pairs self.new) ≤ length (Self.pairs self.old) + 1) }
        ensures succeeds { KeysCloneInfallibly Self.Range.Key.is_infallible
            → ValuesCloneInfallibly Self.Value.is_infallible
            → length (Self.pairs self.old) + 2 ≤ room self.old → IsOk result }
        ensures room { room self.old ≤ room self.new };

    /// Takes every key of `range` out.
    ///
    /// # Requires
    ///
    /// As for `insert`.
    ///
    /// # Errors
    ///
    /// As for `insert`. If no stored range overlaps the given one, the call takes no memory, succeeds
    /// and changes nothing.
    fn remove(&mut self, range: Self::Range) -> Result<(), AllocError>
        requires non_empty { Self.Kind.kind.IsNonEmpty range }
        requires faithful_keys { KeysCloneFaithfully Self.Range.Key.is_clone Self.Range.Key.cmp }
        requires faithful_values { ValuesCloneFaithfully Self.Value.is_clone Self.Value.eq }
        ensures ok { OnOk result (IsCanonOf Self.Kind.kind Self.Value.eq
            (erase Self.Kind.kind (value_at Self.Kind.kind (Self.pairs self.old)) range)
            (Self.pairs self.new)) }
        ensures err { OnErr result (Self.pairs self.new ≡ Self.pairs self.old) }
        ensures growth { OnOk result (length (Self.pairs self.new) ≤ length (Self.pairs self.old) + 1) }
        ensures meets_nothing { overlapped Self.Kind.kind (Self.pairs self.old) range ≡ []
            → IsOk result × (Self.pairs self.new ≡ Self.pairs self.old) }
        ensures succeeds { KeysCloneInfallibly Self.Range.Key.is_infallible
            → ValuesCloneInfallibly Self.Value.is_infallible
            → length (Self.pairs self.old) + 1 ≤ room self.old → IsOk result }
        ensures room { room self.old ≤ room self.new };

    /// Takes every key out. It takes no memory.
    fn clear(&mut self)
        ensures { Self.pairs self.new ≡ [] };

    /// Makes an equal store out of clones of the pairs, in memory of `alloc`, which is a clone of this
    /// store's own allocator. A store of several handles makes the others of clones of its own: a tree
    /// is cloned whole, and each chunk owns a handle.
    ///
    /// # Requires
    ///
    /// A clone of a key or value compares equal to its original.
    ///
    /// # Errors
    ///
    /// Memory or a clone was refused.
    fn copy(&self, alloc: Self::Alloc) -> Result<Self, AllocError>
        requires faithful_keys { KeysCloneFaithfully Self.Range.Key.is_clone Self.Range.Key.cmp }
        requires faithful_values { ValuesCloneFaithfully Self.Value.is_clone Self.Value.eq }
        ensures same { IfOk result (λ copy. same_pairs Self.Kind.kind Self.Value.eq
            (Self.pairs self.now) (Self.pairs copy) ≡ true) }
        ensures canon { IfOk result (λ copy. IsCanonOf Self.Kind.kind Self.Value.eq
            (value_at Self.Kind.kind (Self.pairs self.now)) (Self.pairs copy)) };
}

/// A store that hands its pairs over.
///
/// It is a trait of its own: with an owned iterator in `Store`, each crate that names a map would
/// have to prove how its pairs are dropped.
pub trait HandsOver: Store {
    /// The pairs that are handed over, in order and from both ends.
    type IntoIter: Cursor<
        Range = Self::Range,
        Value = Self::Value,
        Given = Self::Range,
        GivenValue = Self::Value,
    >;

    /// Hands all pairs over.
    fn into_pairs(self) -> Self::IntoIter
        ensures pairs { Self.IntoIter.left result ≡ Self.pairs self }
        ensures canonical { IsCanonical Self.Kind.kind Self.Value.eq (Self.pairs self) };

    /// In contracts, an item is the stored pair itself.
    ghost gives: { (pair : Self.Range × Self.Value)
        → shown Self.IntoIter.given Self.IntoIter.given_value pair ≡ pair };
}

/// A store that lends its pairs for `'a`.
///
/// The iterators that users see are made of what it lends.
pub trait Lends<'a>: Store
where
    Self::Range: 'a,
    Self::Value: 'a,
{
    /// The pairs, in order and from both ends.
    type Iter: Cursor<
        Range = Self::Range,
        Value = Self::Value,
        Given = &'a Self::Range,
        GivenValue = &'a Self::Value,
    >;

    /// The pairs that overlap a range, in order and from both ends.
    type Overlapping: LentCursor<
        'a,
        Self::Range,
        Value = Self::Value,
        GivenValue = &'a Self::Value,
    >;

    /// Returns all pairs.
    fn iter(&'a self) -> Self::Iter
        ensures { Self.Iter.left result ≡ Self.pairs self.now };

    /// Returns the pairs that overlap `range`, which may be any range.
    fn overlapping(&'a self, range: &'a Self::Range) -> Self::Overlapping
        ensures { Self.Overlapping.left result ≡ overlapped Self.Kind.kind (Self.pairs self.now) range.now };

    /// An item of `Iter`, two references, is in contracts the pair that they point to.
    ghost lends: { (pair : _) → shown Self.Iter.given Self.Iter.given_value pair ≡ deref_pair pair };

    /// So is an item of `Overlapping`.
    ghost lends_overlapping: { (pair : _)
        → shown Self.Overlapping.given Self.Overlapping.given_value pair ≡ deref_pair pair };
}
