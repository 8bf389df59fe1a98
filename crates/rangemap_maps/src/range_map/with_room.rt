//! The map with room: a map whose contracts say when a change succeeds. Those of `Map` do not, because
//! they see only its list.
ghost use Rattle.std.specs.Prelude.{◌≡◌, ◌↔◌, ◌+◌, ◌-◌, ◌≤◌, [], true, IfOk, IfSome, IsOk, IsTrue, OnErr, OnOk, is_some, length, nat_eq, nat_lt, slice_get};
ghost use Rattle.std.specs.Option.{option_copied, option_map};
ghost use Rattle.rangemap_containers.specs.Histories.{IsDefinedOn};
ghost use Rattle.rangemap_core.specs.Clones.{KeysCloneFaithfully, KeysCloneInfallibly, ValuesCloneFaithfully, ValuesCloneInfallibly};
ghost use Rattle.rangemap_core.specs.Ranges.{IsCanonOf, IsCanonical, IsNewest, covering, erase, overlapped, override, value_at};

use super::Map;
use rangemap_containers::container::{IsAny, covered};
use rangemap_core::key_range::KeyRange;
use rangemap_core::kind::Kind;
use rangemap_core::store::StoreMut;
use rangemap_sorted::SortedVec;
use std::alloc::{AllocError, Allocator};
use std::marker::{Model, PhantomData};

/// A map like `Map` whose contracts also see its room, and so say when a change succeeds.
///
/// Contracts see it as two parts: the list of its pairs, and for how many pairs there is room. Each
/// call has the clauses and the costs of the call of that name of `Map`. `insert` and `remove` take
/// memory only for clones, and if there is not enough room.
///
/// If a change is refused, the list is as it was, and the arguments are dropped. Room never shrinks.
///
/// # Examples
///
/// ```text
/// let mut map: RangeMap<u32, char> = RangeMap::with_room(alloc, 3)?;
/// map.insert(0..10, 'a')?; // succeeds: nothing is stored, and three ranges have room
/// map.remove(3..6)?; // succeeds: one range is stored
/// map.insert(20..30, 'b')?; // may fail: two ranges are stored, and two more do not have room
/// ```
#[derive(Drop)]
pub struct MapWithRoom<S: StoreMut> {
    stored: S,
    // As in `Map`: what keys, values and allocator may borrow.
    borrows: PhantomData<(S::Range, S::Value, S::Alloc)>,
}

impl<S: StoreMut> Model for MapWithRoom<S> {
    ghost use Rattle.std.specs.Prelude.{List, ℕ};

    ghost Value = { List (S.Range × S.Value) × ℕ };

    ghost view = { λ m. (S.pairs m.stored, S.room m.stored) };
}

impl<Q: Kind<R>, R: KeyRange, V: Eq + Clone, A: Allocator> MapWithRoom<SortedVec<Q, R, V, A>> {
    /// Returns the empty map with room for `room` ranges.
    ///
    /// # Errors
    ///
    /// Memory was refused.
    pub fn with_room(alloc: A, room: usize) -> Result<Self, AllocError>
        ensures { IfOk result (λ made. made ≡ ([], room)) }
    {
        Ok(MapWithRoom {
            stored: SortedVec::with_room(alloc, room)?,
            borrows: PhantomData,
        })
    }

    /// Returns for how many ranges there is room, those that are stored included.
    pub fn room(&self) -> usize
        ensures { result ≡ self.now.1 }
    {
        self.stored.room()
    }
}

impl<S: StoreMut> MapWithRoom<S> {
    /// Gives every key of `range` the `value`, whatever it had before, as `insert` of `Map` does.
    ///
    /// The call succeeds if two more ranges have room, and if clones of keys and values cannot fail.
    ///
    /// # Requires
    ///
    /// As for `insert` of `Map`: the range is not empty, a closed range was not iterated to its end, and
    /// a clone of a key or value compares equal to its original.
    ///
    /// # Errors
    ///
    /// The growth of the map, or a clone of a key, of a value or of the allocator, was refused, or the
    /// change might leave more ranges than the store can count. The map is then as it was, and the range
    /// and the value are dropped.
    pub fn insert(&mut self, range: S::Range, value: S::Value) -> Result<(), AllocError>
        requires non_empty { S.Range.has_key range }
        requires not_exhausted { S.Range.is_fresh range }
        requires faithful_keys { KeysCloneFaithfully S.Range.Key.is_clone S.Range.Key.cmp }
        requires faithful_values { ValuesCloneFaithfully S.Value.is_clone S.Value.eq }
        ensures ok { OnOk result (IsCanonOf S.Kind.kind S.Value.eq
            (override S.Kind.kind (value_at S.Kind.kind self.old.0) range value) self.new.0) }
        ensures newest { OnOk result (IsNewest S.Kind.kind range value self.new.0) }
        ensures err { OnErr result (self.new.0 ≡ self.old.0) }
        ensures growth { OnOk result (length self.new.0 ≤ length self.old.0 + 2) }
        ensures growth_where_all_are_equal { OnOk result (((v w : S.Value) → S.Value.eq v w ≡ true)
            → length self.new.0 ≤ length self.old.0 + 1) }
        ensures succeeds { KeysCloneInfallibly S.Range.Key.is_infallible
            → ValuesCloneInfallibly S.Value.is_infallible → length self.old.0 + 2 ≤ self.old.1
            → IsOk result }
        ensures room { self.old.1 ≤ self.new.1 }
    {
        self.stored.insert(range, value)
    }

    /// Takes every key of `range` out, as `remove` of `Map` does.
    ///
    /// The call succeeds if one more range has room, and if clones of keys and values cannot fail. It
    /// also succeeds if no stored range overlaps the given one.
    ///
    /// # Requires
    ///
    /// As for `insert`.
    ///
    /// # Errors
    ///
    /// As for `insert`.
    pub fn remove(&mut self, range: S::Range) -> Result<(), AllocError>
        requires non_empty { S.Range.has_key range }
        requires not_exhausted { S.Range.is_fresh range }
        requires faithful_keys { KeysCloneFaithfully S.Range.Key.is_clone S.Range.Key.cmp }
        requires faithful_values { ValuesCloneFaithfully S.Value.is_clone S.Value.eq }
        ensures ok { OnOk result (IsCanonOf S.Kind.kind S.Value.eq
            (erase S.Kind.kind (value_at S.Kind.kind self.old.0) range) self.new.0) }
        ensures err { OnErr result (self.new.0 ≡ self.old.0) }
        ensures growth { OnOk result (length self.new.0 ≤ length self.old.0 + 1) }
        ensures meets_nothing { overlapped S.Kind.kind self.old.0 range ≡ []
            → IsOk result × (self.new.0 ≡ self.old.0) }
        ensures succeeds { KeysCloneInfallibly S.Range.Key.is_infallible
            → ValuesCloneInfallibly S.Value.is_infallible → length self.old.0 + 1 ≤ self.old.1
            → IsOk result }
        ensures room { self.old.1 ≤ self.new.1 }
    {
        self.stored.remove(range)
    }

    /// Returns the map of the same pairs, in the same memory. Its contracts do not see the room.
    pub fn into_map(self) -> Map<S>
        ensures { result ≡ self.0 }
    {
        let MapWithRoom { stored, borrows: _ } = self;
        Map {
            stored,
            borrows: PhantomData,
        }
    }

    /// Does nothing at run time; its contract tells the check that the stored list is canonical.
    pub fn known(&self)
        ensures { IsCanonical S.Kind.kind S.Value.eq self.now.0 }
    {
        self.stored.known();
    }

    /// Returns the number of stored ranges.
    pub fn len(&self) -> usize
        ensures { result ≡ length self.now.0 }
    {
        self.stored.len()
    }

    /// Returns whether no range is stored.
    pub fn is_empty(&self) -> bool
        ensures { result ≡ nat_eq (length self.now.0) 0 }
    {
        self.stored.len() == 0
    }

    /// Returns the value of the stored range that has the key, if there is one.
    pub fn get(&self, key: &<S::Range as KeyRange>::Key) -> Option<&S::Value>
        ensures { option_copied result ≡ value_at S.Kind.kind self.now.0 key.now }
    {
        let (_, value) = self.stored.covering(key)?;
        Some(value)
    }

    /// Returns the stored range that has the key, and its value, if there is one.
    pub fn get_key_value(&self, key: &<S::Range as KeyRange>::Key) -> Option<(&S::Range, &S::Value)>
        ensures found { option_map (λ pair. (pair.0.now, pair.1.now)) result
            ≡ covering S.Kind.kind self.now.0 key.now }
        ensures canonical { IsCanonical S.Kind.kind S.Value.eq self.now.0 }
    {
        self.stored.known();
        self.stored.covering(key)
    }

    /// Returns whether a stored range has the key.
    pub fn contains_key(&self, key: &<S::Range as KeyRange>::Key) -> bool
        ensures { result ≡ is_some (covering S.Kind.kind self.now.0 key.now) }
    {
        self.stored.covering(key).is_some()
    }

    /// Returns the first stored range and its value, if there is one.
    pub fn first_range_value(&self) -> Option<(&S::Range, &S::Value)>
        ensures found { option_map (λ pair. (pair.0.now, pair.1.now)) result ≡ slice_get self.now.0 0 }
        ensures canonical { IsCanonical S.Kind.kind S.Value.eq self.now.0 }
        ensures non_empty { IfSome result (λ pair. S.Kind.kind.IsNonEmpty pair.0.now) }
    {
        self.stored.known();
        self.stored.first()
    }

    /// Returns the last stored range and its value, if there is one.
    pub fn last_range_value(&self) -> Option<(&S::Range, &S::Value)>
        ensures found { option_map (λ pair. (pair.0.now, pair.1.now)) result
            ≡ slice_get self.now.0 (length self.now.0 - 1) }
        ensures canonical { IsCanonical S.Kind.kind S.Value.eq self.now.0 }
        ensures non_empty { IfSome result (λ pair. S.Kind.kind.IsNonEmpty pair.0.now) }
    {
        self.stored.known();
        self.stored.last()
    }

    /// Returns whether a stored range overlaps `range`, as `overlaps` of `Map`.
    pub fn overlaps(&self, range: &S::Range) -> bool
        ensures any { result ≡ nat_lt 0 (length (overlapped S.Kind.kind self.now.0 range.now)) }
        ensures canonical { IsCanonical S.Kind.kind S.Value.eq self.now.0 }
    {
        self.stored.known();
        self.stored.read_overlapping::<IsAny>(range, &mut ())
    }

    /// Returns whether every key of `range` has a value, as `covers` of `Map`.
    pub fn covers(&self, range: &S::Range) -> bool
        ensures { IsTrue result ↔ IsDefinedOn S.Kind.kind (value_at S.Kind.kind self.now.0) range.now }
    {
        covered::covers(&self.stored, range)
    }
}
