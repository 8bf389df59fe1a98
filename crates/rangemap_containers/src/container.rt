//! What every container of the library does, for code that is written once for all of them.
//!
//! A container says what it is (its keys, its ranges, their kind, its values, its allocator) and makes
//! its public calls. Contracts see it as the list of its pairs, in the words of `Ranges.antt` of
//! `rangemap_core`; of a set the values are `()`. The laws, the replays, the program and the tests need
//! no more.
//!
//! To let code over any container make another call, add it here and in the file `container.rt` of the
//! map and of the set.
ghost use Rattle.std.specs.Prelude.{◌≡◌, ◌+◌, ◌-◌, ◌≤◌, ◌↔◌, List, [], IfOk, IfSome, IsOk, IsTrue, OnErr, OnOk, is_some, length, map, nat_eq, nat_lt, slice_get, true};
ghost use Rattle.std.specs.Option.{option_copied, option_map};
ghost use Rattle.rangemap_containers.specs.Histories.{IsDefinedOn};
ghost use Rattle.rangemap_core.specs.Appends.{Appends, AppendsGaps};
ghost use Rattle.rangemap_core.specs.Clones.{KeysCloneFaithfully, ValuesCloneFaithfully};
ghost use Rattle.rangemap_core.specs.Ranges.{AreGaps, IsCanonOf, IsCanonical, IsNewest, covering, erase, overlapped, override, same_pairs, value_at};

use rangemap_core::key_range::KeyRange;
use rangemap_core::kind::Kind;
use std::alloc::{AllocError, Allocator};

mod any;
mod appends;
pub mod covered;
mod inserts;
mod updates;

pub use any::IsAny;
pub use appends::Appending;
pub use inserts::insert_pairs;
pub use updates::update;

/// A container of disjoint ranges with values. Two containers are equal if their pairs are.
///
/// A method that has the name of a public call makes that call, at its cost. A set makes `contains`,
/// `get`, `first` and `last` for the methods that speak of values or pairs. So code that is generic over
/// containers, as the replay and the laws, is proved of the calls that users make. The appends give
/// clones of what `iter`, `overlapping` and `gaps` lend or make.
///
/// `Drop` is no bound of it. Code that only borrows a container does not need it, and code that may drop
/// one asks for `Container + Drop`.
pub trait Container: PartialEq {
    /// A stored range.
    type Range: KeyRange;

    /// What a range is mapped to.
    type Value: Eq + Clone;

    /// The allocator.
    type Alloc: Allocator;

    /// The kind of the ranges.
    type Kind: Kind<Self::Range>;

    /// The stored pairs, in order.
    ghost pairs: { Self → List (Self.Range × Self.Value) };

    /// Does nothing at run time; its contract tells the check that the stored list is canonical.
    fn known(&self)
        ensures { IsCanonical Self.Kind.kind Self.Value.eq (pairs self.now) };

    /// Makes an empty container over the steps of its kind, whose memory will come from `alloc`. Half-open
    /// ranges have no steps.
    fn new_with_step_fns(alloc: Self::Alloc) -> Self
        ensures { pairs result ≡ [] };

    /// Gives every key of `range` the `value`, whatever it had before. It adds two ranges at most.
    ///
    /// # Requires
    ///
    /// The range is not empty, and a clone of a key or value compares equal to its original.
    ///
    /// # Errors
    ///
    /// Memory or a clone was refused, or the change might leave more ranges than the store can count.
    /// The container is then as it was.
    fn insert(&mut self, range: Self::Range, value: Self::Value) -> Result<(), AllocError>
        requires non_empty { Self.Kind.kind.IsNonEmpty range }
        requires faithful_keys { KeysCloneFaithfully Self.Range.Key.is_clone Self.Range.Key.cmp }
        requires faithful_values { ValuesCloneFaithfully Self.Value.is_clone Self.Value.eq }
        ensures ok { OnOk result (IsCanonOf Self.Kind.kind Self.Value.eq
            (override Self.Kind.kind (value_at Self.Kind.kind (pairs self.old)) range value)
            (pairs self.new)) }
        ensures newest { OnOk result (IsNewest Self.Kind.kind range value (pairs self.new)) }
        ensures err { OnErr result (pairs self.new ≡ pairs self.old) }
        ensures growth { OnOk result (length (pairs self.new) ≤ length (pairs self.old) + 2) };

    /// Takes every key of `range` out. It adds one range at most.
    ///
    /// # Requires
    ///
    /// As for `insert`.
    ///
    /// # Errors
    ///
    /// As for `insert`. If no stored range overlaps the given one, the call takes no memory, succeeds
    /// and changes nothing.
    fn remove(&mut self, range: Self::Range) -> Result<(), AllocError>
        requires non_empty { Self.Kind.kind.IsNonEmpty range }
        requires faithful_keys { KeysCloneFaithfully Self.Range.Key.is_clone Self.Range.Key.cmp }
        requires faithful_values { ValuesCloneFaithfully Self.Value.is_clone Self.Value.eq }
        ensures ok { OnOk result (IsCanonOf Self.Kind.kind Self.Value.eq
            (erase Self.Kind.kind (value_at Self.Kind.kind (pairs self.old)) range)
            (pairs self.new)) }
        ensures err { OnErr result (pairs self.new ≡ pairs self.old) }
        ensures growth { OnOk result (length (pairs self.new) ≤ length (pairs self.old) + 1) }
        ensures meets_nothing { overlapped Self.Kind.kind (pairs self.old) range ≡ []
            → IsOk result × (pairs self.new ≡ pairs self.old) };

    /// Takes every key out. It takes no memory.
    fn clear(&mut self)
        ensures { pairs self.new ≡ [] };

    /// Makes an equal container out of clones, in memory of a clone of this one's allocator.
    ///
    /// # Requires
    ///
    /// A clone of a key or value compares equal to its original.
    ///
    /// # Errors
    ///
    /// Memory or a clone was refused.
    fn clone(&self) -> Result<Self, AllocError>
        requires faithful_keys { KeysCloneFaithfully Self.Range.Key.is_clone Self.Range.Key.cmp }
        requires faithful_values { ValuesCloneFaithfully Self.Value.is_clone Self.Value.eq }
        ensures same { IfOk result
            (λ copy. same_pairs Self.Kind.kind Self.Value.eq (pairs self.now) (pairs copy) ≡ true) }
        ensures canon { IfOk result (λ copy. IsCanonOf Self.Kind.kind Self.Value.eq
            (value_at Self.Kind.kind (pairs self.now)) (pairs copy)) };

    /// Returns the number of stored ranges.
    fn len(&self) -> usize
        ensures { result ≡ length (pairs self.now) };

    /// Returns whether no range is stored.
    fn is_empty(&self) -> bool
        ensures { result ≡ nat_eq (length (pairs self.now)) 0 };

    /// Returns the value of the stored range that has the key.
    fn get(&self, key: &<Self::Range as KeyRange>::Key) -> Option<&Self::Value>
        ensures { option_copied result ≡ value_at Self.Kind.kind (pairs self.now) key.now }
    {
        // A set has no call that gives a value; a map makes its own.
        let (_, value) = self.get_key_value(key)?;
        Some(value)
    }

    /// Returns the stored range that has the key, and its value.
    fn get_key_value(
        &self,
        key: &<Self::Range as KeyRange>::Key,
    ) -> Option<(&Self::Range, &Self::Value)>
        ensures { option_map (λ pair. (pair.0.now, pair.1.now)) result
            ≡ covering Self.Kind.kind (pairs self.now) key.now };

    /// Returns whether a stored range has the key.
    fn contains_key(&self, key: &<Self::Range as KeyRange>::Key) -> bool
        ensures { result ≡ is_some (covering Self.Kind.kind (pairs self.now) key.now) };

    /// Returns the first stored range and its value.
    fn first_range_value(&self) -> Option<(&Self::Range, &Self::Value)>
        ensures found { option_map (λ pair. (pair.0.now, pair.1.now)) result ≡ slice_get (pairs self.now) 0 }
        ensures non_empty { IfSome result (λ pair. Self.Kind.kind.IsNonEmpty pair.0.now) };

    /// Returns the last stored range and its value.
    fn last_range_value(&self) -> Option<(&Self::Range, &Self::Value)>
        ensures found { option_map (λ pair. (pair.0.now, pair.1.now)) result
            ≡ slice_get (pairs self.now) (length (pairs self.now) - 1) }
        ensures non_empty { IfSome result (λ pair. Self.Kind.kind.IsNonEmpty pair.0.now) };

    /// Returns whether a stored range overlaps `range`, which may be any range.
    fn overlaps(&self, range: &Self::Range) -> bool
        ensures { result ≡ nat_lt 0 (length (overlapped Self.Kind.kind (pairs self.now) range.now)) };

    /// Returns whether every key of `range` has a value. That is true of a range without keys.
    fn covers(&self, range: &Self::Range) -> bool
        ensures { IsTrue result
            ↔ IsDefinedOn Self.Kind.kind (value_at Self.Kind.kind (pairs self.now)) range.now };

    /// Appends clones of all pairs, in order, so that they outlive the container. Their ranges may
    /// be stored again. It takes *O*(*n*).
    ///
    /// # Requires
    ///
    /// A clone of a key or value compares equal to its original.
    ///
    /// # Errors
    ///
    /// A clone, or the growth of `out`, was refused. `out` is then as it was. If there is nothing to
    /// append, the call takes no memory, succeeds and changes nothing.
    fn append_all<B: Allocator>(
        &self,
        out: &mut Vec<(Self::Range, Self::Value), B>,
    ) -> Result<(), AllocError>
        requires faithful_keys { KeysCloneFaithfully Self.Range.Key.is_clone Self.Range.Key.cmp }
        requires faithful_values { ValuesCloneFaithfully Self.Value.is_clone Self.Value.eq }
        ensures ok { OnOk result
            (Appends Self.Kind.kind Self.Value.eq (pairs self.now) out.old.items out.new.items) }
        ensures err { OnErr result (out.new.items ≡ out.old.items) }
        ensures of_nothing { pairs self.now ≡ [] → IsOk result × (out.new.items ≡ out.old.items) };

    /// Appends clones of the pairs that overlap `range`, in order. `range` may be any range. It takes
    /// *O*(log *n* + *k*), with *k* pairs appended.
    ///
    /// # Requires
    ///
    /// What `append_all` does.
    ///
    /// # Errors
    ///
    /// As for `append_all`.
    fn append_overlapping<B: Allocator>(
        &self,
        range: &Self::Range,
        out: &mut Vec<(Self::Range, Self::Value), B>,
    ) -> Result<(), AllocError>
        requires faithful_keys { KeysCloneFaithfully Self.Range.Key.is_clone Self.Range.Key.cmp }
        requires faithful_values { ValuesCloneFaithfully Self.Value.is_clone Self.Value.eq }
        ensures ok { OnOk result (Appends Self.Kind.kind Self.Value.eq
            (overlapped Self.Kind.kind (pairs self.now) range.now) out.old.items out.new.items) }
        ensures err { OnErr result (out.new.items ≡ out.old.items) }
        ensures of_nothing { overlapped Self.Kind.kind (pairs self.now) range.now ≡ []
            → IsOk result × (out.new.items ≡ out.old.items) };

    /// Appends the parts of `outer_range` that no stored range covers, in order. `outer_range` may be
    /// any range. It takes *O*(log *n* + *k*), with *k* stored ranges that it overlaps.
    ///
    /// # Requires
    ///
    /// A clone of a key compares equal to its original.
    ///
    /// # Errors
    ///
    /// As for `append_all`.
    fn append_gaps<B: Allocator>(
        &self,
        outer_range: &Self::Range,
        out: &mut Vec<Self::Range, B>,
    ) -> Result<(), AllocError>
        requires faithful_keys { KeysCloneFaithfully Self.Range.Key.is_clone Self.Range.Key.cmp }
        ensures ok { OnOk result (AppendsGaps Self.Kind.kind
            (map (λ pair. pair.0) (pairs self.now)) outer_range.now out.old.items out.new.items) }
        ensures err { OnErr result (out.new.items ≡ out.old.items) }
        ensures of_nothing { AreGaps Self.Kind.kind
            (map (λ pair. pair.0) (pairs self.now)) outer_range.now []
            → IsOk result × (out.new.items ≡ out.old.items) };

    /// Containers are equal if their pairs are.
    ghost equal: { (left right : Self)
        → Self.eq left right ≡ same_pairs Self.Kind.kind Self.Value.eq (pairs left) (pairs right) };
}

/// Collects the gaps of `outer_range` into a vector, with memory of `alloc`: the parts of it that no
/// stored range covers, in order. It takes *O*(log *n* + *k*), with *k* stored ranges that
/// `outer_range` overlaps.
///
/// # Requires
///
/// A clone of a key compares equal to its original.
///
/// # Errors
///
/// The memory of the vector, or a clone of a key, was refused. If there is no gap, the call takes no
/// memory and succeeds.
pub fn collect_gaps<M: Container, B: Allocator>(
    alloc: B,
    container: &M,
    outer_range: &M::Range,
) -> Result<Vec<M::Range, B>, AllocError>
    requires { KeysCloneFaithfully M.Range.Key.is_clone M.Range.Key.cmp }
    ensures ok { IfOk result (λ gaps. AreGaps M.Kind.kind
        (map (λ pair. pair.0) (M.pairs container.now)) outer_range.now gaps.items) }
    ensures of_nothing { AreGaps M.Kind.kind
        (map (λ pair. pair.0) (M.pairs container.now)) outer_range.now []
        → IsOk result }
{
    let mut gaps = Vec::new(alloc);
    container.append_gaps(outer_range, &mut gaps)?;
    Ok(gaps)
}
