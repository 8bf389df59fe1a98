//! Making sets out of ranges and of other sets, and handing their ranges over.
ghost use Rattle.std.specs.Prelude.{◌≡◌, List, IfOk, IsOk, OnErr, true};
ghost use Rattle.std.specs.Iterator.{Drains, ExtendsWithItems, IsFiniteIterable};
ghost use Rattle.rangemap.specs.Clones.{KeysCloneFaithfully};
ghost use Rattle.rangemap.specs.NonEmptyPairs.{GivesNothing, StopsBeforeItem};
ghost use Rattle.rangemap.specs.Ranges.{IsCanonOfPoints, covers, same_ranges};
ghost use Rattle.rangemap.specs.Sets.{Adds, AreNonEmptyRanges, GivesNonEmptyRanges};

use super::Set;
use rangemap_core::key_range::KeyRange;
use rangemap_core::kind::Kind;
use rangemap_core::store::{HandsOver, Lends, Store, StoreMut};
use rangemap_unions::Ranges;
use std::alloc::AllocError;
use std::iter::IntoIterator;
use std::marker::PhantomData;

impl<S: StoreMut<Value = ()>> Set<S>
where
    S::Alloc: Clone,
{
    /// Returns an equal set, made of clones, in memory of a clone of this one's allocator.
    ///
    /// # Requires
    ///
    /// A clone of a key compares equal to its original.
    ///
    /// # Errors
    ///
    /// The memory of the copy, or a clone of the allocator or of a key, was refused.
    pub fn clone(&self) -> Result<Self, AllocError>
        requires faithful_keys { KeysCloneFaithfully S.Range.Key.is_clone S.Range.Key.cmp }
        ensures same { IfOk result (λ copy. same_ranges S.Kind.kind self.now copy ≡ true) }
        ensures canon { IfOk result (λ copy. IsCanonOfPoints S.Kind.kind (covers S.Kind.kind self.now) copy) }
    {
        let alloc = self.stored.allocator().clone()?;
        Ok(Set {
            stored: self.stored.copy(alloc)?,
            borrows: PhantomData,
        })
    }
}

impl<S: StoreMut<Value = ()>> Set<S> {
    /// Inserts the items of `iter`, in the order in which they come, each as `insert` does.
    ///
    /// In a vector and in chunks, items that come in order, behind all that is stored, move no stored
    /// range, unless a vector grows or a chunk is cut. If many items come in another order, sort them
    /// first.
    ///
    /// # Requires
    ///
    /// The iterator ends. No range that it gives is empty. A clone of a key compares equal to its
    /// original. The check proves this by itself for a chain of iterators over numbers. For an
    /// array or a vector you write one line of proof, with a `refl` for each range, as for this
    /// call:
    ///
    /// ```text
    /// set.extend([0..5, 7..9])?;
    ///
    /// extend-requires-clause-non_empty c it h =
    ///     listed (half_open nat_cmp) array_into_iter_items h.2 it _ h.0 (refl, (refl, tt))
    /// ```
    ///
    /// `listed` is in `Rattle.rangemap.proofs.IncomingRangeLemmas`. For a vector write
    /// `into_iter_items` and `h.3` instead of `array_into_iter_items` and `h.2`. For an iterator
    /// that owns the ranges of a set use `owned` of `SetRoundTripLemmas`.
    ///
    /// # Errors
    ///
    /// An insert was refused. The items before the refused one stay inserted. The refused item and those
    /// after it are dropped. If no item comes, the call succeeds and changes nothing.
    pub fn extend<I: IntoIterator<Item = S::Range>>(&mut self, iter: I) -> Result<(), AllocError>
        requires ends { IsFiniteIterable I.into_iter_gives I.IntoIter.can_next I.IntoIter.remaining iter }
        requires non_empty { (it : I.IntoIter) → I.into_iter_gives iter it
            → GivesNonEmptyRanges S.Kind.kind I.IntoIter.next_gives it }
        requires faithful_keys { KeysCloneFaithfully S.Range.Key.is_clone S.Range.Key.cmp }
        ensures items { ExtendsWithItems I.into_iter_gives I.IntoIter.next_gives
            (Adds S.Kind.kind) iter self.old self.new result }
        ensures err { OnErr result (StopsBeforeItem I.into_iter_gives I.IntoIter.next_gives
            (Adds S.Kind.kind) iter self.old self.new) }
        ensures of_nothing { ((it : I.IntoIter) → I.into_iter_gives iter it
            → GivesNothing I.IntoIter.next_gives it)
            → IsOk result × (self.new ≡ self.old) }
    {
        self.known();
        for range in iter {
            self.insert(range)?;
        }
        Ok(())
    }
}

impl<S: StoreMut<Value = ()> + Drop> Set<S> {
    // `from_iter` without its bound on the step type, which the public call has so that the type of its
    // result can be inferred.
    pub(super) fn from_items<I: IntoIterator<Item = S::Range>>(
        alloc: S::Alloc,
        iter: I,
    ) -> Result<Self, AllocError>
        requires ends { IsFiniteIterable I.into_iter_gives I.IntoIter.can_next I.IntoIter.remaining iter }
        requires non_empty { (it : I.IntoIter) → I.into_iter_gives iter it
            → GivesNonEmptyRanges S.Kind.kind I.IntoIter.next_gives it }
        requires faithful_keys { KeysCloneFaithfully S.Range.Key.is_clone S.Range.Key.cmp }
        ensures items { IfOk result
            (λ all. (it : I.IntoIter) × (ranges : List _) × I.into_iter_gives iter it
            × Drains I.IntoIter.next_gives it ranges
            × IsCanonOfPoints S.Kind.kind (covers S.Kind.kind ranges) all) }
        ensures of_nothing { ((it : I.IntoIter) → I.into_iter_gives iter it
            → GivesNothing I.IntoIter.next_gives it)
            → IsOk result }
    {
        let mut all = Set::new_with_step_fns(alloc);
        all.extend(iter)?;
        Ok(all)
    }
}

impl<S: StoreMut<Value = ()> + Drop> Set<S>
where
    S::Kind: Kind<S::Range, Steps = <S::Range as KeyRange>::Key>,
{
    /// Returns the set of the items of `iter`, inserted in the order in which they come, in memory
    /// of `alloc`.
    ///
    /// # Requires
    ///
    /// As for `extend`.
    ///
    /// # Errors
    ///
    /// An insert was refused. Nothing is made then. If no item comes, the call succeeds.
    pub fn from_iter<I: IntoIterator<Item = S::Range>>(
        alloc: S::Alloc,
        iter: I,
    ) -> Result<Self, AllocError>
        requires ends { IsFiniteIterable I.into_iter_gives I.IntoIter.can_next I.IntoIter.remaining iter }
        requires non_empty { (it : I.IntoIter) → I.into_iter_gives iter it
            → GivesNonEmptyRanges S.Kind.kind I.IntoIter.next_gives it }
        requires faithful_keys { KeysCloneFaithfully S.Range.Key.is_clone S.Range.Key.cmp }
        ensures items { IfOk result
            (λ all. (it : I.IntoIter) × (ranges : List _) × I.into_iter_gives iter it
            × Drains I.IntoIter.next_gives it ranges
            × IsCanonOfPoints S.Kind.kind (covers S.Kind.kind ranges) all) }
        ensures of_nothing { ((it : I.IntoIter) → I.into_iter_gives iter it
            → GivesNothing I.IntoIter.next_gives it)
            → IsOk result }
    {
        Set::from_items(alloc, iter)
    }

    /// Returns the set of the ranges of an array, inserted in their order, in memory of `alloc`.
    ///
    /// # Requires
    ///
    /// As for `insert`, of each range.
    ///
    /// # Errors
    ///
    /// An insert, the memory to read the array, or a clone of `alloc` was refused. Nothing is made then.
    pub fn from<const N: usize>(alloc: S::Alloc, value: [S::Range; N]) -> Result<Self, AllocError>
    where
        S::Alloc: Clone,
        requires non_empty { AreNonEmptyRanges S.Kind.kind value }
        requires faithful_keys { KeysCloneFaithfully S.Range.Key.is_clone S.Range.Key.cmp }
        ensures { IfOk result (λ all. IsCanonOfPoints S.Kind.kind (covers S.Kind.kind value) all) }
    {
        let ranges = Vec::from_array(alloc.clone()?, value)?;
        Set::from_iter(alloc, ranges)
    }
}

impl<S: HandsOver + Store<Value = ()>> IntoIterator for Set<S> {
    ghost use Rattle.std.specs.Prelude.{◌≡◌};
    ghost use Rattle.rangemap.specs.Sets.{IsCanonicalSet};

    type Item = S::Range;

    type IntoIter = Ranges<S::IntoIter>;

    ghost into_iter_gives = { λ set it. (it ≡ set) × IsCanonicalSet S.Kind.kind set };

    /// Returns a double-ended iterator over the stored ranges, in order. Items that are not taken are
    /// dropped with it.
    fn into_iter(self) -> Ranges<S::IntoIter> {
        let len = self.stored.len();
        Ranges::over(self.stored.into_pairs(), len)
    }
}

impl<'a, S: Lends<'a> + Store<Value = ()>> IntoIterator for &'a Set<S>
where
    S::Range: 'a,
    S::Value: 'a,
{
    ghost use Rattle.std.specs.Prelude.{◌≡◌};
    ghost use Rattle.rangemap.specs.Sets.{IsCanonicalSet};

    type Item = &'a S::Range;

    type IntoIter = Ranges<S::Iter>;

    ghost into_iter_gives = { λ set it. (it ≡ set.now) × IsCanonicalSet S.Kind.kind set.now };

    /// Returns a double-ended iterator over the stored ranges, in order.
    fn into_iter(self) -> Ranges<S::Iter> {
        self.iter()
    }
}
