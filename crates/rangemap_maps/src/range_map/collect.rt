//! Making maps out of pairs and of other maps, and handing their pairs over.
ghost use Rattle.std.specs.Prelude.{◌≡◌, List, IfOk, IsOk, OnErr, true};
ghost use Rattle.std.specs.Iterator.{Drains, ExtendsWithItems, IsFiniteIterable};
ghost use Rattle.rangemap_core.specs.Clones.{KeysCloneFaithfully, ValuesCloneFaithfully};
ghost use Rattle.rangemap_core.specs.NonEmptyPairs.{GivesNonEmpty, GivesNothing, StopsBeforeItem};
ghost use Rattle.rangemap_core.specs.Ranges.{AreNonEmpty, IsCanonOf, Overrides, nothing, override_all, same_pairs, value_at};

use super::Map;
use rangemap_core::key_range::KeyRange;
use rangemap_core::kind::Kind;
use rangemap_core::pair_iter::PairIter;
use rangemap_core::store::{HandsOver, Lends, StoreMut};
use std::alloc::AllocError;
use std::iter::IntoIterator;
use std::marker::PhantomData;

impl<S: StoreMut> Map<S>
where
    S::Alloc: Clone,
{
    /// Returns an equal map, made of clones, in memory of a clone of this one's allocator.
    ///
    /// # Requires
    ///
    /// A clone of a key or value compares equal to its original. This holds for std's types.
    ///
    /// # Errors
    ///
    /// The memory of the copy, or a clone of the allocator, of a key or of a value, was refused.
    pub fn clone(&self) -> Result<Self, AllocError>
        requires faithful_keys { KeysCloneFaithfully S.Range.Key.is_clone S.Range.Key.cmp }
        requires faithful_values { ValuesCloneFaithfully S.Value.is_clone S.Value.eq }
        ensures same { IfOk result (λ copy. same_pairs S.Kind.kind S.Value.eq self.now copy ≡ true) }
        ensures canon { IfOk result
            (λ copy. IsCanonOf S.Kind.kind S.Value.eq (value_at S.Kind.kind self.now) copy) }
    {
        let alloc = self.stored.allocator().clone()?;
        Ok(Map {
            stored: self.stored.copy(alloc)?,
            borrows: PhantomData,
        })
    }
}

impl<S: StoreMut> Map<S> {
    /// Inserts the items of `iter`, in the order in which they come, each as `insert` does.
    ///
    /// In a vector and in chunks, items that come in order, behind all that is stored, move no stored
    /// pair, unless a vector grows or a chunk is cut. If many items come in another order, sort them
    /// first.
    ///
    /// # Requires
    ///
    /// The iterator ends. No range that it gives is empty. A clone of a key or value compares equal
    /// to its original. The check proves this by itself for a chain of iterators over numbers, as
    /// in the first call below. For an array or a vector you write one line of proof, with a `refl`
    /// for each pair, as for the second call:
    ///
    /// ```text
    /// map.extend((0..100u32).map(|i| (10 * i..10 * i + 5, 'a')))?;
    /// map.extend([(0..5u32, 'a'), (5..9, 'b')])?;
    ///
    /// extend-requires-clause-non_empty c it h =
    ///     listed (half_open nat_cmp) array_into_iter_items h.2 it _ h.0 (refl, (refl, tt))
    /// ```
    ///
    /// In a generic function the line takes one more argument, the first: `g c it h`.
    ///
    /// `listed` is in `Rattle.rangemap.proofs.IncomingLemmas`. For a vector write `into_iter_items`
    /// and `h.3` instead of `array_into_iter_items` and `h.2`. For an iterator that owns the pairs
    /// of a map use `owned` and `canonical_non_empty` of the same file.
    ///
    /// # Errors
    ///
    /// An insert was refused. The items before the refused one stay inserted. The refused item and those
    /// after it are dropped. If no item comes, the call succeeds and changes nothing.
    pub fn extend<I: IntoIterator<Item = (S::Range, S::Value)>>(
        &mut self,
        iter: I,
    ) -> Result<(), AllocError>
        requires ends { IsFiniteIterable I.into_iter_gives I.IntoIter.can_next I.IntoIter.remaining iter }
        requires non_empty { (it : I.IntoIter) → I.into_iter_gives iter it
            → GivesNonEmpty S.Kind.kind I.IntoIter.next_gives it }
        requires faithful_keys { KeysCloneFaithfully S.Range.Key.is_clone S.Range.Key.cmp }
        requires faithful_values { ValuesCloneFaithfully S.Value.is_clone S.Value.eq }
        ensures items { ExtendsWithItems I.into_iter_gives I.IntoIter.next_gives
            (Overrides S.Kind.kind S.Value.eq) iter self.old self.new result }
        ensures err { OnErr result (StopsBeforeItem I.into_iter_gives I.IntoIter.next_gives
            (Overrides S.Kind.kind S.Value.eq) iter self.old self.new) }
        ensures of_nothing { ((it : I.IntoIter) → I.into_iter_gives iter it
            → GivesNothing I.IntoIter.next_gives it)
            → IsOk result × (self.new ≡ self.old) }
    {
        self.known();
        for (range, value) in iter {
            self.insert(range, value)?;
        }
        Ok(())
    }
}

impl<S: StoreMut + Drop> Map<S> {
    // `from_iter` without its bound on the step type, which the public call has so that the type of its
    // result can be inferred.
    pub(super) fn from_items<I: IntoIterator<Item = (S::Range, S::Value)>>(
        alloc: S::Alloc,
        iter: I,
    ) -> Result<Self, AllocError>
        requires ends { IsFiniteIterable I.into_iter_gives I.IntoIter.can_next I.IntoIter.remaining iter }
        requires non_empty { (it : I.IntoIter) → I.into_iter_gives iter it
            → GivesNonEmpty S.Kind.kind I.IntoIter.next_gives it }
        requires faithful_keys { KeysCloneFaithfully S.Range.Key.is_clone S.Range.Key.cmp }
        requires faithful_values { ValuesCloneFaithfully S.Value.is_clone S.Value.eq }
        ensures items { IfOk result
            (λ all. (it : I.IntoIter) × (pairs : List _) × I.into_iter_gives iter it
            × Drains I.IntoIter.next_gives it pairs
            × IsCanonOf S.Kind.kind S.Value.eq (override_all S.Kind.kind nothing pairs) all) }
        ensures of_nothing { ((it : I.IntoIter) → I.into_iter_gives iter it
            → GivesNothing I.IntoIter.next_gives it)
            → IsOk result }
    {
        let mut all = Map::new_with_step_fns(alloc);
        all.extend(iter)?;
        Ok(all)
    }
}

impl<S: StoreMut + Drop> Map<S>
where
    S::Kind: Kind<S::Range, Steps = <S::Range as KeyRange>::Key>,
{
    /// Returns the map of the items of `iter`, inserted in the order in which they come, in memory
    /// of `alloc`.
    ///
    /// # Requires
    ///
    /// As for `extend`. You may have to write the same line of proof.
    ///
    /// # Errors
    ///
    /// An insert was refused. Nothing is made then. If no item comes, the call succeeds.
    pub fn from_iter<I: IntoIterator<Item = (S::Range, S::Value)>>(
        alloc: S::Alloc,
        iter: I,
    ) -> Result<Self, AllocError>
        requires ends { IsFiniteIterable I.into_iter_gives I.IntoIter.can_next I.IntoIter.remaining iter }
        requires non_empty { (it : I.IntoIter) → I.into_iter_gives iter it
            → GivesNonEmpty S.Kind.kind I.IntoIter.next_gives it }
        requires faithful_keys { KeysCloneFaithfully S.Range.Key.is_clone S.Range.Key.cmp }
        requires faithful_values { ValuesCloneFaithfully S.Value.is_clone S.Value.eq }
        ensures items { IfOk result
            (λ all. (it : I.IntoIter) × (pairs : List _) × I.into_iter_gives iter it
            × Drains I.IntoIter.next_gives it pairs
            × IsCanonOf S.Kind.kind S.Value.eq (override_all S.Kind.kind nothing pairs) all) }
        ensures of_nothing { ((it : I.IntoIter) → I.into_iter_gives iter it
            → GivesNothing I.IntoIter.next_gives it)
            → IsOk result }
    {
        Map::from_items(alloc, iter)
    }

    /// Returns the map of the pairs of an array, inserted in their order, in memory of `alloc`.
    ///
    /// # Requires
    ///
    /// As for `insert`, of each pair.
    ///
    /// # Errors
    ///
    /// An insert, the memory to read the array, or a clone of `alloc` was refused. Nothing is made then.
    ///
    /// # Examples
    ///
    /// ```text
    /// let map = RangeMap::from(alloc, [(0..10, 'a'), (3..6, 'b')])?;
    /// // (0..3, 'a'), (3..6, 'b'), (6..10, 'a')
    /// ```
    pub fn from<const N: usize>(
        alloc: S::Alloc,
        value: [(S::Range, S::Value); N],
    ) -> Result<Self, AllocError>
    where
        S::Alloc: Clone,
        requires non_empty { AreNonEmpty S.Kind.kind value }
        requires faithful_keys { KeysCloneFaithfully S.Range.Key.is_clone S.Range.Key.cmp }
        requires faithful_values { ValuesCloneFaithfully S.Value.is_clone S.Value.eq }
        ensures { IfOk result
            (λ all. IsCanonOf S.Kind.kind S.Value.eq (override_all S.Kind.kind nothing value) all) }
    {
        let pairs = Vec::from_array(alloc.clone()?, value)?;
        Map::from_iter(alloc, pairs)
    }
}

impl<S: HandsOver> IntoIterator for Map<S> {
    ghost use Rattle.std.specs.Prelude.{◌≡◌};
    ghost use Rattle.rangemap_core.specs.Ranges.{IsCanonical};

    type Item = (S::Range, S::Value);

    type IntoIter = PairIter<S::IntoIter>;

    ghost into_iter_gives = { λ map it. (it ≡ map) × IsCanonical S.Kind.kind S.Value.eq map };

    /// Returns a double-ended iterator over the stored pairs, in order. Items that are not taken are
    /// dropped with it.
    fn into_iter(self) -> PairIter<S::IntoIter> {
        let len = self.stored.len();
        PairIter::over(self.stored.into_pairs(), len)
    }
}

impl<'a, S: Lends<'a>> IntoIterator for &'a Map<S>
where
    S::Range: 'a,
    S::Value: 'a,
{
    ghost use Rattle.std.specs.Prelude.{◌≡◌};
    ghost use Rattle.rangemap_core.specs.Ranges.{IsCanonical};

    type Item = (&'a S::Range, &'a S::Value);

    type IntoIter = PairIter<S::Iter>;

    ghost into_iter_gives = { λ map it. (it ≡ map.now) × IsCanonical S.Kind.kind S.Value.eq map.now };

    /// Returns a double-ended iterator over the stored pairs, in order.
    fn into_iter(self) -> PairIter<S::Iter> {
        self.iter()
    }
}
