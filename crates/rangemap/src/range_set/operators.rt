//! Union, intersection and the two differences of two sets as iterators, the operators that make sets,
//! and a choice between `|` and `&`.
ghost use Rattle.std.specs.Prelude.{◌≡◌, ◌++◌, IfOk};
ghost use Rattle.rangemap.specs.Clones.{KeysCloneFaithfully};
ghost use Rattle.rangemap.specs.Joined.{joined, other_of};
ghost use Rattle.rangemap.specs.Ranges.{IsCanonOfPoints, covers};
ghost use Rattle.rangemap.specs.Sets.{AreCommon, AreHulls, AreOneOnly, AreWithout, CoverEither};

use super::Set;
use rangemap_core::cursor::Peek;
use rangemap_core::store::{Lends, Store, StoreMut};
use rangemap_unions::inserts::{Exchanging, Intersecting, Subtracting, Uniting};
use rangemap_unions::{Difference, Intersection, SymmetricDifference, Union};
use std::alloc::AllocError;
use std::marker::PhantomData;
use std::ops::{BitAnd, BitOr, BitXor, Sub};

impl<'a, S: Lends<'a, Iter: Peek> + Store<Value = ()>> Set<S>
where
    S::Range: 'a,
    S::Value: 'a,
{
    /// Returns the ranges of both sets, joined where they overlap. Ranges that only touch stay
    /// apart; `|` makes them one.
    ///
    /// Each item is made of clones when you ask for it. A clone may be refused.
    ///
    /// # Examples
    ///
    /// ```text
    /// let left = range_set![in alloc; 0..5, 9..12]?;
    /// left.union(&range_set![in alloc; 3..10]?) // 0..12
    /// left.union(&range_set![in alloc; 5..7]?) // 0..5, 5..7, 9..12
    /// ```
    pub fn union(&'a self, other: &'a Self) -> Union<S::Iter>
        ensures hulls { AreHulls S.Kind.kind (self.now ++ other.now) result }
        ensures points { CoverEither S.Kind.kind self.now other.now result }
    {
        Union::new(self.iter(), other.iter())
    }

    /// Returns the parts that both sets have, in order.
    ///
    /// Each item is made of clones when you ask for it. A clone may be refused.
    ///
    /// # Examples
    ///
    /// ```text
    /// let left = range_set![in alloc; 0..10, 20..30]?;
    /// left.intersection(&range_set![in alloc; 5..25]?) // 5..10, 20..25
    /// ```
    pub fn intersection(&'a self, other: &'a Self) -> Intersection<S::Iter>
        ensures { AreCommon S.Kind.kind self.now other.now result }
    {
        Intersection::new(self.iter(), other.iter())
    }

    /// Returns the parts of this set's ranges that the other set leaves free, in order. They are the
    /// canonical list of the keys that are in this set and not in the other one.
    ///
    /// Each item is made when you ask for it, of clones or of steps from its neighbours. A clone may be
    /// refused.
    ///
    /// # Examples
    ///
    /// ```text
    /// let left = range_set![in alloc; 0..10, 20..30]?;
    /// left.difference(&range_set![in alloc; 5..25, 27..28]?) // 0..5, 25..27, 28..30
    /// ```
    #[tactic(auto, using(rangemap_core::proofs::UnitValueLemmas::canonical_ranges))]
    pub fn difference(&'a self, other: &'a Self) -> Difference<S::Kind, S::Range, S::Iter>
        ensures { AreWithout S.Kind.kind self.now other.now result }
    {
        self.stored.known();
        other.stored.known();
        Difference::over(self.stored.iter(), other.stored.iter())
    }

    /// Returns the parts that exactly one of the sets has, in order. They are the canonical list of the keys
    /// that are in one set and not in the other: parts of both sets that touch are one.
    ///
    /// Each item is made when you ask for it, of clones or of steps from its neighbours. A clone may be
    /// refused.
    ///
    /// # Examples
    ///
    /// ```text
    /// let left = range_set![in alloc; 0..5, 9..12]?;
    /// left.symmetric_difference(&range_set![in alloc; 3..7, 12..14]?) // 0..3, 5..7, 9..14
    /// ```
    #[tactic(auto, using(rangemap_core::proofs::UnitValueLemmas::canonical_ranges))]
    pub fn symmetric_difference(
        &'a self,
        other: &'a Self,
    ) -> SymmetricDifference<S::Kind, S::Range, S::Iter>
        ensures { AreOneOnly S.Kind.kind self.now other.now result }
    {
        self.stored.known();
        other.stored.known();
        SymmetricDifference::over(self.stored.iter(), other.stored.iter())
    }
}

impl<'a, S: StoreMut<Value = ()> + Drop> BitOr<&'a Set<S>> for &'a Set<S>
where
    S::Alloc: Clone,
{
    ghost use Rattle.std.specs.Prelude.{IfOk};
    ghost use Rattle.rangemap.specs.Clones.{KeysCloneFaithfully};
    ghost use Rattle.rangemap.specs.Sets.{AreEither};

    type Output = Result<Set<S>, AllocError>;

    ghost can_bitor = { λ _ _. KeysCloneFaithfully S.Range.Key.is_clone S.Range.Key.cmp };

    ghost bitor_gives = { λ left right result. IfOk result (AreEither S.Kind.kind left.now right.now) };

    /// Returns the set of the keys of either set, in memory of a clone of the left one's allocator.
    ///
    /// # Requires
    ///
    /// A clone of a key compares equal to its original.
    ///
    /// # Errors
    ///
    /// Memory or a clone was refused.
    #[tactic(auto, using(rangemap_core::proofs::UnitValueLemmas::canonical_ranges))]
    fn bitor(self, other: &'a Set<S>) -> Result<Set<S>, AllocError> {
        self.stored.known();
        other.stored.known();
        let mut stored = S::empty(self.stored.allocator().clone()?);
        self.stored
            .read_both::<Uniting<S>>(&other.stored, &mut stored)?;
        Ok(Set {
            stored,
            borrows: PhantomData,
        })
    }
}

impl<'a, S: StoreMut<Value = ()> + Drop> BitAnd<&'a Set<S>> for &'a Set<S>
where
    S::Alloc: Clone,
{
    ghost use Rattle.std.specs.Prelude.{IfOk};
    ghost use Rattle.rangemap.specs.Clones.{KeysCloneFaithfully};
    ghost use Rattle.rangemap.specs.Sets.{AreCommon};

    type Output = Result<Set<S>, AllocError>;

    ghost can_bitand = { λ _ _. KeysCloneFaithfully S.Range.Key.is_clone S.Range.Key.cmp };

    ghost bitand_gives = { λ left right result. IfOk result (AreCommon S.Kind.kind left.now right.now) };

    /// Returns the set of the keys of both sets, in memory of a clone of the left one's allocator.
    ///
    /// # Requires
    ///
    /// A clone of a key compares equal to its original.
    ///
    /// # Errors
    ///
    /// Memory or a clone was refused.
    #[tactic(auto, using(rangemap_core::proofs::UnitValueLemmas::canonical_ranges))]
    fn bitand(self, other: &'a Set<S>) -> Result<Set<S>, AllocError> {
        self.stored.known();
        other.stored.known();
        let mut stored = S::empty(self.stored.allocator().clone()?);
        self.stored
            .read_both::<Intersecting<S>>(&other.stored, &mut stored)?;
        Ok(Set {
            stored,
            borrows: PhantomData,
        })
    }
}

impl<'a, S: StoreMut<Value = ()> + Drop> Sub<&'a Set<S>> for &'a Set<S>
where
    S::Alloc: Clone,
{
    ghost use Rattle.std.specs.Prelude.{IfOk};
    ghost use Rattle.rangemap.specs.Clones.{KeysCloneFaithfully};
    ghost use Rattle.rangemap.specs.Sets.{AreWithout};

    type Output = Result<Set<S>, AllocError>;

    ghost can_sub = { λ _ _. KeysCloneFaithfully S.Range.Key.is_clone S.Range.Key.cmp };

    ghost sub_gives = { λ left right result. IfOk result (AreWithout S.Kind.kind left.now right.now) };

    /// Returns the set of the keys that this set has and the other one lacks, in memory of a clone of this
    /// one's allocator.
    ///
    /// # Requires
    ///
    /// A clone of a key compares equal to its original.
    ///
    /// # Errors
    ///
    /// Memory or a clone was refused.
    #[tactic(auto, using(rangemap_core::proofs::UnitValueLemmas::canonical_ranges))]
    fn sub(self, other: &'a Set<S>) -> Result<Set<S>, AllocError> {
        self.stored.known();
        other.stored.known();
        let mut stored = S::empty(self.stored.allocator().clone()?);
        self.stored
            .read_both::<Subtracting<S>>(&other.stored, &mut stored)?;
        Ok(Set {
            stored,
            borrows: PhantomData,
        })
    }
}

impl<'a, S: StoreMut<Value = ()> + Drop> BitXor<&'a Set<S>> for &'a Set<S>
where
    S::Alloc: Clone,
{
    ghost use Rattle.std.specs.Prelude.{IfOk};
    ghost use Rattle.rangemap.specs.Clones.{KeysCloneFaithfully};
    ghost use Rattle.rangemap.specs.Sets.{AreOneOnly};

    type Output = Result<Set<S>, AllocError>;

    ghost can_bitxor = { λ _ _. KeysCloneFaithfully S.Range.Key.is_clone S.Range.Key.cmp };

    ghost bitxor_gives = { λ left right result. IfOk result (AreOneOnly S.Kind.kind left.now right.now) };

    /// Returns the set of the keys that exactly one of the sets has, in memory of a clone of the left one's
    /// allocator.
    ///
    /// # Requires
    ///
    /// A clone of a key compares equal to its original.
    ///
    /// # Errors
    ///
    /// Memory or a clone was refused.
    #[tactic(auto, using(rangemap_core::proofs::UnitValueLemmas::canonical_ranges))]
    fn bitxor(self, other: &'a Set<S>) -> Result<Set<S>, AllocError> {
        self.stored.known();
        other.stored.known();
        let mut stored = S::empty(self.stored.allocator().clone()?);
        self.stored
            .read_both::<Exchanging<S>>(&other.stored, &mut stored)?;
        Ok(Set {
            stored,
            borrows: PhantomData,
        })
    }
}

/// One of the operators `|` and `&`, as an argument of their laws (`sets` of `rangemap_laws`).
#[derive(Clone, Copy, Debug, PartialEq, Eq)]
pub enum Operator {
    /// `|`, the keys of either set.
    Union,
    /// `&`, the keys of both.
    Intersection,
}

impl Operator {
    /// Returns the set that the operator makes of the two, in memory of a clone of the left one's
    /// allocator.
    ///
    /// # Requires
    ///
    /// A clone of a key compares equal to its original.
    ///
    /// # Errors
    ///
    /// Memory or a clone was refused.
    pub fn apply<S: StoreMut<Value = ()> + Drop>(
        self,
        left: &Set<S>,
        right: &Set<S>,
    ) -> Result<Set<S>, AllocError>
    where
        S::Alloc: Clone,
        requires faithful_keys { KeysCloneFaithfully S.Range.Key.is_clone S.Range.Key.cmp }
        ensures { IfOk result (IsCanonOfPoints S.Kind.kind
            (joined self (covers S.Kind.kind left.now) (covers S.Kind.kind right.now))) }
    {
        match self {
            Operator::Union => left | right,
            Operator::Intersection => left & right,
        }
    }

    /// Returns the other operator.
    pub fn other(self) -> Operator
        ensures { result ≡ other_of self }
    {
        match self {
            Operator::Union => Operator::Intersection,
            Operator::Intersection => Operator::Union,
        }
    }
}
