//! The items of a union, an intersection or a difference of either kind, put into a set.
use crate::difference::Difference;
use crate::intersection::Intersection;
use crate::symmetric_difference::SymmetricDifference;
use crate::union::Union;
use rangemap_core::cursor::Peek;
use rangemap_core::reader::ReaderOfBoth;
use rangemap_core::store::StoreMut;
use std::alloc::AllocError;
use std::marker::PhantomData;

/// Inserts the keys of either of two sets into an empty store.
///
/// It returns `Err` if a clone or an insert was refused. What the store holds then is left open.
pub struct Uniting<S>(PhantomData<S>);

impl<S: StoreMut<Value = ()>> ReaderOfBoth<S::Range, ()> for Uniting<S> {
    ghost use Rattle.std.specs.Prelude.{◌≡◌, [], OnOk};
    ghost use Rattle.rangemap_core.specs.Clones.{KeysCloneFaithfully};
    ghost use Rattle.rangemap_core.specs.Sets.{AreEither, IsCanonicalSet, ranges};

    type State = S;

    type Answer = Result<(), AllocError>;

    ghost may_read = { λ left right all. KeysCloneFaithfully S.Range.Key.is_clone S.Range.Key.cmp
        × IsCanonicalSet S.Kind.kind (ranges left)
        × IsCanonicalSet S.Kind.kind (ranges right)
        × (ranges (S.pairs all) ≡ []) };

    ghost reads = { λ left right _ result all. OnOk result
        (AreEither S.Kind.kind (ranges left) (ranges right) (ranges (S.pairs all))) };

    fn read<C: Peek<Range = S::Range, Value = ()>>(
        left: C,
        right: C,
        all: &mut S,
    ) -> Result<(), AllocError> {
        let mut items = Union::over(left, right);
        while let Some(item) = items.try_next()? {
            all.insert(item, ())?;
        }
        Ok(())
    }
}

/// Inserts the keys that two sets have in common into an empty store.
///
/// It returns what `Uniting` does.
pub struct Intersecting<S>(PhantomData<S>);

impl<S: StoreMut<Value = ()>> ReaderOfBoth<S::Range, ()> for Intersecting<S> {
    ghost use Rattle.std.specs.Prelude.{◌≡◌, [], OnOk};
    ghost use Rattle.rangemap_core.specs.Clones.{KeysCloneFaithfully};
    ghost use Rattle.rangemap_core.specs.Sets.{AreCommon, IsCanonicalSet, ranges};

    type State = S;

    type Answer = Result<(), AllocError>;

    ghost may_read = { λ left right common. KeysCloneFaithfully S.Range.Key.is_clone S.Range.Key.cmp
        × IsCanonicalSet S.Kind.kind (ranges left)
        × IsCanonicalSet S.Kind.kind (ranges right)
        × (ranges (S.pairs common) ≡ []) };

    ghost reads = { λ left right _ result common. OnOk result
        (AreCommon S.Kind.kind (ranges left) (ranges right) (ranges (S.pairs common))) };

    fn read<C: Peek<Range = S::Range, Value = ()>>(
        left: C,
        right: C,
        common: &mut S,
    ) -> Result<(), AllocError> {
        let mut items = Intersection::over(left, right);
        while let Some(item) = items.try_next()? {
            common.insert(item, ())?;
        }
        Ok(())
    }
}

/// Inserts the keys that one set has and another lacks into an empty store.
///
/// It returns what `Uniting` does.
pub struct Subtracting<S>(PhantomData<S>);

impl<S: StoreMut<Value = ()>> ReaderOfBoth<S::Range, ()> for Subtracting<S> {
    ghost use Rattle.std.specs.Prelude.{◌≡◌, [], OnOk};
    ghost use Rattle.rangemap_core.specs.Clones.{KeysCloneFaithfully};
    ghost use Rattle.rangemap_core.specs.Sets.{AreWithout, IsCanonicalSet, ranges};

    type State = S;

    type Answer = Result<(), AllocError>;

    ghost may_read = { λ left right rest. KeysCloneFaithfully S.Range.Key.is_clone S.Range.Key.cmp
        × IsCanonicalSet S.Kind.kind (ranges left)
        × IsCanonicalSet S.Kind.kind (ranges right)
        × (ranges (S.pairs rest) ≡ []) };

    ghost reads = { λ left right _ result rest. OnOk result
        (AreWithout S.Kind.kind (ranges left) (ranges right) (ranges (S.pairs rest))) };

    fn read<C: Peek<Range = S::Range, Value = ()>>(
        left: C,
        right: C,
        rest: &mut S,
    ) -> Result<(), AllocError> {
        let mut parts = Difference::<S::Kind, S::Range, C>::over(left, right);
        while let Some(part) = parts.try_next()? {
            rest.insert(part, ())?;
        }
        Ok(())
    }
}

/// Inserts the keys that exactly one of two sets has into an empty store.
///
/// It returns what `Uniting` does.
pub struct Exchanging<S>(PhantomData<S>);

impl<S: StoreMut<Value = ()>> ReaderOfBoth<S::Range, ()> for Exchanging<S> {
    ghost use Rattle.std.specs.Prelude.{◌≡◌, [], OnOk};
    ghost use Rattle.rangemap_core.specs.Clones.{KeysCloneFaithfully};
    ghost use Rattle.rangemap_core.specs.Sets.{AreOneOnly, IsCanonicalSet, ranges};

    type State = S;

    type Answer = Result<(), AllocError>;

    ghost may_read = { λ left right one_only.
        KeysCloneFaithfully S.Range.Key.is_clone S.Range.Key.cmp
        × IsCanonicalSet S.Kind.kind (ranges left)
        × IsCanonicalSet S.Kind.kind (ranges right)
        × (ranges (S.pairs one_only) ≡ []) };

    ghost reads = { λ left right _ result one_only. OnOk result
        (AreOneOnly S.Kind.kind (ranges left) (ranges right) (ranges (S.pairs one_only))) };

    fn read<C: Peek<Range = S::Range, Value = ()>>(
        left: C,
        right: C,
        one_only: &mut S,
    ) -> Result<(), AllocError> {
        let mut parts = SymmetricDifference::<S::Kind, S::Range, C>::over(left, right);
        while let Some(part) = parts.try_next()? {
            one_only.insert(part, ())?;
        }
        Ok(())
    }
}
