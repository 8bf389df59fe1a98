//! The laws of `|`, `&`, `-` and `^`, of every set that has them, and of the unions and intersections of
//! closed ranges.
//!
//! Each function except `closed_operations` makes the operators that its law speaks of, and returns the
//! sets that they make, which are equal: the left side and the right side. A law that holds for both `|`
//! and `&` takes the operator as an argument. `is_subset_exactly_where_nothing_is_left` returns two
//! results that are equal.
//!
//! A contract speaks of the keys that a set has, not of how it was made. A body that clones the first
//! set would meet the contracts of `is_idempotent`, `absorbs`, `makes_up` and `cancels`, and a body that
//! clones the other side would meet the rest. That the operators are applied you have to read in the
//! bodies.
//!
//! A clone of a key compares equal to its original, as for `insert`.
ghost use Rattle.std.specs.Prelude.{◌≡◌, ◌↔◌, ◌++◌, IsTrue, IfOk, List};
ghost use Rattle.std.specs.declared.ops.RangeInclusive.{RangeInclusive as RangeInclusiveOf};
ghost use Rattle.rangemap.specs.Clones.{KeysCloneFaithfully};
ghost use Rattle.rangemap.specs.Joined.{exactly_one, joined, minus, other_of};
ghost use Rattle.rangemap.specs.Items.{intersection_items, union_items};
ghost use Rattle.rangemap.specs.Places.{closed_places};
ghost use Rattle.rangemap.specs.Ranges.{IsCanonOfPoints, closed, covers, same_ranges};
ghost use Rattle.rangemap.specs.Sets.{AreCommon, AreCovered, AreHulls, IsCanonicalSet};
ghost use Rattle.rangemap.specs.declared.range_set.operators.Operator.TheVariants.{Intersection, Union};

use rangemap::StepFns;
pub use rangemap::range_set::Operator;
use rangemap::set::Set;
use rangemap_core::store::StoreMut;
use std::alloc::AllocError;

/// `a | b` equals `b | a`, and `a & b` equals `b & a`.
///
/// # Errors
///
/// An operator was refused.
pub fn commutes<S: StoreMut<Value = ()> + Drop>(
    operator: Operator,
    first: &Set<S>,
    second: &Set<S>,
) -> Result<(Set<S>, Set<S>), AllocError>
where
    S::Alloc: Clone,
    requires faithful_keys { KeysCloneFaithfully S.Range.Key.is_clone S.Range.Key.cmp }
    ensures left { IfOk result (λ sets. IsCanonOfPoints S.Kind.kind
        (joined operator (covers S.Kind.kind first.now) (covers S.Kind.kind second.now)) sets.0) }
    ensures right { IfOk result (λ sets. IsCanonOfPoints S.Kind.kind
        (joined operator (covers S.Kind.kind second.now) (covers S.Kind.kind first.now)) sets.1) }
    ensures equal { IfOk result (λ sets. IsTrue (same_ranges S.Kind.kind sets.0 sets.1)) }
{
    let left = operator.apply(first, second)?;
    let right = operator.apply(second, first)?;
    Ok((left, right))
}

/// `(a | b) | c` equals `a | (b | c)`, and `(a & b) & c` equals `a & (b & c)`.
///
/// # Errors
///
/// An operator was refused.
pub fn associates<S: StoreMut<Value = ()> + Drop>(
    operator: Operator,
    first: &Set<S>,
    second: &Set<S>,
    third: &Set<S>,
) -> Result<(Set<S>, Set<S>), AllocError>
where
    S::Alloc: Clone,
    requires faithful_keys { KeysCloneFaithfully S.Range.Key.is_clone S.Range.Key.cmp }
    ensures left { IfOk result (λ sets. IsCanonOfPoints S.Kind.kind
        (joined operator
        (joined operator (covers S.Kind.kind first.now) (covers S.Kind.kind second.now))
        (covers S.Kind.kind third.now))
        sets.0) }
    ensures right { IfOk result (λ sets. IsCanonOfPoints S.Kind.kind
        (joined operator (covers S.Kind.kind first.now)
        (joined operator (covers S.Kind.kind second.now) (covers S.Kind.kind third.now)))
        sets.1) }
    ensures equal { IfOk result (λ sets. IsTrue (same_ranges S.Kind.kind sets.0 sets.1)) }
{
    first.known();
    third.known();
    let front = operator.apply(first, second)?;
    let back = operator.apply(second, third)?;
    let left = operator.apply(&front, third)?;
    let right = operator.apply(first, &back)?;
    Ok((left, right))
}

/// `a | a` equals `a`, and so does `a & a`.
///
/// # Errors
///
/// An operator was refused.
pub fn is_idempotent<S: StoreMut<Value = ()> + Drop>(
    operator: Operator,
    first: &Set<S>,
) -> Result<Set<S>, AllocError>
where
    S::Alloc: Clone,
    requires faithful_keys { KeysCloneFaithfully S.Range.Key.is_clone S.Range.Key.cmp }
    ensures made { IfOk result (IsCanonOfPoints S.Kind.kind
        (joined operator (covers S.Kind.kind first.now) (covers S.Kind.kind first.now))) }
    ensures equal { IfOk result (λ set. IsTrue (same_ranges S.Kind.kind set first.now)) }
{
    first.known();
    operator.apply(first, first)
}

/// `a | (a & b)` equals `a`, and so does `a & (a | b)`. The operator is the outer one.
///
/// # Errors
///
/// An operator was refused.
pub fn absorbs<S: StoreMut<Value = ()> + Drop>(
    operator: Operator,
    first: &Set<S>,
    second: &Set<S>,
) -> Result<Set<S>, AllocError>
where
    S::Alloc: Clone,
    requires faithful_keys { KeysCloneFaithfully S.Range.Key.is_clone S.Range.Key.cmp }
    ensures made { IfOk result (IsCanonOfPoints S.Kind.kind
        (joined operator (covers S.Kind.kind first.now) (joined (other_of operator)
        (covers S.Kind.kind first.now) (covers S.Kind.kind second.now)))) }
    ensures equal { IfOk result (λ set. IsTrue (same_ranges S.Kind.kind set first.now)) }
{
    first.known();
    let inner = operator.other().apply(first, second)?;
    operator.apply(first, &inner)
}

/// `a | (b & c)` equals `(a | b) & (a | c)`, and `a & (b | c)` equals `(a & b) | (a & c)`. The operator
/// is the outer one of the left side.
///
/// # Errors
///
/// An operator was refused.
pub fn distributes<S: StoreMut<Value = ()> + Drop>(
    operator: Operator,
    first: &Set<S>,
    second: &Set<S>,
    third: &Set<S>,
) -> Result<(Set<S>, Set<S>), AllocError>
where
    S::Alloc: Clone,
    requires faithful_keys { KeysCloneFaithfully S.Range.Key.is_clone S.Range.Key.cmp }
    ensures left { IfOk result (λ sets. IsCanonOfPoints S.Kind.kind
        (joined operator (covers S.Kind.kind first.now)
        (joined (other_of operator) (covers S.Kind.kind second.now) (covers S.Kind.kind third.now)))
        sets.0) }
    ensures right { IfOk result (λ sets. IsCanonOfPoints S.Kind.kind
        (joined (other_of operator)
        (joined operator (covers S.Kind.kind first.now) (covers S.Kind.kind second.now))
        (joined operator (covers S.Kind.kind first.now) (covers S.Kind.kind third.now)))
        sets.1) }
    ensures equal { IfOk result (λ sets. IsTrue (same_ranges S.Kind.kind sets.0 sets.1)) }
{
    first.known();
    let other = operator.other();
    let inner = other.apply(second, third)?;
    let near = operator.apply(first, second)?;
    let far = operator.apply(first, third)?;
    let left = operator.apply(first, &inner)?;
    let right = other.apply(&near, &far)?;
    Ok((left, right))
}

/// `(a - b) | (a & b)` equals `a`.
///
/// # Errors
///
/// An operator was refused.
pub fn makes_up<S: StoreMut<Value = ()> + Drop>(
    first: &Set<S>,
    second: &Set<S>,
) -> Result<Set<S>, AllocError>
where
    S::Alloc: Clone,
    requires faithful_keys { KeysCloneFaithfully S.Range.Key.is_clone S.Range.Key.cmp }
    ensures made { IfOk result (IsCanonOfPoints S.Kind.kind
        (joined Union (minus (covers S.Kind.kind first.now) (covers S.Kind.kind second.now))
        (joined Intersection (covers S.Kind.kind first.now) (covers S.Kind.kind second.now)))) }
    ensures equal { IfOk result (λ set. IsTrue (same_ranges S.Kind.kind set first.now)) }
{
    first.known();
    let rest = (first - second)?;
    let common = (first & second)?;
    &rest | &common
}

/// `a - (b | c)` equals `(a - b) & (a - c)`, and `a - (b & c)` equals `(a - b) | (a - c)`. The operator is
/// the one between `b` and `c`.
///
/// # Errors
///
/// An operator was refused.
pub fn turns_over<S: StoreMut<Value = ()> + Drop>(
    operator: Operator,
    first: &Set<S>,
    second: &Set<S>,
    third: &Set<S>,
) -> Result<(Set<S>, Set<S>), AllocError>
where
    S::Alloc: Clone,
    requires faithful_keys { KeysCloneFaithfully S.Range.Key.is_clone S.Range.Key.cmp }
    ensures left { IfOk result (λ sets. IsCanonOfPoints S.Kind.kind
        (minus (covers S.Kind.kind first.now)
        (joined operator (covers S.Kind.kind second.now) (covers S.Kind.kind third.now)))
        sets.0) }
    ensures right { IfOk result (λ sets. IsCanonOfPoints S.Kind.kind
        (joined (other_of operator)
        (minus (covers S.Kind.kind first.now) (covers S.Kind.kind second.now))
        (minus (covers S.Kind.kind first.now) (covers S.Kind.kind third.now)))
        sets.1) }
    ensures equal { IfOk result (λ sets. IsTrue (same_ranges S.Kind.kind sets.0 sets.1)) }
{
    first.known();
    let inner = operator.apply(second, third)?;
    let near = (first - second)?;
    let far = (first - third)?;
    let left = (first - &inner)?;
    let right = operator.other().apply(&near, &far)?;
    Ok((left, right))
}

/// `(a ^ b) ^ b` equals `a`.
///
/// # Errors
///
/// An operator was refused.
pub fn cancels<S: StoreMut<Value = ()> + Drop>(
    first: &Set<S>,
    second: &Set<S>,
) -> Result<Set<S>, AllocError>
where
    S::Alloc: Clone,
    requires faithful_keys { KeysCloneFaithfully S.Range.Key.is_clone S.Range.Key.cmp }
    ensures made { IfOk result (IsCanonOfPoints S.Kind.kind
        (exactly_one (exactly_one (covers S.Kind.kind first.now) (covers S.Kind.kind second.now))
        (covers S.Kind.kind second.now))) }
    ensures equal { IfOk result (λ set. IsTrue (same_ranges S.Kind.kind set first.now)) }
{
    first.known();
    second.known();
    let inner = (first ^ second)?;
    &inner ^ second
}

/// `a ^ b` equals `(a | b) - (a & b)`.
///
/// # Errors
///
/// An operator was refused.
pub fn is_either_without_common<S: StoreMut<Value = ()> + Drop>(
    first: &Set<S>,
    second: &Set<S>,
) -> Result<(Set<S>, Set<S>), AllocError>
where
    S::Alloc: Clone,
    requires faithful_keys { KeysCloneFaithfully S.Range.Key.is_clone S.Range.Key.cmp }
    ensures left { IfOk result (λ sets. IsCanonOfPoints S.Kind.kind
        (exactly_one (covers S.Kind.kind first.now) (covers S.Kind.kind second.now)) sets.0) }
    ensures right { IfOk result (λ sets. IsCanonOfPoints S.Kind.kind
        (minus (joined Union (covers S.Kind.kind first.now) (covers S.Kind.kind second.now))
        (joined Intersection (covers S.Kind.kind first.now) (covers S.Kind.kind second.now)))
        sets.1) }
    ensures equal { IfOk result (λ sets. IsTrue (same_ranges S.Kind.kind sets.0 sets.1)) }
{
    let either = (first | second)?;
    let common = (first & second)?;
    let left = (first ^ second)?;
    let right = (&either - &common)?;
    Ok((left, right))
}

/// `a.is_subset(b)` is true exactly if `a - b` is empty. Returns both results.
///
/// # Errors
///
/// An operator was refused.
pub fn is_subset_exactly_where_nothing_is_left<S: StoreMut<Value = ()> + Drop>(
    first: &Set<S>,
    second: &Set<S>,
) -> Result<(bool, bool), AllocError>
where
    S::Alloc: Clone,
    requires faithful_keys { KeysCloneFaithfully S.Range.Key.is_clone S.Range.Key.cmp }
    ensures subset { IfOk result (λ answers. IsTrue answers.0
        ↔ AreCovered S.Kind.kind (covers S.Kind.kind first.now) second.now) }
    ensures empty { IfOk result (λ answers. answers.1 ≡ answers.0) }
{
    let rest = (first - second)?;
    let subset = first.is_subset(second);
    Ok((subset, rest.is_empty()))
}

/// This law is about closed ranges, with any steps. The items of a union of two canonical lists are
/// the hulls of both lists. The items of an intersection are the canonical list of the common keys.
/// The contracts of `Union::new` and `Intersection::new` say which items these are.
pub fn closed_operations<T: Ord, StepFnsT: StepFns<T>>()
    ensures hulls { (left right : List (RangeInclusiveOf T))
        → IsCanonicalSet (closed StepFnsT.is_key T.cmp) left
        → IsCanonicalSet (closed StepFnsT.is_key T.cmp) right
        → AreHulls (closed StepFnsT.is_key T.cmp) (left ++ right)
        (union_items (closed_places T.cmp) left right) }
    ensures common { (left right : List (RangeInclusiveOf T))
        → IsCanonicalSet (closed StepFnsT.is_key T.cmp) left
        → IsCanonicalSet (closed StepFnsT.is_key T.cmp) right
        → AreCommon (closed StepFnsT.is_key T.cmp) left right
        (intersection_items (closed_places T.cmp) left right) }
{}
