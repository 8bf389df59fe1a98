//! Equality and order of what two stores hold, pair by pair: a store hands its pairs and those of
//! another to a reader of both, so that no store compares pairs itself.
ghost use Rattle.std.specs.Prelude.{◌≡◌};
ghost use Rattle.rangemap_core.specs.ListOrder.{pairs_cmp};
ghost use Rattle.rangemap_core.specs.Ranges.{same_pairs};

use rangemap_core::cursor::Peek;
use rangemap_core::key_range::KeyRange;
use rangemap_core::kind::Kind;
use rangemap_core::pairs::is_same;
use rangemap_core::reader::ReaderOfBoth;
use rangemap_core::store::Store;
use std::cmp::Ordering;
use std::marker::PhantomData;

/// Returns whether two stores hold equal pairs. It compares how many they hold first, and stops at the
/// first two pairs that differ.
pub fn are_same<S: Store>(left: &S, right: &S) -> bool
    ensures { result ≡ same_pairs S.Kind.kind S.Value.eq (S.pairs left.now) (S.pairs right.now) }
{
    left.len() == right.len() && left.read_both::<Same<S::Kind>>(right, &mut ())
}

/// Compares two stores: by the first two pairs that differ, else by how many pairs they hold.
pub fn compare<S: Store<Value: Ord>>(left: &S, right: &S) -> Ordering
    ensures { result ≡ pairs_cmp S.Kind.kind S.Value.cmp (S.pairs left.now) (S.pairs right.now) }
{
    left.read_both::<Compared<S::Kind>>(right, &mut ())
}

// Tells whether the pairs of two stores are equal, one by one.
struct Same<Q>(PhantomData<Q>);

impl<Q: Kind<R>, R: KeyRange, V: Eq> ReaderOfBoth<R, V> for Same<Q> {
    ghost use Rattle.std.specs.Prelude.{◌≡◌};
    ghost use Rattle.rangemap_core.specs.Ranges.{same_pairs};

    type State = ();

    type Answer = bool;

    ghost reads = { λ left right _ result _. result ≡ same_pairs Q.kind V.eq left right };

    fn read<C: Peek<Range = R, Value = V>>(mut left: C, mut right: C, _state: &mut ()) -> bool {
        'pairs: while let Some(left_pair) = left.take_first() {
            let Some(right_pair) = right.take_first() else {
                return false;
            };
            let (left_range, left_value) = C::parts(&left_pair);
            let (right_range, right_value) = C::parts(&right_pair);
            if !is_same::<Q, R, V>(left_range, left_value, right_range, right_value) {
                return false;
            }
        }
        right.take_first().is_none()
    }
}

// Compares the pairs of one store with those of another.
struct Compared<Q>(PhantomData<Q>);

impl<Q: Kind<R>, R: KeyRange, V: Ord> ReaderOfBoth<R, V> for Compared<Q> {
    ghost use Rattle.std.specs.Prelude.{◌≡◌};
    ghost use Rattle.rangemap_core.specs.ListOrder.{pairs_cmp};

    type State = ();

    type Answer = Ordering;

    ghost reads = { λ left right _ result _. result ≡ pairs_cmp Q.kind V.cmp left right };

    fn read<C: Peek<Range = R, Value = V>>(mut left: C, mut right: C, _state: &mut ()) -> Ordering {
        'pairs: while let Some(left_pair) = left.take_first() {
            let Some(right_pair) = right.take_first() else {
                return Ordering::Greater;
            };
            let (left_range, left_value) = C::parts(&left_pair);
            let (right_range, right_value) = C::parts(&right_pair);
            // By the starts, where these are equal by the ends, and where the ranges are equal by the
            // values.
            let found = left_range
                .start()
                .cmp(right_range.start())
                .then_with(|| left_range.end().cmp(right_range.end()))
                .then_with(|| left_value.cmp(right_value));
            if found.is_ne() {
                return found;
            }
        }
        if right.take_first().is_none() {
            Ordering::Equal
        } else {
            Ordering::Less
        }
    }
}
