//! Root items: traits, errors, macros; and what is asked of a container or an iterator by its bounds.
ghost use Rattle.rangemap.specs.Steps.{HasGreater, HasSmaller};

use rangemap::{
    Form, Part, RangeMap, RangeSet, ReadError, StepFns, StepLite, WriteError, range_map, range_set,
};
use std::alloc::{AllocError, Global};
use std::cmp::Ordering;
use std::fmt::Debug;
use std::hash::{Hash, Hasher};
use std::iter::{DoubleEndedIterator, ExactSizeIterator, Iterator};

pub fn lite_steps<T: StepLite>(x: &T) -> (T, T)
    requires greater { HasGreater T.is_key T.cmp x.now }
    requires smaller { HasSmaller T.is_key T.cmp x.now }
{
    (x.add_one(), x.sub_one())
}

fn fns_known<T: Ord, S: StepFns<T>>(x: &T) {
    S::known(x)
}

pub fn fns_steps<T: Ord, S: StepFns<T>>(x: &T) -> (T, T)
    requires greater { HasGreater S.is_key T.cmp x.now }
    requires smaller { HasSmaller S.is_key T.cmp x.now }
{
    (S::add_one(x), S::sub_one(x))
}

// every StepLite is Ord, and StepFns over itself
fn over_itself<T: StepLite>(x: &T) {
    x.known();
    fns_known::<T, T>(x)
}

pub fn integers(
    unsigned: (&u8, &u16, &u32, &u64, &u128, &usize),
    signed: (&i8, &i16, &i32, &i64, &i128, &isize),
    character: &char,
) {
    over_itself(unsigned.0);
    over_itself(unsigned.1);
    over_itself(unsigned.2);
    over_itself(unsigned.3);
    over_itself(unsigned.4);
    over_itself(unsigned.5);
    over_itself(signed.0);
    over_itself(signed.1);
    over_itself(signed.2);
    over_itself(signed.3);
    over_itself(signed.4);
    over_itself(signed.5);
    over_itself(character);
}

// Asks for the length, and for an item at either end.
pub fn both_ends<T: Drop, I: DoubleEndedIterator<Item = T> + ExactSizeIterator + Drop>(mut items: I)
    requires front { (it : I) → I.can_next it }
    requires back { (it : I) → I.can_next_back it }
{
    let _: usize = items.len();
    let _: (Option<T>, Option<T>) = (items.next(), items.next_back());
}

// What overlaps a range comes from both ends without its number, and gaps from the front.
pub fn overlapping_and_gaps<
    T: Drop,
    G: Drop,
    O: DoubleEndedIterator<Item = T> + Drop,
    X: Iterator<Item = Result<G, AllocError>> + Drop,
>(mut overlapping: O, _gaps: X)
    requires front { (it : O) → O.can_next it }
    requires back { (it : O) → O.can_next_back it }
{
    let _: (Option<T>, Option<T>) = (overlapping.next(), overlapping.next_back());
}

// Takes nothing: only that the bounds hold is asked.
pub fn are_iterators<T: Drop, U: Iterator<Item = T> + Drop, X: Iterator<Item = T> + Drop>(
    _one: U,
    _other: X,
) {}

fn is_eq<C: Eq>(_container: &C) {}

// what a container derives is called for all of them here, since a call of a trait's method on a
// container is dear to prove
pub fn compare<C: Ord + Hash, H: Hasher>(left: &C, right: &C, state: &mut H) -> bool {
    let _: Ordering = left.cmp(right);
    let _: Option<Ordering> = left.partial_cmp(right);
    left.hash(state);
    is_eq(left);
    left == right || left < right
}

fn text<C: Debug>(alloc: Global, container: &C) -> Result<String, AllocError> {
    format!(in alloc; "{container:?}")
}

pub fn compare_and_print<C: Ord + Hash + Debug, H: Hasher>(
    alloc: Global,
    left: &C,
    right: &C,
    state: &mut H,
) -> Result<(bool, String), AllocError> {
    let answer = compare(left, right, state);
    Ok((answer, text(alloc, left)?))
}

fn derives_part<P: Clone + Copy + Debug + PartialEq + Eq>(_p: P) {}

fn derives_error<P: Debug + PartialEq + Eq + Drop>(_p: P) {}

pub fn errors<E: Debug + PartialEq + Eq + Drop>(fault: E) -> ReadError<E> {
    derives_part(Part::Start);
    derives_part(Part::End);
    derives_part(Form::Any);
    derives_part(Form::Canonical);
    derives_error(ReadError::<u8>::NotAList);
    derives_error(WriteError::<u8>::OutOfMemory);
    ReadError::BadValue { at: 0, fault }
}

pub fn number_and_place<E: Drop>(error: ReadError<E>) -> (u8, usize) {
    match error {
        ReadError::NotAList => (1, 0),
        ReadError::BadEntry { at } => (2, at),
        ReadError::BadKey {
            at,
            part: _,
            fault: _,
        } => (3, at),
        ReadError::BadValue { at, fault: _ } => (4, at),
        ReadError::EmptyRange { at } => (5, at),
        ReadError::OutOfMemory => (6, 0),
        ReadError::OutOfOrder { at } => (7, at),
        ReadError::Uncoalesced { at } => (8, at),
    }
}

pub fn writes<E: Debug + PartialEq + Eq + Drop>(error: WriteError<E>) -> Option<E> {
    match error {
        WriteError::Caller(fault) => Some(fault),
        WriteError::OutOfMemory => None,
    }
}

pub fn macros_of_half_open_ranges(alloc: Global) {
    let _: Result<RangeMap<u32, &'static str, Global>, AllocError> =
        range_map! { in alloc; 0..100 => "abc", 100..200 => "def", };
    let _: Result<RangeSet<u32, Global>, AllocError> = range_set![in alloc; 0..5, 5..9,];
}
