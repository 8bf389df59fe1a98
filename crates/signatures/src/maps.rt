//! Every call of a map, with the types of what it takes and gives, over any keys, values and allocators.
//! It is the one `Map` of every store, so a map in a sorted vector stands for all.
ghost use Rattle.std.specs.Iterator.{IsFiniteIterable};
ghost use Rattle.rangemap.specs.Clones.{KeysCloneFaithfully, ValuesCloneFaithfully};
ghost use Rattle.rangemap.specs.NonEmptyPairs.{GivesNonEmpty};
ghost use Rattle.rangemap.specs.Ranges.{AreNonEmpty, half_open};

use crate::root;
use rangemap::map::{Gaps, IntoIter, Iter, Overlapping, RangeMap};
use rangemap::{Form, ReadError, WriteError};
use serde_json::Value;
use std::alloc::{AllocError, Allocator, Global};
use std::fmt::Debug;
use std::hash::{DefaultHasher, Hash, Hasher};
use std::iter::IntoIterator;
use std::ops::Range;

pub fn ask<'a, K: Ord + Clone, V: Eq + Clone, A: Allocator>(
    map: &'a RangeMap<K, V, A>,
    key: &K,
    range: &Range<K>,
) {
    let _: Option<&'a V> = map.get(key);
    let _: Option<(&'a Range<K>, &'a V)> = map.get_key_value(key);
    let _: bool = map.contains_key(key);
    let _: Option<(&'a Range<K>, &'a V)> = map.first_range_value();
    let _: Option<(&'a Range<K>, &'a V)> = map.last_range_value();
    let _: usize = map.len();
    let _: bool = map.is_empty();
    let _: bool = map.overlaps(range);
    let _: bool = map.covers(range);
    let _: &'a A = map.allocator();
    map.known();
}

// what a map lends comes from both ends, what it lacks in a range from the front
pub fn lend<'a, K: Ord + Clone, V: Eq + Clone, A: Allocator>(
    map: &'a RangeMap<K, V, A>,
    range: &'a Range<K>,
)
    requires { KeysCloneFaithfully K.is_clone K.cmp }
{
    let iter: Iter<'a, K, V> = map.iter();
    root::both_ends::<(&'a Range<K>, &'a V), _>(iter);
    let overlapping: Overlapping<'a, K, V> = map.overlapping(range);
    let mut gaps: Gaps<'a, K, V> = map.gaps(range);
    let _: Result<Option<Range<K>>, AllocError> = gaps.try_next();
    root::overlapping_and_gaps::<(&'a Range<K>, &'a V), Range<K>, _, _>(overlapping, gaps);
}

pub fn from<K: Ord + Clone, V: Eq + Clone, A: Allocator + Clone, const N: usize>(
    map: &RangeMap<K, V, A>,
    alloc: A,
    value: [(Range<K>, V); N],
)
    requires non_empty { AreNonEmpty (half_open K.cmp) value }
    requires faithful_keys { KeysCloneFaithfully K.is_clone K.cmp }
    requires faithful_values { ValuesCloneFaithfully V.is_clone V.eq }
{
    let _: Result<RangeMap<K, V, A>, AllocError> = RangeMap::from(alloc, value);
    let _: Result<RangeMap<K, V, A>, AllocError> = map.clone();
}

pub fn empty<K: Ord + Clone, V: Eq + Clone, A: Allocator>(
    alloc: A,
    other: A,
) -> (RangeMap<K, V, A>, RangeMap<K, V, A>) {
    (RangeMap::new(alloc), RangeMap::new_with_step_fns(other))
}

pub fn collect<K: Ord + Clone, V: Eq + Clone, A: Allocator, I: IntoIterator<Item = (Range<K>, V)>>(
    alloc: A,
    iter: I,
    extended: &mut RangeMap<K, V, A>,
    more: I,
)
    requires ends { IsFiniteIterable I.into_iter_gives I.IntoIter.can_next I.IntoIter.remaining iter }
    requires non_empty { (it : I.IntoIter) → I.into_iter_gives iter it → GivesNonEmpty (half_open K.cmp) I.IntoIter.next_gives it }
    requires more_ends { IsFiniteIterable I.into_iter_gives I.IntoIter.can_next I.IntoIter.remaining more }
    requires more_non_empty { (it : I.IntoIter) → I.into_iter_gives more it → GivesNonEmpty (half_open K.cmp) I.IntoIter.next_gives it }
    requires faithful_keys { KeysCloneFaithfully K.is_clone K.cmp }
    requires faithful_values { ValuesCloneFaithfully V.is_clone V.eq }
{
    let _: Result<(), AllocError> = extended.extend(more);
    let _: Result<RangeMap<K, V, A>, AllocError> = RangeMap::from_iter(alloc, iter);
}

pub fn change<K: Ord + Clone, V: Eq + Clone, A: Allocator>(
    map: &mut RangeMap<K, V, A>,
    given: Range<K>,
    value: V,
    taken: Range<K>,
)
    requires given_non_empty { (half_open K.cmp).IsNonEmpty given }
    requires taken_non_empty { (half_open K.cmp).IsNonEmpty taken }
    requires faithful_keys { KeysCloneFaithfully K.is_clone K.cmp }
    requires faithful_values { ValuesCloneFaithfully V.is_clone V.eq }
{
    let _: Result<(), AllocError> = map.insert(given, value);
    let _: Result<(), AllocError> = map.remove(taken);
    map.clear();
}

pub fn hand_over<K: Ord + Clone, V: Eq + Clone, A: Allocator>(
    map: RangeMap<K, V, A>,
) -> IntoIter<K, V, A> {
    map.into_iter()
}

pub fn compare_and_print<
    K: Ord + Clone + Hash + Debug,
    V: Ord + Clone + Hash + Debug,
    A: Allocator,
    H: Hasher,
>(
    alloc: Global,
    left: &RangeMap<K, V, A>,
    right: &RangeMap<K, V, A>,
    state: &mut H,
) -> Result<(bool, String), AllocError> {
    root::compare_and_print(alloc, left, right, state)
}

pub fn write_and_read<K: Ord + Clone, V: Eq + Clone, A: Allocator, E: Copy>(
    map: &RangeMap<K, V, A>,
    alloc: Global,
    other: A,
    form: Form,
    value: &Value,
    fault: E,
) -> (
    Result<Value, WriteError<E>>,
    Result<RangeMap<K, V, A>, ReadError<E>>,
)
    requires faithful_keys { KeysCloneFaithfully K.is_clone K.cmp }
    requires faithful_values { ValuesCloneFaithfully V.is_clone V.eq }
{
    let written = map.to_value(alloc, |_: &K| Err(fault), |_: &V| Err(fault));
    (
        written,
        RangeMap::from_value(
            other,
            form,
            value,
            |_: &Value| Err(fault),
            |_: &Value| Err(fault),
        ),
    )
}

/// Makes each call of this file once, over any keys; `texts` calls it.
pub fn every<K: Ord + Clone + Hash + Debug, const N: usize>(
    alloc: Global,
    map: &mut RangeMap<K, u8>,
    listed: [(Range<K>, u8); N],
    given: Range<K>,
    taken: Range<K>,
)
    requires listed_non_empty { AreNonEmpty (half_open K.cmp) listed }
    requires given_non_empty { (half_open K.cmp).IsNonEmpty given }
    requires taken_non_empty { (half_open K.cmp).IsNonEmpty taken }
    requires faithful_keys { KeysCloneFaithfully K.is_clone K.cmp }
{
    ask(map, &given.start, &given);
    lend(map, &given);
    let _: Result<(bool, String), AllocError> = compare_and_print(
        alloc,
        map,
        map,
        &mut DefaultHasher::new(),
    );
    let _ = write_and_read(map, alloc, alloc, Form::Any, &Value::Null, ());
    from(map, alloc, listed);
    let (first, second) = empty(alloc, alloc);
    collect(alloc, first, map, second);
    let (given_away, _) = empty(alloc, alloc);
    let _: IntoIter<K, u8> = hand_over(given_away);
    change(map, given, 1, taken);
}
