//! Every function of `examples::calling`, run: snippets of README.md and docs/PROVING.md, and callers of
//! lemmas.

use crate::checks::assert_same;
use examples::calling::{
    add, add_all, add_shifts, add_texts, all_below, are_below, are_equal, assign, chain, class_at,
    classify, either_way, ends, free_until, halve, has_text, intersection_of, is_below, note,
    put_both, put_if_free, room_for, uncovered, union_of,
};
use rangemap::{RangeInclusiveMap, RangeMap, RangeSet, range_map, range_set, tree_map, tree_set};
use std::cmp::OrderedFloat;
use std::process::Abort;
use std::test::Fail;

#[test]
fn snippets_with_shifts_answer(rt: HostRuntime) -> Result<(), Fail> {
    let mut shifts = RangeMap::new(rt.alloc());
    assign(&mut shifts, 2, 5, 7)?;
    let found = (shifts.get(&4).copied(), shifts.get(&5).copied());
    assert_same(&rt, found, (Some(7), None));
    let hours = uncovered(rt.alloc(), &shifts, &(0..9))?;
    assert_same(&rt, hours.as_slice(), [0..2u32, 5..9].as_slice());
    let found = (all_below(&shifts, 8), all_below(&shifts, 7));
    assert_same(&rt, found, (true, false));
    Ok(())
}

#[test]
fn snippets_with_gaps_answer(rt: HostRuntime) -> Result<(), Fail> {
    let mut map = RangeMap::new(rt.alloc());
    map.insert(4..6, 1)?;
    // `free_until` requires that the key has no value. The check knows it from what `get` returned.
    let None = map.get(&1) else {
        return Err(Fail::new("1 has a value"));
    };
    assert_same(&rt, free_until(&map, 1, 9)?, 4);
    let None = map.get(&6) else {
        return Err(Fail::new("6 has a value"));
    };
    assert_same(&rt, free_until(&map, 6, 9)?, 9);
    let held = range_set![in rt.alloc(); 0..5u32, 7..9]?;
    let found = (room_for(&held, &(0..20), 2), room_for(&held, &(0..20), 3));
    assert_same(&rt, found, (Some(5), Some(9)));
    assert_same(&rt, room_for(&held, &(0..9), 3), None);
    Ok(())
}

// Adds ranges to a set one by one.
fn check_added<R: AllocGlobal + Abort>(rt: &R) -> Result<(), Fail> {
    let mut set = RangeSet::new(rt.alloc());
    add(&mut set, 0, 2)?;
    add_all(&mut set, &[2..4, 9..9, 5..6])?;
    assert_same(rt, set == range_set![in rt.alloc(); 0..4u64, 5..6]?, true);
    Ok(())
}

// Adds two shifts to a set, and asks below which hour it lies.
fn check_shifts<R: AllocGlobal + Abort>(rt: &R) -> Result<(), Fail> {
    let mut hours = RangeSet::new(rt.alloc());
    add_shifts(&mut hours)?;
    let expected = range_set![in rt.alloc(); 0..5u32, 7..9]?;
    assert_same(rt, hours == expected, true);
    assert_same(rt, are_equal(&hours, &hours.clone()?), true);
    let found = (is_below(&hours, 9), is_below(&hours, 8));
    assert_same(rt, found, (true, false));
    Ok(())
}

// Notes a range in a set in a tree.
fn check_noted<R: AllocGlobal + Abort>(rt: &R) -> Result<(), Fail> {
    let mut seen = tree_set::RangeSet::new(rt.alloc());
    note(&mut seen, 3, 5)?;
    let found = (seen.contains(&4), seen.contains(&5));
    assert_same(rt, found, (true, false));
    Ok(())
}

#[test]
fn snippets_with_one_set_answer(rt: HostRuntime) -> Result<(), Fail> {
    check_added(&rt)?;
    check_shifts(&rt)?;
    check_noted(&rt)
}

#[test]
fn snippets_with_two_lists_answer(rt: HostRuntime) -> Result<(), Fail> {
    let left = range_set![in rt.alloc(); 0..4u64, 5..6]?;
    let right = range_set![in rt.alloc(); 3..8u64]?;
    let ranges = union_of(rt.alloc(), &left, &right)?;
    assert_same(&rt, ranges.as_slice(), [0..8u64].as_slice());
    let mut common = intersection_of(rt.alloc(), &left, &right)?;
    assert_same(&rt, common.as_slice(), [3..4u64, 5..6].as_slice());
    let mut list = ranges;
    chain(&mut list, &mut common)?;
    assert_same(&rt, list.as_slice(), [0..8u64, 3..4, 5..6].as_slice());
    Ok(())
}

// Looks up what three inserts left.
fn check_ends<R: AllocGlobal + Abort>(rt: &R) -> Result<(), Fail> {
    let map = ends(rt.alloc())?;
    let found = (map.get(&6).copied(), map.get(&7).copied(), map.len());
    assert_same(rt, found, (Some(2), Some(1), 4));
    Ok(())
}

// Makes two maps equal, each by inserts in another order.
fn check_either_way<R: AllocGlobal + Abort>(rt: &R) -> Result<(), Fail> {
    let mut one = RangeInclusiveMap::new(rt.alloc());
    let mut other = RangeInclusiveMap::new(rt.alloc());
    assert_same(rt, either_way(&mut one, &mut other)?, true);
    assert_same(rt, (one.get(&9).copied(), one.len()), (Some(1), 2));
    assert_same(rt, other == one, true);
    Ok(())
}

// Puts two people on, of whom the second takes hours of the first.
fn check_both<R: AllocGlobal + Abort>(rt: &R) -> Result<(), Fail> {
    let mut shifts = RangeMap::new(rt.alloc());
    put_both(&mut shifts, 1, 2)?;
    let expected = range_map! { in rt.alloc(); 0..3u32 => 1u32, 3..9 => 2 }?;
    assert_same(rt, shifts == expected, true);
    Ok(())
}

// Halves some prices, and puts a pair where none is stored.
fn check_prices<R: AllocGlobal + Abort>(rt: &R) -> Result<(), Fail> {
    let mut prices = range_map! { in rt.alloc(); 0..4u32 => 8u32, 6..9 => 4 }?;
    halve(rt.alloc(), &mut prices, 2, 8)?;
    let halved = range_map! { in rt.alloc(); 0..2u32 => 8u32, 2..4 => 4, 6..8 => 2, 8..9 => 4 }?;
    assert_same(rt, prices == halved, true);
    assert_same(rt, put_if_free(&mut prices, 3..5, 1)?, false);
    assert_same(rt, prices == halved, true);
    assert_same(rt, put_if_free(&mut prices, 4..5, 1)?, true);
    assert_same(rt, prices.get(&4).copied(), Some(1));
    Ok(())
}

// Asks whether a stock lies below a number.
fn check_stock<R: AllocGlobal + Abort>(rt: &R) -> Result<(), Fail> {
    let mut stock = tree_map::RangeMap::new(rt.alloc());
    stock.insert(0..5u32, 3u32)?;
    let found = (are_below(&stock, 2, 9, 4), are_below(&stock, 2, 9, 3));
    assert_same(rt, found, (true, false));
    Ok(())
}

#[test]
fn snippets_with_other_maps_answer(rt: HostRuntime) -> Result<(), Fail> {
    check_ends(&rt)?;
    check_either_way(&rt)?;
    check_both(&rt)?;
    check_prices(&rt)?;
    check_stock(&rt)
}

// Adds texts, of which the last two have none between them, to a set.
fn check_names<R: AllocGlobal + Abort>(rt: &R) -> Result<(), Fail> {
    let text = |text: &str| text.to_string(rt.alloc());
    let mut names = RangeSet::new(rt.alloc());
    add_texts(&mut names, text("b")?, text("d")?)?;
    add_texts(&mut names, text("x")?, text("x")?)?;
    assert_same(rt, names.len(), 1);
    let found = (has_text(&names, &text("c")?), has_text(&names, &text("d")?));
    assert_same(rt, found, (true, false));
    Ok(())
}

// Gives classes to temperatures.
fn check_classes<R: AllocGlobal + Abort>(rt: &R) -> Result<(), Fail> {
    let mut classes = RangeMap::new(rt.alloc());
    classify(&mut classes, OrderedFloat(36.5), OrderedFloat(38.0), 1)?;
    classify(&mut classes, OrderedFloat(40.0), OrderedFloat(40.0), 2)?;
    assert_same(rt, classes.len(), 1);
    let found = (
        class_at(&classes, &OrderedFloat(37.0)),
        class_at(&classes, &OrderedFloat(38.0)),
    );
    assert_same(rt, found, (Some(1), None));
    Ok(())
}

#[test]
fn snippets_with_texts_and_floats_answer(rt: HostRuntime) -> Result<(), Fail> {
    check_names(&rt)?;
    check_classes(&rt)
}
