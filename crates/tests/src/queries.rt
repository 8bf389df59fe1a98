//! Every function of `examples::calling::queries`, run.

use crate::checks::assert_same;
use examples::calling::queries::{
    block_for, count_begun, free_to, have_same, highest, is_free, overtime, release,
};
use rangemap::{RangeInclusiveSet, RangeSet, range_inclusive_set, range_set};
use std::process::Abort;
use std::test::Fail;

#[test]
fn queries_of_hours_answer(rt: HostRuntime) -> Result<(), Fail> {
    let shifts = range_set![in rt.alloc(); 0..5u32, 7..9, 20..22]?;
    let found = (
        overtime(&shifts, &(3..10), 8),
        overtime(&shifts, &(3..10), 9),
    );
    assert_same(&rt, found, (Some(8), None));
    let found = (
        count_begun(&shifts, &(3..30)),
        count_begun(&shifts, &(0..7)),
    );
    assert_same(&rt, found, (2, 1));
    let none = RangeSet::new(rt.alloc());
    assert_same(&rt, (highest(&shifts), highest(&none)), (Some(21), None));
    let found = (
        have_same(&shifts, &shifts.clone()?),
        have_same(&shifts, &none),
    );
    assert_same(&rt, found, (true, false));
    Ok(())
}

// Asks what a set of closed ranges lacks, which has 3 to 5 and 9.
fn check_lacks<R: Abort>(rt: &R, taken: &RangeInclusiveSet<u32>) -> Result<(), Fail> {
    let found = (is_free(taken, 6, 8), is_free(taken, 6, 9));
    assert_same(rt, found, (true, false));
    let found = (block_for(taken, 1, 20, 2), block_for(taken, 2, 20, 3));
    assert_same(rt, found, (Some(1), Some(6)));
    let found = (block_for(taken, 1, 9, 4), block_for(taken, 5, 12, 4));
    assert_same(rt, found, (None, None));
    // It is to be asked where the set lacks the first number.
    let None = taken.get(&6) else {
        return Err(Fail::new("6 is taken"));
    };
    assert_same(rt, (free_to(taken, 6, 20), free_to(taken, 6, 7)), (8, 7));
    Ok(())
}

#[test]
fn queries_of_closed_ranges_answer(rt: HostRuntime) -> Result<(), Fail> {
    let mut taken = range_inclusive_set![in rt.alloc(); 3..=5u32, 9..=9]?;
    check_lacks(&rt, &taken)?;
    release(&mut taken, 4, 9)?;
    assert_same(
        &rt,
        taken == range_inclusive_set![in rt.alloc(); 3..=3u32]?,
        true,
    );
    Ok(())
}
