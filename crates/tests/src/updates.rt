//! New values for the covered keys of a range.

use crate::checks::assert_same;
use rangemap::RangeMap;
use rangemap::container::update;
use std::test::Fail;

// The range cuts both stored ranges, and between them lie keys without a value.
#[test]
fn covered_keys_get_new_values(rt: HostRuntime) -> Result<(), Fail> {
    let mut prices = RangeMap::new(rt.alloc());
    prices.insert(0..4u32, 8u32)?;
    prices.insert(6..9, 4)?;
    update(rt.alloc(), &mut prices, &(2..8), |price| Ok(*price / 2))?;
    let text = format!(in rt.alloc(); "{prices:?}")?;
    assert_same(&rt, text.as_str(), "{0..2: 8, 2..4: 4, 6..8: 2, 8..9: 4}");
    Ok(())
}
