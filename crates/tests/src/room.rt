//! A map with room, and the table of interrupts that stands on it, each at an example worked out by hand.

use crate::checks::assert_same;
use examples::interrupts::Interrupts;
use rangemap::range_map;
use rangemap::with_room::RangeMap;
use std::test::Fail;

#[test]
fn lines_are_routed(rt: HostRuntime) -> Result<(), Fail> {
    let mut table = Interrupts::new(rt.alloc())?;
    assert_same(&rt, table.handler(0), None);
    table.route(0, 8, 7);
    table.route(4, 6, 9);
    for (line, handler) in [(0, Some(7)), (5, Some(9)), (6, Some(7)), (8, None)] {
        assert_same(&rt, table.handler(line), handler);
    }
    Ok(())
}

#[test]
fn a_map_with_room_changes_and_answers(rt: HostRuntime) -> Result<(), Fail> {
    let mut map: RangeMap<u32, char> = RangeMap::with_room(rt.alloc(), 3)?;
    assert_same(&rt, (map.room(), map.is_empty()), (3, true));
    map.insert(0..10, 'a')?;
    map.remove(3..6)?;
    assert_same(&rt, (map.room(), map.len()), (3, 2));
    let found = (map.get(&6).copied(), map.contains_key(&3));
    assert_same(&rt, found, (Some('a'), false));
    let found = (
        map.overlaps(&(3..6)),
        map.covers(&(6..10)),
        map.covers(&(2..4)),
    );
    assert_same(&rt, found, (false, true, false));
    let wanted = range_map! { in rt.alloc(); 0..3 => 'a', 6..10 => 'a' }?;
    assert_same(&rt, map.into_map() == wanted, true);
    Ok(())
}
