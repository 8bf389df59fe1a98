//! What the crate `examples` stands for: each use once, at an example.
ghost use Rattle.std.specs.Prelude.{◌≡◌};

use crate::checks::assert_same;
use examples::block_list::{Block, BlockList, split};
use examples::byte_cache::ByteCache;
use examples::char_class::{CharClass, complement_twice, de_morgan};
use examples::desk::{bookings_of, from_json, is_closed_only_within, to_json};
use examples::extents::Extents;
use examples::memory_map::{Access, Fault, MemoryMap, Region};
use examples::planner::Planner;
use examples::ports::Port;
use examples::received::Received;
use examples::rota::Rota;
use examples::window::Window;
use rangemap::{range_inclusive_set, range_map};
use std::test::Fail;

#[test]
fn only_what_is_missing_is_fetched(rt: HostRuntime) -> Result<(), Fail> {
    let mut cache = ByteCache::new(rt.alloc());
    cache.fetched(0..512)?;
    cache.fetched(1024..2048)?;
    let parts = cache.missing(rt.alloc(), &(256..4096))?;
    assert_same(&rt, parts.as_slice(), [512..1024u64, 2048..4096].as_slice());
    cache.fetched(256..4096)?;
    assert_same(&rt, cache.missing(rt.alloc(), &(0..4096))?.len(), 0);
    Ok(())
}

#[test]
fn ports_that_follow_one_another_are_one_range(rt: HostRuntime) -> Result<(), Fail> {
    let ports = range_inclusive_set![in rt.alloc();
        Port(0)..=Port(1023),
        Port(1024)..=Port(65535),
    ]?;
    assert_same(&rt, (ports.len(), ports.contains(&Port(65535))), (1, true));
    Ok(())
}

#[test]
fn a_class_and_its_complement_make_up_all(rt: HostRuntime) -> Result<(), Fail> {
    let word = CharClass::word(rt.alloc())?;
    let other = word.complement(rt.alloc())?;
    let found = (word.contains('_'), word.contains('M'), word.contains('-'));
    assert_same(&rt, found, (true, true, false));
    let last = other.contains('\u{10FFFF}');
    let found = (other.contains('_'), other.contains('-'), last);
    assert_same(&rt, found, (false, true, true));
    let either = word.union(&other)?.contains('-');
    let common = word.intersection(&other)?.contains('z');
    assert_same(&rt, (either, common), (true, false));
    let (neither, not_both) = de_morgan(rt.alloc(), &word, &other)?;
    let found = (neither.members == not_both.members, neither.members.len());
    assert_same(&rt, found, (true, 0));
    let twice = complement_twice(rt.alloc(), &word)?;
    assert_same(&rt, twice.members == word.members, true);
    Ok(())
}

// The two classes have the digits in common, and each has characters of its own. Of what is in
// neither there are six ranges: up to the comma, from the dot to the slash, between the digits and
// the capitals, between these and the underscore, the backquote, and from the brace on.
#[test]
fn classes_that_overlap_obey_de_morgan(rt: HostRuntime) -> Result<(), Fail> {
    let word = CharClass::word(rt.alloc())?;
    let amount = CharClass::from_ranges(rt.alloc(), ['-'..='-', '0'..='9'])?;
    let both = word.intersection(&amount)?;
    let found = (both.contains('7'), both.contains('-'), both.contains('z'));
    assert_same(&rt, found, (true, false, false));
    let (neither, not_both) = de_morgan(rt.alloc(), &word, &amount)?;
    let found = (neither.members == not_both.members, neither.members.len());
    assert_same(&rt, found, (true, 6));
    let found = (neither.contains(','), neither.contains('-'));
    assert_same(&rt, found, (true, false));
    Ok(())
}

#[test]
fn the_macro_joins_what_touches(rt: HostRuntime) -> Result<(), Fail> {
    let digits = range_inclusive_set![in rt.alloc(); '0'..='4', '5'..='9']?;
    let found = (digits.len(), digits.contains(&'7'), digits.contains(&'a'));
    assert_same(&rt, found, (1, true, false));
    Ok(())
}

#[test]
fn ranges_that_overlap_become_one(rt: HostRuntime) -> Result<(), Fail> {
    let class = CharClass::from_ranges(rt.alloc(), ['d'..='k', 'a'..='f', 'x'..='z'])?;
    let wanted = range_inclusive_set![in rt.alloc(); 'a'..='k', 'x'..='z']?;
    assert_same(&rt, class.members == wanted, true);
    let found = (class.contains('k'), class.contains('l'));
    assert_same(&rt, found, (true, false));
    Ok(())
}

#[test]
fn blocks_are_mapped_once(rt: HostRuntime) -> Result<(), Fail> {
    let mut extents = Extents::new(rt.alloc());
    for (logical, physical, count, is_mapped) in [
        (0, 1000, 8, true),
        (20, 1007, 2, false),
        (20, 4, 2, true),
    ] {
        assert_same(&rt, extents.map(logical, physical, count)?, is_mapped);
    }
    let found = (extents.physical(7), extents.physical(21));
    assert_same(&rt, found, (Some(1007), Some(5)));
    extents.punch(2, 5)?;
    let found = (extents.physical(5), extents.physical(6));
    assert_same(&rt, found, (None, Some(1006)));
    assert_same(&rt, extents.map(30, 1002, 4)?, true);
    Ok(())
}

// The numbers of the addresses 10.0.0.0 and 10.0.0.15.
const FIRST: u32 = 167772160;

const LAST: u32 = 167772175;

#[test]
fn blocks_are_reserved_and_released(rt: HostRuntime) -> Result<(), Fail> {
    let mut planner = Planner::new(rt.alloc());
    assert_same(&rt, planner.reserve(FIRST, LAST, 7)?, true);
    assert_same(&rt, planner.reserve(LAST, LAST + 1, 8)?, false);
    assert_same(&rt, planner.owner(LAST), Some(7));
    for (size, first) in [
        (FIRST, Some(0)),
        (FIRST + 1, Some(LAST + 1)),
        (u32::MAX, None),
    ] {
        assert_same(&rt, planner.first_free(size), first);
    }
    planner.release(FIRST, LAST)?;
    assert_same(&rt, planner.first_free(u32::MAX), Some(0));
    Ok(())
}

#[test]
fn numbers_come_out_of_order(rt: HostRuntime) -> Result<(), Fail> {
    let mut received = Received::new(rt.alloc());
    assert_same(&rt, received.acknowledged(), None);
    for (number, is_new) in [(0, true), (2, true), (2, false)] {
        assert_same(&rt, received.receive(number)?, is_new);
    }
    let found = (received.acknowledged(), received.lowest_missing(2));
    assert_same(&rt, found, (Some(0), Some(3)));
    assert_same(&rt, received.receive(1)?, true);
    assert_same(&rt, received.acknowledged(), Some(2));
    assert_same(&rt, received.receive(u64::MAX)?, true);
    assert_same(&rt, received.lowest_missing(u64::MAX), None);
    Ok(())
}

#[test]
fn two_shifts_are_swapped(rt: HostRuntime) -> Result<(), Fail> {
    let mut rota = Rota::new(rt.alloc());
    rota.assign(8..16, 1)?;
    rota.assign(16..20, 2)?;
    assert_same(&rt, rota.on_at(15), Some(1));
    assert_same(&rt, rota.swap(9, 20)?, false);
    assert_same(&rt, rota.swap(9, 19)?, true);
    assert_same(&rt, (rota.on_at(15), rota.on_at(16)), (Some(2), Some(1)));
    let day = 0..24;
    let mut free = rota.uncovered(&day);
    for gap in [Some(0..8), Some(20..24), None] {
        assert_same(&rt, free.try_next()?, gap);
    }
    Ok(())
}

#[test]
fn nobody_is_on_until_a_shift_begins(rt: HostRuntime) -> Result<(), Fail> {
    let mut rota = Rota::new(rt.alloc());
    assert_same(&rt, rota.off_until(3, 24), 24);
    rota.assign(8..16, 1)?;
    assert_same(&rt, rota.off_until(3, 24), 8);
    Ok(())
}

#[test]
fn addresses_are_blocked(rt: HostRuntime) -> Result<(), Fail> {
    let mut list = BlockList::new(rt.alloc());
    list.block(FIRST, LAST)?;
    list.block(LAST + 1, u32::MAX)?;
    for (address, is_blocked) in [
        (FIRST, true),
        (LAST + 1, true),
        (u32::MAX, true),
        (FIRST - 1, false),
    ] {
        assert_same(&rt, list.is_blocked(address), is_blocked);
    }
    Ok(())
}

// A block of a row.
fn block(first: u32, prefix: u32) -> Block
    ensures { (result.first ≡ first) × (result.prefix ≡ prefix) }
{
    Block { first, prefix }
}

// The blocks are what Python's `ipaddress.summarize_address_range` gives for 10.0.0.5 to 10.0.0.16
// and for all addresses.
#[test]
fn addresses_are_split_into_few_blocks(rt: HostRuntime) -> Result<(), Fail> {
    let wanted = [
        block(FIRST + 5, 32),
        block(FIRST + 6, 31),
        block(FIRST + 8, 29),
        block(FIRST + 16, 32),
    ];
    let first = u64::from(FIRST);
    let blocks = split(rt.alloc(), first + 5, first + 17)?;
    assert_same(&rt, blocks.as_slice(), wanted.as_slice());
    let all = split(rt.alloc(), 0, 4_294_967_296)?;
    let whole = block(0, 0);
    assert_same(&rt, all.as_slice(), [whole].as_slice());
    assert_same(&rt, whole.size(), 4_294_967_296);
    assert_same(&rt, split(rt.alloc(), first, first)?.len(), 0);
    Ok(())
}

#[test]
fn numbers_wait_until_they_are_delivered(rt: HostRuntime) -> Result<(), Fail> {
    let mut window = Window::new(rt.alloc());
    window.receive(4, 8)?;
    window.receive(0, 2)?;
    assert_same(&rt, window.next(), 0);
    for (number, is_waiting) in [(1, true), (2, false), (4, true)] {
        assert_same(&rt, window.is_waiting(number), is_waiting);
    }
    window.deliver(6)?;
    assert_same(&rt, window.next(), 6);
    for (number, is_waiting) in [(1, false), (5, false), (7, true)] {
        assert_same(&rt, window.is_waiting(number), is_waiting);
    }
    window.receive(0, 7)?;
    let waiting = (window.is_waiting(1), window.is_waiting(6));
    assert_same(&rt, waiting, (false, true));
    Ok(())
}

// A region of a file that may be written or executed.
fn region(file: u32, writable: bool, executable: bool) -> Region {
    Region {
        file,
        writable,
        executable,
    }
}

#[test]
fn memory_is_mapped_and_checked(rt: HostRuntime) -> Result<(), Fail> {
    let code = region(1, false, true);
    let mut memory = MemoryMap::new(rt.alloc());
    memory.map(0x1000, 0x3000, code)?;
    memory.map(0x4000, 0x5000, region(0, true, false))?;
    let found = (memory.region_at(0x2FFF), memory.region_at(0x3000));
    assert_same(&rt, found, (Some(code), None));
    for (address, access, answer) in [
        (0x1000, Access::Execute, Ok(())),
        (0x1000, Access::Write, Err(Fault::Forbidden)),
        (0x3000, Access::Read, Err(Fault::Unmapped)),
    ] {
        assert_same(&rt, memory.check(address, access), answer);
    }
    assert_same(&rt, memory.find_free(0, 0x8000, 0x2000), Some(0x5000));
    memory.unmap(0x2000, 0x3000)?;
    let free = (
        memory.find_free(0, 0x8000, 0x2000),
        memory.find_free(0, 0x8000, 0x4000),
    );
    assert_same(&rt, free, (Some(0x2000), None));
    for (start, is_free) in [(0x2000, true), (0x1FFF, false)] {
        assert_same(&rt, memory.is_free(start, 0x4000), is_free);
    }
    for (start, is_shown) in [(0x1FFF, true), (0x2000, false)] {
        assert_same(&rt, memory.shows(start, 0x5000, 1), is_shown);
    }
    assert_same(&rt, memory.has_writable_code(), false);
    memory.map(0x6000, 0x7000, region(2, true, true))?;
    assert_same(&rt, memory.has_writable_code(), true);
    Ok(())
}

#[test]
fn bookings_and_closed_days_are_counted(rt: HostRuntime) -> Result<(), Fail> {
    let sheet = range_map! { in rt.alloc(); 9..12 => 7, 12..14 => 8, 16..18 => 7 }?;
    assert_same(&rt, bookings_of(&sheet, &(11..17), 7), 2);
    let days = range_inclusive_set![in rt.alloc(); 3..=5, 10..=10]?;
    for (start, is_within) in [(3, true), (4, false)] {
        assert_same(&rt, is_closed_only_within(&days, start, 10), is_within);
    }
    Ok(())
}

#[test]
fn bookings_go_to_json_and_back(rt: HostRuntime) -> Result<(), Fail> {
    let sheet = range_map! { in rt.alloc(); 9..12 => 7, 12..14 => 8 }?;
    let value = to_json(rt.alloc(), &sheet).ok().ok_or("not written")?;
    let text = value.to_string(rt.alloc())?;
    assert_same(&rt, text.as_str(), "[[[9,12],7],[[12,14],8]]");
    let again = from_json(rt.alloc(), &value).ok().ok_or("not read")?;
    assert_same(&rt, again == sheet, true);
    Ok(())
}
