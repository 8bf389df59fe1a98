//! A stretch of a vector replaced by up to three values.
//!
//! What is pushed behind the vector is turned to its place, as by `rotate_right`, and what is taken out is
//! turned behind the rest, as by `rotate_left`. std turns by one value with one `memmove`, and by more
//! through a room on the stack, of 4,096 bytes, as long as what waits there fits. A change pushes one or
//! two values and mostly cuts as few, so here two values wait in locals while the others are moved, all
//! together.
ghost use Rattle.std.specs.Prelude.{◌≡◌, ◌+◌, ◌-◌, ◌<◌, ◌≤◌, ◌++◌, take, drop, length, IsOk, OnOk, OnErr, vec_len, vec_capacity};
ghost use Rattle.std.specs.Option.{option_to_list};
ghost use Rattle.core.specs.List.{RotatedLeft};
ghost use Rattle.core.specs.Mem.Slots.{slots_items, slots_len, IsFull, Refills};

use core::slots::{Slots, with_slots};
use std::alloc::{AllocError, Allocator};
use std::ops::Range;

// How many values the first block has room for, so that a small container asks for memory once: among
// ten ranges, the fewest that docs/SPEED.md times, an insert may add two. No times of other numbers were
// kept. The rows of refused requests count this room.
const FIRST_ROOM: usize = 12;

/// Puts the values in the place of those at `places`, in order.
///
/// The values that stand behind the stretch are moved at most once, and not at all where as many
/// come as go. Two things are apart: a vector that gets other memory moves all, and where three or
/// more values go that take under 16 bytes together, those behind may be moved twice (`close_gap`).
///
/// # Requires
///
/// The stretch lies in the vector.
///
/// # Errors
///
/// The vector had to grow and could not. All memory is taken before the first change, so nothing
/// changed then.
//
// Inlined where it is called: else the values are handed over in memory, which they are written to by
// parts and read from whole, and an insert into a short list takes half as long again.
#[inline(always)]
pub fn splice<T: Drop, A: Allocator>(
    list: &mut Vec<T, A>,
    places: Range<usize>,
    left: Option<T>,
    middle: Option<T>,
    right: Option<T>,
) -> Result<(), AllocError>
    requires start_le_end { places.start ≤ places.end }
    requires in_bounds { places.end ≤ vec_len list.old }
    ensures ok { OnOk result (list.new.items ≡ take places.start list.old.items
        ++ (option_to_list left ++ (option_to_list middle ++ option_to_list right))
        ++ drop places.end list.old.items) }
    ensures err { OnErr result (list.new.items ≡ list.old.items) }
    ensures succeeds { vec_len list.old
        + (length (option_to_list left) + length (option_to_list middle)
        + length (option_to_list right) - (places.end - places.start))
        ≤ vec_capacity list.old
        → IsOk result }
    ensures room { vec_capacity list.old ≤ vec_capacity list.new }
{
    let Range { start, end } = places;
    let added = usize::from(left.is_some())
        + usize::from(middle.is_some())
        + usize::from(right.is_some());
    let more = added.saturating_sub(end - start);
    // The first block is made larger than these need, and none is made where nothing is added.
    let room = if 0 < more && list.capacity() == 0 {
        FIRST_ROOM
    } else {
        more
    };
    list.reserve(room)?;
    let len = list.len();
    let at = put(list, start, end, left);
    let at = put(list, at, end, middle);
    let at = put(list, at, end, right);
    let pushed = list.len() - len;
    turn_right(&mut list[end..], pushed);
    cut(list, at..end);
    Ok(())
}

// Puts the value over the one at `at`, or where the stretch ends there, behind all others. Answers
// where the next one goes.
fn put<T: Drop, A: Allocator>(
    list: &mut Vec<T, A>,
    at: usize,
    end: usize,
    option: Option<T>,
) -> usize
    requires at_le_end { at ≤ end }
    requires in_bounds { end ≤ vec_len list.old }
    requires room { vec_len list.old + (length (option_to_list option) - (end - at)) ≤ vec_capacity list.old }
    ensures next { result ≡ at + length (take (end - at) (option_to_list option)) }
    ensures items { list.new.items
        ≡ take at list.old.items ++ take (end - at) (option_to_list option)
        ++ drop result list.old.items ++ drop (end - at) (option_to_list option) }
    ensures len { vec_len list.new ≡ vec_len list.old + (length (option_to_list option) - (end - at)) }
    ensures capacity { vec_capacity list.new ≡ vec_capacity list.old }
{
    match option {
        Some(value) => {
            if at < end {
                list[at] = value;
                at + 1
            } else {
                list.push_reserved(value);
                at
            }
        }
        None => at,
    }
}

/// Takes out the values at `places`, if there are any. Those behind are moved as `splice` says.
///
/// # Requires
///
/// The stretch lies in the vector.
pub fn cut<T: Drop, A: Allocator>(list: &mut Vec<T, A>, places: Range<usize>)
    requires start_le_end { places.start ≤ places.end }
    requires in_bounds { places.end ≤ vec_len list.old }
    ensures items { list.new.items ≡ take places.start list.old.items ++ drop places.end list.old.items }
    ensures capacity { vec_capacity list.new ≡ vec_capacity list.old }
{
    let Range { start, end } = places;
    if start < end {
        let count = end - start;
        let len = list.len();
        close_gap(&mut list[start..], count);
        list.truncate(len - count);
    }
}

// std's turn has the values of the shorter side wait in a room of so many bytes on its stack.
const TURN_ROOM_BYTES: usize = 4096;

// Where the room is too small, blocks change places while both sides have so many values.
const TURN_BLOCK: usize = 32;

// Moves the values behind the first `count` to the front, in order: each once, but where three or more
// go that take under 16 bytes together.
fn close_gap<T>(list: &mut [T], count: usize)
    requires some { 0 < count }
    requires in_bounds { count ≤ length list.old }
    ensures kept { take (length list.old - count) list.new ≡ drop count list.old }
    ensures len { length list.new ≡ length list.old }
{
    let bytes = size_of_val(&list[..count]);
    if 2 < count && count < TURN_BLOCK && TURN_ROOM_BYTES < bytes {
        // The values that go have no room and are too few for blocks: std's turn would reverse the
        // list, which moves each value twice. So each one behind is exchanged with one that goes. One
        // value and two are moved apart from the others by a turn, however large they are.
        for at in count..list.len() {
            list.swap(at - count, at);
        }
        return;
    }
    // A turn, where blocks of `count` follow; what is left then changes places with values that go.
    // Where these take under 16 bytes, std's turn has the others wait instead if they fit its room: two
    // long copies are quicker than one by steps that short.
    let left = (list.len() - count) % count;
    let turned = list.len() - left;
    let (blocks, last) = list.split_at_mut(turned);
    turn_left(blocks, count);
    blocks[turned - count..turned - count + left].swap_with_slice(last);
}

// Moves the first `count` values behind all others.
fn turn_left<T>(list: &mut [T], count: usize)
    requires { count ≤ length list.old }
    ensures { list.new ≡ drop count list.old ++ take count list.old }
{
    if count == 2 {
        let mut nothing = ();
        // SAFETY: each value that is taken out of a place is put into another, so none is forgotten.
        unsafe { with_slots(list, &mut nothing, (), first_two_last) }
    } else {
        list.rotate_left(count);
    }
}

// Moves the last `count` values before all others.
fn turn_right<T>(list: &mut [T], count: usize)
    requires { count ≤ length list.old }
    ensures { list.new ≡ drop (length list.old - count) list.old ++ take (length list.old - count) list.old }
{
    if count == 2 {
        let mut nothing = ();
        // SAFETY: each value that is taken out of a place is put into another, so none is forgotten.
        unsafe { with_slots(list, &mut nothing, (), last_two_first) }
    } else {
        list.rotate_right(count);
    }
}

// Moves the first two values behind all others, in a row that has them.
fn first_two_last<T>(mut row: Slots<T>, state: (), _given: ()) -> (Slots<T>, (), ())
    requires { IsFull row × (2 ≤ slots_len row) }
    ensures { Refills row result.0 × RotatedLeft (slots_items row) (slots_items result.0) (slots_len row) 2 }
{
    let rest = row.len() - 2;
    let first = row.take(0);
    let second = row.take(1);
    row.move_within(2, 0, rest);
    row.put(rest, first);
    row.put(rest + 1, second);
    (row, state, ())
}

// Moves the last two before all others.
fn last_two_first<T>(mut row: Slots<T>, state: (), _given: ()) -> (Slots<T>, (), ())
    requires { IsFull row × (2 ≤ slots_len row) }
    ensures { Refills row result.0
        × RotatedLeft (slots_items row) (slots_items result.0) (slots_len row) (slots_len row - 2) }
{
    let rest = row.len() - 2;
    let first = row.take(rest);
    let second = row.take(rest + 1);
    row.move_within(0, 2, rest);
    row.put(0, first);
    row.put(1, second);
    (row, state, ())
}
