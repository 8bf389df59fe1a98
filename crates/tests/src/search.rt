//! How many keys a lookup looks at.
ghost use Rattle.rangemap.specs.Clones.{KeysCloneFaithfully};

use crate::tallied::{Tallied, Tally};
use rangemap_core::closed::Closed;
use rangemap_core::half_open::HalfOpen;
use rangemap_core::key_range::KeyRange;
use rangemap_core::kind::Kind;
use rangemap_core::store::{Lends, Store, StoreMut};
use rangemap_sorted::SortedVec;
use rangemap_sorted::entries::covering;
use std::alloc::Global;
use std::ops::{Range, RangeInclusive};
use std::test::Fail;

// How many starts are asked for among so many ranges: one more than their number can be halved.
const ASKS: [(u16, u32); 11] = [
    (0, 0),
    (1, 1),
    (2, 2),
    (3, 2),
    (4, 3),
    (5, 3),
    (6, 3),
    (7, 3),
    (8, 4),
    (1000, 10),
    (1024, 11),
];

// Whether the key at this place is that of a range, of so many ranges of two keys, each with a key
// between it and the next.
fn is_stored(key: u32, len: u16) -> bool {
    key % 3 < 2 && key < 3 * u32::from(len)
}

// Stores so many such ranges. The first goes to `end`.
fn spread<Q: Kind<R>, R: KeyRange<Key = u32>>(
    alloc: Global,
    count: u16,
    end: u8,
) -> Result<SortedVec<Q, R, u8, Global>, Fail> {
    let mut stored = SortedVec::empty(alloc);
    for place in 0..u32::from(count) {
        let start = 3 * place;
        let range = R::between(start, start + u32::from(end)).ok_or("a range is empty")?;
        stored.insert(range, 0)?;
    }
    Ok(stored)
}

// Looks for each key among so many ranges, and for the one behind them, each with so many asks: which
// key it is makes no difference.
fn check_asks<Q: Kind<R>, R: KeyRange<Key = u32>>(
    alloc: Global,
    end: u8,
    (len, asks): (u16, u32),
) -> Result<(), Fail> {
    let stored = spread::<Q, R>(alloc, len, end)?;
    stored.known();
    let pairs = stored.iter().as_slice();
    for key in 0..3 * u32::from(len) + 1 {
        let (pair, asked) = covering::<Q, R, u8>(pairs, &key);
        if asked != asks as usize || pair.is_some() != is_stored(key, len) {
            return Err(Fail::new(format_args!("{asked} asks for {key} among {len}")));
        }
    }
    Ok(())
}

#[test]
fn covering_asks_by_halving(rt: HostRuntime) -> Result<(), Fail> {
    for row in ASKS {
        check_asks::<HalfOpen, Range<u32>>(rt.alloc(), 2, row)?;
        check_asks::<Closed<u32>, RangeInclusive<u32>>(rt.alloc(), 1, row)?;
    }
    Ok(())
}

// A key that counts how often it was compared with another.
trait Counts<'a>: Ord + Clone {
    // The key of a number, which counts in a tally.
    fn at(number: u32, tally: &'a Tally) -> Self;
}

impl<'a> Counts<'a> for Tallied<'a> {
    fn at(number: u32, tally: &'a Tally) -> Tallied<'a> {
        Tallied { number, tally }
    }
}

// Stores so many ranges of two keys, which count in a tally.
fn spread_counted<'a, K: Counts<'a>>(
    alloc: Global,
    tally: &'a Tally,
    count: u16,
) -> Result<SortedVec<HalfOpen, Range<K>, (), Global>, Fail>
    requires { KeysCloneFaithfully K.is_clone K.cmp }
{
    let mut stored = SortedVec::empty(alloc);
    for place in 0..u32::from(count) {
        let (start, end) = (K::at(3 * place, tally), K::at(3 * place + 2, tally));
        let range = KeyRange::between(start, end).ok_or("a range is empty")?;
        stored.insert(range, ())?;
    }
    Ok(stored)
}

// Looks for each key among so many ranges, whose ends count in a tally of their own, by the store's own
// call, which says whether it is stored. The key is compared with one start for each ask, and with one
// end.
fn check_lookups<'a, K: Counts<'a>>(
    alloc: Global,
    tallies: (&'a Tally, &'a Tally),
    row: (u16, u32),
) -> Result<(), Fail>
    requires { KeysCloneFaithfully K.is_clone K.cmp }
{
    let ((kept, sought), (len, asks)) = (tallies, row);
    let stored = spread_counted::<K>(alloc, kept, len)?;
    for number in 0..3 * u32::from(len) + 1 {
        let key = K::at(number, sought);
        let _ = sought.taken();
        let is_found = stored.covering(&key).is_some();
        let (_, compared, _) = sought.taken();
        if compared > asks.saturating_add(1) || is_found != is_stored(number, len) {
            return Err(Fail::new(format_args!("{compared} comparisons for {asks} asks")));
        }
    }
    Ok(())
}

#[test]
fn a_store_looks_up_by_halving(rt: HostRuntime) -> Result<(), Fail> {
    let (kept, sought) = (Tally::new(), Tally::new());
    for row in ASKS {
        check_lookups::<Tallied<'_>>(rt.alloc(), (&kept, &sought), row)?;
    }
    Ok(())
}
