//! What iterators give, as words.
ghost use Rattle.std.specs.Iterator.{IsFinite};

use crate::fault::Fault;
use crate::ranges::{write_pair, write_range};
use crate::tries::Tries;
use crate::word::Word;
use rangemap_core::key_range::KeyRange;
use std::alloc::AllocError;
use std::iter::{DoubleEndedIterator, Iterator};
use std::marker::PhantomData;

// More items than any row asks for.
const MANY: u64 = 1000;

/// How an item is written.
pub trait Shows<T> {
    /// Appends the words of an item.
    fn show(item: T, out: &mut String) -> Result<(), Fault>;
}

/// Pairs that are lent.
pub struct LentPairs<A> {
    of: PhantomData<A>,
}

impl<'a, R: KeyRange<Key: Word<A>>, V: Word<A>, A: Copy> Shows<(&'a R, &'a V)> for LentPairs<A> {
    fn show(item: (&'a R, &'a V), out: &mut String) -> Result<(), Fault> {
        write_pair::<R, V, A>(item.0, item.1, out)
    }
}

/// Pairs that are handed over.
pub struct OwnPairs<A> {
    of: PhantomData<A>,
}

impl<R: KeyRange<Key: Word<A>>, V: Word<A>, A: Copy> Shows<(R, V)> for OwnPairs<A> {
    fn show(item: (R, V), out: &mut String) -> Result<(), Fault> {
        write_pair::<R, V, A>(&item.0, &item.1, out)
    }
}

/// Ranges that are lent.
pub struct LentRanges<A> {
    of: PhantomData<A>,
}

impl<'a, R: KeyRange<Key: Word<A>>, A: Copy> Shows<&'a R> for LentRanges<A> {
    fn show(item: &'a R, out: &mut String) -> Result<(), Fault> {
        write_range::<R, A>(item, out)
    }
}

/// Ranges that are handed over or made.
pub struct OwnRanges<A> {
    of: PhantomData<A>,
}

impl<R: KeyRange<Key: Word<A>>, A: Copy> Shows<R> for OwnRanges<A> {
    fn show(item: R, out: &mut String) -> Result<(), Fault> {
        write_range::<R, A>(&item, out)
    }
}

// Appends a comma, but at the beginning of a list.
fn part(is_first: &mut bool, out: &mut String) -> Result<(), Fault> {
    if !*is_first {
        out.push_str(", ")?;
    }
    *is_first = false;
    Ok(())
}

// Appends an item, or a dash where there is none.
fn write_item<T: Drop, F: Shows<T>>(item: Option<T>, out: &mut String) -> Result<(), Fault> {
    match item {
        Some(item) => F::show(item, out),
        None => Ok(out.push('-')?),
    }
}

/// Appends the items that a script takes: `f` the next, `b` the next from the back, `#` the hint of how
/// many are left. An empty script takes all.
pub fn write_taken<T: Drop, I: DoubleEndedIterator<Item = T> + Drop, F: Shows<T>>(
    mut items: I,
    script: &str,
    out: &mut String,
) -> Result<(), Fault>
    requires ready { (it : I) → I.can_next it × I.can_next_back it }
    requires ends { IsFinite (I.remaining items) }
{
    if script.is_empty() {
        return write_all::<T, I, F>(items, out);
    }
    let mut is_first = true;
    for letter in script.chars() {
        part(&mut is_first, out)?;
        match letter {
            'f' => write_item::<T, F>(items.next(), out)?,
            'b' => write_item::<T, F>(items.next_back(), out)?,
            '#' => write_hint(items.size_hint(), out)?,
            _ => return Err(Fault::NoScript),
        }
    }
    Ok(())
}

// Appends the least and the most items that are left, as `3/3`; a question mark where nothing is said
// of the most.
fn write_hint(hint: (usize, Option<usize>), out: &mut String) -> Result<(), Fault> {
    match hint {
        (least, Some(most)) => Ok(write!(out, "{least}/{most}")?),
        (least, None) => Ok(write!(out, "{least}/?")?),
    }
}

/// Appends all items.
pub fn write_all<T: Drop, I: Iterator<Item = T> + Drop, F: Shows<T>>(
    items: I,
    out: &mut String,
) -> Result<(), Fault>
    requires can { I.can_next items }
    requires ends { IsFinite (I.remaining items) }
{
    let mut is_first = true;
    for item in items {
        part(&mut is_first, out)?;
        F::show(item, out)?;
    }
    Ok(())
}

/// Appends the items that a script takes of an iterator that makes them when they are asked for: `n`
/// the next by `next`, `t` by `try_next`, `#` the hint; `N` all by `next`, and what `try_next` says
/// behind them; `T` all by `try_next`, where one that is refused is asked for again, and what `next`
/// says behind them. A refused item is an exclamation mark. An empty script takes all.
pub fn write_made<G: Tries<Item = Result<<G as Tries>::Range, AllocError>>, F: Shows<G::Range>>(
    mut items: G,
    script: &str,
    out: &mut String,
) -> Result<(), Fault>
    requires ready { (it : G) → G.can_next it }
    requires ends { IsFinite (G.remaining items) }
{
    if script.is_empty() {
        return write_all_made::<G, F>(items, out);
    }
    let mut is_first = true;
    for letter in script.chars() {
        match letter {
            'N' => write_nexts::<G, F>(&mut items, &mut is_first, out)?,
            'T' => write_tries::<G, F>(&mut items, &mut is_first, out)?,
            _ => {
                part(&mut is_first, out)?;
                write_one::<G, F>(&mut items, letter, out)?;
            }
        }
    }
    Ok(())
}

// Appends all items.
fn write_all_made<G: Tries<Item = Result<<G as Tries>::Range, AllocError>>, F: Shows<G::Range>>(
    items: G,
    out: &mut String,
) -> Result<(), Fault>
    requires can { G.can_next items }
    requires ends { IsFinite (G.remaining items) }
{
    let mut is_first = true;
    for item in items {
        let item = item?;
        part(&mut is_first, out)?;
        F::show(item, out)?;
    }
    Ok(())
}

// Appends what one letter asks.
fn write_one<G: Tries<Item = Result<<G as Tries>::Range, AllocError>>, F: Shows<G::Range>>(
    items: &mut G,
    letter: char,
    out: &mut String,
) -> Result<(), Fault>
    requires ready { (it : G) → G.can_next it }
{
    let item = match letter {
        'n' => items.next().transpose(),
        't' => items.try_next(),
        '#' => return write_hint(items.size_hint(), out),
        _ => return Err(Fault::NoScript),
    };
    match item {
        Ok(item) => write_item::<G::Range, F>(item, out),
        Err(AllocError) => Ok(out.push('!')?),
    }
}

// Appends all items by `next`, behind which `try_next` has none.
fn write_nexts<G: Tries<Item = Result<<G as Tries>::Range, AllocError>>, F: Shows<G::Range>>(
    items: &mut G,
    is_first: &mut bool,
    out: &mut String,
) -> Result<(), Fault>
    requires ready { (it : G) → G.can_next it }
{
    for _ in 0..MANY {
        if !write_next::<G, F>(items, is_first, out)? {
            return Ok(());
        }
    }
    Err(Fault::Differs)
}

// Appends the next item, and answers whether there was one.
fn write_next<G: Tries<Item = Result<<G as Tries>::Range, AllocError>>, F: Shows<G::Range>>(
    items: &mut G,
    is_first: &mut bool,
    out: &mut String,
) -> Result<bool, Fault>
    requires ready { (it : G) → G.can_next it }
{
    let Some(item) = items.next() else {
        return match items.try_next() {
            Ok(None) => Ok(false),
            _ => Err(Fault::Differs),
        };
    };
    part(is_first, out)?;
    match item {
        Ok(item) => F::show(item, out)?,
        Err(AllocError) => out.push('!')?,
    }
    Ok(true)
}

// Appends all items by `try_next`, behind which `next` has none.
fn write_tries<G: Tries<Item = Result<<G as Tries>::Range, AllocError>>, F: Shows<G::Range>>(
    items: &mut G,
    is_first: &mut bool,
    out: &mut String,
) -> Result<(), Fault>
    requires ready { (it : G) → G.can_next it }
{
    for _ in 0..MANY {
        match items.try_next() {
            Ok(Some(item)) => {
                part(is_first, out)?;
                F::show(item, out)?;
            }
            Err(AllocError) => {
                part(is_first, out)?;
                out.push('!')?;
            }
            Ok(None) => {
                return match items.next() {
                    None => Ok(()),
                    Some(_) => Err(Fault::Differs),
                };
            }
        }
    }
    Err(Fault::Differs)
}
