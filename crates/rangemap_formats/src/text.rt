//! The debug text of what a store holds.
//!
//! The plain text is written by hand, since std's `Debug` of ranges, and its builders, have no contract.
//! Under `{:#?}` std's `debug_set` lays the pairs out, and nothing is promised of that text.
ghost use Rattle.std.specs.Prelude.{ℕ, List, Option};
ghost use Rattle.std.specs.Fmt.{DisplaysOnOk};
ghost use Rattle.rangemap_formats.specs.Texts.{braced_text};

use rangemap_core::cursor::Cursor;
use rangemap_core::key_range::KeyRange;
use rangemap_core::kind::Kind;
use rangemap_core::reader::Reader;
use rangemap_core::store::Store;
use std::fmt::{self, Debug, Formatter};
use std::marker::PhantomData;

/// Writes the pairs, each as `T` does, with `, ` between, in braces. Under `{:#?}` each has a line of
/// its own.
pub fn write<T: PairText<S::Range, S::Value>, S: Store, W: fmt::Write>(
    stored: &S,
    f: &mut Formatter<W>,
) -> fmt::Result
    ensures { DisplaysOnOk W.write_str_gives f.old result (braced_text T.text (S.pairs stored.now)) f.new }
{
    if f.alternate() {
        return stored.read::<OnLines<T, W>>(f);
    }
    f.write_str("{")?;
    stored.read::<Items<T, W>>(f)?;
    f.write_str("}")
}

// What is written of a pair.
trait PairText<R, V> {
    // The text.
    ghost text: { R × V → Option (List ℕ) };

    // Writes a range and its value.
    fn write_pair<W: fmt::Write>(range: &R, value: &V, f: &mut Formatter<W>) -> fmt::Result
        ensures { DisplaysOnOk W.write_str_gives f.old result (text (range.now, value.now)) f.new };
}

/// The range and the value, as `0..100: "abc"`.
pub struct RangeAndValue<Q>(PhantomData<Q>);

impl<Q: Kind<R>, R: KeyRange, V: Debug> PairText<R, V> for RangeAndValue<Q>
where
    R::Key: Debug,
{
    ghost use Rattle.rangemap_formats.specs.Texts.{pair_text};

    ghost text = { pair_text Q.kind R.dots R.Key.debug_output V.debug_output };

    fn write_pair<W: fmt::Write>(range: &R, value: &V, f: &mut Formatter<W>) -> fmt::Result {
        <RangeAlone<Q> as PairText<R, V>>::write_pair::<W>(range, value, f)?;
        f.write_str(": ")?;
        value.fmt(f)
    }
}

/// The range alone, as `0..100`.
pub struct RangeAlone<Q>(PhantomData<Q>);

impl<Q: Kind<R>, R: KeyRange, V> PairText<R, V> for RangeAlone<Q>
where
    R::Key: Debug,
{
    ghost use Rattle.rangemap_formats.specs.Texts.{range_text};

    ghost text = { λ pair. range_text Q.kind R.dots R.Key.debug_output pair.0 };

    fn write_pair<W: fmt::Write>(range: &R, _value: &V, f: &mut Formatter<W>) -> fmt::Result {
        range.start().fmt(f)?;
        f.write_str(R::dots())?;
        range.end().fmt(f)
    }
}

// Writes the pairs that it reads with std's builder.
struct OnLines<T, W>(PhantomData<(T, W)>);

impl<T: PairText<R, V>, R: KeyRange, V, W: fmt::Write> Reader<R, V> for OnLines<T, W> {
    ghost use Rattle.std.specs.Prelude.{⊤};

    type State = Formatter<W>;

    type Answer = fmt::Result;

    ghost reads = { λ _ _ _ _. ⊤ };

    fn read<C: Cursor<Range = R, Value = V, Given: Drop, GivenValue: Drop>>(
        pairs: C,
        f: &mut Formatter<W>,
    ) -> fmt::Result {
        let mut rest = pairs;
        let mut set = f.debug_set();
        while let Some(pair) = rest.take_first() {
            let (range, value) = C::parts(&pair);
            let text = PhantomData;
            let written: Written<'_, T, R, V> = Written { range, value, text };
            set.entry(&written);
        }
        set.finish()
    }
}

// A pair that is written as `T` says.
#[derive(Drop)]
struct Written<'a, T, R, V> {
    range: &'a R,
    value: &'a V,
    text: PhantomData<T>,
}

impl<'a, T: PairText<R, V>, R, V> Debug for Written<'a, T, R, V> {
    ghost debug_output = { λ it. T.text (it.range.now, it.value.now) };

    fn fmt<W: fmt::Write>(&self, f: &mut Formatter<W>) -> fmt::Result {
        T::write_pair(self.range, self.value, f)
    }
}

// Writes the pairs that it reads, with `, ` between.
struct Items<T, W>(PhantomData<(T, W)>);

impl<T: PairText<R, V>, R: KeyRange, V, W: fmt::Write> Reader<R, V> for Items<T, W> {
    ghost use Rattle.std.specs.Fmt.{DisplaysOnOk};
    ghost use Rattle.rangemap_formats.specs.Texts.{items_text};

    type State = Formatter<W>;

    type Answer = fmt::Result;

    ghost reads = { λ pairs old result new. DisplaysOnOk W.write_str_gives old result
        (items_text T.text pairs) new };

    fn read<C: Cursor<Range = R, Value = V, Given: Drop, GivenValue: Drop>>(
        pairs: C,
        f: &mut Formatter<W>,
    ) -> fmt::Result {
        let mut rest = pairs;
        let Some(first) = rest.take_first() else {
            return Ok(());
        };
        let (range, value) = C::parts(&first);
        T::write_pair(range, value, f)?;
        'pairs: while let Some(pair) = rest.take_first() {
            f.write_str(", ")?;
            let (range, value) = C::parts(&pair);
            T::write_pair(range, value, f)?;
        }
        Ok(())
    }
}
