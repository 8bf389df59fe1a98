//! What maps and sets ask of the pairs that a query overlaps.

use rangemap_core::cursor::Cursor;
use rangemap_core::key_range::KeyRange;
use rangemap_core::reader::Reader;

/// Tells whether there is a pair.
pub struct IsAny;

impl<R: KeyRange, V> Reader<R, V> for IsAny {
    ghost use Rattle.std.specs.Prelude.{◌≡◌, length, nat_lt};

    type State = ();

    type Answer = bool;

    ghost reads = { λ pairs _ result _. result ≡ nat_lt 0 (length pairs) };

    fn read<C: Cursor<Range = R, Value = V, Given: Drop, GivenValue: Drop>>(
        pairs: C,
        _state: &mut (),
    ) -> bool {
        let mut rest = pairs;
        rest.take_first().is_some()
    }
}
