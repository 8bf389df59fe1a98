//! The debug text of maps.

use super::Map;
use rangemap_core::key_range::KeyRange;
use rangemap_core::store::Store;
use rangemap_formats::text::{RangeAndValue, write};
use std::fmt::{self, Debug, Formatter};

impl<S: Store<Range: Debug, Value: Debug>> Debug for Map<S>
where
    <S::Range as KeyRange>::Key: Debug,
{
    ghost use Rattle.rangemap_formats.specs.Texts.{map_text};

    ghost debug_output = { map_text S.Kind.kind S.Range.dots S.Range.Key.debug_output S.Value.debug_output };

    /// Writes the pairs as `{0..100: "abc", 200..300: "ghi"}`, and `{}` if there are none. `{:#?}` gives
    /// each a line of its own, and nothing is promised about that text.
    fn fmt<W: fmt::Write>(&self, f: &mut Formatter<W>) -> fmt::Result {
        write::<RangeAndValue<S::Kind>, S, W>(&self.stored, f)
    }
}
