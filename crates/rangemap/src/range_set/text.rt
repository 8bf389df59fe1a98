//! The debug text of sets.

use super::Set;
use rangemap_core::key_range::KeyRange;
use rangemap_core::store::Store;
use rangemap_formats::text::{RangeAlone, write};
use std::fmt::{self, Debug, Formatter};

impl<S: Store<Range: Debug, Value = ()>> Debug for Set<S>
where
    <S::Range as KeyRange>::Key: Debug,
{
    ghost use Rattle.rangemap.specs.Texts.{set_text};

    ghost debug_output = { set_text S.Kind.kind S.Range.dots S.Range.Key.debug_output };

    /// Writes the ranges as `{0..100, 200..300}` or `{0..=100, 200..=300}`, and `{}` if there are none.
    /// `{:#?}` gives each a line of its own, and nothing is promised about that text.
    fn fmt<W: fmt::Write>(&self, f: &mut Formatter<W>) -> fmt::Result {
        write::<RangeAlone<S::Kind>, S, W>(&self.stored, f)
    }
}
