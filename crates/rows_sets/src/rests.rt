//! Unions and intersections of what is left of a set, once a range was taken of it.
ghost use Rattle.rangemap.specs.Clones.{KeysCloneFaithfully};

use rangemap_core::cursor::Peek;
use rangemap_unions::{Intersection, Ranges, Union};
use rows_text::{Fault, Question, Shows, write_made};
use std::iter::{DoubleEndedIterator, Iterator};

/// Takes a range off the front or the back of a set, as the script of a question begins, and appends it
/// and what the rest makes with another set.
pub fn write_rest<C: Peek, F: Shows<C::Given>, G: Shows<C::Range>>(
    mut rest: Ranges<C>,
    other: Ranges<C>,
    question: &Question<'_>,
    out: &mut String,
) -> Result<(), Fault>
    requires { KeysCloneFaithfully C.Range.Key.is_clone C.Range.Key.cmp }
{
    let is_front = question.script.starts_with('f');
    let script = question
        .script
        .trim_start_matches('f')
        .trim_start_matches('b');
    if let Some(taken) = take(&mut rest, is_front) {
        F::show(taken, out)?;
        out.push_str(", ")?;
    }
    if question.name == "union" {
        write_made::<_, G>(Union::new(rest, other), script, out)
    } else {
        write_made::<_, G>(Intersection::new(rest, other), script, out)
    }
}

// Takes the first range, or else the last.
fn take<C: Peek>(ranges: &mut Ranges<C>, is_front: bool) -> Option<C::Given> {
    if is_front {
        ranges.next()
    } else {
        ranges.next_back()
    }
}
