//! Carrying out a command on a container, and the text of its answer.
ghost use Rattle.std.specs.Prelude.{◌≡◌, OnErr, OnOk};
ghost use Rattle.rangerun_library.specs.Commands.{IsCarriedOut};

use crate::command::{Command, Question};
use crate::container::NumberContainer;
use crate::listing::{write_gaps, write_item_or_none, write_json, write_overlapping};
use std::alloc::{AllocError, Allocator, Global};

/// Carries out a command, and appends the line that it prints, if any, to `text`. A JSON form is
/// made in memory of `json_alloc`. A command that only asks leaves the container as it is.
///
/// # Errors
///
/// Memory ran out: then the container is as it was, and `text` may have a part of the line.
pub fn answer<A: Allocator, C: NumberContainer<Alloc = A>>(
    alloc: A,
    json_alloc: Global,
    container: &mut C,
    command: Command<'_, C::Range>,
    text: &mut String<A>,
) -> Result<(), AllocError>
    ensures ok { OnOk result (IsCarriedOut C.Kind.kind C.Value.eq (C.pairs container.old) command.entry (C.pairs container.new)) }
    ensures err { OnErr result (C.pairs container.new ≡ C.pairs container.old) }
{
    match command {
        Command::Insert(span, word) => container.insert(span.range(), C::value(alloc, word)?),
        Command::Remove(span) => container.remove(span.range()),
        Command::Clear => {
            container.clear();
            Ok(())
        }
        Command::Ask(question) => tell(alloc, json_alloc, container, question, text),
    }
}

// Appends the line that tells what the container answers.
fn tell<A: Allocator, C: NumberContainer<Alloc = A>>(
    alloc: A,
    json_alloc: Global,
    container: &C,
    question: Question<C::Range>,
    text: &mut String<A>,
) -> Result<(), AllocError> {
    match question {
        Question::Get(key) => write_item_or_none(text, container.get_key_value(&key)),
        Question::First => write_item_or_none(text, container.first_range_value()),
        Question::Last => write_item_or_none(text, container.last_range_value()),
        Question::Iter => writeln!(text, "{container:?}"),
        Question::Len => writeln!(text, "{}", container.len()),
        Question::Overlapping(range) => write_overlapping(alloc, text, container, &range),
        Question::Overlaps(range) => writeln!(text, "{}", container.overlaps(&range)),
        Question::Gaps(range) => write_gaps(alloc, text, container, &range),
        Question::Json => write_json(json_alloc, text, container),
    }
}
