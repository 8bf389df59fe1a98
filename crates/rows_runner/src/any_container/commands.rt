//! Commands that are run on a clone of a container, and what they answer.
ghost use Rattle.std.specs.Prelude.{IfOk};
ghost use Rattle.std.specs.List.{AllByRecursion};
ghost use Rattle.rangemap_laws.specs.Runs.{IsAllowed};

use super::lists::{write_container, write_pairs};
use rangemap::container::Container;
use rangemap_core::key_range::KeyRange;
use rangemap_core::kind::Kind;
use rangemap_laws::commands::{Answer, Command, Outcome, run};
use rows_text::{
    Fault, FromEnds, Memory, Question, Word, first_word, pair_of, query_of, range_of, write_pair,
};
use std::alloc::{AllocError, Allocator};

// Commands over ranges, in memory of `A`.
type Commands<R, V, A> = Vec<Command<<R as KeyRange>::Key, R, V>, A>;

// Makes the command that a text names.
fn command_of<Q: Kind<R>, R: FromEnds<Key: Word<A>>, V: Word<A>, A: Copy>(
    alloc: A,
    text: &str,
) -> Result<Command<R::Key, R, V>, Fault>
    ensures { IfOk result (IsAllowed Q.kind) }
{
    let (name, operand) = first_word(text);
    match name {
        "insert" => {
            let (range, value) = pair_of::<Q, R, V, A>(alloc, operand)?;
            Ok(Command::Insert(range, value))
        }
        "remove" => {
            let range = range_of::<Q, R, A>(alloc, operand)?;
            Ok(Command::Remove(range))
        }
        "clear" => Ok(Command::Clear),
        "len" => Ok(Command::Len),
        "get" => Ok(Command::Get(R::Key::read(alloc, operand)?)),
        "get_key_value" => Ok(Command::GetKeyValue(R::Key::read(alloc, operand)?)),
        "all" => Ok(Command::All),
        "overlapping" => Ok(Command::Overlapping(query_of(alloc, operand)?)),
        _ => Err(Fault::NoOperand),
    }
}

// Makes the commands that a text names, with a plus between them.
#[tactic(auto, using(rows_text::proofs::OneMore::all_and_one))]
fn commands_of<Q: Kind<R>, R: FromEnds<Key: Word<A>>, V: Word<A>, A: Allocator + Copy>(
    alloc: A,
    text: &str,
) -> Result<Commands<R, V, A>, Fault>
    ensures { IfOk result (λ all. AllByRecursion (IsAllowed Q.kind) all.items) }
{
    let mut all = Vec::new(alloc);
    for command in text.split(" + ") {
        all.push(command_of::<Q, R, V, A>(alloc, command)?)?;
    }
    Ok(all)
}

/// Runs the commands of a question on a clone, and appends what they answer and what is held then.
pub fn ask<M>(
    container: &M,
    alloc: M::Alloc,
    question: &Question<'_>,
    out: &mut String,
) -> Result<(), Fault>
where
    M: Container<Alloc: Memory, Range: FromEnds<Key: Word<M::Alloc>>, Value: Word<M::Alloc>> + Drop,
{
    let mut changed = container.clone()?;
    let commands = commands_of::<M::Kind, M::Range, M::Value, M::Alloc>(alloc, question.operand)?;
    alloc.begin(question.granted);
    let ran = run(alloc, &mut changed, commands);
    alloc.end();
    for answer in &ran? {
        write_answer::<M::Range, M::Value, M::Alloc>(answer, out)?;
        out.push_str(", ")?;
    }
    out.push_str("holds ")?;
    write_container(&changed, out)
}

// Appends what a command answers.
fn write_answer<R: KeyRange<Key: Word<A>>, V: Word<A>, A: Allocator + Copy>(
    answer: &Outcome<R, V, A>,
    out: &mut String,
) -> Result<(), Fault> {
    match answer {
        Ok(Answer::Done) => Ok(out.push_str("done")?),
        Ok(Answer::Len(len)) => Ok(write!(out, "{len}")?),
        Ok(Answer::Value(Some(value))) => value.write(out),
        Ok(Answer::Pair(Some((range, value)))) => write_pair::<R, V, A>(range, value, out),
        Ok(Answer::Value(None)) | Ok(Answer::Pair(None)) => Ok(out.push('-')?),
        Ok(Answer::Pairs(pairs)) => {
            out.push('[')?;
            write_pairs::<R, V, A>(pairs.as_slice(), out)?;
            Ok(out.push(']')?)
        }
        Err(AllocError) => Ok(out.push('!')?),
    }
}
