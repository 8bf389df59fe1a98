//! A container that is changed and asked by text, whatever it is.
use super::lists::write_container;
use super::{appends, commands, laws, replays, stretches};
use rangemap::container::{Container, update};
use rows_text::{
    Fault, FromEnds, Memory, Question, Subject, Word, first_word, pair_of, query_of, range_of,
    write_found,
};

/// A container that is asked what every one can be, maps and sets alike.
#[derive(Drop)]
pub struct AnyContainer<M: Container> {
    container: M,
    alloc: M::Alloc,
}

impl<M: Container<Alloc: Memory>> AnyContainer<M> {
    /// The empty container.
    pub fn new(alloc: M::Alloc) -> AnyContainer<M> {
        AnyContainer {
            container: M::new_with_step_fns(alloc),
            alloc,
        }
    }
}

impl<M> Subject for AnyContainer<M>
where
    M: Container<Alloc: Memory, Range: FromEnds<Key: Word<M::Alloc>>, Value: Word<M::Alloc>> + Drop,
{
    fn renew(&mut self) {
        self.container = M::new_with_step_fns(self.alloc);
    }

    fn change(&mut self, call: &str, granted: u64) -> Result<(), Fault> {
        let (name, operand) = first_word(call);
        match name {
            "insert" => insert(&mut self.container, self.alloc, operand, granted),
            "remove" => remove(&mut self.container, self.alloc, operand, granted),
            "update" => update_to(&mut self.container, self.alloc, operand, granted),
            "clear" => {
                self.container.clear();
                Ok(())
            }
            "clone" => become_clone(&mut self.container, self.alloc, granted),
            _ => Err(Fault::NoCall),
        }
    }

    fn ask(&self, question: &Question<'_>, out: &mut String) -> Result<(), Fault> {
        let (container, alloc) = (&self.container, self.alloc);
        match question.name {
            "iter" => write_container(container, out),
            "len" => Ok(write!(out, "{} {}", container.len(), container.is_empty())?),
            "ends" => ends(container, out),
            "law" => laws::ask(container, alloc, question, out),
            "append_all" => appends::all(container, alloc, question, out),
            "append_overlapping" => appends::overlapping(container, alloc, question, out),
            "append_gaps" => appends::gaps(container, alloc, question, out),
            "collect_gaps" => stretches::gaps(container, alloc, question, out),
            "segments" => stretches::all(container, alloc, question, out),
            "run" => commands::ask(container, alloc, question, out),
            "replay" => replays::ask::<M>(alloc, question, out),
            _ => Err(Fault::NoQuestion),
        }
    }
}

fn insert<M>(container: &mut M, alloc: M::Alloc, pair: &str, granted: u64) -> Result<(), Fault>
where
    M: Container<Alloc: Memory, Range: FromEnds<Key: Word<M::Alloc>>, Value: Word<M::Alloc>>,
{
    let (range, value) = pair_of::<M::Kind, M::Range, M::Value, M::Alloc>(alloc, pair)?;
    alloc.begin(granted);
    let made = container.insert(range, value);
    alloc.end();
    Ok(made?)
}

fn remove<M>(container: &mut M, alloc: M::Alloc, range: &str, granted: u64) -> Result<(), Fault>
where
    M: Container<Alloc: Memory, Range: FromEnds<Key: Word<M::Alloc>>, Value: Word<M::Alloc>>,
{
    let range = range_of::<M::Kind, M::Range, M::Alloc>(alloc, range)?;
    alloc.begin(granted);
    let made = container.remove(range);
    alloc.end();
    Ok(made?)
}

// Gives each covered key of a range the value behind it. The range may be empty or reversed.
fn update_to<M>(container: &mut M, alloc: M::Alloc, pair: &str, granted: u64) -> Result<(), Fault>
where
    M: Container<Alloc: Memory, Range: FromEnds<Key: Word<M::Alloc>>, Value: Word<M::Alloc>>,
{
    let (range, value) = first_word(pair);
    let range: M::Range = query_of(alloc, range)?;
    let value = M::Value::read(alloc, value)?;
    alloc.begin(granted);
    let made = update(alloc, container, &range, |_| value.clone());
    alloc.end();
    Ok(made?)
}

fn become_clone<M>(container: &mut M, alloc: M::Alloc, granted: u64) -> Result<(), Fault>
where
    M: Container<Alloc: Memory, Range: FromEnds<Key: Word<M::Alloc>>, Value: Word<M::Alloc>> + Drop,
{
    alloc.begin(granted);
    let made = container.clone();
    alloc.end();
    *container = made?;
    Ok(())
}

// The first pair and the last.
fn ends<M>(container: &M, out: &mut String) -> Result<(), Fault>
where
    M: Container<Alloc: Memory, Range: FromEnds<Key: Word<M::Alloc>>, Value: Word<M::Alloc>>,
{
    write_found::<M::Range, M::Value, M::Alloc>(container.first_range_value(), out)?;
    out.push_str(", ")?;
    write_found::<M::Range, M::Value, M::Alloc>(container.last_range_value(), out)
}
