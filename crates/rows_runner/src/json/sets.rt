//! Sets that are written as JSON and read again.

use super::parts::JsonWord;
use super::readings::{form_and_value, write_unread, write_written};
use rangemap::set::Set;
use rangemap_core::key_range::KeyRange;
use rangemap_core::kind::Kind;
use rangemap_core::store::{HandsOver, Store, StoreMut};
use rows_text::{
    Fault, FromEnds, Memory, OwnRanges, Question, Subject, Word, first_word, range_of, write_all,
};
use serde_json::Value;

/// A set that is asked for its JSON form.
#[derive(Drop)]
pub struct JsonSet<S: Store<Value = ()>> {
    set: Set<S>,
}

impl<S: StoreMut<Value = (), Alloc: Memory>> JsonSet<S>
where
    S::Kind: Kind<S::Range, Steps = <S::Range as KeyRange>::Key>,
{
    /// The empty set.
    pub fn new(alloc: S::Alloc) -> JsonSet<S> {
        JsonSet {
            set: Set::new(alloc),
        }
    }
}

impl<S> Subject for JsonSet<S>
where
    S: StoreMut<Value = (), Alloc: Memory, Range: FromEnds<Key: JsonWord<S::Alloc>>>
        + HandsOver
        + Drop,
    S::Kind: Kind<S::Range, Steps = <S::Range as KeyRange>::Key>,
{
    fn renew(&mut self) {
        self.set = Set::new(*self.set.allocator());
    }

    fn change(&mut self, call: &str, granted: u64) -> Result<(), Fault> {
        change(&mut self.set, call, granted)
    }

    fn ask(&self, question: &Question<'_>, out: &mut String) -> Result<(), Fault> {
        match question.name {
            "iter" => write_set(self.set.clone()?, out),
            "to_value" => to_value(&self.set, out),
            "from_value" => from_value::<S>(*self.set.allocator(), question, out),
            _ => Err(Fault::NoQuestion),
        }
    }
}

/// Makes the call that a text names on a set, which is an insert.
pub fn change<S>(set: &mut Set<S>, call: &str, granted: u64) -> Result<(), Fault>
where
    S: StoreMut<Value = (), Alloc: Memory, Range: FromEnds<Key: Word<S::Alloc>>>,
{
    let (name, range) = first_word(call);
    if name != "insert" {
        return Err(Fault::NoCall);
    }
    let alloc = *set.allocator();
    let range = range_of::<S::Kind, S::Range, S::Alloc>(alloc, range)?;
    alloc.begin(granted);
    let made = set.insert(range);
    alloc.end();
    Ok(made?)
}

// Appends the ranges of a set.
fn write_set<S>(set: Set<S>, out: &mut String) -> Result<(), Fault>
where
    S: StoreMut<Value = (), Alloc: Memory, Range: FromEnds<Key: Word<S::Alloc>>> + HandsOver + Drop,
    S::Kind: Kind<S::Range, Steps = <S::Range as KeyRange>::Key>,
{
    write_all::<_, _, OwnRanges<S::Alloc>>(set.into_iter(), out)
}

// Writes a set, in memory of which no request is refused, since it isn't that of the set.
fn to_value<S>(set: &Set<S>, out: &mut String) -> Result<(), Fault>
where
    S: StoreMut<Value = (), Alloc: Memory, Range: FromEnds<Key: JsonWord<S::Alloc>>>,
    S::Kind: Kind<S::Range, Steps = <S::Range as KeyRange>::Key>,
{
    let global = *out.allocator();
    let write_key = move |key: &<S::Range as KeyRange>::Key| key.write_json(global);
    write_written(set.to_value(global, write_key), out)
}

// Reads a set, and appends its ranges, or why it was not read.
fn from_value<S>(alloc: S::Alloc, question: &Question<'_>, out: &mut String) -> Result<(), Fault>
where
    S: StoreMut<Value = (), Alloc: Memory, Range: FromEnds<Key: JsonWord<S::Alloc>>>
        + HandsOver
        + Drop,
    S::Kind: Kind<S::Range, Steps = <S::Range as KeyRange>::Key>,
{
    let (form, value) = form_and_value(*out.allocator(), question)?;
    let read_key = move |part: &Value| <S::Range as KeyRange>::Key::read_json(alloc, part);
    alloc.begin(question.granted);
    let read = Set::<S>::from_value(alloc, form, &value, read_key);
    alloc.end();
    match read {
        Ok(set) => write_set(set, out),
        Err(error) => write_unread(error, out),
    }
}
