//! Maps that are written as JSON and read again.

use super::parts::JsonWord;
use super::readings::{form_and_value, write_unread, write_written};
use rangemap::map::Map;
use rangemap_core::key_range::KeyRange;
use rangemap_core::kind::Kind;
use rangemap_core::store::{HandsOver, Store, StoreMut};
use rows_text::{
    Fault, FromEnds, Memory, OwnPairs, Question, Subject, Word, first_word, pair_of, write_all,
};
use serde_json::Value;

/// A map that is asked for its JSON form.
#[derive(Drop)]
pub struct JsonMap<S: Store> {
    map: Map<S>,
}

impl<S: StoreMut<Alloc: Memory>> JsonMap<S>
where
    S::Kind: Kind<S::Range, Steps = <S::Range as KeyRange>::Key>,
{
    /// The empty map.
    pub fn new(alloc: S::Alloc) -> JsonMap<S> {
        JsonMap {
            map: Map::new(alloc),
        }
    }
}

impl<S> Subject for JsonMap<S>
where
    S: StoreMut<Alloc: Memory, Range: FromEnds<Key: JsonWord<S::Alloc>>, Value: JsonWord<S::Alloc>>
        + HandsOver
        + Drop,
    S::Kind: Kind<S::Range, Steps = <S::Range as KeyRange>::Key>,
{
    fn renew(&mut self) {
        self.map = Map::new(*self.map.allocator());
    }

    fn change(&mut self, call: &str, granted: u64) -> Result<(), Fault> {
        change(&mut self.map, call, granted)
    }

    fn ask(&self, question: &Question<'_>, out: &mut String) -> Result<(), Fault> {
        match question.name {
            "iter" => write_map(self.map.clone()?, out),
            "to_value" => to_value(&self.map, out),
            "from_value" => from_value::<S>(*self.map.allocator(), question, out),
            _ => Err(Fault::NoQuestion),
        }
    }
}

/// Makes the call that a text names on a map, which is an insert.
pub fn change<S>(map: &mut Map<S>, call: &str, granted: u64) -> Result<(), Fault>
where
    S: StoreMut<Alloc: Memory, Range: FromEnds<Key: Word<S::Alloc>>, Value: Word<S::Alloc>>,
{
    let (name, pair) = first_word(call);
    if name != "insert" {
        return Err(Fault::NoCall);
    }
    let alloc = *map.allocator();
    let (range, value) = pair_of::<S::Kind, S::Range, S::Value, S::Alloc>(alloc, pair)?;
    alloc.begin(granted);
    let made = map.insert(range, value);
    alloc.end();
    Ok(made?)
}

// Appends the pairs of a map.
fn write_map<S>(map: Map<S>, out: &mut String) -> Result<(), Fault>
where
    S: StoreMut<Alloc: Memory, Range: FromEnds<Key: Word<S::Alloc>>, Value: Word<S::Alloc>>
        + HandsOver
        + Drop,
    S::Kind: Kind<S::Range, Steps = <S::Range as KeyRange>::Key>,
{
    write_all::<_, _, OwnPairs<S::Alloc>>(map.into_iter(), out)
}

// Writes a map, in memory of which no request is refused, since it isn't that of the map.
fn to_value<S>(map: &Map<S>, out: &mut String) -> Result<(), Fault>
where
    S: StoreMut<Alloc: Memory, Range: FromEnds<Key: JsonWord<S::Alloc>>, Value: JsonWord<S::Alloc>>,
    S::Kind: Kind<S::Range, Steps = <S::Range as KeyRange>::Key>,
{
    let global = *out.allocator();
    let write_key = move |key: &<S::Range as KeyRange>::Key| key.write_json(global);
    let write_value = move |value: &S::Value| value.write_json(global);
    write_written(map.to_value(global, write_key, write_value), out)
}

// Reads a map, and appends its pairs, or why it was not read.
fn from_value<S>(alloc: S::Alloc, question: &Question<'_>, out: &mut String) -> Result<(), Fault>
where
    S: StoreMut<Alloc: Memory, Range: FromEnds<Key: JsonWord<S::Alloc>>, Value: JsonWord<S::Alloc>>
        + HandsOver
        + Drop,
    S::Kind: Kind<S::Range, Steps = <S::Range as KeyRange>::Key>,
{
    let (form, value) = form_and_value(*out.allocator(), question)?;
    let read_key = move |part: &Value| <S::Range as KeyRange>::Key::read_json(alloc, part);
    let read_value = move |part: &Value| S::Value::read_json(alloc, part);
    alloc.begin(question.granted);
    let read = Map::<S>::from_value(alloc, form, &value, read_key, read_value);
    alloc.end();
    match read {
        Ok(map) => write_map(map, out),
        Err(error) => write_unread(error, out),
    }
}
