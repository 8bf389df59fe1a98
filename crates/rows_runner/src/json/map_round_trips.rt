//! What is made again of what a map of numbers hands over, by the laws.

use super::maps::change;
use super::parts::{read_number, write_number};
use super::readings::{fault_of, write_value};
use rangemap::Form;
use rangemap::map::Map;
use rangemap_core::key_range::KeyRange;
use rangemap_core::kind::Kind;
use rangemap_core::store::{HandsOver, Store, StoreMut};
use rangemap_laws::map_round_trips;
use rows_text::{Fault, FromEnds, Memory, Question, Subject};
use serde_json::Value;

/// A map of which another is made that has to be equal.
#[derive(Drop)]
pub struct MapRoundTrips<S: Store> {
    map: Map<S>,
}

impl<S: StoreMut<Alloc: Memory>> MapRoundTrips<S>
where
    S::Kind: Kind<S::Range, Steps = <S::Range as KeyRange>::Key>,
{
    /// The empty map.
    pub fn new(alloc: S::Alloc) -> MapRoundTrips<S> {
        MapRoundTrips {
            map: Map::new(alloc),
        }
    }
}

impl<S> Subject for MapRoundTrips<S>
where
    S: StoreMut<Alloc: Memory, Range: FromEnds<Key = u32>, Value = u32> + HandsOver + Drop,
    S::Kind: Kind<S::Range, Steps = <S::Range as KeyRange>::Key>,
{
    fn renew(&mut self) {
        self.map = Map::new(*self.map.allocator());
    }

    fn change(&mut self, call: &str, granted: u64) -> Result<(), Fault> {
        change(&mut self.map, call, granted)
    }

    fn ask(&self, question: &Question<'_>, out: &mut String) -> Result<(), Fault> {
        match question.name {
            "debug" => Ok(write!(out, "{:?}", self.map)?),
            "round_trips" => round_trip(&self.map, out),
            _ => Err(Fault::NoQuestion),
        }
    }
}

// Writes a map, reads it again in either form, makes one again of its pairs, and appends the text of
// what was written.
fn round_trip<S>(map: &Map<S>, out: &mut String) -> Result<(), Fault>
where
    S: StoreMut<Alloc: Memory, Range: FromEnds<Key = u32>, Value = u32> + HandsOver + Drop,
    S::Kind: Kind<S::Range, Steps = <S::Range as KeyRange>::Key>,
{
    let any = read_again(map, Form::Any, out)?;
    let canonical = read_again(map, Form::Canonical, out)?;
    if any != canonical {
        return Err(Fault::Differs);
    }
    let copy = map.clone()?;
    let again: Map<S> = map_round_trips::from_iter_of_into_iter_is_equal(*map.allocator(), copy)?;
    check_same(map, &again, out)?;
    write_value(&any, out)
}

// Writes a map and reads it again in a form. Returns what was written.
fn read_again<S>(map: &Map<S>, form: Form, out: &String) -> Result<Value, Fault>
where
    S: StoreMut<Alloc: Memory, Range: FromEnds<Key = u32>, Value = u32> + Drop,
    S::Kind: Kind<S::Range, Steps = <S::Range as KeyRange>::Key>,
{
    let functions = map_round_trips::Functions {
        write_key: write_number,
        write_value: write_number,
        read_key: read_number,
        read_value: read_number,
    };
    let (global, alloc) = (*out.allocator(), *map.allocator());
    match functions.reading_what_was_written_is_equal(global, alloc, form, map) {
        Ok((value, again)) => {
            check_same(map, &again, out)?;
            Ok(value)
        }
        Err(error) => Err(fault_of(error)),
    }
}

// Compares two maps, and the texts of them, of how many pairs they have and of the first and the last.
fn check_same<S>(map: &Map<S>, again: &Map<S>, out: &String) -> Result<(), Fault>
where
    S: StoreMut<Alloc: Memory, Range: FromEnds<Key = u32>, Value = u32>,
    S::Kind: Kind<S::Range, Steps = <S::Range as KeyRange>::Key>,
{
    let (text, other) = (text_of(map, out)?, text_of(again, out)?);
    if *map != *again || text.as_str() != other.as_str() {
        return Err(Fault::Differs);
    }
    Ok(())
}

// The text of how many pairs a map has, of the first and the last of them, and of all.
fn text_of<S>(map: &Map<S>, out: &String) -> Result<String, Fault>
where
    S: StoreMut<Alloc: Memory, Range: FromEnds<Key = u32>, Value = u32>,
    S::Kind: Kind<S::Range, Steps = <S::Range as KeyRange>::Key>,
{
    let ends = (map.first_range_value(), map.last_range_value());
    Ok(format!(in *out.allocator(); "{:?}", (map.len(), ends, map))?)
}
