//! What is made again of what a set of numbers hands over, by the laws.

use super::parts::{read_number, write_number};
use super::readings::{fault_of, write_value};
use super::sets::change;
use rangemap::Form;
use rangemap::set::Set;
use rangemap_core::key_range::KeyRange;
use rangemap_core::kind::Kind;
use rangemap_core::store::{HandsOver, Store, StoreMut};
use rangemap_laws::set_round_trips;
use rows_text::{Fault, FromEnds, Memory, Question, Subject};
use serde_json::Value;

/// A set of which another is made that has to be equal.
#[derive(Drop)]
pub struct SetRoundTrips<S: Store<Value = ()>> {
    set: Set<S>,
}

impl<S: StoreMut<Value = (), Alloc: Memory>> SetRoundTrips<S>
where
    S::Kind: Kind<S::Range, Steps = <S::Range as KeyRange>::Key>,
{
    /// The empty set.
    pub fn new(alloc: S::Alloc) -> SetRoundTrips<S> {
        SetRoundTrips {
            set: Set::new(alloc),
        }
    }
}

impl<S> Subject for SetRoundTrips<S>
where
    S: StoreMut<Value = (), Alloc: Memory, Range: FromEnds<Key = u32>> + HandsOver + Drop,
    S::Kind: Kind<S::Range, Steps = <S::Range as KeyRange>::Key>,
{
    fn renew(&mut self) {
        self.set = Set::new(*self.set.allocator());
    }

    fn change(&mut self, call: &str, granted: u64) -> Result<(), Fault> {
        change(&mut self.set, call, granted)
    }

    fn ask(&self, question: &Question<'_>, out: &mut String) -> Result<(), Fault> {
        match question.name {
            "debug" => Ok(write!(out, "{:?}", self.set)?),
            "round_trips" => round_trip(&self.set, out),
            _ => Err(Fault::NoQuestion),
        }
    }
}

// Writes a set, reads it again in either form, makes one again of its ranges, and appends the text of
// what was written.
fn round_trip<S>(set: &Set<S>, out: &mut String) -> Result<(), Fault>
where
    S: StoreMut<Value = (), Alloc: Memory, Range: FromEnds<Key = u32>> + HandsOver + Drop,
    S::Kind: Kind<S::Range, Steps = <S::Range as KeyRange>::Key>,
{
    let any = read_again(set, Form::Any, out)?;
    let canonical = read_again(set, Form::Canonical, out)?;
    if any != canonical {
        return Err(Fault::Differs);
    }
    let copy = set.clone()?;
    let again: Set<S> = set_round_trips::from_iter_of_into_iter_is_equal(*set.allocator(), copy)?;
    check_same(set, &again, out)?;
    write_value(&any, out)
}

// Writes a set and reads it again in a form. Returns what was written.
fn read_again<S>(set: &Set<S>, form: Form, out: &String) -> Result<Value, Fault>
where
    S: StoreMut<Value = (), Alloc: Memory, Range: FromEnds<Key = u32>> + Drop,
    S::Kind: Kind<S::Range, Steps = <S::Range as KeyRange>::Key>,
{
    let functions = set_round_trips::Functions {
        write_key: write_number,
        read_key: read_number,
    };
    let (global, alloc) = (*out.allocator(), *set.allocator());
    match functions.reading_what_was_written_is_equal(global, alloc, form, set) {
        Ok((value, again)) => {
            check_same(set, &again, out)?;
            Ok(value)
        }
        Err(error) => Err(fault_of(error)),
    }
}

// Compares two sets, and the texts of them, of how many ranges they have and of the first and the last.
fn check_same<S>(set: &Set<S>, again: &Set<S>, out: &String) -> Result<(), Fault>
where
    S: StoreMut<Value = (), Alloc: Memory, Range: FromEnds<Key = u32>>,
    S::Kind: Kind<S::Range, Steps = <S::Range as KeyRange>::Key>,
{
    let (text, other) = (text_of(set, out)?, text_of(again, out)?);
    if *set != *again || text.as_str() != other.as_str() {
        return Err(Fault::Differs);
    }
    Ok(())
}

// The text of how many ranges a set has, of the first and the last of them, and of all.
fn text_of<S>(set: &Set<S>, out: &String) -> Result<String, Fault>
where
    S: StoreMut<Value = (), Alloc: Memory, Range: FromEnds<Key = u32>>,
    S::Kind: Kind<S::Range, Steps = <S::Range as KeyRange>::Key>,
{
    let ends = (set.first(), set.last());
    Ok(format!(in *out.allocator(); "{:?}", (set.len(), ends, set))?)
}
