//! Reading a store from the value of its JSON form.
ghost use Rattle.std.specs.Prelude.{◌≡◌, IfErr, IfOk, MatchOption, OnOk};
ghost use Rattle.serde_json.specs.declared.value.Value.{Value as Json};
ghost use Rattle.rangemap_core.specs.Clones.{KeysCloneFaithfully, ValuesCloneFaithfully};
ghost use Rattle.rangemap_formats.specs.Entries.{Breaks, Follows, IsEntryFault, IsUnambiguous};
ghost use Rattle.rangemap_formats.specs.Json.{EndsWith, IsRead, IsReading, IsRefusedForMemoryAlone, Reader, RefusesToRead};
ghost use Rattle.rangemap_core.specs.Ranges.{IsStorable};
ghost use Rattle.rangemap_formats.specs.declared.json.Form.TheVariants.{Canonical as CanonicalWord};

use super::{Form, Part, ReadError};
use rangemap_core::key_range::KeyRange;
use rangemap_core::kind::{Kind, Touch, known_ends};
use rangemap_core::store::{Store, StoreMut};
use serde_json::Value;

/// What reads the parts of an entry for a store, with faults of type `E`.
pub(crate) trait ReadsParts<S: Store, E> {
    /// What it may answer.
    ghost reader: { Self → Reader S.Range.Key S.Value E };

    /// What the caller sees to.
    ghost is_ready: { Self → Type 0 };

    /// An entry is read in one way at most.
    ghost unambiguous: { (it : Self) → IsUnambiguous (reader it) };

    /// Returns the start, the end and the value of an entry, if it is laid out so.
    fn parts<'a>(&self, entry: &'a Value) -> Option<(&'a Value, &'a Value, &'a Value)>
        ensures { MatchOption result
            ((start end value : Json) → (reader self.now).shape entry.now start end value → ⊥)
            (λ parts. (reader self.now).shape entry.now parts.0.now parts.1.now parts.2.now) };

    /// Reads a key.
    fn key(&self, part: &Value) -> Result<<S::Range as KeyRange>::Key, E>
        requires { is_ready self.now }
        ensures { (reader self.now).key part.now result };

    /// Reads a value.
    fn value(&self, part: &Value) -> Result<S::Value, E>
        requires { is_ready self.now }
        ensures { (reader self.now).value part.now result };
}

/// Returns the store that a value of the JSON form stands for: the pairs that the reader reads of its
/// entries, inserted in order.
///
/// # Requires
///
/// The reader's functions may be called with any value, and a clone of a key or value compares equal to
/// its original.
///
/// # Errors
///
/// `NotAList` if the value is no list. Otherwise entries are read in order, and in an entry the order is
/// shape, start, end, value, emptiness, with `Form::Canonical` then the order and the touch with the
/// pair before, and last its insert. The first fault is the answer, and nothing is made then.
pub fn read<S: StoreMut + Drop, E, R: ReadsParts<S, E>>(
    alloc: S::Alloc,
    form: Form,
    value: &Value,
    reader: &R,
) -> Result<S, ReadError<E>>
    requires ready { R.is_ready reader.now }
    requires faithful_keys { KeysCloneFaithfully S.Range.Key.is_clone S.Range.Key.cmp }
    requires faithful_values { ValuesCloneFaithfully S.Value.is_clone S.Value.eq }
    ensures ok { IfOk result (λ all. IsReading S.Kind.kind
        (R.reader reader.now) S.Value.eq form value.now (S.pairs all)) }
    ensures err { IfErr result (RefusesToRead S.Kind.kind (R.reader reader.now) S.Value.eq form value.now) }
    ensures exact { IfErr result
        (IsRefusedForMemoryAlone S.Kind.kind (R.reader reader.now) S.Value.eq form value.now) }
{
    let Value::Array(entries) = value else {
        return Err(ReadError::NotAList);
    };
    let mut all = S::empty(alloc);
    for (at, entry) in entries.iter().enumerate() {
        let (range, value) = read_entry::<S, E, R>(at, entry, reader)?;
        check_form(&all, form, at, &range, &value)?;
        all.insert(range, value)?;
    }
    Ok(all)
}

// Reads the pair of the entry at the place. Its range is not empty.
fn read_entry<S: Store, E, R: ReadsParts<S, E>>(
    at: usize,
    entry: &Value,
    reader: &R,
) -> Result<(S::Range, S::Value), ReadError<E>>
    requires { R.is_ready reader.now }
    ensures ok { IfOk result (λ pair. IsStorable S.Kind.kind pair.0
        × IsRead S.Kind.kind (R.reader reader.now) pair entry.now) }
    ensures err { IfErr result (IsEntryFault S.Kind.kind (R.reader reader.now) at entry.now) }
{
    let Some((start, end, value)) = reader.parts(entry) else {
        return Err(ReadError::BadEntry { at });
    };
    let start = match reader.key(start) {
        Ok(key) => key,
        Err(fault) => {
            let part = Part::Start;
            return Err(ReadError::BadKey { at, part, fault });
        }
    };
    let end = match reader.key(end) {
        Ok(key) => key,
        Err(fault) => {
            let part = Part::End;
            return Err(ReadError::BadKey { at, part, fault });
        }
    };
    let value = match reader.value(value) {
        Ok(value) => value,
        Err(fault) => return Err(ReadError::BadValue { at, fault }),
    };
    let Some(range) = S::Range::between(start, end) else {
        return Err(ReadError::EmptyRange { at });
    };
    known_ends::<S::Kind, S::Range>(&range);
    Ok((range, value))
}

// Refuses the pair where the form doesn't let it stand behind the last that is stored.
fn check_form<S: Store, E>(
    all: &S,
    form: Form,
    at: usize,
    range: &S::Range,
    value: &S::Value,
) -> Result<(), ReadError<E>>
    ensures ok { OnOk result (form ≡ CanonicalWord → (last : _) → EndsWith (S.pairs all.now) last
        → Follows S.Kind.kind S.Value.eq last (range.now, value.now)) }
    ensures err { IfErr result (λ error. (form ≡ CanonicalWord)
        × ((last : _) × EndsWith (S.pairs all.now) last
        × Breaks S.Kind.kind S.Value.eq at last (range.now, value.now) error)) }
{
    let Form::Canonical = form else {
        return Ok(());
    };
    let Some((last_range, last_value)) = all.last() else {
        return Ok(());
    };
    match S::Kind::touch_test(last_range, range) {
        Touch::Apart => Ok(()),
        Touch::Touching if *last_value != *value => Ok(()),
        Touch::Touching => Err(ReadError::Uncoalesced { at }),
        Touch::NotBefore => Err(ReadError::OutOfOrder { at }),
    }
}
