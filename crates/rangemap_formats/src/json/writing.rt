//! Writing the pairs of a store as the value of its JSON form.
ghost use Rattle.std.specs.Prelude.{◌≡◌, ◌∷◌, [], Err as ErrWord, IfErr, IfOk, Ok as OkWord, Some as SomeWord};
ghost use Rattle.serde_json.specs.declared.value.Value.{Value as Json};
ghost use Rattle.rangemap_formats.specs.Json.{CallerOr, IsForm, RefusesToWrite, Writer, list_of};

use super::WriteError;
use rangemap_core::cursor::Cursor;
use rangemap_core::key_range::KeyRange;
use rangemap_core::reader::Reader;
use rangemap_core::store::Store;
use serde_json::Value;
use std::alloc::Global;
use std::marker::PhantomData;

/// What writes the parts of an entry of a store, with faults of type `E`.
pub(crate) trait WritesParts<S: Store, E>: Drop {
    /// What it may answer.
    ghost writer: { Self → Writer S.Range.Key S.Value E };

    /// What the caller sees to.
    ghost is_ready: { Self → Type 0 };

    /// Writes a key.
    fn key(&self, key: &<S::Range as KeyRange>::Key) -> Result<Value, E>
        requires { is_ready self.now }
        ensures { (writer self.now).key key.now result };

    /// Writes a value, where there is one to write, and lays it out as an entry behind its range,
    /// `[start, end]`. The entry's memory comes from `alloc`.
    fn entry(&self, alloc: Global, range: Value, value: &S::Value) -> Result<Value, WriteError<E>>
        requires { is_ready self.now }
        ensures ok { IfOk result
            (λ entry. (start end : Json) → list_of range ≡ SomeWord (start ∷ end ∷ [])
            → (part : Json) × (writer self.now).value value.now (OkWord part)
            × (writer self.now).shape entry start end part) }
        ensures err { IfErr result (CallerOr (λ fault. (writer self.now).value value.now (ErrWord fault))) };
}

/// Returns the JSON form of a store, the list of the entries of its pairs. The parts are written in the
/// order start, end, value, pair by pair.
///
/// # Requires
///
/// The writer's functions may be called with any key and any value.
///
/// # Errors
///
/// `Caller` has what was answered where a part was refused, the first one refused. `OutOfMemory` says
/// that memory for the value was refused.
pub fn write<S: Store, E, W: WritesParts<S, E>>(
    alloc: Global,
    stored: &S,
    writer: W,
) -> Result<Value, WriteError<E>>
    requires { W.is_ready writer }
    ensures ok { IfOk result (IsForm S.Kind.kind (W.writer writer) (S.pairs stored.now)) }
    ensures err { IfErr result (RefusesToWrite S.Kind.kind (W.writer writer) (S.pairs stored.now)) }
{
    stored.read::<Entries<S, E, W>>(&mut (alloc, writer))
}

// Makes the list of the entries of the pairs that it reads.
struct Entries<S, E, W>(PhantomData<(S, E, W)>);

impl<S: Store, E, W: WritesParts<S, E>> Reader<S::Range, S::Value> for Entries<S, E, W> {
    ghost use Rattle.std.specs.Prelude.{IfErr, IfOk};
    ghost use Rattle.rangemap_formats.specs.Json.{IsForm, RefusesToWrite};

    type State = (Global, W);

    type Answer = Result<Value, WriteError<E>>;

    ghost may_read = { λ _ state. W.is_ready state.1 };

    ghost reads = { λ pairs state result _.
        IfOk result (IsForm S.Kind.kind (W.writer state.1) pairs)
        × IfErr result (RefusesToWrite S.Kind.kind (W.writer state.1) pairs) };

    fn read<C: Cursor<Range = S::Range, Value = S::Value, Given: Drop, GivenValue: Drop>>(
        pairs: C,
        state: &mut (Global, W),
    ) -> Result<Value, WriteError<E>> {
        let (alloc, writer) = (state.0, &state.1);
        let mut entries = Vec::new(alloc);
        let mut rest = pairs;
        'pairs: while let Some(pair) = rest.take_first() {
            let (range, value) = C::parts(&pair);
            let start = match writer.key(range.start()) {
                Ok(part) => part,
                Err(fault) => return Err(WriteError::Caller(fault)),
            };
            let end = match writer.key(range.end()) {
                Ok(part) => part,
                Err(fault) => return Err(WriteError::Caller(fault)),
            };
            let range = Value::Array(vec![in alloc; start, end]?);
            let entry = writer.entry(alloc, range, value)?;
            entries.push(entry)?;
        }
        Ok(Value::Array(entries))
    }
}
