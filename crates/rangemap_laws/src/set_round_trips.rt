//! Laws: a set that is rebuilt from its ranges, or from its JSON form, is equal to the first one.
//!
//! The store of the set that is made is a type parameter of its own, so that the body can't hand
//! back the set that it was given. Clones are faithful, as for `insert`, and the functions of the
//! JSON form may be called with any key and any value.
ghost use Rattle.std.specs.Prelude.{IfErr, IfOk, IsTrue};
ghost use Rattle.std.specs.Fn.{FnReturnsAt};
ghost use Rattle.rangemap.specs.Clones.{KeysCloneFaithfully};
ghost use Rattle.rangemap.specs.Json.{IsForm, IsReading, KeysReadBack, RefusesToWrite, set_reader, set_writer};
ghost use Rattle.rangemap.specs.Ranges.{same_ranges, unit_eq, with_unit};

use rangemap::set::Set;
use rangemap::{Form, ReadError, WriteError};
use rangemap_core::key_range::KeyRange;
use rangemap_core::kind::Kind;
use rangemap_core::store::{HandsOver, Store, StoreMut};
use serde_json::Value;
use std::alloc::{AllocError, Global};

/// `from_iter` of `into_iter` gives an equal set.
///
/// # Errors
///
/// An insert was refused.
pub fn from_iter_of_into_iter_is_equal<
    S: HandsOver + Store<Value = ()>,
    T: StoreMut<Range = S::Range, Value = (), Kind = S::Kind> + Drop,
>(alloc: T::Alloc, set: Set<S>) -> Result<Set<T>, AllocError>
where
    S::Kind: Kind<S::Range, Steps = <S::Range as KeyRange>::Key>,
    requires faithful_keys { KeysCloneFaithfully S.Range.Key.is_clone S.Range.Key.cmp }
    ensures { IfOk result (λ again. IsTrue (same_ranges S.Kind.kind set again)) }
{
    set.known();
    Set::from_iter(alloc, set)
}

/// The functions that write a set's keys as JSON, and read them again.
#[derive(Drop)]
pub struct Functions<WK, RK> {
    /// Writes a key.
    pub write_key: WK,
    /// Reads a key.
    pub read_key: RK,
}

impl<WK, RK> Functions<WK, RK> {
    /// Writes the set, reads the value again in the given form, and returns the value and the new
    /// set. The law says that the new set is equal to the old one. It requires that the reader
    /// returns keys equal to those that the writer got.
    ///
    /// # Errors
    ///
    /// The writer refused a key, or memory was refused. The reader refuses nothing of what was written.
    pub fn reading_what_was_written_is_equal<
        S: Store<Value = ()>,
        T: StoreMut<Range = S::Range, Value = (), Kind = S::Kind> + Drop,
        E,
        F: Drop,
    >(
        self,
        json_alloc: Global,
        alloc: T::Alloc,
        form: Form,
        set: &Set<S>,
    ) -> Result<(Value, Set<T>), WriteError<E>>
    where
        S::Kind: Kind<S::Range, Steps = <S::Range as KeyRange>::Key>,
        WK: Fn(&<S::Range as KeyRange>::Key) -> Result<Value, E>,
        RK: Fn(&Value) -> Result<<S::Range as KeyRange>::Key, F>,
        requires writes_keys { WK.IsAlwaysCallable self.write_key }
        requires reads_keys { RK.IsAlwaysCallable self.read_key }
        requires keys_read_back { KeysReadBack S.Kind.kind
            (FnReturnsAt WK.Fn self.write_key) (FnReturnsAt RK.Fn self.read_key) }
        requires faithful_keys { KeysCloneFaithfully S.Range.Key.is_clone S.Range.Key.cmp }
        ensures written { IfOk result
            (λ made. IsForm S.Kind.kind (set_writer (FnReturnsAt WK.Fn self.write_key))
            (with_unit S.Kind.kind set.now) made.0) }
        ensures read { IfOk result
            (λ made. IsReading S.Kind.kind (set_reader (FnReturnsAt RK.Fn self.read_key))
            (unit_eq S.Kind.kind) form made.0 (with_unit S.Kind.kind made.1)) }
        ensures equal { IfOk result (λ made. IsTrue (same_ranges S.Kind.kind set.now made.1)) }
        ensures refused { IfErr result (RefusesToWrite S.Kind.kind
            (set_writer (FnReturnsAt WK.Fn self.write_key)) (with_unit S.Kind.kind set.now)) }
    {
        set.known();
        let Functions {
            write_key,
            read_key,
        } = self;
        let value = set.to_value(json_alloc, write_key)?;
        match Set::from_value(alloc, form, &value, read_key) {
            Ok(again) => Ok((value, again)),
            // Two matches, because one would not show the proof that the error is another one.
            Err(error) => match error {
                ReadError::OutOfMemory => Err(WriteError::OutOfMemory),
                _ => unreachable!(),
            },
        }
    }
}
