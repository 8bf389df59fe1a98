//! Laws: a map that is rebuilt from its pairs, or from its JSON form, is equal to the first one.
//!
//! The store of the map that is made is a type parameter of its own, so that the body can't hand
//! back the map that it was given. Clones are faithful, as for `insert`, and the functions of the
//! JSON form may be called with any key and any value.
ghost use Rattle.std.specs.Prelude.{◌≡◌, IfErr, IfOk, IsTrue, true};
ghost use Rattle.std.specs.Fn.{FnReturnsAt};
ghost use Rattle.rangemap_core.specs.Clones.{KeysCloneFaithfully, ValuesCloneFaithfully};
ghost use Rattle.rangemap_core.specs.Ranges.{same_pairs};
ghost use Rattle.rangemap_formats.specs.Json.{IsForm, IsReading, KeysReadBack, ReadsBack, RefusesToWrite, map_reader, map_writer};

use rangemap::map::Map;
use rangemap::{Form, ReadError, WriteError};
use rangemap_core::key_range::KeyRange;
use rangemap_core::kind::Kind;
use rangemap_core::store::{HandsOver, Store, StoreMut};
use serde_json::Value;
use std::alloc::{AllocError, Global};

/// `from_iter` of `into_iter` gives an equal map.
///
/// # Errors
///
/// An insert was refused.
pub fn from_iter_of_into_iter_is_equal<
    S: HandsOver,
    T: StoreMut<Range = S::Range, Value = S::Value, Kind = S::Kind> + Drop,
>(alloc: T::Alloc, map: Map<S>) -> Result<Map<T>, AllocError>
where
    S::Kind: Kind<S::Range, Steps = <S::Range as KeyRange>::Key>,
    requires faithful_keys { KeysCloneFaithfully S.Range.Key.is_clone S.Range.Key.cmp }
    requires faithful_values { ValuesCloneFaithfully S.Value.is_clone S.Value.eq }
    ensures { IfOk result (λ again. IsTrue (same_pairs S.Kind.kind S.Value.eq map again)) }
{
    Map::from_iter(alloc, map)
}

/// The functions that write a map's keys and values as JSON, and those that read them again.
#[derive(Drop)]
pub struct Functions<WK, WV, RK, RV> {
    /// Writes a key.
    pub write_key: WK,
    /// Writes a value.
    pub write_value: WV,
    /// Reads a key.
    pub read_key: RK,
    /// Reads a value.
    pub read_value: RV,
}

impl<WK, WV, RK, RV> Functions<WK, WV, RK, RV> {
    /// Writes the map, reads the value again in the given form, and returns the value and the new
    /// map. The law says that the new map is equal to the old one. It requires that the readers
    /// return keys and values equal to those that the writers got.
    ///
    /// # Errors
    ///
    /// A writer refused a part, or memory was refused. The readers refuse nothing of what was written.
    pub fn reading_what_was_written_is_equal<
        S: Store,
        T: StoreMut<Range = S::Range, Value = S::Value, Kind = S::Kind> + Drop,
        E,
        F: Drop,
    >(
        self,
        json_alloc: Global,
        alloc: T::Alloc,
        form: Form,
        map: &Map<S>,
    ) -> Result<(Value, Map<T>), WriteError<E>>
    where
        S::Kind: Kind<S::Range, Steps = <S::Range as KeyRange>::Key>,
        WK: Fn(&<S::Range as KeyRange>::Key) -> Result<Value, E>,
        WV: Fn(&S::Value) -> Result<Value, E>,
        RK: Fn(&Value) -> Result<<S::Range as KeyRange>::Key, F>,
        RV: Fn(&Value) -> Result<S::Value, F>,
        requires writes_keys { WK.IsAlwaysCallable self.write_key }
        requires writes_values { WV.IsAlwaysCallable self.write_value }
        requires reads_keys { RK.IsAlwaysCallable self.read_key }
        requires reads_values { RV.IsAlwaysCallable self.read_value }
        requires keys_read_back { KeysReadBack S.Kind.kind
            (FnReturnsAt WK.Fn self.write_key) (FnReturnsAt RK.Fn self.read_key) }
        requires values_read_back { ReadsBack (λ x y. S.Value.eq x y ≡ true)
            (FnReturnsAt WV.Fn self.write_value) (FnReturnsAt RV.Fn self.read_value) }
        requires faithful_keys { KeysCloneFaithfully S.Range.Key.is_clone S.Range.Key.cmp }
        requires faithful_values { ValuesCloneFaithfully S.Value.is_clone S.Value.eq }
        ensures written { IfOk result (λ made. IsForm S.Kind.kind
            (map_writer (FnReturnsAt WK.Fn self.write_key) (FnReturnsAt WV.Fn self.write_value))
            map.now made.0) }
        ensures read { IfOk result (λ made. IsReading S.Kind.kind
            (map_reader (FnReturnsAt RK.Fn self.read_key) (FnReturnsAt RV.Fn self.read_value))
            S.Value.eq form made.0 made.1) }
        ensures equal { IfOk result (λ made. IsTrue (same_pairs S.Kind.kind S.Value.eq map.now made.1)) }
        ensures refused { IfErr result (RefusesToWrite S.Kind.kind
            (map_writer (FnReturnsAt WK.Fn self.write_key) (FnReturnsAt WV.Fn self.write_value))
            map.now) }
    {
        map.known();
        let Functions {
            write_key,
            write_value,
            read_key,
            read_value,
        } = self;
        let value = map.to_value(json_alloc, write_key, write_value)?;
        match Map::from_value(alloc, form, &value, read_key, read_value) {
            Ok(again) => Ok((value, again)),
            // Two matches, because one would not show the proof that the error is another one.
            Err(error) => match error {
                ReadError::OutOfMemory => Err(WriteError::OutOfMemory),
                _ => unreachable!(),
            },
        }
    }
}
