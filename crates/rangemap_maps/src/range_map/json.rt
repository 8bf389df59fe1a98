//! The JSON form of a map.
ghost use Rattle.std.specs.Prelude.{◌≡◌, [], IfErr, IfOk, IsOk, Some as SomeWord};
ghost use Rattle.std.specs.Fn.{FnReturnsAt};
ghost use Rattle.rangemap_core.specs.Clones.{KeysCloneFaithfully, ValuesCloneFaithfully};
ghost use Rattle.rangemap_formats.specs.Json.{IsForm, IsReading, IsRefusedForMemoryAlone, RefusesToRead, RefusesToWrite, list_of, map_reader, map_writer};

use super::Map;
use rangemap_core::key_range::KeyRange;
use rangemap_core::kind::Kind;
use rangemap_core::store::{Store, StoreMut};
use rangemap_formats::json::{Form, MapReader, MapWriter, ReadError, WriteError, read, write};
use serde_json::Value;
use std::alloc::Global;
use std::marker::PhantomData;

impl<S: Store> Map<S> {
    /// Returns the JSON form of the map: the list of `[[start, end], value]` of its pairs, in
    /// order, each part as the caller's functions write it, in memory of `alloc`.
    ///
    /// The parts are written in the order start, end, value, pair by pair.
    ///
    /// # Requires
    ///
    /// The functions may be called with any key and any value.
    ///
    /// # Errors
    ///
    /// `Caller` has the error that the caller's function returned for the first part that it
    /// refused. `OutOfMemory` says that memory for the value was refused.
    ///
    /// # Examples
    ///
    /// ```text
    /// let map = RangeMap::from(alloc, [(0..100u32, 7u32), (200..300, 8)])?;
    /// let write = |number: &u32| Ok(Value::from(*number));
    /// let value = map.to_value(alloc, write, write)?; // [[[0,100],7],[[200,300],8]]
    /// ```
    pub fn to_value<
        E,
        WK: Fn(&<S::Range as KeyRange>::Key) -> Result<Value, E>,
        WV: Fn(&S::Value) -> Result<Value, E>,
    >(&self, alloc: Global, write_key: WK, write_value: WV) -> Result<Value, WriteError<E>>
        requires keys { WK.IsAlwaysCallable write_key }
        requires values { WV.IsAlwaysCallable write_value }
        ensures ok { IfOk result (IsForm S.Kind.kind
            (map_writer (FnReturnsAt WK.Fn write_key) (FnReturnsAt WV.Fn write_value)) self.now) }
        ensures err { IfErr result (RefusesToWrite S.Kind.kind
            (map_writer (FnReturnsAt WK.Fn write_key) (FnReturnsAt WV.Fn write_value)) self.now) }
    {
        let writer = MapWriter {
            write_key,
            write_value,
        };
        write(alloc, &self.stored, writer)
    }
}

impl<S: StoreMut + Drop> Map<S>
where
    S::Kind: Kind<S::Range, Steps = <S::Range as KeyRange>::Key>,
{
    /// Returns the map that a value of the JSON form stands for: the pairs that the caller's
    /// functions read of its entries, inserted in order, in memory of `alloc`.
    ///
    /// With `Form::Any` entries may overlap and stand in any order. With `Form::Canonical` the
    /// pairs must be a canonical list; otherwise the call returns an error. Suppose that the
    /// functions read a part to equal results each time. Then a value that is valid in the chosen
    /// form is refused only if memory runs out.
    ///
    /// # Requires
    ///
    /// The functions may be called with any value, and clones are faithful, as for `insert`.
    ///
    /// # Errors
    ///
    /// The call returns the first fault, and no map. `NotAList` says that the value is no list.
    /// Otherwise the entries are read one after another, and each is tested in this order:
    ///
    /// 1. its shape (`BadEntry`),
    /// 2. its start and end (`BadKey`),
    /// 3. its value (`BadValue`),
    /// 4. that its range is not empty (`EmptyRange`),
    /// 5. with `Form::Canonical`, that it lies behind the entry before it (`OutOfOrder`),
    /// 6. with `Form::Canonical`, that it does not touch that entry with an equal value
    ///    (`Uncoalesced`),
    /// 7. its insert (`OutOfMemory`).
    ///
    /// A half-open range is empty if its start is not less than its end, a closed one if its start
    /// is greater. An empty list is never refused.
    ///
    /// # Examples
    ///
    /// ```text
    /// // of [[[0,10],"a"],[[3,6],"b"]]
    /// RangeMap::from_value(alloc, Form::Any, &value, read_number, read_text)
    /// // Ok: (0..3, "a"), (3..6, "b"), (6..10, "a")
    /// RangeMap::from_value(alloc, Form::Canonical, &value, read_number, read_text)
    /// // Err(ReadError::OutOfOrder { at: 1 })
    /// ```
    pub fn from_value<
        E,
        RK: Fn(&Value) -> Result<<S::Range as KeyRange>::Key, E>,
        RV: Fn(&Value) -> Result<S::Value, E>,
    >(
        alloc: S::Alloc,
        form: Form,
        value: &Value,
        read_key: RK,
        read_value: RV,
    ) -> Result<Self, ReadError<E>>
        requires keys { RK.IsAlwaysCallable read_key }
        requires values { RV.IsAlwaysCallable read_value }
        requires faithful_keys { KeysCloneFaithfully S.Range.Key.is_clone S.Range.Key.cmp }
        requires faithful_values { ValuesCloneFaithfully S.Value.is_clone S.Value.eq }
        ensures ok { IfOk result (IsReading S.Kind.kind
            (map_reader (FnReturnsAt RK.Fn read_key) (FnReturnsAt RV.Fn read_value))
            S.Value.eq form value.now) }
        ensures err { IfErr result (RefusesToRead S.Kind.kind
            (map_reader (FnReturnsAt RK.Fn read_key) (FnReturnsAt RV.Fn read_value))
            S.Value.eq form value.now) }
        ensures exact { IfErr result (IsRefusedForMemoryAlone S.Kind.kind
            (map_reader (FnReturnsAt RK.Fn read_key) (FnReturnsAt RV.Fn read_value))
            S.Value.eq form value.now) }
        ensures of_nothing { list_of value.now ≡ SomeWord [] → IsOk result }
    {
        let reader = MapReader {
            read_key,
            read_value,
        };
        let stored = read(alloc, form, value, &reader)?;
        Ok(Map {
            stored,
            borrows: PhantomData,
        })
    }
}
