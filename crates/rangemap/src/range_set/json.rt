//! The JSON form of a set.
ghost use Rattle.std.specs.Prelude.{◌≡◌, [], IfErr, IfOk, IsOk, Some as SomeWord};
ghost use Rattle.std.specs.Fn.{FnReturnsAt};
ghost use Rattle.rangemap.specs.Clones.{KeysCloneFaithfully};
ghost use Rattle.rangemap.specs.Json.{IsForm, IsReading, IsRefusedForMemoryAlone, RefusesToRead, RefusesToWrite, list_of, set_reader, set_writer};
ghost use Rattle.rangemap.specs.Ranges.{unit_eq, with_unit};

use super::Set;
use rangemap_core::key_range::KeyRange;
use rangemap_core::kind::Kind;
use rangemap_core::store::{Store, StoreMut};
use rangemap_formats::json::{Form, ReadError, SetReader, SetWriter, WriteError, read, write};
use serde_json::Value;
use std::alloc::Global;
use std::marker::PhantomData;

impl<S: Store<Value = ()>> Set<S> {
    /// Returns the JSON form of the set: the list of `[start, end]` of its ranges, in order, each
    /// key as the caller's function writes it, in memory of `alloc`.
    ///
    /// The start is written before the end, range by range.
    ///
    /// # Requires
    ///
    /// The function may be called with any key.
    ///
    /// # Errors
    ///
    /// `Caller` has the error of the function for the first key that it refused. `OutOfMemory` says that
    /// memory for the value was refused.
    ///
    /// # Examples
    ///
    /// ```text
    /// let set = RangeSet::from(alloc, [0..100u32, 200..300])?;
    /// set.to_value(alloc, |number| Ok(Value::from(*number)))? // [[0,100],[200,300]]
    /// ```
    pub fn to_value<E, WK: Fn(&<S::Range as KeyRange>::Key) -> Result<Value, E>>(
        &self,
        alloc: Global,
        write_key: WK,
    ) -> Result<Value, WriteError<E>>
        requires keys { WK.IsAlwaysCallable write_key }
        ensures ok { IfOk result (IsForm S.Kind.kind (set_writer (FnReturnsAt WK.Fn write_key))
            (with_unit S.Kind.kind self.now)) }
        ensures err { IfErr result (RefusesToWrite S.Kind.kind
            (set_writer (FnReturnsAt WK.Fn write_key)) (with_unit S.Kind.kind self.now)) }
    {
        let writer = SetWriter { write_key };
        write(alloc, &self.stored, writer)
    }
}

impl<S: StoreMut<Value = ()> + Drop> Set<S>
where
    S::Kind: Kind<S::Range, Steps = <S::Range as KeyRange>::Key>,
{
    /// Returns the set that a value of the JSON form stands for: the ranges that the caller's
    /// function reads of its entries, inserted in order, in memory of `alloc`.
    ///
    /// With `Form::Any` entries may overlap, touch and stand in any order. With `Form::Canonical`
    /// the ranges must be a canonical list; otherwise the call returns an error. Suppose that the
    /// function reads a part to equal results each time. Then a value that is valid in the chosen
    /// form is refused only if memory runs out.
    ///
    /// # Requires
    ///
    /// The function may be called with any value, and a clone of a key compares equal to its
    /// original.
    ///
    /// # Errors
    ///
    /// The call returns the first fault, and no set. `NotAList` says that the value is no list.
    /// Otherwise the entries are read one after another, and each is tested in this order:
    ///
    /// 1. its shape (`BadEntry`),
    /// 2. its start and end (`BadKey`),
    /// 3. that its range is not empty (`EmptyRange`),
    /// 4. with `Form::Canonical`, that it lies behind the entry before it (`OutOfOrder`),
    /// 5. with `Form::Canonical`, that it does not touch that entry (`Uncoalesced`),
    /// 6. its insert (`OutOfMemory`).
    ///
    /// A half-open range is empty if its start is not less than its end, a closed one if its start
    /// is greater. An empty list is never refused.
    ///
    /// # Examples
    ///
    /// ```text
    /// // of [[0,5],[5,10]]
    /// RangeSet::from_value(alloc, Form::Any, &value, read_number)
    /// // Ok: {0..10}
    /// RangeSet::from_value(alloc, Form::Canonical, &value, read_number)
    /// // Err(ReadError::Uncoalesced { at: 1 })
    /// ```
    pub fn from_value<E, RK: Fn(&Value) -> Result<<S::Range as KeyRange>::Key, E>>(
        alloc: S::Alloc,
        form: Form,
        value: &Value,
        read_key: RK,
    ) -> Result<Self, ReadError<E>>
        requires keys { RK.IsAlwaysCallable read_key }
        requires faithful_keys { KeysCloneFaithfully S.Range.Key.is_clone S.Range.Key.cmp }
        ensures ok { IfOk result
            (λ all. IsReading S.Kind.kind (set_reader (FnReturnsAt RK.Fn read_key))
            (unit_eq S.Kind.kind) form value.now (with_unit S.Kind.kind all)) }
        ensures err { IfErr result (RefusesToRead S.Kind.kind
            (set_reader (FnReturnsAt RK.Fn read_key)) (unit_eq S.Kind.kind) form value.now) }
        ensures exact { IfErr result (IsRefusedForMemoryAlone S.Kind.kind
            (set_reader (FnReturnsAt RK.Fn read_key)) (unit_eq S.Kind.kind) form value.now) }
        ensures of_nothing { list_of value.now ≡ SomeWord [] → IsOk result }
    {
        let reader = SetReader { read_key };
        let stored = read(alloc, form, value, &reader)?;
        Ok(Set {
            stored,
            borrows: PhantomData,
        })
    }
}
