//! How an entry of a map is laid out and how one of a set is, each with the functions of a caller.
ghost use Rattle.std.specs.Prelude.{◌≡◌, MatchOption, Some as SomeWord, ◌∷◌, []};
ghost use Rattle.serde_json.specs.declared.value.Value.{Value as Json};
ghost use Rattle.rangemap_formats.specs.Json.{list_of};

use super::WriteError;
use super::reading::ReadsParts;
use super::writing::WritesParts;
use rangemap_core::key_range::KeyRange;
use rangemap_core::store::Store;
use serde_json::Value;
use std::alloc::Global;

/// Reads the entries of a map, `[[start, end], value]`.
#[derive(Drop)]
pub struct MapReader<RK, RV> {
    /// Reads a key.
    pub read_key: RK,
    /// Reads a value.
    pub read_value: RV,
}

impl<
    S: Store,
    E,
    RK: Fn(&Value) -> Result<<S::Range as KeyRange>::Key, E>,
    RV: Fn(&Value) -> Result<S::Value, E>,
> ReadsParts<S, E> for MapReader<RK, RV> {
    ghost use Rattle.std.specs.Fn.{FnReturnsAt};
    ghost use Rattle.rangemap_formats.specs.Json.{map_reader};
    ghost use Rattle.rangemap_formats.specs.laws.Entries.{map_unambiguous};

    ghost reader = { λ it. map_reader (FnReturnsAt RK.Fn it.read_key) (FnReturnsAt RV.Fn it.read_value) };

    ghost is_ready = { λ it. RK.IsAlwaysCallable it.read_key × RV.IsAlwaysCallable it.read_value };

    ghost unambiguous = { λ it.
        map_unambiguous (FnReturnsAt RK.Fn it.read_key) (FnReturnsAt RV.Fn it.read_value) };

    fn parts<'a>(&self, entry: &'a Value) -> Option<(&'a Value, &'a Value, &'a Value)> {
        let (range, value) = two_of(entry)?;
        let (start, end) = two_of(range)?;
        Some((start, end, value))
    }

    fn key(&self, part: &Value) -> Result<<S::Range as KeyRange>::Key, E> {
        (self.read_key)(part)
    }

    fn value(&self, part: &Value) -> Result<S::Value, E> {
        (self.read_value)(part)
    }
}

/// Writes the entries of a map.
#[derive(Drop)]
pub struct MapWriter<WK, WV> {
    /// Writes a key.
    pub write_key: WK,
    /// Writes a value.
    pub write_value: WV,
}

impl<
    S: Store,
    E,
    WK: Fn(&<S::Range as KeyRange>::Key) -> Result<Value, E>,
    WV: Fn(&S::Value) -> Result<Value, E>,
> WritesParts<S, E> for MapWriter<WK, WV> {
    ghost use Rattle.std.specs.Fn.{FnReturnsAt};
    ghost use Rattle.rangemap_formats.specs.Json.{map_writer};

    ghost writer = { λ it. map_writer (FnReturnsAt WK.Fn it.write_key) (FnReturnsAt WV.Fn it.write_value) };

    ghost is_ready = { λ it. WK.IsAlwaysCallable it.write_key × WV.IsAlwaysCallable it.write_value };

    fn key(&self, key: &<S::Range as KeyRange>::Key) -> Result<Value, E> {
        (self.write_key)(key)
    }

    fn entry(&self, alloc: Global, range: Value, value: &S::Value) -> Result<Value, WriteError<E>> {
        match (self.write_value)(value) {
            Ok(part) => Ok(Value::Array(vec![in alloc; range, part]?)),
            Err(fault) => Err(WriteError::Caller(fault)),
        }
    }
}

/// Reads the entries of a set, `[start, end]`, as those of a map to the unit.
#[derive(Drop)]
pub struct SetReader<RK> {
    /// Reads a key.
    pub read_key: RK,
}

impl<S: Store<Value = ()>, E, RK: Fn(&Value) -> Result<<S::Range as KeyRange>::Key, E>> ReadsParts<
    S,
    E,
> for SetReader<RK> {
    ghost use Rattle.std.specs.Fn.{FnReturnsAt};
    ghost use Rattle.rangemap_formats.specs.Json.{set_reader};
    ghost use Rattle.rangemap_formats.specs.laws.Entries.{set_unambiguous};

    ghost reader = { λ it. set_reader (FnReturnsAt RK.Fn it.read_key) };

    ghost is_ready = { λ it. RK.IsAlwaysCallable it.read_key };

    ghost unambiguous = { λ it. set_unambiguous (FnReturnsAt RK.Fn it.read_key) };

    fn parts<'a>(&self, entry: &'a Value) -> Option<(&'a Value, &'a Value, &'a Value)> {
        let (start, end) = two_of(entry)?;
        Some((start, end, entry))
    }

    fn key(&self, part: &Value) -> Result<<S::Range as KeyRange>::Key, E> {
        (self.read_key)(part)
    }

    fn value(&self, _part: &Value) -> Result<(), E> {
        Ok(())
    }
}

/// Writes the entries of a set.
#[derive(Drop)]
pub struct SetWriter<WK> {
    /// Writes a key.
    pub write_key: WK,
}

impl<S: Store<Value = ()>, E, WK: Fn(&<S::Range as KeyRange>::Key) -> Result<Value, E>> WritesParts<
    S,
    E,
> for SetWriter<WK> {
    ghost use Rattle.std.specs.Fn.{FnReturnsAt};
    ghost use Rattle.rangemap_formats.specs.Json.{set_writer};

    ghost writer = { λ it. set_writer (FnReturnsAt WK.Fn it.write_key) };

    ghost is_ready = { λ it. WK.IsAlwaysCallable it.write_key };

    fn key(&self, key: &<S::Range as KeyRange>::Key) -> Result<Value, E> {
        (self.write_key)(key)
    }

    fn entry(&self, _alloc: Global, range: Value, _value: &()) -> Result<Value, WriteError<E>> {
        Ok(range)
    }
}

// The items of a list of exactly two.
fn two_of<'a>(value: &'a Value) -> Option<(&'a Value, &'a Value)>
    ensures { MatchOption result
        ((first second : Json) → list_of value.now ≡ SomeWord (first ∷ second ∷ []) → ⊥)
        (λ parts. list_of value.now ≡ SomeWord (parts.0.now ∷ parts.1.now ∷ [])) }
{
    let Value::Array(items) = value else {
        return None;
    };
    match items.as_slice() {
        [first, second] => Some((first, second)),
        _ => None,
    }
}
