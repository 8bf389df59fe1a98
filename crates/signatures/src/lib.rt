//! Names every public item of `rangemap` and of `rangemap_laws`, from these two alone, and every call of
//! a container but those by which the library's crates make and read parts for one another: `over`,
//! `cursor`, `into_cursor`, `as_slice` and `new` of iterators other than `Union` and `Intersection`; the
//! methods of `Operator` and of both `Functions`; and a loop over `&map`, which wants the crate
//! `rangemap_maps` listed too.
//!
//! Each call is named once over any keys, values and allocators, with the types of what it takes and
//! gives: `maps`, `sets`, and `closed` for what steps change. The ten containers are aliases of two
//! structs, whose calls these are, so the others are named as types: `aliases` has what they are made
//! of, `items` what they give. Every call is made at two types of keys: `texts` at those that own memory,
//! `wide_maps` and `wide_sets` at closed ones of 64 bits. `widths` has what calls promise at given keys.
//! `with_room` names the calls of maps with room, and makes some at closed keys of 64 bits.
//! What a refused call answers is dropped, since at each `?` the check asks how all that is held then is
//! dropped. Laws, replays and what code over any container names are re-exports (`names`), which cost
//! nothing to prove.
#![tactic(auto)]

mod aliases;
mod closed;
mod items;
mod maps;
mod names;
mod root;
mod sets;
mod texts;
mod two;
mod wide_maps;
mod wide_sets;
mod widths;
mod with_room;
