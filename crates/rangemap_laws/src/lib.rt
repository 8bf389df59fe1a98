//! Laws: what holds of every container of `rangemap`, as contracts that the check has proved. Examples:
//! an insert made twice leaves what it leaves once, `a | b` equals `b | a`, and a map that is read back
//! from its JSON form is equal to the first one.
//!
//! To use a law, add this crate to your dependencies beside `rangemap`. If you need no law, leave it
//! out, and your check proves none.
//!
//! # Modules
//!
//! | Module | What its laws are about |
//! |---|---|
//! | `changes` | `insert` and `remove` |
//! | `overlaps` | `overlaps`, `overlapping` and `covers` |
//! | `gaps` | gaps and the keys that are covered |
//! | `comparisons` | `==`, order and hash |
//! | `sets` | the operators of sets, unions and intersections, subsets |
//! | `map_round_trips`, `set_round_trips` | containers that are rebuilt from their ranges, or from JSON |
//! | `texts` | debug texts |
//! | `iterators` | the end of an iterator |
//! | `runs` | runs of commands on two maps |
//! | `definitions` | what the words of contracts say of small lists |
//!
//! `commands` is no law. It has `run`, which runs a list of commands on any container.
//!
//! # How to read a law
//!
//! A function that takes containers makes the calls that its law speaks of, and its contract says what
//! they leave and return. A function that takes nothing states a fact about lists of ranges. Most laws
//! take any type with the trait `Container`: every map and set except those in `with_room`.
//!
//! A law needs what its calls need: ranges that are inserted or removed are not empty, and a clone
//! compares equal to its original. Its `requires` clauses say so.
//!
//! A law holds if all of its calls succeed. If one of several was refused, the calls before it were
//! made. The clauses say that each container is then as it was, or as one of its calls left it.
//!
//! A contract speaks of what is held, not of how often or in which order it was written. So a law
//! can't tell one insert from two equal ones, nor the order of two inserts that share no key; that
//! the calls are made, once and in their order, is read in the bodies.
#![tactic(auto)]

pub mod changes;
mod clones;
pub mod commands;
pub mod comparisons;
pub mod definitions;
pub mod gaps;
pub mod iterators;
pub mod map_round_trips;
pub mod overlaps;
pub mod runs;
pub mod set_round_trips;
pub mod sets;
pub mod texts;
