//! Tests of what no row of text can say.
//!
//! Containers: `macros` and `arrays` make them, also where memory is refused, and `allocators` tells
//! where they lie. `loops` go over what is lent, and `iterated` asks by a range that was iterated to its
//! end. `updates` gives the keys of a range new values that a closure makes. `room` changes a map that
//! was made with room. `json` reads long and deep values, and prints errors. `steps` lead from key to
//! key, and `refusing` asks the heap that counts requests.
//!
//! Laws, and how many keys a lookup looks at: `tallied` has keys and values that count what is asked of
//! them. `search` looks up such keys, and `comparisons` runs laws on such values. `texts` runs the laws
//! of texts.
//!
//! What stands on the library: `applications` makes each use of `examples` once. `calling` and `queries`
//! run the functions of `examples::calling`, which has the snippets of the documents. `dates` makes a
//! roster over dates of `jiff`, of which the library knows nothing. `workloads` runs each workload of
//! the bench.
//!
//! `checks` compares what was found with what is expected.
#![tactic(auto)]

#[cfg(test)]
mod allocators;
#[cfg(test)]
mod applications;
#[cfg(test)]
mod arrays;
#[cfg(test)]
mod calling;
#[cfg(test)]
mod checks;
#[cfg(test)]
mod comparisons;
#[cfg(test)]
mod dates;
#[cfg(test)]
mod iterated;
#[cfg(test)]
mod json;
#[cfg(test)]
mod loops;
#[cfg(test)]
mod macros;
#[cfg(test)]
mod queries;
#[cfg(test)]
mod refusing;
#[cfg(test)]
mod room;
#[cfg(test)]
mod search;
#[cfg(test)]
mod steps;
#[cfg(test)]
mod tallied;
#[cfg(test)]
mod texts;
#[cfg(test)]
mod updates;
#[cfg(test)]
mod workloads;
