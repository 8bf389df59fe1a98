//! What rows are made of: the words of keys, values and ranges, a heap that refuses, and the trait
//! through which a container is changed and asked by text.
//!
//! `word` and `keys` say what a word means, `ranges` and `items` how ranges, pairs and what iterators
//! give are read and written; `list` divides a text, and `calls` reads the calls of replays.
//! `compared` puts containers in order and hashes them. `refusing` is an allocator that refuses a
//! request, and `memory` says where a container's requests begin to be refused. `subject` has the
//! trait, which builds on no other and names no type, so that a call through it costs the check next
//! to nothing.
//!
//! Nothing here names a container, so it is proved beside the library.
#![tactic(auto)]

mod calls;
mod compared;
mod fault;
mod items;
mod keys;
mod list;
mod memory;
mod plain;
mod ranges;
mod refusing;
mod subject;
mod tries;
mod word;

pub use calls::{change_of, place};
pub use compared::{Folding, are_ascending, are_hashed, hash_of};
pub use fault::Fault;
pub use items::{
    LentPairs, LentRanges, OwnPairs, OwnRanges, Shows, write_all, write_made, write_taken,
};
pub use keys::costly::Costly;
pub use keys::down::Down;
pub use keys::noted::Noted;
pub use keys::pairs::PairSteps;
pub use keys::signed::SignedSteps;
pub use list::{first_word, last_item, take_item};
pub use memory::{Heap, Memory, Text};
pub use ranges::{
    FromEnds, pair_of, pairs_of, query_of, range_of, ranges_of, write_found, write_found_range,
    write_pair, write_range,
};
pub use refusing::Refusing;
pub use subject::{Question, Subject};
pub use tries::Tries;
pub use word::{Plain, Word};
