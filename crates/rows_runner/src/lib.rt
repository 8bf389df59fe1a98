//! Runs rows: lines of text, each some calls on a container, a question and its answer. TESTS.md has
//! their grammar.
//!
//! `file` reads the lines of files and `row` has the parts of a row; `words` says which subjects know a
//! word. `session` runs rows on one subject after another, by `runner`: `making` makes their calls,
//! `refusals` refuses memory, and `open` reads answers that leave a number open. `report` has what was
//! found. `program` is what the programs have in common.
//!
//! Of the subjects `any_container` has the one that is written once for maps and sets, and `json` those
//! that are asked for their JSON form. `random` writes random rows with their answers.
//!
//! A row that is answered otherwise, a line that is none, a word that no row has, a row for no
//! container, and a subject without a row are each reported.
#![tactic(auto)]

mod any_container;
mod file;
mod json;
mod making;
mod open;
mod program;
mod random;
mod refusals;
mod report;
mod row;
mod runner;
mod session;
mod words;

pub use any_container::AnyContainer;
pub use file::{File, Misread, Read};
pub use json::{JsonMap, JsonSet, JsonWord, MapRoundTrips, PartFault, SetRoundTrips};
pub use program::{read_files, read_rows, tell};
pub use random::{Family, random_rows};
pub use report::Report;
pub use row::Row;
pub use session::Session;
pub use words::{Group, Known};
