//! Random rows: calls, a question, and the answer of a model that knows what stands at each of 256 points.
//!
//! `points` is the model. `chance` draws numbers, which are the same for the same seed, and `scene` says
//! which containers rows are for. A `writer` writes ranges and scripts, `calls` calls, `questions` and
//! `refusals` what is asked, and `history` puts the rows together.

mod calls;
mod chance;
mod history;
mod points;
mod questions;
mod refusals;
mod scene;
mod scripts;
mod writer;

pub use history::random_rows;
pub use scene::Family;
