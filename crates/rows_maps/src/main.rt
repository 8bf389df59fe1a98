//! Runs rows on maps over every store: `rows_maps FILE ..` reads the files and prints how many rows there
//! were for each container, and what differed. `random SEED COUNT` stands for a file of so many random rows.
//!
//! `any_steps` says what each word does to a map over any store, `own_steps` what those do that not
//! every map is asked, and `replays` reads the calls of a replay.
//! `stores` has the impls of maps over each store, since what lends its pairs is known of a store alone.
//! `runs` runs rows on them, `json` on those that are asked for their JSON form, and `containers` names
//! them all.
#![tactic(auto)]

mod any_steps;
mod containers;
mod json;
mod own_steps;
mod replays;
mod runs;
mod stores;

use rows_runner::{Family, Read, Report, Session, read_files, read_rows, tell};
use rows_text::Refusing;
use std::alloc::AllocError;
use std::io;
use std::process::ExitCode;

// Every word that maps know: the calls, and then the questions.
const WORDS: [&str; 38] = [
    "insert",
    "many",
    "remove",
    "clear",
    "clone",
    "new",
    "extend",
    "from_iter",
    "insert_pairs",
    "update",
    "holds",
    "at",
    "overlapping",
    "gaps",
    "iter",
    "equals",
    "len",
    "ends",
    "overlaps",
    "covers",
    "into_iter",
    "debug",
    "lines",
    "ascending",
    "hashed",
    "replay",
    "law",
    "append_all",
    "append_overlapping",
    "append_gaps",
    "collect_gaps",
    "segments",
    "run",
    "to_value",
    "from_value",
    "round_trips",
    "blocks",
    "refuse",
];

// Runs the rows on every map.
fn run_all(rt: &HostRuntime, read: &Read<'_>) -> Result<Report, AllocError> {
    let heap = Refusing::new(rt.alloc(), u64::MAX);
    let mut report = Report::new(rt.alloc());
    for line in &read.misread {
        report.misread(line)?;
    }
    let mut session = Session::new(&heap, read.rows.as_slice(), report)?;
    containers::run_maps(&heap, &mut session)?;
    containers::run_texts(&heap, &mut session)?;
    containers::run_closed_maps(&heap, &mut session)?;
    containers::run_closed_maps_of_keys(&heap, &mut session)?;
    containers::run_wide_maps(&heap, &mut session)?;
    containers::run_json(&heap, &mut session)?;
    containers::run_closed_json(&heap, &mut session)?;
    session.end(&WORDS)
}

fn serve(rt: &HostRuntime) -> io::Result<ExitCode> {
    let files = read_files(rt, Family::Maps)?;
    let read = read_rows(rt.alloc(), files.as_slice())?;
    let report = run_all(rt, &read)?;
    tell(rt, &report)
}

fn main(rt: HostRuntime) -> ExitCode {
    serve(&rt).unwrap_or(ExitCode::from(3))
}
