//! What programs that run rows have in common: they read files, and print what was found.

use crate::file::{File, Read};
use crate::random::{Family, random_rows};
use crate::report::Report;
use std::alloc::{AllocError, Global};
use std::process::ExitCode;
use std::rt::{Env, Files};
use std::{env, fs, io};

/// Reads the files that the arguments name. `random`, a seed and a number stand for a file of so many
/// random rows.
pub fn read_files<R: AllocGlobal + Env + Files>(rt: &R, family: Family) -> io::Result<Vec<File>> {
    let words: Vec<String> = env::args(rt)?.skip(1).collect(rt.alloc())?;
    let mut files = Vec::new(rt.alloc());
    // The first word that is not a seed or a number of rows.
    let mut next = 0;
    for (place, name) in words.iter().enumerate() {
        if place >= next {
            let seed = words.get(place.saturating_add(1));
            let file = match (seed, words.get(place.saturating_add(2))) {
                (Some(seed), Some(count)) if name.as_str() == "random" => {
                    next = place.saturating_add(3);
                    random_file(rt.alloc(), family, seed.as_str(), count.as_str())?
                }
                _ => read_file(rt, name.as_str())?,
            };
            files.push(file)?;
        }
    }
    Ok(files)
}

// Reads a file.
fn read_file<R: AllocGlobal + Files>(rt: &R, name: &str) -> io::Result<File> {
    Ok(File {
        name: String::from_str(rt.alloc(), name)?,
        text: fs::read_to_string(rt, name)?,
    })
}

// Writes a file of random rows. One whose numbers cannot be read has a line that is none.
fn random_file(alloc: Global, family: Family, seed: &str, count: &str) -> Result<File, AllocError> {
    let name = format!(in alloc; "random {seed} {count}")?;
    let text = match (seed.parse::<u64>(), count.parse::<u64>()) {
        (Ok(seed), Ok(count)) => random_rows(alloc, family, seed, count)?,
        _ => String::from_str(alloc, "random takes a seed and a number of rows")?,
    };
    Ok(File { name, text })
}

/// Reads the rows of files.
pub fn read_rows<'t>(alloc: Global, files: &'t [File]) -> Result<Read<'t>, AllocError> {
    let mut read = Read::new(alloc);
    for file in files {
        read.add(file)?;
    }
    Ok(read)
}

/// Prints what was found. The status is 0 if all rows were read, and answered as they say, else 1.
pub fn tell<R: Print>(rt: &R, report: &Report) -> io::Result<ExitCode> {
    print!(rt; "{}", report.text())?;
    if report.is_good() {
        Ok(ExitCode::SUCCESS)
    } else {
        Ok(ExitCode::FAILURE)
    }
}
