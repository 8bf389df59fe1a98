//! The program from its arguments to its last answer.

mod runnable;

use crate::container::{ClosedMap, ClosedSet, HalfOpenMap, HalfOpenSet};
use crate::fault::{Cause, Fault};
use crate::lines::{Source, fetch};
use crate::target::Target;
use calendar::Calendar;
use runnable::Runnable;
use std::alloc::{Allocator, Global};
use std::io::{self, BufRead, BufReader, Read, Write};

/// Carries out the commands of `input` over the map, the set or the calendar that `args`, the words
/// after the program's name, ask for, and writes each answer to `output` before it reads the next line.
///
/// # Errors
///
/// Stops at the first fault. The answers of the lines before it are written then.
pub fn run<R: Read + Drop, W: Write + Drop>(
    alloc: Global,
    args: &[String],
    input: R,
    output: W,
) -> Result<(), Fault> {
    run_kind::<
        Global,
        HalfOpenMap<Global>,
        ClosedMap<Global>,
        HalfOpenSet<Global>,
        ClosedSet<Global>,
        R,
        W,
    >(alloc, alloc, args, input, output)
}

/// Does what `run` does in memory of `alloc`, but for that of JSON values: only a `Global` gives it,
/// and it comes from `json_alloc`.
///
/// The allocator is lent: a container holds its handle, and is to be of a size that fits into memory,
/// which nobody knows of one that holds an allocator of any size.
///
/// # Errors
///
/// As of `run`.
pub fn run_in<'a, A: Allocator, R: Read + Drop, W: Write + Drop>(
    alloc: &'a A,
    json_alloc: Global,
    args: &[String],
    input: R,
    output: W,
) -> Result<(), Fault> {
    run_kind::<
        &'a A,
        HalfOpenMap<&'a A>,
        ClosedMap<&'a A>,
        HalfOpenSet<&'a A>,
        ClosedSet<&'a A>,
        R,
        W,
    >(alloc, json_alloc, args, input, output)
}

// Does what `run_in` does, with the containers that are made in memory of an allocator `A`: the maps
// over half-open ranges and over closed ones, and the sets.
fn run_kind<
    A: Allocator + Copy,
    HalfOpenMap: Runnable<A>,
    ClosedMap: Runnable<A>,
    HalfOpenSet: Runnable<A>,
    ClosedSet: Runnable<A>,
    R: Read + Drop,
    W: Write + Drop,
>(alloc: A, json_alloc: Global, args: &[String], input: R, output: W) -> Result<(), Fault> {
    let [kind] = args else {
        return Err(Cause::Arguments.at(0));
    };
    match kind.as_str() {
        "map" => HalfOpenMap::run(alloc, json_alloc, input, output),
        "imap" => ClosedMap::run(alloc, json_alloc, input, output),
        "set" => HalfOpenSet::run(alloc, json_alloc, input, output),
        "iset" => ClosedSet::run(alloc, json_alloc, input, output),
        "cal" => <Calendar<A> as Runnable<A>>::run(alloc, json_alloc, input, output),
        _ => Err(Cause::Arguments.at(0)),
    }
}

// Carries out the commands of `input` over an empty map, set or calendar, as `run` does.
fn run_over<A: Allocator + Copy, T: Target<A>, R: Read + Drop, W: Write + Drop>(
    alloc: A,
    json_alloc: Global,
    input: R,
    mut output: W,
) -> Result<(), Fault> {
    let Ok(mut input) = BufReader::new(alloc, Source(input)) else {
        return Err(Cause::Memory.at(0));
    };
    let mut session: Session<A, T> = Session::new(alloc, json_alloc);
    for number in 1..=u64::MAX {
        match session.step(&mut input, &mut output) {
            Ok(true) => {}
            Ok(false) => return Ok(()),
            Err(cause) => return Err(cause.at(number)),
        }
    }
    // More lines than can be counted were read, and no end of the input was seen.
    Err(Cause::Stream.at(u64::MAX))
}

// What lines are carried out on, and room for a line and its answer that is used again for each line.
#[derive(Drop)]
struct Session<A: Allocator, T> {
    target: T,
    line: Vec<u8, A>,
    text: String<A>,
}

impl<A: Allocator + Copy, T: Target<A>> Session<A, T> {
    // Returns a session over an empty target, with no line yet.
    fn new(alloc: A, json_alloc: Global) -> Session<A, T> {
        Session {
            target: T::new(alloc, json_alloc),
            line: Vec::new(alloc),
            text: String::new(alloc),
        }
    }

    // Reads a line, carries out its command and writes the answer. Returns false where there is no line
    // left.
    fn step<R: BufRead, W: Write>(&mut self, input: &mut R, output: &mut W) -> Result<bool, Cause> {
        if !fetch(input, &mut self.line)? {
            return Ok(false);
        }
        self.text.clear();
        self.target.carry_out(&self.line, &mut self.text)?;
        write_out(output, self.text.as_bytes()).map_err(|_| Cause::Stream)?;
        Ok(true)
    }
}

// Writes the bytes, and sees that they arrive.
fn write_out<W: Write>(output: &mut W, bytes: &[u8]) -> io::Result<()> {
    if bytes.is_empty() {
        return Ok(());
    }
    output.write_all(bytes)?;
    output.flush()
}
