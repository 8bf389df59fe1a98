//! Histories of calls, and the rows that ask for what they leave.

use super::points::Points;
use super::scene::{Family, Scene};
use super::writer::Writer;
use std::alloc::{AllocError, Global};

/// Writes a number of rows, as they stand in a file. They are the same for the same seed.
pub fn random_rows(
    alloc: Global,
    family: Family,
    seed: u64,
    count: u64,
) -> Result<String, AllocError> {
    let mut text = String::new(alloc);
    let mut history = History {
        family,
        writer: Writer::new(alloc, family, seed),
        given: String::new(alloc),
        points: Points::new(),
        calls: 0,
        rows: 0,
    };
    for _ in 0..count {
        history.go_on(&mut text)?;
        history.write_row(&mut text)?;
    }
    Ok(text)
}

// A list of calls, of which more are given as rows are written.
#[derive(Drop)]
struct History {
    family: Family,
    writer: Writer,
    // The calls that were given, and what they leave.
    given: String,
    points: Points,
    // How many calls are yet to be given, and how many rows are written before that.
    calls: u64,
    rows: u64,
}

impl History {
    // Goes on to the next row: after some rows more calls are given, and once all were a new history is
    // begun.
    fn go_on(&mut self, text: &mut String) -> Result<(), AllocError> {
        if self.rows > 0 {
            self.rows = self.rows.saturating_sub(1);
            return Ok(());
        }
        if self.calls == 0 {
            self.begin(text)?;
        }
        self.rows = self.writer.chance.below(5);
        self.give(text)
    }

    // Begins a history of no call, on other containers.
    fn begin(&mut self, text: &mut String) -> Result<(), AllocError> {
        let writer = &mut self.writer;
        writer.scene = Scene::draw(self.family, &mut writer.chance);
        writer.is_long = writer.chance.is_one_of(4);
        self.calls = if writer.is_long {
            50 + writer.chance.below(251)
        } else {
            writer.chance.below(9)
        };
        self.given = String::new(*text.allocator());
        self.points = Points::new();
        write!(text, "for {}\n", self.writer.scene.containers)
    }

    // Gives some more calls, few of which are refused memory.
    fn give(&mut self, text: &mut String) -> Result<(), AllocError> {
        self.writer.is_given = true;
        let calls = self.calls.min(1 + self.writer.chance.below(16));
        self.calls = self.calls.saturating_sub(calls);
        self.draw_calls(calls)?;
        if !self.given.is_empty() && calls > 0 {
            self.given.push_str(", ")?;
        }
        self.given.push_str(self.writer.out.as_str())?;
        self.points = self.writer.points;
        write!(text, "given {}\n", self.given)
    }

    // Writes a row: up to three more calls, many of which are refused memory, and a question.
    fn write_row(&mut self, text: &mut String) -> Result<(), AllocError> {
        self.writer.is_given = false;
        let calls = self.writer.chance.below(4);
        self.draw_calls(calls)?;
        self.writer.out.push_str(" | ")?;
        self.writer.ask()?;
        write!(text, "{}\n", self.writer.out)
    }

    // Draws calls behind those that were given.
    fn draw_calls(&mut self, calls: u64) -> Result<(), AllocError> {
        self.writer.points = self.points;
        self.writer.out = String::new(*self.given.allocator());
        for number in 0..calls {
            if number > 0 {
                self.writer.out.push_str(", ")?;
            }
            self.writer.draw_call()?;
        }
        Ok(())
    }
}
