//! Questions, drawn at random and answered by the model.

use super::points::{Piece, Points};
use super::scene::Asked;
use super::writer::Writer;
use std::alloc::AllocError;

impl Writer {
    /// Draws a question, and writes it with a bar and its answer. One of four that make what they answer
    /// is refused memory.
    pub fn ask(&mut self) -> Result<(), AllocError> {
        if matches!(self.scene.asked, Asked::Memory) && !self.chance.is_one_of(3) {
            return self.ask_memory();
        }
        let name = self.question();
        let is_made = matches!(name, "gaps" | "union" | "intersection");
        let is_refused = is_made && self.chance.is_one_of(4);
        if is_refused {
            self.out.push_str("refuse ")?;
        }
        self.out.push_str(name)?;
        let items = self.items(name)?;
        match name {
            _ if is_refused => {
                self.out.push_str(" | ? + ?: ")?;
                self.write_pieces(items.as_slice(), ", ")
            }
            "overlapping" | "gaps" | "union" | "intersection" | "iter" | "into_iter" => {
                self.answer_script(name, items.as_slice(), is_made)
            }
            _ => self.answer(name, items.as_slice()),
        }
    }

    // Draws the name of a question.
    fn question(&mut self) -> &'static str {
        match (self.scene.asked, self.chance.below(16)) {
            (Asked::AnyContainer, 0 | 1) => "append_all",
            (Asked::AnyContainer, 2..=4) => "append_overlapping",
            (Asked::AnyContainer, 5 | 6) => "append_gaps",
            (Asked::AnySteps, 0 | 1) => "overlapping",
            (Asked::AnySteps, 2 | 3) => "gaps",
            (Asked::AnySteps, 4) if self.scene.is_set => "union",
            (Asked::AnySteps, 5) if self.scene.is_set => "intersection",
            (Asked::OwnSteps, 6) => "into_iter",
            (_, 7) => "at",
            (_, 8) => "overlaps",
            (_, 9) => "iter",
            (_, 10) => "equals",
            _ => "holds",
        }
    }

    // Writes what a question is given, and returns the pieces that it is about.
    fn items(&mut self, name: &str) -> Result<Vec<Piece>, AllocError> {
        match name {
            "at" => self.items_at_key(),
            "overlapping" | "overlaps" | "gaps" | "append_overlapping" | "append_gaps" => {
                self.items_in_range(name)
            }
            "union" | "intersection" => self.items_of_two(name),
            "equals" => self.items_to_compare(),
            _ => self.points.pieces(self.alloc()),
        }
    }

    fn items_at_key(&mut self) -> Result<Vec<Piece>, AllocError> {
        let start = self.point();
        let end = start.saturating_add(1);
        self.out.push(' ')?;
        self.write_key(start)?;
        let key = Piece {
            start,
            end,
            mark: 0,
        };
        self.points.overlapping(key, self.alloc())
    }

    fn items_in_range(&mut self, name: &str) -> Result<Vec<Piece>, AllocError> {
        let query = self.query();
        self.out.push(' ')?;
        self.write_piece(query)?;
        if name.ends_with("gaps") {
            self.points.free(query).pieces(self.alloc())
        } else {
            self.points.overlapping(query, self.alloc())
        }
    }

    fn items_of_two(&mut self, name: &str) -> Result<Vec<Piece>, AllocError> {
        let pieces = self.pieces()?;
        let other = Points::new().with(pieces.as_slice());
        self.out.push(' ')?;
        self.write_pieces(pieces.as_slice(), ", ")?;
        if name == "union" {
            self.points.union(&other, self.alloc())
        } else {
            self.points.common(&other).pieces(self.alloc())
        }
    }

    // The same as there is, or what differs in a range.
    fn items_to_compare(&mut self) -> Result<Vec<Piece>, AllocError> {
        let mut other = self.points;
        if self.chance.is_one_of(2) {
            other.put(self.piece());
        }
        let pieces = other.pieces(self.alloc())?;
        self.out.push(' ')?;
        self.write_pieces(pieces.as_slice(), ", ")?;
        Ok(pieces)
    }

    // Writes a script, and what it takes of items.
    fn answer_script(
        &mut self,
        name: &str,
        items: &[Piece],
        is_made: bool,
    ) -> Result<(), AllocError> {
        let is_counted = name.ends_with("iter");
        let script = self.draw_script(is_made)?;
        if !script.is_empty() {
            self.out.push_str(if is_counted { " " } else { "; " })?;
        }
        write!(self.out, "{script} | ")?;
        self.write_taken(items, script.as_str(), is_counted)
    }

    // Writes the answer about some items.
    fn answer(&mut self, name: &str, items: &[Piece]) -> Result<(), AllocError> {
        match name {
            "overlaps" => write!(self.out, " | {}", !items.is_empty()),
            "equals" => {
                let pieces = self.points.pieces(self.alloc())?;
                write!(self.out, " | {}", items == pieces.as_slice())
            }
            "at" | "holds" => {
                self.out.push_str(" | ")?;
                self.write_pieces(items, ", ")
            }
            _ => self.answer_append(name, items),
        }
    }

    // Writes a list, and it again with some items behind it.
    fn answer_append(&mut self, name: &str, items: &[Piece]) -> Result<(), AllocError> {
        let mut list = self.pieces()?;
        if name == "append_gaps" {
            for range in list.iter_mut() {
                range.mark = 4;
            }
        }
        self.write_list(list.as_slice())?;
        list.extend_from_slice(items)?;
        self.out.push_str(" | ")?;
        self.write_pieces(list.as_slice(), ", ")
    }
}
