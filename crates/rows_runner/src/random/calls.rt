//! Calls, drawn at random and made on the model.

use super::points::Points;
use super::writer::Writer;
use std::alloc::AllocError;

impl Writer {
    /// Draws a call, makes it, and writes it.
    pub fn draw_call(&mut self) -> Result<(), AllocError> {
        let times = if self.is_given { 40 } else { 3 };
        if self.chance.is_one_of(times) {
            self.out.push_str("refuse ")?;
        }
        // Few calls of a long history leave next to nothing of what there was.
        let times = if self.is_long { 12 } else { 3 };
        let name = if !self.scene.has_own_steps() || !self.chance.is_one_of(times) {
            self.any_call()
        } else if self.chance.is_one_of(times) {
            self.making_call()
        } else if self.chance.is_one_of(3) {
            "insert_pairs"
        } else {
            "extend"
        };
        self.make_call(name)
    }

    /// Returns the name of a call that every container has.
    pub fn any_call(&mut self) -> &'static str {
        match self.chance.below(200) {
            0..=129 => "insert",
            130..=184 => "remove",
            185..=198 => "clone",
            _ => "clear",
        }
    }

    /// Returns the name of a call that makes another container.
    pub fn making_call(&mut self) -> &'static str {
        match self.chance.below(8) {
            0..=2 if self.scene.is_set => "or",
            3 | 4 if self.scene.is_set => "and",
            5 => "new",
            _ => "from_iter",
        }
    }

    /// Makes a call of this name, and writes it.
    pub fn make_call(&mut self, name: &str) -> Result<(), AllocError> {
        self.out.push_str(name)?;
        match name {
            "insert" | "remove" => self.change(name),
            "clear" | "new" => {
                self.points = Points::new();
                Ok(())
            }
            "clone" => Ok(()),
            _ => self.change_by_list(name),
        }
    }

    // Makes a call that takes a range.
    fn change(&mut self, name: &str) -> Result<(), AllocError> {
        let mut piece = self.piece();
        if name == "remove" {
            piece.mark = 0;
        }
        self.points.put(piece);
        self.out.push(' ')?;
        self.write_piece(piece)
    }

    // Makes a call that takes a list.
    fn change_by_list(&mut self, name: &str) -> Result<(), AllocError> {
        let pieces = self.pieces()?;
        let listed = Points::new().with(pieces.as_slice());
        self.points = match name {
            "from_iter" => listed,
            "and" => self.points.common(&listed),
            _ => self.points.with(pieces.as_slice()),
        };
        self.write_list(pieces.as_slice())
    }
}
