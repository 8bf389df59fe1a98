//! What rows are drawn from, and how their ranges are written.

use super::chance::Chance;
use super::points::{Piece, Points};
use super::scene::{Family, Scene};
use std::alloc::{AllocError, Global};

/// What rows are drawn from, and what was written of one.
#[derive(Drop)]
pub struct Writer {
    /// What is left to chance.
    pub chance: Chance,
    /// The containers.
    pub scene: Scene,
    /// Whether there are a great many calls.
    pub is_long: bool,
    /// Whether calls are given, not those of a row: few of them are refused memory, and some take many
    /// ranges.
    pub is_given: bool,
    /// What the calls leave.
    pub points: Points,
    /// What was written.
    pub out: String,
}

impl Writer {
    /// Returns the writer of a seed.
    pub fn new(alloc: Global, family: Family, seed: u64) -> Writer {
        let mut chance = Chance::new(seed);
        let scene = Scene::draw(family, &mut chance);
        Writer {
            chance,
            scene,
            is_long: false,
            is_given: false,
            points: Points::new(),
            out: String::new(alloc),
        }
    }

    /// Returns where lists take their memory from.
    pub fn alloc(&self) -> Global {
        *self.out.allocator()
    }

    /// Draws a point that a range can have. The last one is for closed ranges alone.
    pub fn point(&mut self) -> u16 {
        if self.scene.is_closed {
            self.chance.below(256) as u16
        } else {
            self.chance.below(255) as u16
        }
    }

    /// Draws a piece. Many have few points, in a long history almost all.
    pub fn piece(&mut self) -> Piece {
        let most = match (self.is_long, self.chance.below(8)) {
            (true, 0) => 12,
            (true, _) => 2,
            (false, 0) => 255,
            (false, 1..=3) => 24,
            (false, _) => 6,
        };
        let start = self.point();
        let end = start.saturating_add(1 + self.chance.below(most) as u16);
        Piece {
            start,
            end: end.min(if self.scene.is_closed { 256 } else { 255 }),
            mark: if self.scene.is_set {
                4
            } else {
                1 + self.chance.below(3) as u8
            },
        }
    }

    /// Draws up to four of these, or now and then many.
    pub fn pieces(&mut self) -> Result<Vec<Piece>, AllocError> {
        let most = match (self.is_long && self.is_given, self.chance.below(4)) {
            (true, 0) => 40,
            _ => 5,
        };
        let mut pieces = Vec::new(self.alloc());
        for _ in 0..self.chance.below(most) {
            pieces.push(self.piece())?;
        }
        Ok(pieces)
    }

    /// Draws the range of a query, which may hold no point, and may be reversed.
    pub fn query(&mut self) -> Piece {
        let mut query = self.piece();
        query.mark = 0;
        if self.chance.is_one_of(2) {
            query.end = self.point().saturating_add(u16::from(self.scene.is_closed));
        }
        query
    }

    /// Writes a key.
    pub fn write_key(&mut self, key: u16) -> Result<(), AllocError> {
        if self.scene.is_padded {
            write!(self.out, "{key:03}")
        } else {
            write!(self.out, "{key}")
        }
    }

    /// Writes a range, and the value of its mark if it has one.
    pub fn write_piece(&mut self, piece: Piece) -> Result<(), AllocError> {
        self.write_key(piece.start)?;
        if self.scene.is_closed {
            self.out.push_str("..=")?;
            self.write_key(piece.end.saturating_sub(1))?;
        } else {
            self.out.push_str("..")?;
            self.write_key(piece.end)?;
        }
        self.out.push_str(match piece.mark {
            1 => " a",
            2 => " b",
            3 => " c",
            _ => "",
        })
    }

    /// Writes pieces, with this text between them.
    pub fn write_pieces(&mut self, pieces: &[Piece], between: &str) -> Result<(), AllocError> {
        for (place, piece) in pieces.iter().enumerate() {
            if place > 0 {
                self.out.push_str(between)?;
            }
            self.write_piece(*piece)?;
        }
        Ok(())
    }

    /// Writes what a call is given: pieces behind a space, unless there are none.
    pub fn write_list(&mut self, pieces: &[Piece]) -> Result<(), AllocError> {
        if !pieces.is_empty() {
            self.out.push(' ')?;
        }
        self.write_pieces(pieces, " + ")
    }

    /// Writes all that the calls leave.
    pub fn write_all(&mut self) -> Result<(), AllocError> {
        let pieces = self.points.pieces(self.alloc())?;
        self.write_pieces(pieces.as_slice(), ", ")
    }
}
