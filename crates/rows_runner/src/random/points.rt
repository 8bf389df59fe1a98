//! What stands at each of 256 points.

use std::alloc::{AllocError, Global};

/// Neighbouring points with a mark.
#[derive(Clone, Copy, PartialEq)]
pub struct Piece {
    /// The first point.
    pub start: u16,
    /// The point behind the last one.
    pub end: u16,
    /// The mark: 0 where nothing stands, 1, 2 or 3 for a value, 4 for none.
    pub mark: u8,
}

impl Piece {
    /// Returns whether it has a point.
    pub fn has(self, point: u16) -> bool {
        self.start <= point && point < self.end
    }

    /// Returns whether it starts before another ends, and ends behind the start of that.
    pub fn overlaps(self, other: Piece) -> bool {
        self.start < other.end && other.start < self.end
    }
}

/// The mark of each point, which is 0 where nothing stands.
#[derive(Clone, Copy)]
pub struct Points {
    /// The marks, by the numbers of the points.
    pub marks: [u8; 256],
}

impl Points {
    /// Returns points with no marks.
    pub fn new() -> Points {
        Points { marks: [0; 256] }
    }

    /// Gives the points of a piece its mark.
    pub fn put(&mut self, piece: Piece) {
        for point in 0u16..256 {
            if piece.has(point) {
                self.marks[usize::from(point)] = piece.mark;
            }
        }
    }

    /// Returns these points with the marks of pieces, given one piece after another.
    pub fn with(mut self, pieces: &[Piece]) -> Points {
        for piece in pieces {
            self.put(*piece);
        }
        self
    }

    /// Returns the points that have a mark in both.
    pub fn common(mut self, other: &Points) -> Points {
        for point in 0..256 {
            if other.marks[point] == 0 {
                self.marks[point] = 0;
            }
        }
        self
    }

    /// Returns the points of a piece that have no mark here, with a mark.
    pub fn free(&self, piece: Piece) -> Points {
        let mut free = Points::new();
        for point in 0u16..256 {
            if piece.has(point) && self.marks[usize::from(point)] == 0 {
                free.marks[usize::from(point)] = 4;
            }
        }
        free
    }

    /// Returns the pieces with a mark, in order, no two of which could be one.
    pub fn pieces(&self, alloc: Global) -> Result<Vec<Piece>, AllocError> {
        let mut pieces = Vec::new(alloc);
        let mut before = 0;
        for point in 0u16..256 {
            let mark = self.marks[usize::from(point)];
            if mark > 0 {
                add_point(&mut pieces, point, mark, mark == before)?;
            }
            before = mark;
        }
        Ok(pieces)
    }

    /// Returns the pieces that a query overlaps, in order.
    pub fn overlapping(&self, query: Piece, alloc: Global) -> Result<Vec<Piece>, AllocError> {
        let mut overlapping = Vec::new(alloc);
        for piece in self.pieces(alloc)? {
            if piece.overlaps(query) {
                overlapping.push(piece)?;
            }
        }
        Ok(overlapping)
    }

    /// Returns the items of a union, in order: pieces of the points that have a mark in one or in both,
    /// of which neighbours are in the same item if they are in the same piece of one side.
    pub fn union(&self, other: &Points, alloc: Global) -> Result<Vec<Piece>, AllocError> {
        let mut items = Vec::new(alloc);
        let mut before = (false, false);
        for point in 0u16..256 {
            let one = self.marks[usize::from(point)] > 0;
            let two = other.marks[usize::from(point)] > 0;
            if one || two {
                let goes_on = (one && before.0) || (two && before.1);
                add_point(&mut items, point, 4, goes_on)?;
            }
            before = (one, two);
        }
        Ok(items)
    }
}

// Adds a point to the last of some pieces, which it goes on, or as a piece of its own.
fn add_point(
    pieces: &mut Vec<Piece>,
    point: u16,
    mark: u8,
    goes_on: bool,
) -> Result<(), AllocError> {
    let mut start = point;
    if goes_on {
        if let Some(last) = pieces.pop() {
            start = last.start;
        }
    }
    let end = point.saturating_add(1);
    pieces.push(Piece { start, end, mark })?;
    Ok(())
}
