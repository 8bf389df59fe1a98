//! Scripts, which take items of an iterator one by one, and what they take.

use super::points::Piece;
use super::writer::Writer;
use std::alloc::AllocError;

impl Writer {
    /// Draws a script for an iterator that goes from both ends, or for one that makes its items, at the
    /// end of which it may take all. It may have no letters, or more than there are items.
    pub fn draw_script(&mut self, is_made: bool) -> Result<String, AllocError> {
        let most = if self.chance.is_one_of(8) { 160 } else { 8 };
        let mut script = String::new(self.alloc());
        for _ in 0..self.chance.below(most) {
            script.push(match (self.chance.below(4), is_made) {
                (0, _) => '#',
                (1, true) => 'n',
                (1, false) => 'b',
                (_, true) => 't',
                (_, false) => 'f',
            })?;
        }
        match self.chance.below(4) {
            0 if is_made => script.push('N')?,
            1 if is_made => script.push('T')?,
            _ => {}
        }
        Ok(script)
    }

    /// Writes what a script takes of items. Where they are counted their hint says how many are left.
    pub fn write_taken(
        &mut self,
        items: &[Piece],
        script: &str,
        are_counted: bool,
    ) -> Result<(), AllocError> {
        if script.is_empty() {
            return self.write_pieces(items, ", ");
        }
        let mut rest = items;
        for (place, letter) in script.chars().enumerate() {
            if rest.is_empty() && (letter == 'N' || letter == 'T') {
                return Ok(());
            }
            if place > 0 {
                self.out.push_str(", ")?;
            }
            match letter {
                'N' | 'T' => self.write_pieces(rest, ", ")?,
                '#' if are_counted => write!(self.out, "{}/{}", rest.len(), rest.len())?,
                '#' => self.out.push_str("0/?")?,
                _ => match take(&mut rest, letter) {
                    Some(item) => self.write_piece(item)?,
                    None => self.out.push('-')?,
                },
            }
        }
        Ok(())
    }
}

// Takes an item off one end.
fn take(rest: &mut &[Piece], letter: char) -> Option<Piece> {
    let (item, left) = if letter == 'b' {
        rest.split_last()?
    } else {
        rest.split_first()?
    };
    *rest = left;
    Some(*item)
}
