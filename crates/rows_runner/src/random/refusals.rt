//! Questions about memory: calls to which each request is refused, and the blocks that are held. The
//! number of requests is left open, since it is not the model's business.

use super::writer::Writer;
use std::alloc::AllocError;

impl Writer {
    /// Draws a question about memory, and writes it with a bar and its answer.
    pub fn ask_memory(&mut self) -> Result<(), AllocError> {
        let has_own_steps = self.scene.has_own_steps();
        let name = match self.chance.below(6) {
            0 | 1 => return self.ask_blocks(),
            2 if has_own_steps => return self.ask_extend(),
            3 if has_own_steps => self.making_call(),
            _ => self.any_call(),
        };
        self.out.push_str("refuse ")?;
        self.make_call(name)?;
        self.write_counts(name)?;
        self.write_all()
    }

    // Writes what stands for the number of requests. What is kept in chunks may do without some of those
    // that it makes when it changes; a clone never does, nor does what is kept otherwise.
    fn write_counts(&mut self, name: &str) -> Result<(), AllocError> {
        let may_spare = self.scene.is_in("chunks") && name != "clone";
        self.out
            .push_str(if may_spare { " | ? + ?: " } else { " | ?: " })
    }

    // Refuses memory to an `extend`, which keeps a beginning of what it is given.
    fn ask_extend(&mut self) -> Result<(), AllocError> {
        let pieces = self.pieces()?;
        self.out.push_str("refuse extend")?;
        self.write_list(pieces.as_slice())?;
        self.write_counts("extend")?;
        self.write_all()?;
        for piece in pieces {
            self.points.put(piece);
            self.out.push_str("; ")?;
            self.write_all()?;
        }
        Ok(())
    }

    // Asks for the least and the most blocks that a container may hold.
    //
    // Beside the blocks of its ranges a sorted vector holds one for its list. A tree holds its nodes, of
    // which each but the root has 7 to 15 ranges. What is kept in chunks holds one for the list of them,
    // and one for each, of which none is empty. One without ranges may keep the first block that it took.
    fn ask_blocks(&mut self) -> Result<(), AllocError> {
        let stored = self.points.pieces(self.alloc())?.len() as u64;
        let (least, most) = if self.scene.is_in("vector") {
            (stored.min(1), 1)
        } else if self.scene.is_in("tree") {
            (
                stored.div_ceil(15),
                (stored.saturating_sub(1) / 7).saturating_add(1),
            )
        } else {
            (stored.min(1).saturating_mul(2), stored.saturating_add(1))
        };
        let held = self.scene.blocks_of_each().saturating_mul(stored);
        let (least, most) = (held.saturating_add(least), held.saturating_add(most));
        write!(self.out, "blocks | {least} to {most}")
    }
}
