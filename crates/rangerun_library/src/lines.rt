//! Reading line by line.
ghost use Rattle.std.specs.Prelude.{◌≡◌, false, IfOk, IfSome, OnOk};
ghost use Rattle.std.specs.Io.BufRead.{DropsThrough, first_piece};
ghost use Rattle.std.specs.Io.KnownBytes.{IsAtEnd};

use crate::fault::Cause;
use std::alloc::Allocator;
use std::io::{self, BufRead, ErrorKind, Read};

/// A reader that never fails for want of memory: what fails so has another kind of error.
///
/// So an `OutOfMemory` that a buffer over it answers is of the buffer's own memory.
#[derive(Drop)]
pub struct Source<R>(pub R);

impl<R: Read> Read for Source<R> {
    ghost remaining = { λ source. R.remaining source.0 };

    fn read(&mut self, bytes: &mut [u8]) -> io::Result<usize> {
        match self.0.read(bytes) {
            Err(error) if error.kind() == ErrorKind::OutOfMemory => {
                Err(io::Error::from(ErrorKind::Other))
            }
            answer => answer,
        }
    }
}

/// Fetches the next line of a `Source`, without its newline, in place of what `line` has. Returns false
/// where the input has ended.
///
/// The last line may lack its newline.
///
/// # Errors
///
/// `Cause::Memory` where there was no memory for the line, and `Cause::Stream` where a read failed.
pub fn fetch<R: BufRead, A: Allocator>(input: &mut R, line: &mut Vec<u8, A>) -> Result<bool, Cause>
    ensures line { OnOk result (IfSome (R.remaining input.old) (λ bytes. line.new.items ≡ first_piece 10 bytes)) }
    ensures rest { OnOk result (DropsThrough (R.remaining input.old) (R.remaining input.new) 10) }
    ensures end { IfOk result (λ is_line. is_line ≡ false → IsAtEnd (R.remaining input.old)) }
{
    line.clear();
    match input.read_until(b'\n', line) {
        Ok(0) => Ok(false),
        Ok(_) => {
            if line.last() == Some(&b'\n') {
                line.pop();
            }
            Ok(true)
        }
        Err(error) if error.kind() == ErrorKind::OutOfMemory => Err(Cause::Memory),
        Err(_) => Err(Cause::Stream),
    }
}
