//! The pairs of chunks, handed over one after another.
ghost use Rattle.std.specs.Prelude.{◌≡◌, [], MatchOption};
ghost use Rattle.std.specs.Map.Iter.{TakesFirst, TakesLast};
ghost use Rattle.std.specs.Vec.Iter.{into_iter_items};
ghost use Rattle.rangemap_chunked.specs.Chunks.{AreFilled, left_of, whole};

use crate::chunk::Chunk;
use rangemap_core::cursor::Cursor;
use std::alloc::Allocator;
use std::iter::{DoubleEndedIterator, IntoIterator, Iterator};
use std::marker::Model;
use std::vec;

/// The pairs of a range and a value that are still to come, from both ends. It owns them, and drops
/// those that are not taken. Once an end has answered none, both ends do from then on.
#[derive(Drop)]
pub struct IntoIter<R, V, A: Allocator> {
    // What is left of a chunk that was begun, before all others.
    front: Option<vec::IntoIter<(R, V), A>>,
    // The chunks that were not begun.
    chunks: vec::IntoIter<Chunk<R, V, A>, A>,
    // What is left of a chunk that was begun, behind all others.
    back: Option<vec::IntoIter<(R, V), A>>,
}

impl<R, V, A: Allocator> Model for IntoIter<R, V, A> {
    ghost use Rattle.std.specs.Prelude.{List, ◌++◌};
    ghost use Rattle.std.specs.Vec.Iter.{into_iter_items};
    ghost use Rattle.rangemap_chunked.specs.Chunks.{AreFilled, left_of, whole};

    ghost Value = { List (R × V) };

    ghost view = { λ s. left_of into_iter_items s.front
        ++ (whole (into_iter_items s.chunks) ++ left_of into_iter_items s.back) };

    ghost invariant = { λ s. AreFilled (into_iter_items s.chunks) };
}

impl<R, V, A: Allocator> IntoIter<R, V, A> {
    /// Returns the pairs of the chunks, before any was taken.
    pub(crate) fn over(chunks: Vec<Chunk<R, V, A>, A>) -> Self
        requires { AreFilled chunks.items }
        ensures { result ≡ whole chunks.items }
    {
        IntoIter {
            front: None,
            chunks: chunks.into_iter(),
            back: None,
        }
    }
}

impl<R: Drop, V: Drop, A: Allocator> Cursor for IntoIter<R, V, A> {
    type Range = R;

    type Value = V;

    type Given = R;

    type GivenValue = V;

    ghost left = { λ it. it };

    ghost given = { λ range. range };

    ghost given_value = { λ value. value };

    fn take_first(&mut self) -> Option<(R, V)> {
        if let Some(pair) = first_of(&mut self.front) {
            return Some(pair);
        }
        self.front = next_pairs(self.chunks.next(), &mut self.back);
        first_of(&mut self.front)
    }

    fn take_last(&mut self) -> Option<(R, V)> {
        if let Some(pair) = last_of(&mut self.back) {
            return Some(pair);
        }
        self.back = next_pairs(self.chunks.next_back(), &mut self.front);
        last_of(&mut self.back)
    }

    fn parts<'b>(pair: &'b (R, V)) -> (&'b R, &'b V) {
        (&pair.0, &pair.1)
    }
}

// The pairs of the next chunk, or, where there is none, what is left at the other end.
fn next_pairs<R, V, A: Allocator>(
    chunk: Option<Chunk<R, V, A>>,
    other_end: &mut Option<vec::IntoIter<(R, V), A>>,
) -> Option<vec::IntoIter<(R, V), A>>
    ensures { MatchOption chunk
        ((left_of into_iter_items result ≡ left_of into_iter_items other_end.old)
        × (left_of into_iter_items other_end.new ≡ []))
        (λ pairs. (left_of into_iter_items result ≡ pairs)
        × (left_of into_iter_items other_end.new ≡ left_of into_iter_items other_end.old)) }
{
    match chunk {
        Some(chunk) => Some(chunk.into_pairs()),
        None => other_end.take(),
    }
}

// Takes the first pair that is left of a chunk, if one was begun.
fn first_of<R: Drop, V: Drop, A: Allocator>(
    pairs: &mut Option<vec::IntoIter<(R, V), A>>,
) -> Option<(R, V)>
    ensures { TakesFirst (λ pair. pair) (left_of into_iter_items pairs.old) result
        (left_of into_iter_items pairs.new) }
{
    pairs.as_mut()?.next()
}

// Takes the last one.
fn last_of<R: Drop, V: Drop, A: Allocator>(
    pairs: &mut Option<vec::IntoIter<(R, V), A>>,
) -> Option<(R, V)>
    ensures { TakesLast (λ pair. pair) (left_of into_iter_items pairs.old) result
        (left_of into_iter_items pairs.new) }
{
    pairs.as_mut()?.next_back()
}
