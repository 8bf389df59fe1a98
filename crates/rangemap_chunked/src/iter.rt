//! The pairs of chunks, one after another: all, or those that overlap a range.
ghost use Rattle.std.specs.Prelude.{◌≡◌, ◌++◌};
ghost use Rattle.rangemap_core.specs.Ranges.{overlapped};
ghost use Rattle.rangemap_chunked.specs.Chunks.{AreChunks, AreFilled, whole};

use crate::chunk::Chunk;
use crate::search::{first_met_chunk, met_chunks_end};
use rangemap_core::cursor::{Cursor, LentCursor, Peek};
use rangemap_core::key_range::KeyRange;
use rangemap_core::kind::{Kind, known_ends};
use rangemap_sorted::overlapping::{overlapping_tail, take_begun};
use std::alloc::Allocator;
use std::marker::Model;
use std::slice;

/// The pairs of a range and a value that are still to come, from both ends: all of the chunks, or
/// those that overlap a range.
#[derive(Drop)]
pub struct Iter<'a, R, V, A: Allocator> {
    // What is left of the chunk that was begun from the front.
    front: slice::Iter<'a, (R, V)>,
    // The chunks that were not begun.
    chunks: &'a [Chunk<R, V, A>],
    // What is left of the chunk that was begun from the back.
    back: slice::Iter<'a, (R, V)>,
}

impl<'a, R, V, A: Allocator> Model for Iter<'a, R, V, A> {
    ghost use Rattle.std.specs.Prelude.{List, ◌++◌};
    ghost use Rattle.std.specs.Slice.Iter.{iter_rest};
    ghost use Rattle.rangemap_chunked.specs.Chunks.{AreFilled, whole};

    ghost Value = { List (R × V) };

    ghost view = { λ s. iter_rest s.front ++ (whole s.chunks.now ++ iter_rest s.back) };

    ghost invariant = { λ s. AreFilled s.chunks.now };
}

impl<'a, R, V, A: Allocator> Iter<'a, R, V, A> {
    /// Returns all pairs of the chunks.
    pub(crate) fn over(chunks: &'a [Chunk<R, V, A>]) -> Self
        requires { AreFilled chunks.now }
        ensures { result ≡ whole chunks.now }
    {
        Iter::between(&[], chunks, &[])
    }

    /// Returns the pairs of the first list, of the chunks and of the last list.
    pub(crate) fn between(
        front: &'a [(R, V)],
        chunks: &'a [Chunk<R, V, A>],
        back: &'a [(R, V)],
    ) -> Self
        requires { AreFilled chunks.now }
        ensures { result ≡ front.now ++ (whole chunks.now ++ back.now) }
    {
        Iter {
            front: front.iter(),
            chunks,
            back: back.iter(),
        }
    }
}

impl<'a, R, V, A: Allocator> Cursor for Iter<'a, R, V, A> {
    ghost use Rattle.std.specs.Map.Iter.{deref};

    type Range = R;

    type Value = V;

    type Given = &'a R;

    type GivenValue = &'a V;

    ghost left = { λ it. it };

    ghost given = { deref };

    ghost given_value = { deref };

    fn take_first(&mut self) -> Option<(&'a R, &'a V)> {
        if let Some(pair) = self.front.take_first() {
            return Some(pair);
        }
        if let Some((chunk, rest)) = self.chunks.split_first() {
            self.front = chunk.as_slice().iter();
            self.chunks = rest;
            return self.front.take_first();
        }
        self.back.take_first()
    }

    fn take_last(&mut self) -> Option<(&'a R, &'a V)> {
        if let Some(pair) = self.back.take_last() {
            return Some(pair);
        }
        if let Some((chunk, rest)) = self.chunks.split_last() {
            self.back = chunk.as_slice().iter();
            self.chunks = rest;
            return self.back.take_last();
        }
        self.front.take_last()
    }

    fn parts<'b>(pair: &'b (&'a R, &'a V)) -> (&'b R, &'b V) {
        (pair.0, pair.1)
    }
}

impl<'a, R, V, A: Allocator> LentCursor<'a, R> for Iter<'a, R, V, A> {
    ghost use Rattle.std.specs.Prelude.{refl};

    ghost lent = { λ range. refl };
}

impl<'a, R: KeyRange, V, A: Allocator> Peek for Iter<'a, R, V, A> {
    fn peek(&mut self) -> Option<(&'a R, &'a V)> {
        if let Some(pair) = self.front.peek() {
            return Some(pair);
        }
        if let Some((chunk, rest)) = self.chunks.split_first() {
            self.front = chunk.as_slice().iter();
            self.chunks = rest;
            return self.front.peek();
        }
        self.back.peek()
    }
}

/// Returns the pairs of the chunks that overlap the query, which may be empty or reversed, in order.
///
/// Where they begin and where they end is searched for at once: among the chunks, and in the first
/// and the last chunk that have any.
pub(crate) fn overlapping<'a, Q: Kind<R>, R: KeyRange, V: Eq, A: Allocator>(
    chunks: &'a [Chunk<R, V, A>],
    query: &R,
) -> Iter<'a, R, V, A>
    requires { AreChunks Q.kind V.eq chunks.now }
    ensures { result ≡ overlapped Q.kind (whole chunks.now) query.now }
{
    if chunks.is_empty() {
        return Iter::over(&[]);
    }
    known_ends::<Q, R>(query);
    // A single chunk needs no search: all pairs that are met are its own.
    if let [chunk] = chunks {
        let tail = overlapping_tail::<Q, R, V>(chunk.as_slice(), query);
        return Iter::between(take_begun::<R, V>(tail, query), &[], &[]);
    }
    let at = first_met_chunk::<Q, R, V, A>(chunks, query);
    let end = met_chunks_end::<Q, R, V, A>(chunks, query, at);
    let first = overlapping_tail::<Q, R, V>(chunks[at].as_slice(), query);
    if end <= at + 1 {
        return Iter::between(take_begun::<R, V>(first, query), &[], &[]);
    }
    // All pairs of the first chunk start before the query ends, and none of the last before it starts:
    // so in each of them only one end is searched for.
    let last = end - 1;
    Iter::between(
        first,
        &chunks[at + 1..last],
        take_begun::<R, V>(chunks[last].as_slice(), query),
    )
}
