//! How chunks become fewer or more.
ghost use Rattle.std.specs.Prelude.{◌≡◌, true, false, ◌+◌, ◌<◌, ◌≤◌, length, take, drop};
ghost use Rattle.rangemap_chunked.specs.Chunks.{AreFilled, whole};

use crate::chunk::{Chunk, insert_reserved};
use rangemap_sorted::splice::cut;
use std::alloc::Allocator;

// Cuts a chunk in two where it is long: in halves, or where it is the last one, so that it stays
// full, as where ranges come in order. It stays as it is where memory is refused.
fn split<R: Drop, V: Drop, A: Allocator + Clone, const N: usize>(
    chunks: &mut Vec<Chunk<R, V, A>, A>,
    at: usize,
)
    requires in_bounds { at < length chunks.old.items }
    requires filled { AreFilled chunks.old.items }
    ensures whole { whole chunks.new.items ≡ whole chunks.old.items }
    ensures filled { AreFilled chunks.new.items }
    ensures longer { length chunks.old.items ≤ length chunks.new.items }
{
    let len = chunks[at].len();
    if len <= N || len < 2 {
        return;
    }
    let Ok(()) = chunks.reserve(1) else {
        return;
    };
    let is_last = at + 1 == chunks.len();
    let place = if is_last && 0 < N { N } else { len / 2 };
    let chunk = &mut chunks[at];
    if let Ok(back) = chunk.split_off(place) {
        insert_reserved(chunks, at + 1, back);
    }
}

/// Takes a chunk out that is empty. One that may have another size than before is cut where it is long,
/// joined with its neighbours where it is small, and gives room back that is unused; it stays as it is
/// where memory is refused.
#[tactic(auto, using(crate::proofs::StoreLemmas::set_own))]
pub fn settle<R: Drop, V: Drop, A: Allocator + Clone, const N: usize>(
    chunks: &mut Vec<Chunk<R, V, A>, A>,
    at: usize,
    is_resized: bool,
)
    requires in_bounds { at < length chunks.old.items }
    requires before { AreFilled (take at chunks.old.items) }
    requires behind { AreFilled (drop (at + 1) chunks.old.items) }
    ensures whole { whole chunks.new.items ≡ whole chunks.old.items }
    ensures filled { AreFilled chunks.new.items }
{
    let chunk = &chunks[at];
    if chunk.len() == 0 {
        cut(chunks, at..at + 1);
        return;
    }
    if !is_resized {
        return;
    }
    split::<R, V, A, N>(chunks, at);
    // An insert into a full chunk that cuts a stored range adds two pairs before the chunk is cut.
    chunks[at].give_room_back(N.saturating_add(2));
    // First with the one before: so no pair is moved into a neighbour twice.
    let at = if 0 < at && join_small::<R, V, A, N>(chunks, at - 1) {
        at - 1
    } else {
        at
    };
    join_small::<R, V, A, N>(chunks, at);
}

// Joins a chunk with the one behind it, where both are small and memory allows. Returns whether
// they became one.
fn join_small<R: Drop, V: Drop, A: Allocator, const N: usize>(
    chunks: &mut Vec<Chunk<R, V, A>, A>,
    at: usize,
) -> bool
    requires { AreFilled chunks.old.items }
    ensures whole { whole chunks.new.items ≡ whole chunks.old.items }
    ensures filled { AreFilled chunks.new.items }
    ensures joined { result ≡ true → length chunks.new.items + 1 ≡ length chunks.old.items }
    ensures apart { result ≡ false → chunks.new.items ≡ chunks.old.items }
{
    let count = chunks.len();
    if count.saturating_sub(1) <= at {
        return false;
    }
    let here = chunks[at].len();
    let next = chunks[at + 1].len();
    if N / 2 < here || N / 2 - here < next {
        return false;
    }
    let (front, back) = chunks.split_at_mut(at + 1);
    let Ok(()) = front[at].append(&mut back[0]) else {
        return false;
    };
    cut(chunks, at + 1..at + 2);
    true
}
