//! Giving the keys of a range a value, and taking them out.
//!
//! A change goes over the chunks that its range overlaps or touches: one, or several at once. If there are
//! several, at most one pair behind the first chunk can reach past the range or touch its end: the last pair
//! that starts no later than the end. That pair is moved into the first chunk, which is then changed as if
//! it were the only one. If memory is refused, the pair goes back and nothing changes. Otherwise the chunks
//! between are dropped whole, without moving their pairs, and the rest of the last chunk moves to its front.
ghost use Rattle.std.specs.Prelude.{◌≡◌, true, ◌<◌, ◌≤◌, ◌+◌, [], length, slice_index_or, IsOk, OnOk, OnErr, IfOk, IfSome, Some as SomeWord, None as NoneWord};
ghost use Rattle.std.specs.List.{AllWithin};
ghost use Rattle.rangemap_core.specs.Clones.{KeysCloneFaithfully, ValuesCloneFaithfully};
ghost use Rattle.rangemap_core.specs.Ranges.{IsCanonOf, erase, overlapped, value_at};
ghost use Rattle.rangemap_core.specs.engine.Shape.{shape_of};
ghost use Rattle.rangemap_sorted.specs.Changes.{IsChanged, grown};
ghost use Rattle.rangemap_chunked.specs.Chunks.{AreChunks, AreFilled, AreFilledBut, IsClearBefore, IsClearBehind, IsCounted, IsPastBehind, IsPastStart, chunk_by, whole};

use crate::chunk::Chunk;
use crate::rebalance::settle;
use crate::search::{
    chunk_starts_by_end, first_failing, first_met_chunk, last_touched, may_overflow, met_chunks_end,
};
use rangemap_core::key_range::KeyRange;
use rangemap_core::kind::{Kind, known_ends};
use rangemap_sorted::splice::cut;
use std::alloc::{AllocError, Allocator};
use std::ops::Range;

/// How many pairs stood in the chunks that a change went over, before it and after it. If there are several
/// chunks, neither number counts the pairs that stay in the last one.
#[derive(Drop)]
pub struct Counts {
    /// Before it.
    pub before: usize,
    /// After it.
    pub after: usize,
}

/// Gives every key of the range the value, in the chunks of a store.
///
/// # Errors
///
/// Memory or a clone was refused: then no pair is changed.
pub fn insert_into<Q: Kind<R>, R: KeyRange, V: Eq + Clone, A: Allocator + Clone, const N: usize>(
    chunks: &mut Vec<Chunk<R, V, A>, A>,
    range: R,
    value: V,
) -> Result<Counts, AllocError>
    requires chunked { AreChunks Q.kind V.eq chunks.old.items }
    requires fits { length (whole chunks.old.items) ≤ usize.MAX }
    requires non_empty { Q.kind.IsNonEmpty range }
    requires faithful_keys { KeysCloneFaithfully R.Key.is_clone R.Key.cmp }
    requires faithful_values { ValuesCloneFaithfully V.is_clone V.eq }
    ensures ok { OnOk result (IsChanged Q.kind V.eq (value_at Q.kind (whole chunks.old.items)) range
        (SomeWord value) (whole chunks.new.items)) }
    ensures filled { AreFilled chunks.new.items }
    ensures err { OnErr result (whole chunks.new.items ≡ whole chunks.old.items) }
    ensures counted { IfOk result (λ counts. IsCounted V.eq 2
        (whole chunks.old.items) (whole chunks.new.items) counts.before counts.after) }
{
    if chunks.is_empty() {
        known_ends::<Q, R>(&range);
        let mut chunk = Chunk::empty(chunks.allocator().clone()?);
        chunk.change::<Q>(range, Some(value))?;
        let after = chunk.len();
        chunks.push(chunk)?;
        return Ok(Counts { before: 0, after });
    }
    let at = first_met_chunk::<Q, R, V, A>(chunks, &range);
    // A chunk that starts where the range ends counts too, since its first pair may be joined with the new
    // one. `met_chunks_end` leaves it out.
    let end = first_failing(
        chunks,
        at,
        |chunk| chunk_starts_by_end::<Q, R, V, A>(chunk, &range),
    );
    let counts = change_over::<Q, R, V, A>(chunks, at..end, range, Some(value))?;
    settle::<R, V, A, N>(chunks, at, true);
    Ok(counts)
}

/// Takes every key of the range out of the chunks of a store.
///
/// # Errors
///
/// Memory or a clone was refused, or the removal may leave more pairs than a `usize` can count: then no
/// pair is changed. A removal that meets nothing is not refused.
pub fn remove_from<Q: Kind<R>, R: KeyRange, V: Eq + Clone, A: Allocator + Clone, const N: usize>(
    chunks: &mut Vec<Chunk<R, V, A>, A>,
    len: usize,
    range: R,
) -> Result<Counts, AllocError>
    requires chunked { AreChunks Q.kind V.eq chunks.old.items × (len ≡ length (whole chunks.old.items)) }
    requires non_empty { Q.kind.IsNonEmpty range }
    requires faithful_keys { KeysCloneFaithfully R.Key.is_clone R.Key.cmp }
    requires faithful_values { ValuesCloneFaithfully V.is_clone V.eq }
    ensures ok { OnOk result (IsCanonOf Q.kind V.eq
        (erase Q.kind (value_at Q.kind (whole chunks.old.items)) range) (whole chunks.new.items)) }
    ensures filled { AreFilled chunks.new.items }
    ensures err { OnErr result (whole chunks.new.items ≡ whole chunks.old.items) }
    ensures counted { IfOk result (λ counts. IsCounted V.eq 1
        (whole chunks.old.items) (whole chunks.new.items) counts.before counts.after) }
    ensures fits { IfOk result (λ _. length (whole chunks.new.items) ≤ usize.MAX) }
    ensures meets_nothing { overlapped Q.kind (whole chunks.old.items) range ≡ []
        → IsOk result × (whole chunks.new.items ≡ whole chunks.old.items) }
{
    if chunks.is_empty() {
        return Ok(Counts {
            before: 0,
            after: 0,
        });
    }
    let at = first_met_chunk::<Q, R, V, A>(chunks, &range);
    let end = met_chunks_end::<Q, R, V, A>(chunks, &range, at);
    if may_overflow::<Q, R, V, A>(chunks, len, at..end, &range) {
        return Err(AllocError);
    }
    let counts = change_over::<Q, R, V, A>(chunks, at..end, range, None)?;
    // A removal that meets nothing asks for no memory: it changes no chunk's size.
    let is_resized = at + 1 < end || counts.before != counts.after;
    settle::<R, V, A, N>(chunks, at, is_resized);
    Ok(counts)
}

// Gives every key of the range the value, or without a value takes the keys out. The range overlaps or
// touches only the chunks at `places`. Without a value, the first of these may be left empty.
//
// `Err` says that memory or a clone was refused: then no pair is changed.
fn change_over<Q: Kind<R>, R: KeyRange, V: Eq + Clone, A: Allocator>(
    chunks: &mut Vec<Chunk<R, V, A>, A>,
    places: Range<usize>,
    range: R,
    value: Option<V>,
) -> Result<Counts, AllocError>
    requires chunked { AreChunks Q.kind V.eq chunks.old.items }
    requires fits { length (whole chunks.old.items) ≤ usize.MAX }
    requires start { places.start < length chunks.old.items }
    requires end { places.end ≤ length chunks.old.items }
    requires before { IsClearBefore (shape_of Q.kind Q.end_place V.eq) chunks.old.items range places.start }
    requires past { IsPastStart (shape_of Q.kind Q.end_place V.eq) chunks.old.items range (places.start + 1) }
    requires begun { places.start + 1 < places.end
        → AllWithin
        (λ chunk. chunk_by (shape_of Q.kind Q.end_place V.eq) (Q.end_place range) chunk ≡ true)
        chunks.old.items 0 places.end }
    requires behind { IsPastBehind (shape_of Q.kind Q.end_place V.eq) chunks.old.items range places.end }
    requires clear { IfSome value
        (λ _. IsClearBehind (shape_of Q.kind Q.end_place V.eq) chunks.old.items range places.end) }
    requires non_empty { Q.kind.IsNonEmpty range }
    requires faithful_keys { KeysCloneFaithfully R.Key.is_clone R.Key.cmp }
    requires faithful_values { ValuesCloneFaithfully V.is_clone V.eq }
    ensures ok { OnOk result (IsChanged Q.kind V.eq
        (value_at Q.kind (whole chunks.old.items)) range value (whole chunks.new.items)) }
    ensures filled { AreFilledBut value places.start chunks.new.items }
    ensures in_bounds { places.start < length chunks.new.items }
    ensures err { OnErr result (chunks.new.items ≡ chunks.old.items) }
    ensures counted { IfOk result (λ counts. IsCounted V.eq (grown value)
        (whole chunks.old.items) (whole chunks.new.items) counts.before counts.after) }
    ensures meets_nothing { value ≡ NoneWord → places.end ≤ places.start + 1
        → overlapped Q.kind (slice_index_or chunks.old.items places.start []) range ≡ []
        → IsOk result × (chunks.new.items ≡ chunks.old.items) }
{
    known_ends::<Q, R>(&range);
    let Range { start: at, end } = places;
    if end <= at + 1 {
        let chunk = &mut chunks[at];
        let before = chunk.len();
        chunk.change::<Q>(range, value)?;
        return Ok(Counts {
            before,
            after: chunk.len(),
        });
    }
    let last = end - 1;
    let place = last_touched::<Q, R, V, A>(&chunks[last], &range);
    let before = count(&chunks[at..last]) + place + 1;
    let (front, back) = chunks.split_at_mut(last);
    let first = &mut front[at];
    let later = &mut back[0];
    first.change_with::<Q>(later, place, range, value)?;
    later.give_room_back(usize::MAX);
    let after = first.len();
    // The last chunk goes with those between where nothing is left of it.
    let kept_from = if later.len() == 0 { end } else { last };
    cut(chunks, at + 1..kept_from);
    Ok(Counts { before, after })
}

// How many pairs chunks have.
fn count<R, V, A: Allocator>(chunks: &[Chunk<R, V, A>]) -> usize
    requires { length (whole chunks.now) ≤ usize.MAX }
    ensures { result ≡ length (whole chunks.now) }
{
    let mut count = 0;
    for chunk in chunks {
        count += chunk.len();
    }
    count
}
