//! Where a key or a range lies among the chunks.
//!
//! No chunk is empty, and their lists, one after the other, are canonical.
ghost use Rattle.std.specs.Prelude.{◌≡◌, ◌⊎◌, Bool, true, false, ◌+◌, ◌<◌, ◌≤◌, [], length, slice_index_or, IfSome, Some as SomeWord, None as NoneWord, MatchOption};
ghost use Rattle.std.specs.Fn.{ComputesKey};
ghost use Rattle.std.specs.List.{AllWithin};
ghost use Rattle.std.specs.List.Sorted.{IsPartitionedBy};
ghost use Rattle.rangemap_core.specs.Ranges.{IsCanonical, covering, overlapped};
ghost use Rattle.rangemap_core.specs.engine.Endpoints.{endpoint_of, place_of};
ghost use Rattle.rangemap_core.specs.engine.Shape.{shape_of, starts_by};
ghost use Rattle.rangemap_chunked.specs.Chunks.{AreChunks, IsClearBefore, IsLastTouched, IsPastBehind, IsPastStart, chunk_below, chunk_by, whole};

use crate::chunk::Chunk;
use rangemap_core::cursor::Cursor;
use rangemap_core::key_range::KeyRange;
use rangemap_core::kind::{Endpoint, Kind, known_ends};
use rangemap_sorted::overlapping::Overlapping;
use std::alloc::Allocator;
use std::ops::Range;

// A key that is searched for, as a closure may hold it: the checker refuses one that holds a bare
// `R::Key` where the kind of the ranges is open.
#[derive(Drop)]
struct Sought<'a, R: KeyRange> {
    key: &'a R::Key,
}

// Whether the first start of a chunk is not after the key.
fn chunk_starts_by<Q: Kind<R>, R: KeyRange, V: Eq, A: Allocator>(
    chunk: &Chunk<R, V, A>,
    sought: &Sought<'_, R>,
) -> bool
    ensures { result ≡ chunk_by (shape_of Q.kind Q.end_place V.eq) (SomeWord sought.now.key.now) chunk.now }
{
    match chunk.as_slice().first() {
        Some(pair) => sought.key.cmp(pair.0.start()).is_ge(),
        None => true,
    }
}

// Whether the first range of a chunk starts before an endpoint of the given one.
fn chunk_starts_before<Q: Kind<R>, R: KeyRange, V: Eq, A: Allocator>(
    chunk: &Chunk<R, V, A>,
    endpoint: Endpoint<'_, R>,
) -> bool
    ensures { result ≡ chunk_below (shape_of Q.kind Q.end_place V.eq)
        (place_of Q.kind Q.end_place (endpoint_of endpoint.entry)) chunk.now }
{
    match chunk.as_slice().first() {
        Some(pair) => Q::is_before(Endpoint::Start(&pair.0), endpoint),
        None => true,
    }
}

/// Returns whether the first range of a chunk starts before the given one ends, or there.
pub fn chunk_starts_by_end<Q: Kind<R>, R: KeyRange, V: Eq, A: Allocator>(
    chunk: &Chunk<R, V, A>,
    range: &R,
) -> bool
    ensures { result ≡ chunk_by (shape_of Q.kind Q.end_place V.eq) (Q.end_place range.now) chunk.now }
{
    match chunk.as_slice().first() {
        Some(pair) => starts_by_end::<Q, R, V>(pair, range),
        None => true,
    }
}

/// Returns the only chunk that may have the key. `None` means that none has it.
pub fn chunk_with<'a, Q: Kind<R>, R: KeyRange, V: Eq, A: Allocator>(
    chunks: &'a [Chunk<R, V, A>],
    key: &R::Key,
) -> Option<&'a Chunk<R, V, A>>
    requires { AreChunks Q.kind V.eq chunks.now }
    ensures same { MatchOption result (covering Q.kind (whole chunks.now) key.now ≡ NoneWord)
        (λ chunk. covering Q.kind (whole chunks.now) key.now ≡ covering Q.kind chunk.now key.now) }
    ensures canonical { IfSome result (λ chunk. IsCanonical Q.kind V.eq chunk.now) }
{
    Q::known(key);
    // A single chunk needs no search, even if it starts after the key.
    if chunks.len() <= 1 {
        return chunks.first();
    }
    let sought = Sought { key };
    let count = chunks.partition_point(|chunk| chunk_starts_by::<Q, R, V, A>(chunk, &sought));
    let at = count.checked_sub(1)?;
    Some(&chunks[at])
}

/// Returns the place of the chunk from which on pairs may overlap the range or touch it.
pub fn first_met_chunk<Q: Kind<R>, R: KeyRange, V: Eq, A: Allocator>(
    chunks: &[Chunk<R, V, A>],
    range: &R,
) -> usize
    requires { AreChunks Q.kind V.eq chunks.now }
    ensures bound { result ≤ length chunks.now }
    ensures in_bounds { 0 < length chunks.now → result < length chunks.now }
    ensures clear { IsClearBefore (shape_of Q.kind Q.end_place V.eq) chunks.now range.now result }
    ensures past { IsPastStart (shape_of Q.kind Q.end_place V.eq) chunks.now range.now (result + 1) }
{
    // A single chunk needs no search: none comes before it.
    if chunks.len() <= 1 {
        return 0;
    }
    let count = chunks.partition_point(|chunk| chunk_starts_before::<Q, R, V, A>(
        chunk,
        Endpoint::Start(range),
    ));
    count.saturating_sub(1)
}

/// Returns the first place behind `at` whose item fails the test, of a list in which all that pass it
/// come first. It looks at the next item, and searches only where that one passes.
pub fn first_failing<T, P: Fn(&T) -> bool>(items: &[T], at: usize, passes: P) -> usize
    requires in_bounds { at < length items.now }
    requires callable { P.IsAlwaysCallable passes }
    ensures bound { result ≤ length items.now }
    ensures behind { (test : T → Bool) → ComputesKey P.FnMut test passes
        → IsPartitionedBy test items.now → at < result }
    ensures failing { (test : T → Bool) → ComputesKey P.FnMut test passes
        → IsPartitionedBy test items.now
        → AllWithin (λ item. test item ≡ false) items.now result (length items.now) }
    ensures passing { (test : T → Bool) → ComputesKey P.FnMut test passes
        → IsPartitionedBy test items.now → at + 1 < result
        → AllWithin (λ item. test item ≡ true) items.now 0 result }
{
    let next = at + 1;
    if next < items.len() && passes(&items[next]) {
        return items.partition_point(passes);
    }
    next
}

/// Returns the place of the first chunk behind `at` from which on no pair overlaps the range, where none
/// before the chunk `at` does.
pub fn met_chunks_end<Q: Kind<R>, R: KeyRange, V: Eq, A: Allocator>(
    chunks: &[Chunk<R, V, A>],
    range: &R,
    at: usize,
) -> usize
    requires chunked { AreChunks Q.kind V.eq chunks.now }
    requires in_bounds { at < length chunks.now }
    ensures bound { result ≤ length chunks.now }
    ensures behind { at < result }
    ensures clear { IsPastBehind (shape_of Q.kind Q.end_place V.eq) chunks.now range.now result }
    ensures begun { at + 1 < result
        → AllWithin (λ chunk.
        chunk_below (shape_of Q.kind Q.end_place V.eq) (Q.end_place range.now) chunk ≡ true)
        chunks.now 0 result }
{
    first_failing(
        chunks,
        at,
        |chunk| chunk_starts_before::<Q, R, V, A>(chunk, Endpoint::End(range)),
    )
}

// Whether the pair starts before the range ends, or there.
fn starts_by_end<Q: Kind<R>, R: KeyRange, V: Eq>(pair: &(R, V), range: &R) -> bool
    ensures { result ≡ starts_by (shape_of Q.kind Q.end_place V.eq) (Q.end_place range.now) pair.now }
{
    !Q::is_before(Endpoint::End(range), Endpoint::Start(&pair.0))
}

/// Returns the place of the last pair of a chunk that starts before the range ends, or there. The
/// first one does.
pub fn last_touched<Q: Kind<R>, R: KeyRange, V: Eq, A: Allocator>(
    chunk: &Chunk<R, V, A>,
    range: &R,
) -> usize
    requires canonical { IsCanonical Q.kind V.eq chunk.now }
    requires filled { 0 < length chunk.now }
    requires begun { chunk_by (shape_of Q.kind Q.end_place V.eq) (Q.end_place range.now) chunk.now ≡ true }
    ensures { IsLastTouched (shape_of Q.kind Q.end_place V.eq) range.now chunk.now result }
{
    let pairs = chunk.as_slice();
    let count = pairs.partition_point(|pair| starts_by_end::<Q, R, V>(pair, range));
    count.saturating_sub(1)
}

/// Returns whether a removal may leave more pairs than a `usize` can count, so that it is to be refused.
/// The range overlaps only the chunks at `places`.
pub fn may_overflow<Q: Kind<R>, R: KeyRange, V: Eq, A: Allocator>(
    chunks: &[Chunk<R, V, A>],
    len: usize,
    places: Range<usize>,
    range: &R,
) -> bool
    requires chunked { AreChunks Q.kind V.eq chunks.now }
    requires in_bounds { places.start < length chunks.now }
    requires end { places.end ≤ length chunks.now }
    requires past { IsPastStart (shape_of Q.kind Q.end_place V.eq) chunks.now range.now (places.start + 1) }
    requires begun { places.start + 1 < places.end
        → AllWithin (λ chunk.
        chunk_below (shape_of Q.kind Q.end_place V.eq) (Q.end_place range.now) chunk ≡ true)
        chunks.now 0 places.end }
    requires non_empty { Q.kind.IsNonEmpty range.now }
    ensures alone { overlapped Q.kind (whole chunks.now) range.now ≡ [] → places.end ≤ places.start + 1 }
    ensures refused { result ≡ true → overlapped Q.kind (whole chunks.now) range.now ≡ [] → ⊥ }
    ensures allowed { result ≡ false
        → (len < usize.MAX) ⊎ ((places.end ≤ places.start + 1)
        × (overlapped Q.kind (slice_index_or chunks.now places.start []) range.now ≡ [])) }
{
    let Range { start: at, end } = places;
    known_ends::<Q, R>(range);
    if len < usize::MAX {
        return false;
    }
    if at + 1 < end {
        return true;
    }
    Overlapping::new::<Q>(chunks[at].as_slice(), range)
        .take_first()
        .is_some()
}
