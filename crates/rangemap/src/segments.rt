//! The parts of a query, in order, each with its value or with none.
ghost use Rattle.std.specs.Prelude.{◌≡◌, ◌&&◌, if◌then◌else◌, IfOk, IsOk, OnOk, Some as SomeWord, false};
ghost use Rattle.rangemap_core.specs.Clones.{KeysCloneFaithfully, ValuesCloneFaithfully};
ghost use Rattle.rangemap_core.specs.Ranges.{IsCanonOf, value_at};
ghost use Rattle.rangemap_core.specs.Segments.{segments_of};

use rangemap_containers::container::Container;
use rangemap_core::common::common;
use rangemap_core::cursor::Cursor;
use rangemap_core::kind::{Endpoint, Kind, known_ends};
use rangemap_core::store::StoreMut;
use rangemap_maps::range_map::Map;
use rangemap_sorted::SortedVec;
use std::alloc::{AllocError, Allocator};
use std::iter::IntoIterator;

/// Returns a map that divides `query` into parts, in memory of `alloc`. A part has `Some(value)` if
/// its keys have this value in the container, and `None` if they have none there. The value of a
/// set is `()`.
///
/// The parts are the pairs that overlap the query, cut to it, and the gaps of the query. Together
/// they have exactly its keys, so each touches the next. The query may be empty or reversed, and
/// then has no parts. Only the two ends of a closed query are read, even if it was iterated.
///
/// It takes *O*(log *n* + *k* log *k*), with *k* stored ranges that the query overlaps. Memory of
/// `alloc` is for clones of these pairs, and for the answer. For each pair up to eight keys and one
/// value are cloned.
///
/// # Requires
///
/// A clone of a key or value compares equal to its original.
///
/// # Errors
///
/// Memory, or a clone of a key, of a value or of `alloc`, was refused. If the query has no key, the
/// call takes no memory and succeeds.
///
/// # Examples
///
/// ```text
/// let map = RangeMap::from(alloc, [(1..3, 'a'), (5..7, 'b')])?;
/// let all = segments(alloc, &map, &(2..9))?;
/// // (2..3, Some('a')), (3..5, None), (5..7, Some('b')), (7..9, None)
/// ```
pub fn segments<M: Container, B: Allocator + Clone>(
    alloc: B,
    container: &M,
    query: &M::Range,
) -> Result<Map<SortedVec<M::Kind, M::Range, Option<M::Value>, B>>, AllocError>
    requires faithful_keys { KeysCloneFaithfully M.Range.Key.is_clone M.Range.Key.cmp }
    requires faithful_values { ValuesCloneFaithfully M.Value.is_clone M.Value.eq }
    ensures parts { IfOk result (IsCanonOf M.Kind.kind ⟦<Option<M::Value> as PartialEq>⟧.eq
        (segments_of M.Kind.kind (value_at M.Kind.kind (M.pairs container.now)) query.now)) }
    ensures of_nothing { ((key : M.Range.Key) → M.Kind.kind.is_key key
        → M.Kind.kind.holds query.now key ≡ false)
        → IsOk result }
{
    known_ends::<M::Kind, M::Range>(query);
    if M::Kind::is_before(Endpoint::Start(query), Endpoint::End(query)) {
        divided(alloc, container, query)
    } else {
        // The query has no key.
        Ok(Map::new_with_step_fns(alloc))
    }
}

// Returns what `segments` does, of any query. It takes a clone of `alloc` even if the query has no key.
fn divided<M: Container, B: Allocator + Clone>(
    alloc: B,
    container: &M,
    query: &M::Range,
) -> Result<Map<SortedVec<M::Kind, M::Range, Option<M::Value>, B>>, AllocError>
    requires faithful_keys { KeysCloneFaithfully M.Range.Key.is_clone M.Range.Key.cmp }
    requires faithful_values { ValuesCloneFaithfully M.Value.is_clone M.Value.eq }
    ensures { IfOk result (IsCanonOf M.Kind.kind ⟦<Option<M::Value> as PartialEq>⟧.eq
        (segments_of M.Kind.kind (value_at M.Kind.kind (M.pairs container.now)) query.now)) }
{
    known_ends::<M::Kind, M::Range>(query);
    container.known();
    let mut found = Vec::new(alloc.clone()?);
    container.append_overlapping(query, &mut found)?;
    let mut all = Map::new_with_step_fns(alloc);
    // First every key of the query has none.
    insert_shared(&mut all, query, query, None)?;
    let mut rest = found.into_iter();
    'pairs: while let Some((range, value)) = rest.take_first() {
        insert_shared(&mut all, query, &range, Some(value))?;
    }
    all.known();
    Ok(all)
}

// Gives the keys that the query and the range share the value. If memory or a clone is refused, nothing
// is promised about the map.
fn insert_shared<S: StoreMut>(
    map: &mut Map<S>,
    query: &S::Range,
    range: &S::Range,
    value: S::Value,
) -> Result<(), AllocError>
    requires faithful_keys { KeysCloneFaithfully S.Range.Key.is_clone S.Range.Key.cmp }
    requires faithful_values { ValuesCloneFaithfully S.Value.is_clone S.Value.eq }
    ensures { OnOk result (IsCanonOf S.Kind.kind S.Value.eq
        (λ key. if S.Kind.kind.holds query.now key && S.Kind.kind.holds range.now key
        then SomeWord value else value_at S.Kind.kind map.old key)
        map.new) }
{
    let Some(shared) = common::<S::Kind, S::Range>(query, range)? else {
        map.known();
        return Ok(());
    };
    map.insert(shared, value)
}
