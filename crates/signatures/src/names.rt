//! What the library has of its own: laws, replays and their calls, runs of commands, and what code
//! over any container names.

use rangemap::tree_map::Container;
use rangemap_laws::comparisons;
use std::alloc::{AllocError, Global};
use std::ops::Range;

// the structs behind the aliases, under the name that each container's module gives them, and what
// containers have in common
pub use rangemap::container::{
    Container as AnyContainer, collect_gaps, insert_pairs, segments, update,
};
pub use rangemap::inclusive_map::Map as MapOfClosedRanges;
pub use rangemap::inclusive_set::Set as SetOfClosedRanges;
pub use rangemap::map::Map;
pub use rangemap::range_set::{Operator as OperatorOfSets, Set as SetOverAnyStore};
pub use rangemap::set::Set;
pub use rangemap::tree_map::Map as MapInTree;
pub use rangemap::tree_set::Set as SetInTree;
pub use rangemap::with_room::MapWithRoom;

// one function, under the name that each container's module gives it, and the calls that it makes
pub use rangemap::inclusive_map::{
    Call as CallOfClosedMaps, Change as ChangeOfClosedMaps, replay as replay_of_closed_maps,
    replay_with_step_fns as replay_of_maps_by_step_fns,
};
pub use rangemap::inclusive_set::{
    Call as CallOfClosedSets, Change as ChangeOfClosedSets, replay as replay_of_closed_sets,
    replay_with_step_fns as replay_of_sets_by_step_fns,
};
pub use rangemap::map::{Call as CallOfMaps, Change as ChangeOfMaps, replay as replay_of_maps};
pub use rangemap::range_set::calls::SetCall;
pub use rangemap::set::{Call as CallOfSets, Change as ChangeOfSets, replay as replay_of_sets};
pub use rangemap::tree_map::{
    Call as CallOfTrees, Change as ChangeOfTrees, replay as replay_of_trees,
};
pub use rangemap::tree_set::{
    Call as CallOfSetsInTrees, Change as ChangeOfSetsInTrees, replay as replay_of_sets_in_trees,
};

// all of these in chunks
pub use rangemap::chunked::inclusive_map::{
    Call as CallOfClosedMapsInChunks, Change as ChangeOfClosedMapsInChunks,
    Map as MapOfClosedRangesInChunks, replay as replay_of_closed_maps_in_chunks,
    replay_with_step_fns as replay_of_maps_in_chunks_by_step_fns,
};
pub use rangemap::chunked::inclusive_set::{
    Call as CallOfClosedSetsInChunks, Change as ChangeOfClosedSetsInChunks,
    Set as SetOfClosedRangesInChunks, replay as replay_of_closed_sets_in_chunks,
    replay_with_step_fns as replay_of_sets_in_chunks_by_step_fns,
};
pub use rangemap::chunked::map::{
    Call as CallOfMapsInChunks, Change as ChangeOfMapsInChunks, Map as MapInChunks,
    replay as replay_of_maps_in_chunks,
};
pub use rangemap::chunked::set::{
    Call as CallOfSetsInChunks, Change as ChangeOfSetsInChunks, Set as SetInChunks,
    replay as replay_of_sets_in_chunks,
};
pub use rangemap::chunked::{
    Map as MapOfChunks, Set as SetOfChunks, replay as replay_of_chunks,
    replay_with_step_fns as replay_of_chunks_by_step_fns,
};

// every law
pub use rangemap_laws::changes::{
    insert_changes_its_range_alone, insert_twice_equals_once, inserts_commute,
    remove_after_insert_equals_remove, remove_changes_its_range_alone,
};
pub use rangemap_laws::comparisons::{
    equal_containers_hash_alike, equal_exactly_when_alike, equality_agrees_with_order,
    lists_are_unique,
};
pub use rangemap_laws::definitions::{
    closed_rows, json_rows, list_rows, query_rows, set_and_text_rows,
};
pub use rangemap_laws::gaps::gaps_and_covered_keys_make_up_a_range;
pub use rangemap_laws::iterators::{
    items_go_to_the_end, next_back_ends_both_ends, next_ends_both_ends, next_ends_tries,
    next_stays_ended, try_next_ends_tries,
};
pub use rangemap_laws::map_round_trips::{Functions, from_iter_of_into_iter_is_equal};
pub use rangemap_laws::overlaps::{
    covers_exactly_where_no_gap_lies, covers_only_where_overlaps, overlaps_exactly_where_covered,
};
pub use rangemap_laws::runs::accepted_runs_answer_alike;
pub use rangemap_laws::set_round_trips::{
    Functions as FunctionsOfSets, from_iter_of_into_iter_is_equal as from_iter_of_a_set_is_equal,
};
pub use rangemap_laws::sets::{
    Operator, absorbs, associates, cancels, closed_operations, commutes, distributes,
    is_either_without_common, is_idempotent, is_subset_exactly_where_nothing_is_left, makes_up,
    turns_over,
};
pub use rangemap_laws::texts::{
    ascii_text, set_texts_are_joined, signed_text, texts_are_joined, unsigned_set_text,
    unsigned_text,
};

// commands on any container
pub use rangemap_laws::commands::{Answer, Command, Outcome, run};

pub fn represented<M: Container<Range = Range<u32>, Value = char>>(
    map: &M,
    query: &Range<u32>,
    out: &mut Vec<(Range<u32>, char), Global>,
    gaps: &mut Vec<Range<u32>, Global>,
) -> Result<(), AllocError> {
    map.append_all(out)?;
    map.append_overlapping(query, out)?;
    map.append_gaps(query, gaps)
}

pub fn laws_alike<M: Container>(left: &M, right: &M) -> (bool, bool) {
    comparisons::equal_exactly_when_alike(left, right)
}
