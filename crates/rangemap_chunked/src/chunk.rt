//! A chunk: pairs in one vector.
//!
//! That its pairs are canonical is said by the store, and not here, as `SortedVec` says it of its own:
//! an iterator over chunks would have to name the kind of their ranges then, and the check takes few
//! such iterators in one function.
ghost use Rattle.std.specs.Prelude.{◌≡◌, ◌≤◌, ◌<◌, ◌+◌, true, [], ◌++◌, ◌∷◌, length, take, drop, vec_len, vec_capacity, IfOk, IsOk, OnErr, OnOk, None as NoneWord};
ghost use Rattle.std.specs.Vec.Iter.{into_iter_items};
ghost use Rattle.rangemap_core.specs.Clones.{KeysCloneFaithfully, ValuesCloneFaithfully};
ghost use Rattle.rangemap_core.specs.Ranges.{IsCanonical, IsCanonOf, overlapped, same_pairs, value_at};
ghost use Rattle.rangemap_sorted.specs.Changes.{IsChanged, grown};

use rangemap_core::key_range::KeyRange;
use rangemap_core::kind::Kind;
use rangemap_sorted::entries::changes;
use rangemap_sorted::entries::clones::clone_pairs;
use rangemap_sorted::splice::cut;
use std::alloc::{AllocError, Allocator};
use std::marker::Model;
use std::vec;

// The fewest pairs that a chunk keeps room for when it gives room back.
const LEAST_ROOM: usize = 32;

/// Pairs of a range and a value in one vector.
#[derive(Drop)]
pub struct Chunk<R, V, A: Allocator> {
    pairs: Vec<(R, V), A>,
}

impl<R, V, A: Allocator> Model for Chunk<R, V, A> {
    ghost use Rattle.std.specs.Prelude.{List};

    ghost Value = { List (R × V) };

    ghost view = { λ s. s.pairs.items };
}

impl<R, V, A: Allocator> Chunk<R, V, A> {
    /// Returns the empty chunk, whose memory comes from `alloc`. It takes none yet.
    pub fn empty(alloc: A) -> Self
        ensures { result ≡ [] }
    {
        Chunk {
            pairs: Vec::new(alloc),
        }
    }

    /// Returns the number of pairs.
    pub fn len(&self) -> usize
        ensures { result ≡ length self.now }
    {
        self.pairs.len()
    }

    /// Returns the pairs.
    pub fn as_slice(&self) -> &[(R, V)]
        ensures { result.now ≡ self.now }
    {
        self.pairs.as_slice()
    }

    /// Hands the pairs over.
    pub fn into_pairs(self) -> vec::IntoIter<(R, V), A>
        ensures { into_iter_items result ≡ self }
    {
        let Chunk { pairs } = self;
        pairs.into_iter()
    }

    /// Takes the pairs from the place `at` on out, as a chunk of their own. None is cloned.
    ///
    /// # Errors
    ///
    /// Memory was refused: then the chunk is as it was.
    pub fn split_off(&mut self, at: usize) -> Result<Self, AllocError>
    where
        A: Clone,
        requires { at ≤ length self.old }
        ensures ok { OnOk result (self.new ≡ take at self.old) }
        ensures rest { IfOk result (λ rest. rest ≡ drop at self.old) }
        ensures err { OnErr result (self.new ≡ self.old) }
    {
        let pairs = self.pairs.split_off(at)?;
        Ok(Chunk { pairs })
    }

    /// Moves the pairs of `other` behind those of this chunk. None is cloned.
    ///
    /// # Errors
    ///
    /// Memory was refused: then both chunks are as they were.
    pub fn append(&mut self, other: &mut Self) -> Result<(), AllocError>
        ensures ok { OnOk result ((self.new ≡ self.old ++ other.old) × (other.new ≡ [])) }
        ensures err { OnErr result ((self.new ≡ self.old) × (other.new ≡ other.old)) }
    {
        self.pairs.append(&mut other.pairs)
    }

    /// Gives room back where at most half of it, and one pair, is used, as after a growth, which doubles
    /// it, or after removals. What stays is room for a third more pairs than there are, for no more than
    /// `most`, no fewer than `LEAST_ROOM`, and never fewer than there are. An empty chunk keeps its room,
    /// since it is dropped next. A refusal changes nothing.
    pub fn give_room_back(&mut self, most: usize)
        ensures { self.new ≡ self.old }
    {
        let room = self.pairs.capacity();
        let len = self.pairs.len();
        if 0 < len && LEAST_ROOM < room && len <= room / 2 + 1 {
            self.pairs
                .shrink_to((len + len / 3).min(most).max(LEAST_ROOM));
        }
    }
}

impl<R: KeyRange, V: Eq + Clone, A: Allocator> Chunk<R, V, A> {
    /// Gives every key of `range` the `value`, or takes it out where there is none.
    ///
    /// # Errors
    ///
    /// Memory or a clone of a key or value was refused: then the chunk is as it was.
    pub fn change<Q: Kind<R>>(&mut self, range: R, value: Option<V>) -> Result<(), AllocError>
        requires canonical { IsCanonical Q.kind V.eq self.old }
        requires non_empty { Q.kind.IsNonEmpty range }
        requires faithful_keys { KeysCloneFaithfully R.Key.is_clone R.Key.cmp }
        requires faithful_values { ValuesCloneFaithfully V.is_clone V.eq }
        ensures ok { OnOk result (IsChanged Q.kind V.eq (value_at Q.kind self.old) range value self.new) }
        ensures err { OnErr result (self.new ≡ self.old) }
        ensures growth { OnOk result (length self.new ≤ length self.old + grown value) }
        ensures growth_where_all_are_equal { OnOk result (((v w : V) → V.eq v w ≡ true)
            → length self.new ≤ length self.old + 1) }
        ensures meets_nothing { value ≡ NoneWord → overlapped Q.kind self.old range ≡ []
            → IsOk result × (self.new ≡ self.old) }
    {
        changes::change::<Q, R, V, A>(&mut self.pairs, range, value)
    }

    /// Does what `change` does in this chunk with one pair more: that of `other` at `place`, which is
    /// moved behind all. The pairs of `other` before it are dropped.
    ///
    /// # Requires
    ///
    /// The pairs of this chunk and the one of `other` are a canonical list.
    ///
    /// # Errors
    ///
    /// As for `change`: then both chunks are as they were.
    pub fn change_with<Q: Kind<R>>(
        &mut self,
        other: &mut Self,
        place: usize,
        range: R,
        value: Option<V>,
    ) -> Result<(), AllocError>
        requires in_bounds { place < length other.old }
        requires canonical { IsCanonical Q.kind V.eq (self.old ++ take 1 (drop place other.old)) }
        requires non_empty { Q.kind.IsNonEmpty range }
        requires faithful_keys { KeysCloneFaithfully R.Key.is_clone R.Key.cmp }
        requires faithful_values { ValuesCloneFaithfully V.is_clone V.eq }
        ensures ok { OnOk result (IsChanged Q.kind V.eq
            (value_at Q.kind (self.old ++ take 1 (drop place other.old))) range value self.new) }
        ensures rest { OnOk result (other.new ≡ drop (place + 1) other.old) }
        ensures err { OnErr result ((self.new ≡ self.old) × (other.new ≡ other.old)) }
        ensures growth { OnOk result (length self.new ≤ length self.old + 1 + grown value) }
        ensures growth_where_all_are_equal { OnOk result (((v w : V) → V.eq v w ≡ true)
            → length self.new ≤ length self.old + 2) }
    {
        let pairs = &mut self.pairs;
        let others = &mut other.pairs;
        pairs.reserve(1)?;
        pairs.push_reserved(others.remove(place));
        let Ok(()) = changes::change::<Q, R, V, A>(pairs, range, value) else {
            // The pair goes back to its place in `other`, which has the room that it left.
            if let Some(pair) = pairs.pop() {
                insert_reserved(others, place, pair);
            }
            return Err(AllocError);
        };
        cut(others, 0..place);
        Ok(())
    }

    /// Makes an equal chunk out of clones, in memory of a clone of the allocator.
    ///
    /// # Errors
    ///
    /// Memory or a clone was refused.
    pub fn copy<Q: Kind<R>>(&self) -> Result<Self, AllocError>
    where
        A: Clone,
        requires canonical { IsCanonical Q.kind V.eq self.now }
        requires faithful_keys { KeysCloneFaithfully R.Key.is_clone R.Key.cmp }
        requires faithful_values { ValuesCloneFaithfully V.is_clone V.eq }
        ensures same { IfOk result (λ copy. same_pairs Q.kind V.eq self.now copy ≡ true) }
        ensures canon { IfOk result (λ copy. IsCanonOf Q.kind V.eq (value_at Q.kind self.now) copy) }
    {
        let alloc = self.pairs.allocator().clone()?;
        let pairs = clone_pairs::<Q, R, V, A>(alloc, &self.pairs)?;
        Ok(Chunk { pairs })
    }
}

/// Puts a value in at a place of a vector that has room for it.
pub fn insert_reserved<T, A: Allocator>(list: &mut Vec<T, A>, place: usize, value: T)
    requires in_bounds { place ≤ length list.old.items }
    requires room { vec_len list.old < vec_capacity list.old }
    ensures { list.new.items ≡ take place list.old.items ++ value ∷ drop place list.old.items }
{
    list.push_reserved(value);
    list[place..].rotate_right(1);
}
