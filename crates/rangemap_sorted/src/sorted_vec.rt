//! The store in one sorted vector.
ghost use Rattle.std.specs.Prelude.{◌≡◌, [], IfOk};

use crate::entries::clones::clone_pairs;
use crate::entries::{changes, covering};
use crate::overlapping::Overlapping;
use rangemap_core::gaps::append_gaps;
use rangemap_core::key_range::KeyRange;
use rangemap_core::kind::{Kind, known_ends};
use rangemap_core::reader::{Reader, ReaderOfBoth};
use rangemap_core::store::{HandsOver, Lends, Store, StoreMut};
use std::alloc::{AllocError, Allocator};
use std::marker::{Model, PhantomData};
use std::{slice, vec};

/// Pairs of a range and a value in one sorted vector.
///
/// It is the fastest store of up to about a thousand ranges, and wherever ranges come in order. Of
/// *n* stored ranges, *k* meet the range that a call is given:
///
/// | Call | Time | Memory |
/// |---|---|---|
/// | `empty`, `allocator`, `len`, `first`, `last` | *O*(1) | none |
/// | `covering` | *O*(log *n*) | none |
/// | `iter`, `read`, `into_pairs` | *O*(1), and *O*(*n*) for all items | none |
/// | `overlapping`, `read_overlapping` | *O*(log *n*), and *O*(*k*) for all items | none |
/// | `append_gaps` | *O*(log *n* + *k*) | growth, clones |
/// | `insert`, `remove` | *O*(*n*): a search, and a move of the pairs behind | growth, clones |
/// | `clear` | *O*(*n*), as each drop | none |
/// | `copy` | *O*(*n*) | the vector, clones |
///
/// The first pair asks for room for twelve, and a growth doubles it. `clear` keeps the room for later
/// inserts, and it is given back where the container is dropped. A `copy` has room for the pairs that
/// there are, and for each clones two keys and a value.
#[derive(Drop)]
pub struct SortedVec<Q: Kind<R>, R: KeyRange, V: Eq + Clone, A: Allocator> {
    pairs: Vec<(R, V), A>,
    kind: PhantomData<Q>,
}

impl<Q: Kind<R>, R: KeyRange, V: Eq + Clone, A: Allocator> Model for SortedVec<Q, R, V, A> {
    ghost use Rattle.std.specs.Prelude.{List, ℕ, vec_capacity};
    ghost use Rattle.rangemap_core.specs.Ranges.{IsCanonical};

    ghost Value = { List (R × V) × ℕ };

    ghost view = { λ s. (s.pairs.items, vec_capacity s.pairs) };

    ghost invariant = { λ s. IsCanonical Q.kind V.eq s.pairs.items };
}

impl<Q: Kind<R>, R: KeyRange, V: Eq + Clone, A: Allocator> SortedVec<Q, R, V, A> {
    /// Returns the empty store with room for `room` pairs. If clones are never refused, a change succeeds as
    /// long as two more pairs have room.
    ///
    /// # Errors
    ///
    /// Memory was refused.
    pub fn with_room(alloc: A, room: usize) -> Result<Self, AllocError>
        ensures { IfOk result (λ made. made ≡ ([], room)) }
    {
        Ok(SortedVec {
            pairs: Vec::with_capacity(alloc, room)?,
            kind: PhantomData,
        })
    }

    /// Returns for how many pairs there is room.
    pub fn room(&self) -> usize
        ensures { result ≡ self.now.1 }
    {
        self.pairs.capacity()
    }
}

impl<Q: Kind<R>, R: KeyRange, V: Eq + Clone, A: Allocator> Store for SortedVec<Q, R, V, A> {
    type Range = R;

    type Value = V;

    type Kind = Q;

    type Alloc = A;

    ghost pairs = { λ s. s.0 };

    fn known(&self) {
        // The check knows the invariant of what is read.
        let _pairs = &self.pairs;
    }

    fn allocator(&self) -> &A {
        self.pairs.allocator()
    }

    fn len(&self) -> usize {
        self.pairs.len()
    }

    fn covering(&self, key: &R::Key) -> Option<(&R, &V)> {
        let pair = covering::<Q, R, V>(&self.pairs, key).0?;
        Some((&pair.0, &pair.1))
    }

    fn first(&self) -> Option<(&R, &V)> {
        let pair = self.pairs.first()?;
        Some((&pair.0, &pair.1))
    }

    fn last(&self) -> Option<(&R, &V)> {
        let pair = self.pairs.last()?;
        Some((&pair.0, &pair.1))
    }

    fn read<U: Reader<R, V>>(&self, state: &mut U::State) -> U::Answer {
        U::read(self.pairs.iter(), state)
    }

    fn read_both<U: ReaderOfBoth<R, V>>(&self, other: &Self, state: &mut U::State) -> U::Answer {
        U::read(self.pairs.iter(), other.pairs.iter(), state)
    }

    fn read_overlapping<U: Reader<R, V>>(&self, range: &R, state: &mut U::State) -> U::Answer {
        U::read(Overlapping::new::<Q>(&self.pairs, range), state)
    }

    fn append_gaps<B: Allocator>(
        &self,
        outer_range: &R,
        out: &mut Vec<R, B>,
    ) -> Result<(), AllocError> {
        known_ends::<Q, R>(outer_range);
        let pairs = Overlapping::new::<Q>(&self.pairs, outer_range);
        append_gaps::<Q, R, Overlapping<'_, R, V>, B>(pairs, outer_range, out)
    }
}

impl<Q: Kind<R>, R: KeyRange, V: Eq + Clone, A: Allocator> StoreMut for SortedVec<Q, R, V, A> {
    ghost room = { λ s. s.1 };

    fn empty(alloc: A) -> Self {
        SortedVec {
            pairs: Vec::new(alloc),
            kind: PhantomData,
        }
    }

    fn insert(&mut self, range: R, value: V) -> Result<(), AllocError> {
        changes::change::<Q, R, V, A>(&mut self.pairs, range, Some(value))
    }

    fn remove(&mut self, range: R) -> Result<(), AllocError> {
        changes::change::<Q, R, V, A>(&mut self.pairs, range, None)
    }

    fn clear(&mut self) {
        self.pairs.clear();
    }

    fn copy(&self, alloc: A) -> Result<Self, AllocError> {
        Ok(SortedVec {
            pairs: clone_pairs::<Q, R, V, A>(alloc, &self.pairs)?,
            kind: PhantomData,
        })
    }
}

impl<Q: Kind<R>, R: KeyRange, V: Eq + Clone, A: Allocator> HandsOver for SortedVec<Q, R, V, A> {
    ghost use Rattle.std.specs.Prelude.{refl};

    type IntoIter = vec::IntoIter<(R, V), A>;

    fn into_pairs(self) -> vec::IntoIter<(R, V), A> {
        let SortedVec { pairs, kind: _ } = self;
        pairs.into_iter()
    }

    ghost gives = { λ pair. refl };
}

impl<'a, Q: Kind<R>, R: KeyRange, V: Eq + Clone, A: Allocator> Lends<'a> for SortedVec<Q, R, V, A>
where
    R: 'a,
    V: 'a,
    Self::Range: 'a,
    Self::Value: 'a,
{
    ghost use Rattle.std.specs.Prelude.{refl};

    type Iter = slice::Iter<'a, (R, V)>;

    type Overlapping = Overlapping<'a, R, V>;

    fn iter(&'a self) -> slice::Iter<'a, (R, V)> {
        self.pairs.iter()
    }

    fn overlapping(&'a self, range: &'a R) -> Overlapping<'a, R, V> {
        Overlapping::new::<Q>(&self.pairs, range)
    }

    ghost lends = { λ pair. refl };

    ghost lends_overlapping = { λ pair. refl };
}
