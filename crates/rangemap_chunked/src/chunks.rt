//! The store in chunks.
use crate::changes::{insert_into, remove_from};
use crate::chunk::Chunk;
use crate::into_iter::IntoIter;
use crate::iter::{Iter, overlapping};
use crate::search::chunk_with;
use rangemap_core::gaps::append_gaps;
use rangemap_core::key_range::KeyRange;
use rangemap_core::kind::{Kind, known_ends};
use rangemap_core::reader::{Reader, ReaderOfBoth};
use rangemap_core::store::{HandsOver, Lends, Store, StoreMut};
use rangemap_sorted::entries::covering;
use rangemap_sorted::overlapping::Overlapping;
use std::alloc::{AllocError, Allocator};
use std::marker::{Model, PhantomData};

/// How many pairs a chunk has at most, in the containers that users name, where memory is not
/// refused.
pub const SIZE: usize = 512;

/// Pairs of a range and a value in chunks, each a sorted vector of up to `N` pairs, or of more where
/// memory was refused for another one.
///
/// A change moves pairs within one chunk, and where that becomes too long or too short, some into a
/// new chunk or out of a neighbour. So it is the store for more than about a thousand ranges that
/// change at random places. Each chunk owns a handle of the allocator, so that has to be one that
/// can be cloned. Of *n* stored ranges, in *c* chunks, *k* meet the range that a call is given:
///
/// | Call | Time | Memory |
/// |---|---|---|
/// | `empty`, `allocator`, `len`, `first`, `last` | *O*(1) | none |
/// | `covering` | *O*(log *n*) | none |
/// | `iter`, `read`, `into_pairs` | *O*(1), and *O*(*n*) for all items | none |
/// | `overlapping`, `read_overlapping` | *O*(log *n*), and *O*(*k*) for all items | none |
/// | `append_gaps` | *O*(log *n* + *k*) | growth, clones |
/// | `insert`, `remove` | *O*(log *n* + *N* + *c*), and drops of *k* pairs | growth of a chunk or of their list, a new chunk, clones of keys, of values and of the allocator |
/// | `clear` | *O*(*n*), as each drop | none |
/// | `copy` | *O*(*n*) | the chunks, clones |
///
/// A change of a wide range drops whole chunks and moves none of their pairs. No chunk is ever
/// empty. The chunk in which an `insert` begins, or a `remove` that alters its size, becomes one with
/// a neighbour where the two have no more than half of `N` together and memory is not refused for
/// that. What stays of the last chunk of a wide change, and the neighbours of one that is dropped, wait
/// for a change of their own.
///
/// For each stored range a `copy` clones two keys and a value, and for each chunk the allocator.
///
/// The pairs are counted by a `usize`. So an `insert` beside more than `usize::MAX - 2` pairs is refused,
/// even one that adds none, and so is a `remove` that might leave more than can be counted. Memory ends
/// long before.
#[derive(Drop)]
pub struct Chunks<Q: Kind<R>, R: KeyRange, V: Eq + Clone, A: Allocator, const N: usize> {
    chunks: Vec<Chunk<R, V, A>, A>,
    len: usize,
    kind: PhantomData<Q>,
}

impl<Q: Kind<R>, R: KeyRange, V: Eq + Clone, A: Allocator, const N: usize> Model
    for Chunks<Q, R, V, A, N> {
    ghost use Rattle.std.specs.Prelude.{◌≡◌, List, length};
    ghost use Rattle.rangemap_chunked.specs.Chunks.{AreChunks, whole};

    ghost Value = { List (R × V) };

    ghost view = { λ m. whole m.chunks.items };

    ghost invariant = { λ m. AreChunks Q.kind V.eq m.chunks.items × (m.len ≡ length (whole m.chunks.items)) };
}

impl<Q: Kind<R>, R: KeyRange, V: Eq + Clone, A: Allocator + Clone, const N: usize> Store
    for Chunks<Q, R, V, A, N> {
    type Range = R;

    type Value = V;

    type Kind = Q;

    type Alloc = A;

    ghost pairs = { λ s. s };

    fn known(&self) {
        // The check knows the invariant of what is read.
        let _len = self.len;
    }

    fn allocator(&self) -> &A {
        self.chunks.allocator()
    }

    fn len(&self) -> usize {
        self.len
    }

    fn covering(&self, key: &R::Key) -> Option<(&R, &V)> {
        let chunk = chunk_with::<Q, R, V, A>(&self.chunks, key)?;
        let pair = covering::<Q, R, V>(chunk.as_slice(), key).0?;
        Some((&pair.0, &pair.1))
    }

    fn first(&self) -> Option<(&R, &V)> {
        let chunk = self.chunks.first()?;
        let pair = chunk.as_slice().first()?;
        Some((&pair.0, &pair.1))
    }

    fn last(&self) -> Option<(&R, &V)> {
        let chunk = self.chunks.last()?;
        let pair = chunk.as_slice().last()?;
        Some((&pair.0, &pair.1))
    }

    fn read<U: Reader<R, V>>(&self, state: &mut U::State) -> U::Answer {
        U::read(Iter::over(&self.chunks), state)
    }

    fn read_both<U: ReaderOfBoth<R, V>>(&self, other: &Self, state: &mut U::State) -> U::Answer {
        U::read(Iter::over(&self.chunks), Iter::over(&other.chunks), state)
    }

    fn read_overlapping<U: Reader<R, V>>(&self, range: &R, state: &mut U::State) -> U::Answer {
        // A single chunk is read as the sorted vector that it is.
        if let [chunk] = self.chunks.as_slice() {
            return U::read(Overlapping::new::<Q>(chunk.as_slice(), range), state);
        }
        U::read(overlapping::<Q, R, V, A>(&self.chunks, range), state)
    }

    fn append_gaps<B: Allocator>(
        &self,
        outer_range: &R,
        out: &mut Vec<R, B>,
    ) -> Result<(), AllocError> {
        known_ends::<Q, R>(outer_range);
        let pairs = overlapping::<Q, R, V, A>(&self.chunks, outer_range);
        append_gaps::<Q, R, Iter<'_, R, V, A>, B>(pairs, outer_range, out)
    }
}

impl<Q: Kind<R>, R: KeyRange, V: Eq + Clone, A: Allocator + Clone, const N: usize> StoreMut
    for Chunks<Q, R, V, A, N> {
    ghost room = { λ _. 0 };

    fn empty(alloc: A) -> Self {
        Chunks {
            chunks: Vec::new(alloc),
            len: 0,
            kind: PhantomData,
        }
    }

    fn insert(&mut self, range: R, value: V) -> Result<(), AllocError> {
        // An insert adds two pairs at most, and `len` has to count them all. Memory ends long before.
        if usize::MAX - 2 < self.len {
            return Err(AllocError);
        }
        let counts = insert_into::<Q, R, V, A, N>(&mut self.chunks, range, value)?;
        self.len = self.len - counts.before + counts.after;
        Ok(())
    }

    fn remove(&mut self, range: R) -> Result<(), AllocError> {
        let counts = remove_from::<Q, R, V, A, N>(&mut self.chunks, self.len, range)?;
        self.len = self.len - counts.before + counts.after;
        Ok(())
    }

    fn clear(&mut self) {
        self.chunks.clear();
        self.len = 0;
    }

    fn copy(&self, alloc: A) -> Result<Self, AllocError> {
        let mut chunks = Vec::with_capacity(alloc, self.chunks.len())?;
        for chunk in &self.chunks {
            chunks.push_reserved(chunk.copy::<Q>()?);
        }
        Ok(Chunks {
            chunks,
            len: self.len,
            kind: PhantomData,
        })
    }
}

impl<Q: Kind<R>, R: KeyRange, V: Eq + Clone, A: Allocator + Clone, const N: usize> HandsOver
    for Chunks<Q, R, V, A, N> {
    ghost use Rattle.std.specs.Prelude.{refl};

    type IntoIter = IntoIter<R, V, A>;

    fn into_pairs(self) -> IntoIter<R, V, A> {
        let Chunks {
            chunks,
            len: _,
            kind: _,
        } = self;
        IntoIter::over(chunks)
    }

    ghost gives = { λ pair. refl };
}

impl<'a, Q: Kind<R>, R: KeyRange, V: Eq + Clone, A: Allocator + Clone, const N: usize> Lends<'a>
    for Chunks<Q, R, V, A, N>
where
    R: 'a,
    V: 'a,
    A: 'a,
    Self::Range: 'a,
    Self::Value: 'a,
{
    ghost use Rattle.std.specs.Prelude.{refl};

    type Iter = Iter<'a, R, V, A>;

    type Overlapping = Iter<'a, R, V, A>;

    fn iter(&'a self) -> Iter<'a, R, V, A> {
        Iter::over(&self.chunks)
    }

    fn overlapping(&'a self, range: &'a R) -> Iter<'a, R, V, A> {
        overlapping::<Q, R, V, A>(&self.chunks, range)
    }

    ghost lends = { λ pair. refl };

    ghost lends_overlapping = { λ pair. refl };
}
