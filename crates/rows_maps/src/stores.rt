//! Maps over each store, as subjects. What lends its pairs for a lifetime is known of a store alone,
//! since no bound can name any lifetime.

use crate::any_steps;
use rangemap::map::Map;
use rangemap_chunked::Chunks;
use rangemap_core::kind::Kind;
use rangemap_core::store::{Store, StoreMut};
use rangemap_sorted::SortedVec;
use rangemap_tree::Tree;
use rows_text::{Fault, FromEnds, Memory, Question, Subject, Word};
use std::ops::Range;

/// A map over any steps, that is asked what every map is.
#[derive(Drop)]
pub struct AnySteps<S: Store> {
    map: Map<S>,
}

impl<S: StoreMut> AnySteps<S> {
    /// The empty map.
    pub fn new(alloc: S::Alloc) -> AnySteps<S> {
        AnySteps {
            map: Map::new_with_step_fns(alloc),
        }
    }
}

impl<Q, R, V, A> Subject for AnySteps<SortedVec<Q, R, V, A>>
where
    Q: Kind<R>,
    R: FromEnds<Key: Word<A>>,
    V: Word<A>,
    A: Memory,
{
    fn renew(&mut self) {
        any_steps::renew(&mut self.map);
    }

    fn change(&mut self, call: &str, granted: u64) -> Result<(), Fault> {
        any_steps::change(&mut self.map, call, granted)
    }

    fn ask(&self, question: &Question<'_>, out: &mut String) -> Result<(), Fault> {
        let query: Option<R> = any_steps::asked_range(*self.map.allocator(), question)?;
        any_steps::answer(&self.map, query.as_ref(), question, out)
    }
}

impl<K, V, A> Subject for AnySteps<Tree<K, V, A>>
where
    K: Word<A>,
    V: Word<A>,
    A: Memory,
{
    fn renew(&mut self) {
        any_steps::renew(&mut self.map);
    }

    fn change(&mut self, call: &str, granted: u64) -> Result<(), Fault> {
        any_steps::change(&mut self.map, call, granted)
    }

    fn ask(&self, question: &Question<'_>, out: &mut String) -> Result<(), Fault> {
        let query: Option<Range<K>> = any_steps::asked_range(*self.map.allocator(), question)?;
        any_steps::answer(&self.map, query.as_ref(), question, out)
    }
}

impl<Q, R, V, A, const N: usize> Subject for AnySteps<Chunks<Q, R, V, A, N>>
where
    Q: Kind<R>,
    R: FromEnds<Key: Word<A>>,
    V: Word<A>,
    A: Memory,
{
    fn renew(&mut self) {
        any_steps::renew(&mut self.map);
    }

    fn change(&mut self, call: &str, granted: u64) -> Result<(), Fault> {
        any_steps::change(&mut self.map, call, granted)
    }

    fn ask(&self, question: &Question<'_>, out: &mut String) -> Result<(), Fault> {
        let query: Option<R> = any_steps::asked_range(*self.map.allocator(), question)?;
        any_steps::answer(&self.map, query.as_ref(), question, out)
    }
}
