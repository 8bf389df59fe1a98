//! Sets over each store, as subjects. What lends its pairs for a lifetime is known of a store alone,
//! since no bound can name any lifetime.

use crate::any_steps;
use rangemap::set::Set;
use rangemap_chunked::Chunks;
use rangemap_core::kind::Kind;
use rangemap_core::store::{Store, StoreMut};
use rangemap_sorted::SortedVec;
use rangemap_tree::Tree;
use rows_text::{Fault, FromEnds, Memory, Question, Subject, Word};

/// A set over any steps, that is asked what every set is.
#[derive(Drop)]
pub struct AnySteps<S: Store<Value = ()>> {
    set: Set<S>,
}

impl<S: StoreMut<Value = ()>> AnySteps<S> {
    /// The empty set.
    pub fn new(alloc: S::Alloc) -> AnySteps<S> {
        AnySteps {
            set: Set::new_with_step_fns(alloc),
        }
    }
}

impl<Q, R, A> Subject for AnySteps<SortedVec<Q, R, (), A>>
where
    Q: Kind<R>,
    R: FromEnds<Key: Word<A>>,
    A: Memory,
{
    fn renew(&mut self) {
        any_steps::renew(&mut self.set);
    }

    fn change(&mut self, call: &str, granted: u64) -> Result<(), Fault> {
        any_steps::change(&mut self.set, call, granted)
    }

    fn ask(&self, question: &Question<'_>, out: &mut String) -> Result<(), Fault> {
        let asked = any_steps::read_asked(*self.set.allocator(), question)?;
        any_steps::answer(&self.set, &asked, question, out)
    }
}

impl<K, A> Subject for AnySteps<Tree<K, (), A>>
where
    K: Word<A>,
    A: Memory,
{
    fn renew(&mut self) {
        any_steps::renew(&mut self.set);
    }

    fn change(&mut self, call: &str, granted: u64) -> Result<(), Fault> {
        any_steps::change(&mut self.set, call, granted)
    }

    fn ask(&self, question: &Question<'_>, out: &mut String) -> Result<(), Fault> {
        let asked = any_steps::read_asked(*self.set.allocator(), question)?;
        any_steps::answer(&self.set, &asked, question, out)
    }
}

impl<Q, R, A, const N: usize> Subject for AnySteps<Chunks<Q, R, (), A, N>>
where
    Q: Kind<R>,
    R: FromEnds<Key: Word<A>>,
    A: Memory,
{
    fn renew(&mut self) {
        any_steps::renew(&mut self.set);
    }

    fn change(&mut self, call: &str, granted: u64) -> Result<(), Fault> {
        any_steps::change(&mut self.set, call, granted)
    }

    fn ask(&self, question: &Question<'_>, out: &mut String) -> Result<(), Fault> {
        let asked = any_steps::read_asked(*self.set.allocator(), question)?;
        any_steps::answer(&self.set, &asked, question, out)
    }
}
