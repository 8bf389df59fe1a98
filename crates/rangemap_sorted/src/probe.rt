//! Stored starts, lent one at a time and counted.
//!
//! A search that is given a `Probe` and a key sees nothing else of the list: neither an end, nor a
//! value, nor a start that it did not ask for. So what the probe counted is all that the search has
//! seen.
ghost use Rattle.std.specs.Prelude.{◌≡◌, ◌+◌, ◌^◌, ◌<◌, length, slice_get};
ghost use Rattle.rangemap_core.specs.engine.Shape.{starts_of};

use rangemap_core::key_range::KeyRange;
use rangemap_core::kind::Kind;
use std::marker::{Model, PhantomData};

/// The starts of a list of pairs, in order, and how many of them were asked for.
#[derive(Drop)]
pub struct Probe<'a, Q: Kind<R>, R: KeyRange, V> {
    pairs: &'a [(R, V)],
    asked: usize,
    kind: PhantomData<Q>,
}

impl<'a, Q: Kind<R>, R: KeyRange, V> Model for Probe<'a, Q, R, V> {
    ghost use Rattle.std.specs.Prelude.{List, ℕ};
    ghost use Rattle.rangemap_core.specs.engine.Shape.{starts_of};

    ghost Value = { List R.Key × ℕ };

    ghost view = { λ p. (starts_of Q.kind p.pairs.now, p.asked) };
}

impl<'a, Q: Kind<R>, R: KeyRange, V> Probe<'a, Q, R, V> {
    /// Returns the starts of the pairs, before any was looked at.
    pub fn new(pairs: &'a [(R, V)]) -> Self
        ensures starts { result.0 ≡ starts_of Q.kind pairs.now }
        ensures fresh { result.1 ≡ 0 }
    {
        Probe {
            pairs,
            asked: 0,
            kind: PhantomData,
        }
    }

    /// Returns how many starts are stored. This asks for none.
    pub fn len(&self) -> usize
        ensures len { result ≡ length self.now.0 }
        ensures fits { result < 2 ^ 64 }
    {
        self.pairs.len()
    }

    /// Lends the start at a place, and counts that it was asked for.
    pub fn start(&mut self, at: usize) -> &'a R::Key
        requires at { at < length self.old.0 }
        requires room { self.old.1 + 1 < 2 ^ 64 }
        ensures start { slice_get self.old.0 at ≡ Some result.now }
        ensures starts { self.new.0 ≡ self.old.0 }
        ensures counted { self.new.1 ≡ self.old.1 + 1 }
    {
        self.asked += 1;
        self.pairs[at].0.start()
    }

    /// Returns how many starts were asked for.
    pub fn asked(&self) -> usize
        ensures { result ≡ self.now.1 }
    {
        self.asked
    }
}
