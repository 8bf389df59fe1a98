//! Work on all pairs of a store, or of two, written once for every store.
ghost use Rattle.std.specs.Prelude.{List, ⊤};

use crate::cursor::{Cursor, Peek};
use crate::key_range::KeyRange;

/// Reads pairs, one after another. It changes a state and returns something.
///
/// A store hands its pairs to a reader (`Store::read`, `Store::read_overlapping`), since code over any
/// store can't name the iterators that it lends: hash, texts, the JSON form, `overlaps`, `covers` and the
/// appends of containers are readers.
pub trait Reader<R: KeyRange, V> {
    /// What it changes.
    type State;

    /// What it returns.
    type Answer;

    /// What it requires of the pairs and of its state.
    ghost may_read: { List (R × V) → Self.State → Type 0 } = { λ _ _. ⊤ };

    /// What it makes of a list of pairs: the state before, the result, and the state after.
    ghost reads: { List (R × V) → Self.State → Self.Answer → Self.State → Type 0 };

    /// Reads the pairs.
    ///
    /// # Requires
    ///
    /// What `may_read` says of the pairs and of the state.
    fn read<C: Cursor<Range = R, Value = V, Given: Drop, GivenValue: Drop>>(
        pairs: C,
        state: &mut Self::State,
    ) -> Self::Answer
        requires { may_read (C.left pairs) state.old }
        ensures { reads (C.left pairs) state.old result state.new };
}

/// Reads the pairs of two stores side by side (`Store::read_both`): equality, order, and `|`, `&` and
/// `-` of sets.
pub trait ReaderOfBoth<R: KeyRange, V> {
    /// What it changes.
    type State;

    /// What it returns.
    type Answer;

    /// What it requires of the pairs of either store and of its state.
    ghost may_read: { List (R × V) → List (R × V) → Self.State → Type 0 } = { λ _ _ _. ⊤ };

    /// What it makes of two lists of pairs: the state before, the result, and the state after.
    ghost reads: { List (R × V) → List (R × V) → Self.State → Self.Answer → Self.State → Type 0 };

    /// Reads the pairs of either.
    ///
    /// # Requires
    ///
    /// What `may_read` says of the pairs of either and of the state.
    fn read<C: Peek<Range = R, Value = V>>(
        left: C,
        right: C,
        state: &mut Self::State,
    ) -> Self::Answer
        requires { may_read (C.left left) (C.left right) state.old }
        ensures { reads (C.left left) (C.left right) state.old result state.new };
}
