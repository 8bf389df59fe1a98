//! What a hasher is fed of the pairs of a store.
ghost use Rattle.std.specs.Prelude.{◌≡◌, fold};
ghost use Rattle.rangemap_core.specs.Hashes.{pairs_fed};

use rangemap_core::cursor::Cursor;
use rangemap_core::key_range::KeyRange;
use rangemap_core::kind::Kind;
use rangemap_core::reader::Reader;
use rangemap_core::store::Store;
use std::hash::{Hash, Hasher};
use std::marker::PhantomData;

/// Feeds the hasher how many pairs there are, and then each pair's start, end and value.
///
/// The `Hash` of std's closed range is not used: it also feeds whether the range was iterated to
/// its end.
pub fn feed<S: Store<Value: Hash>, H: Hasher>(stored: &S, state: &mut H)
where
    <S::Range as KeyRange>::Key: Hash,
    ensures { state.new ≡ fold H.write state.old
        (pairs_fed S.Kind.kind S.Range.Key.hash_input S.Value.hash_input (S.pairs stored.now)) }
{
    state.write_usize(stored.len());
    stored.read::<Feeding<S::Kind, H>>(state);
}

// Feeds the pairs that it reads to a hasher.
struct Feeding<Q, H>(PhantomData<(Q, H)>);

impl<Q: Kind<R>, R: KeyRange, V: Eq + Hash, H: Hasher> Reader<R, V> for Feeding<Q, H>
where
    R::Key: Hash,
{
    ghost use Rattle.std.specs.Prelude.{◌≡◌, fold, flat_map};
    ghost use Rattle.rangemap_core.specs.Hashes.{pair_fed};

    type State = H;

    type Answer = ();

    ghost reads = { λ pairs old _ new.
        new ≡ fold H.write old (flat_map (pair_fed Q.kind R.Key.hash_input V.hash_input) pairs) };

    fn read<C: Cursor<Range = R, Value = V, Given: Drop, GivenValue: Drop>>(
        pairs: C,
        state: &mut H,
    ) {
        let mut rest = pairs;
        'pairs: while let Some(pair) = rest.take_first() {
            let (range, value) = C::parts(&pair);
            range.start().hash(state);
            range.end().hash(state);
            value.hash(state);
        }
    }
}
