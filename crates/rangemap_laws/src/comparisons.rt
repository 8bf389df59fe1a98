//! When containers are equal, and how equality, order and hash hang together.
ghost use Rattle.std.specs.Prelude.{◌≡◌, ◌↔◌, fold, not, IsTrue, List};
ghost use Rattle.std.specs.declared.cmp.Ordering.TheVariants.{Equal as EqualWord};
ghost use Rattle.rangemap_core.specs.Ranges.{Alike, IsCanonical, same_pairs, value_at};

use rangemap::container::Container;
use rangemap_core::key_range::KeyRange;
use rangemap_core::kind::Kind;
use std::cmp::Ordering;
use std::hash::{Hash, Hasher};

/// Canonical lists are equal pair by pair exactly if their point functions are alike. This holds for
/// half-open ranges over any order, and for closed ranges over any order whose steps tell the neighbours
/// of keys. So a point function has at most one canonical list, which does not depend on the calls that
/// led to it.
pub fn lists_are_unique<Q: Kind<R>, R: KeyRange, V: Eq>()
    ensures { (left right : List (R × V))
        → IsCanonical Q.kind V.eq left
        → IsCanonical Q.kind V.eq right
        → (IsTrue (same_pairs Q.kind V.eq left right)
        ↔ Alike Q.kind V.eq (value_at Q.kind left) (value_at Q.kind right)) }
{}

/// Two containers are equal exactly if they give equal answers at every key. Returns what `==` and `!=`
/// do.
pub fn equal_exactly_when_alike<M: Container>(left: &M, right: &M) -> (bool, bool)
    ensures answer { result.0 ≡ M.eq left.now right.now }
    ensures other_answer { result.1 ≡ not result.0 }
    ensures equal { result.0 ≡ same_pairs M.Kind.kind M.Value.eq (M.pairs left.now) (M.pairs right.now) }
    ensures alike { IsTrue result.0
        ↔ Alike M.Kind.kind M.Value.eq
        (value_at M.Kind.kind (M.pairs left.now)) (value_at M.Kind.kind (M.pairs right.now)) }
{
    left.known();
    right.known();
    (left == right, left != right)
}

/// Equality agrees with order: two containers are equal exactly if neither is less. Returns what `==`
/// and `cmp` do.
pub fn equality_agrees_with_order<M: Container + Ord>(left: &M, right: &M) -> (bool, Ordering)
    ensures equal { result.0 ≡ same_pairs M.Kind.kind M.Value.eq (M.pairs left.now) (M.pairs right.now) }
    ensures order { result.1 ≡ M.cmp left.now right.now }
    ensures agree { IsTrue result.0 ↔ (result.1 ≡ EqualWord) }
{
    (left == right, left.cmp(right))
}

/// Equal containers hash alike: two hashers in the same state are in the same state after they were fed.
pub fn equal_containers_hash_alike<M: Container + Hash, H: Hasher>(
    left: &M,
    right: &M,
    left_state: &mut H,
    right_state: &mut H,
)
    requires equal { IsTrue (same_pairs M.Kind.kind M.Value.eq (M.pairs left.now) (M.pairs right.now)) }
    requires same_state { left_state.old ≡ right_state.old }
    ensures fed_left { left_state.new ≡ fold H.write left_state.old (M.hash_input left.now) }
    ensures fed_right { right_state.new ≡ fold H.write right_state.old (M.hash_input right.now) }
    ensures alike { left_state.new ≡ right_state.new }
{
    left.hash(left_state);
    right.hash(right_state);
}
