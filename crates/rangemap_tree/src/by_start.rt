//! Pairs of a half-open range and a value in a B-tree, by the starts of the ranges.
ghost use Rattle.std.specs.Prelude.{◌≡◌, List, [], length, filter, IfOk};
ghost use Rattle.std.specs.BTreeMap.Range.{range_contains, IsLeBy, IsLtBy};
ghost use Rattle.std.specs.Range.Bound.{bound_map, IsForward};
ghost use Rattle.std.specs.Map.Iter.{TakesLast, deref_pair};
ghost use Rattle.std.specs.declared.ops.Bound.TheVariants.{Excluded};
ghost use Rattle.rangemap_core.specs.Clones.{KeysCloneFaithfully};
ghost use Rattle.rangemap_tree.specs.Starts.{AreClones, AreStarts};

use crate::into_iter::IntoIter;
use crate::pairs::Pairs;
use rangemap_core::cursor::Cursor;
use std::alloc::{AllocError, Allocator};
use std::collections::BTreeMap;
use std::marker::Model;
use std::ops::{Bound, Range, RangeBounds};

mod changes;

/// Pairs in order of their starts, which differ. Contracts see the list of the pairs.
///
/// Each stands in the tree at a clone of the start of its range. The tree is made when the first
/// pair comes in, over a clone of the allocator: std's tree does not lend the one that it is given,
/// and the keys that a change takes out need memory too.
#[derive(Drop)]
pub struct ByStart<K: Ord, V, A: Allocator> {
    tree: Option<BTreeMap<K, (Range<K>, V), A>>,
    pub(crate) alloc: A,
}

impl<K: Ord, V, A: Allocator> Model for ByStart<K, V, A> {
    ghost use Rattle.std.specs.Prelude.{List};
    ghost use Rattle.std.specs.Map.{values_of};
    ghost use Rattle.std.specs.declared.ops.Range.{Range as RangeOf};
    ghost use Rattle.rangemap_tree.specs.Starts.{AreKeyed, entries_in};

    ghost Value = { List (RangeOf K × V) };

    ghost view = { λ m. values_of (entries_in m.tree) };

    ghost invariant = { λ m. AreKeyed K.cmp (entries_in m.tree) };
}

impl<K: Ord, V, A: Allocator> ByStart<K, V, A> {
    /// Returns the tree without pairs, whose memory comes from `alloc`. It takes none yet.
    pub fn empty(alloc: A) -> Self
        ensures { result ≡ [] }
    {
        ByStart { tree: None, alloc }
    }

    /// Returns the number of pairs.
    pub fn len(&self) -> usize
        ensures { result ≡ length self.now }
    {
        match &self.tree {
            Some(tree) => tree.len(),
            None => 0,
        }
    }

    /// Returns the pairs, in order.
    pub fn iter(&self) -> Pairs<'_, K, V>
        ensures { result ≡ self.now }
    {
        let entries = match &self.tree {
            Some(tree) => Some(tree.range(..)),
            None => None,
        };
        Pairs {
            ahead: None,
            entries,
        }
    }

    /// Hands the pairs over, in order.
    pub fn into_pairs(self) -> IntoIter<K, V, A>
        ensures { result ≡ self }
    {
        let ByStart { tree, alloc: _ } = self;
        match tree {
            Some(tree) => IntoIter::over(Some(tree.into_values())),
            None => IntoIter::over(None),
        }
    }

    /// Returns the pairs that start within `from` and before `to`, in order.
    pub fn between(&self, from: Bound<&K>, to: &K) -> Pairs<'_, K, V>
        requires { IsForward (IsLeBy K.cmp) (IsLtBy K.cmp) (bound_map (λ x. x.now) from) (Excluded to.now) }
        ensures { result ≡ filter (λ p. range_contains K.cmp
            (bound_map (λ x. x.now) from.entry) (Excluded to.now) p.0.start)
            self.now }
    {
        let entries = match &self.tree {
            Some(tree) => Some(tree.range((from, Bound::Excluded(to)))),
            None => None,
        };
        Pairs {
            ahead: None,
            entries,
        }
    }

    /// Returns the last pair that starts within `starts`, if there is one.
    pub fn last_within<B: RangeBounds<K>>(&self, starts: B) -> Option<(&Range<K>, &V)>
        requires bounds { B.has_bounds starts }
        requires forward { B.is_forward starts (IsLeBy K.cmp) (IsLtBy K.cmp) }
        ensures { (rest : List _) × TakesLast deref_pair
            (filter
            (λ p. range_contains K.cmp (B.start_bound starts) (B.end_bound starts) p.0.start)
            self.now)
            result rest }
    {
        let Some(tree) = &self.tree else {
            return None;
        };
        let (_, (range, value)) = tree.range(starts).next_back()?;
        Some((range, value))
    }
}

impl<K: Ord + Clone, V: Clone, A: Allocator + Clone> ByStart<K, V, A> {
    /// Returns the same pairs, cloned. The tree's memory, now and as it grows, comes from a clone of this
    /// one's allocator; the lists of keys that changes make, and a tree that is made after `clear`, take
    /// theirs from `alloc`.
    ///
    /// # Errors
    ///
    /// The memory of the tree, or a clone of the allocator, of a key or of a value, was refused.
    pub fn copy(&self, alloc: A) -> Result<Self, AllocError>
        requires { KeysCloneFaithfully K.is_clone K.cmp }
        ensures { IfOk result (λ copy. AreClones K.is_clone V.is_clone self.now copy) }
    {
        let tree = match &self.tree {
            Some(tree) => Some(tree.clone()?),
            None => None,
        };
        Ok(ByStart { tree, alloc })
    }
}

impl<K: Ord + Clone, V, A: Allocator + Clone> ByStart<K, V, A> {
    /// Returns clones of the starts of the pairs that start within `from` and before `to`, in order, in
    /// memory of a clone of the allocator.
    ///
    /// # Errors
    ///
    /// The memory of the list, or a clone of the allocator or of a key, was refused.
    pub fn starts_between(&self, from: Bound<&K>, to: &K) -> Result<Vec<K, A>, AllocError>
        requires forward { IsForward (IsLeBy K.cmp) (IsLtBy K.cmp) (bound_map (λ x. x.now) from)
            (Excluded to.now) }
        requires faithful { KeysCloneFaithfully K.is_clone K.cmp }
        ensures { IfOk result (λ starts. AreStarts K.cmp
            (filter (λ p.
            range_contains K.cmp (bound_map (λ x. x.now) from.entry) (Excluded to.now) p.0.start)
            self.now)
            starts.items) }
    {
        let mut starts = Vec::new(self.alloc.clone()?);
        let mut pairs = self.between(from, to);
        'pairs: while let Some((range, _)) = pairs.take_first() {
            starts.push(range.start.clone()?)?;
        }
        Ok(starts)
    }
}
