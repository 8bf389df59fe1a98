//! What is put into a tree of pairs, and taken out.
ghost use Rattle.std.specs.Prelude.{◌≡◌, ◌∷◌, ◌++◌, [], filter, IfErr, IsOk, None as NoneWord, OnErr, OnOk};
ghost use Rattle.std.specs.BTreeMap.{insert_entry, IsOrdered};
ghost use Rattle.std.specs.BTreeMap.Range.{range_contains};
ghost use Rattle.std.specs.declared.ops.Bound.TheVariants.{Excluded, Included};
ghost use Rattle.std.specs.declared.cmp.Ordering.TheVariants.{Equal, Less};
ghost use Rattle.rangemap_tree.specs.Starts.{AreStarts, before, from, past, piece_list, recut, with_piece, without, without_all, IsCutThere, IsKeyed, IsNewAt, IsRecut};

use super::ByStart;
use crate::pieces::{Keyed, Remains};
use std::alloc::{AllocError, Allocator};
use std::collections::BTreeMap;
use std::ops::Range;

impl<K: Ord + Drop, V: Drop, A: Allocator> ByStart<K, V, A> {
    /// Drops all pairs.
    pub fn clear(&mut self)
        ensures { self.new ≡ [] }
    {
        self.tree = None;
    }

    // Takes the pair out that starts at `key`, if one does.
    fn take(&mut self, key: &K)
        ensures { self.new ≡ without K.cmp key.now self.old }
    {
        if let Some(tree) = &mut self.tree {
            // `len` tells that the keys of a tree at hand are in order.
            let _ = tree.len();
            tree.remove(key);
        }
    }

    // Takes out each pair that starts at one of the keys.
    fn take_all(&mut self, keys: &[K])
        ensures { self.new ≡ without_all K.cmp keys.now self.old }
    {
        let mut rest = keys;
        'keys: while let Some((first, others)) = rest.split_first() {
            self.take(first);
            rest = others;
        }
    }

    // Gives the pair that starts where the range does that range, if there is one. It takes no
    // memory.
    fn recut(&mut self, cut: Option<Range<K>>)
        ensures { IsRecut K.cmp cut self.old self.new }
    {
        let Some(range) = cut else {
            return;
        };
        if let Some(tree) = &mut self.tree {
            if let Some(pair) = tree.get_mut(&range.start) {
                pair.0 = range;
            }
        }
    }
}

impl<K: Ord + Drop, V: Drop, A: Allocator + Clone> ByStart<K, V, A> {
    // Puts a pair in, in the place of one that starts where it does. `key` is a clone of its start.
    // Where the memory or a clone of the allocator is refused, the range is given back.
    fn put(&mut self, key: K, range: Range<K>, value: V) -> Result<(), Range<K>>
        requires { K.cmp key range.start ≡ Equal }
        ensures ok { OnOk result
            (self.new ≡ before K.cmp key self.old ++ (range, value) ∷ past K.cmp key self.old) }
        ensures err { OnErr result (self.new ≡ self.old) }
        ensures given_back { IfErr result (λ refused. refused ≡ range) }
    {
        if let Some(tree) = &mut self.tree {
            return insert(tree, key, range, value);
        }
        let Ok(alloc) = self.alloc.clone() else {
            return Err(range);
        };
        let mut tree = BTreeMap::new(alloc);
        insert(&mut tree, key, range, value)?;
        self.tree = Some(tree);
        Ok(())
    }

    // Puts the piece in, if there is one.
    fn put_piece(&mut self, piece: Option<Keyed<K, V>>) -> Result<(), AllocError>
        requires { IsKeyed K.cmp piece }
        ensures ok { OnOk result (self.new ≡ with_piece K.cmp piece self.old) }
        ensures err { OnErr result (self.new ≡ self.old) }
        ensures none_refused { piece ≡ NoneWord → IsOk result }
    {
        let Some((key, (range, value))) = piece else {
            return Ok(());
        };
        self.put(key, range, value).map_err(|_| AllocError)
    }

    /// Puts a pair in the place of those that start within its range, with what `remains` of stored ones
    /// in front of it and behind it. `key` is a clone of where it starts, and `starts` are those of the
    /// others that go: one that starts where the range does gives its place up.
    ///
    /// # Errors
    ///
    /// The memory, or a clone of the allocator, was refused: then nothing changed.
    pub fn replace(
        &mut self,
        key: K,
        range: Range<K>,
        value: V,
        remains: Remains<K, V>,
        starts: &[K],
    ) -> Result<(), AllocError>
        requires key { K.cmp key range.start ≡ Equal }
        requires non_empty { K.cmp range.start range.end ≡ Less }
        requires cut { IsCutThere K.cmp range.start remains.cut self.old }
        requires piece { IsNewAt K.cmp range.end remains.piece self.old }
        requires starts { AreStarts K.cmp
            (filter
            (λ p. range_contains K.cmp (Excluded range.start) (Excluded range.end) p.0.start)
            self.old)
            starts.now }
        ensures ok { OnOk result (self.new ≡ recut remains.cut (before K.cmp range.start self.old)
            ++ (range, value) ∷ (piece_list remains.piece ++ from K.cmp range.end self.old)) }
        ensures err { OnErr result (self.new ≡ self.old) }
    {
        let Remains { cut, piece } = remains;
        let has_piece = piece.is_some();
        self.put_piece(piece)?;
        if let Err(range) = self.put(key, range, value) {
            // No pair started where the range ends, and the piece does.
            if has_piece {
                self.take(&range.end);
            }
            return Err(AllocError);
        }
        self.take_all(starts);
        self.recut(cut);
        Ok(())
    }

    /// Takes out the pairs that start within a range, at `starts`, cuts the one before it and puts in what
    /// is left behind it, as `remains` says. The contract alone reads `range`.
    ///
    /// # Errors
    ///
    /// As for `replace`. Where there is no piece to put in, it is not refused.
    pub fn erase(
        &mut self,
        range: &Range<K>,
        remains: Remains<K, V>,
        starts: &[K],
    ) -> Result<(), AllocError>
        requires non_empty { K.cmp range.now.start range.now.end ≡ Less }
        requires in_order { before K.cmp range.now.start self.old
            ++ from K.cmp range.now.start self.old ≡ self.old }
        requires cut { IsCutThere K.cmp range.now.start remains.cut self.old }
        requires piece { IsNewAt K.cmp range.now.end remains.piece self.old }
        requires starts { AreStarts K.cmp
            (filter (λ p.
            range_contains K.cmp (Included range.now.start) (Excluded range.now.end) p.0.start)
            self.old)
            starts.now }
        ensures ok { OnOk result
            (self.new ≡ recut remains.cut (before K.cmp range.now.start self.old)
            ++ (piece_list remains.piece ++ from K.cmp range.now.end self.old)) }
        ensures err { OnErr result (self.new ≡ self.old) }
        ensures none_refused { remains.piece ≡ NoneWord → IsOk result }
    {
        let Remains { cut, piece } = remains;
        self.put_piece(piece)?;
        self.take_all(starts);
        self.recut(cut);
        Ok(())
    }
}

// Puts a pair into a tree, at its key, or gives its range back.
fn insert<K: Ord + Drop, V: Drop, A: Allocator + Clone>(
    tree: &mut BTreeMap<K, (Range<K>, V), A>,
    key: K,
    range: Range<K>,
    value: V,
) -> Result<(), Range<K>>
    ensures ok { OnOk result (tree.new.entries ≡ insert_entry K.cmp tree.old.entries key (range, value)) }
    ensures err { OnErr result (tree.new.entries ≡ tree.old.entries) }
    ensures given_back { IfErr result (λ refused. refused ≡ range) }
    ensures was_ordered { IsOrdered K.cmp tree.old }
{
    match tree.insert(key, (range, value)) {
        Ok(_) => Ok(()),
        Err(refused) => {
            let (_, pair) = refused.value;
            Err(pair.0)
        }
    }
}
