//! Tests of a set against a range or another set.
ghost use Rattle.std.specs.Prelude.{◌↔◌, IsTrue};
ghost use Rattle.rangemap.specs.Ranges.{covers};
ghost use Rattle.rangemap.specs.Sets.{AreCovered, AreDisjoint};

use super::Set;
use rangemap_containers::container::covered;
use rangemap_core::store::Store;

impl<S: Store<Value = ()>> Set<S> {
    /// Returns whether every key of `range` is in the set. It takes no memory.
    ///
    /// `range` may be empty or reversed. Then it has no key, and the result is true. (`overlaps`
    /// may be true for such a range too, because it only compares the ends.) Only the two ends of a
    /// closed range are read, even if it was iterated.
    ///
    /// # Examples
    ///
    /// ```text
    /// let set = range_set![in alloc; 0..5, 9..12]?;
    /// set.covers(&(1..5)) // true
    /// set.covers(&(4..9)) // false
    /// ```
    pub fn covers(&self, range: &S::Range) -> bool
        ensures { IsTrue result ↔ AreCovered S.Kind.kind (S.Kind.kind.holds range.now) self.now }
    {
        covered::covers(&self.stored, range)
    }

    /// Returns whether every key of this set is in the other one. It takes no memory.
    pub fn is_subset(&self, other: &Self) -> bool
        ensures { IsTrue result ↔ AreCovered S.Kind.kind (covers S.Kind.kind self.now) other.now }
    {
        covered::is_subset(&self.stored, &other.stored)
    }

    /// Returns whether every key of the other set is in this one. It takes no memory.
    pub fn is_superset(&self, other: &Self) -> bool
        ensures { IsTrue result ↔ AreCovered S.Kind.kind (covers S.Kind.kind other.now) self.now }
    {
        other.is_subset(self)
    }

    /// Returns whether no key is in both sets. For each range of the set with fewer ranges it
    /// searches the other set for an overlap. It takes no memory.
    pub fn is_disjoint(&self, other: &Self) -> bool
        ensures { IsTrue result ↔ AreDisjoint S.Kind.kind self.now other.now }
    {
        covered::is_disjoint(&self.stored, &other.stored)
    }
}
