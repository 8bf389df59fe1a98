//! Ranges of keys, read without their steps.
ghost use Rattle.std.specs.Prelude.{◌≡◌, Bool, List, false, ℕ};
ghost use Rattle.rangemap_core.specs.engine.Intervals.{IsBetween, IsInterval, reaches};
ghost use Rattle.rangemap_core.specs.operations.PlaceLaws.{HasPlaces};
ghost use Rattle.rangemap_core.specs.operations.Places.{RangePlaces};
ghost use Rattle.rangemap_core.specs.Ranges.{RangeKind};

use std::ops::{Range, RangeInclusive};

/// A range of keys: `a..b` or `a..=b`. No step of a key is asked.
pub trait KeyRange: Drop {
    /// The type of the keys.
    type Key: Ord + Clone;

    /// What contracts know of the ranges where every value counts as a key.
    ghost read: { RangeKind Self.Key Self };

    /// Whether a range has the key at its end.
    ghost has_end: { Bool };

    /// By its two ends, the range has a key.
    ghost has_key: { Self → Type 0 };

    /// The range was not iterated to its end.
    ghost is_fresh: { Self → Type 0 };

    /// The places at which ranges start and end.
    ghost places: { RangePlaces (Self.Key × Bool) Self };

    /// What the debug text of a range has between its ends.
    ghost dots: { List ℕ };

    /// Returns what the debug text of a range has between its ends: `..` or `..=`.
    fn dots() -> &'static str
        ensures { result.now ≡ dots };

    /// Returns the key at which the range starts.
    fn start(&self) -> &Self::Key
        ensures { result.now ≡ read.start self.now };

    /// Returns the key at which it ends.
    fn end(&self) -> &Self::Key
        ensures { result.now ≡ read.end self.now };

    /// Returns whether the key lies before the end of the range, or is its end where the range has
    /// it. Where the range starts is not asked.
    fn reaches(&self, key: &Self::Key) -> bool
        ensures { result ≡ reaches read has_end (read.end self.now) key.now };

    /// Returns the range from one key to another, where it is not empty.
    fn between(start: Self::Key, end: Self::Key) -> Option<Self>
        ensures { IsBetween read has_end start end result };

    /// What a range holds, and what it meets, follows from its ends.
    ghost interval: { IsInterval read has_end };

    /// Keys are ordered as their type orders them.
    ghost order: { (x y : Self.Key) → read.cmp x y ≡ Self.Key.cmp x y };

    /// What a range holds follows from its places too. A key is at the place before it, and cuts a range
    /// there or, where ranges have the key at their end, at the place after it.
    ghost has_places: { HasPlaces read places (λ x. (x, false)) (λ x. (x, has_end)) };
}

impl<K: Ord + Clone> KeyRange for Range<K> {
    ghost use Rattle.rangemap_core.specs.engine.IntervalKinds.{half_open_interval};
    ghost use Rattle.rangemap_core.specs.operations.PlaceKinds.{half_open_has_places};
    ghost use Rattle.rangemap_core.specs.operations.Places.{half_open_places};
    ghost use Rattle.rangemap_core.specs.Ranges.{half_open};
    ghost use Rattle.std.specs.Prelude.{◌≡◌, codes, false, refl, ⊤};
    ghost use Rattle.std.specs.declared.cmp.Ordering.TheVariants.{Less};

    type Key = K;

    ghost read = { half_open K.cmp };

    ghost has_end = { false };

    ghost has_key = { λ range. K.cmp range.start range.end ≡ Less };

    ghost is_fresh = { λ _. ⊤ };

    ghost places = { half_open_places K.cmp };

    ghost dots = { codes ".." };

    fn dots() -> &'static str {
        ".."
    }

    ghost interval = { half_open_interval K.total };

    ghost order = { λ x y. refl };

    ghost has_places = { half_open_has_places K.cmp K.total };

    fn start(&self) -> &K {
        &self.start
    }

    fn end(&self) -> &K {
        &self.end
    }

    fn reaches(&self, key: &K) -> bool {
        key.cmp(&self.end).is_lt()
    }

    fn between(start: K, end: K) -> Option<Range<K>> {
        if start.cmp(&end).is_lt() {
            Some(start..end)
        } else {
            None
        }
    }
}

impl<K: Ord + Clone> KeyRange for RangeInclusive<K> {
    ghost use Rattle.rangemap_core.specs.engine.IntervalKinds.{closed_interval};
    ghost use Rattle.rangemap_core.specs.operations.PlaceKinds.{closed_has_places};
    ghost use Rattle.rangemap_core.specs.operations.Places.{closed_places};
    ghost use Rattle.rangemap_core.specs.Ranges.{closed};
    ghost use Rattle.std.specs.Ordering.{is_le};
    ghost use Rattle.std.specs.Prelude.{◌≡◌, IsTrue, codes, false, true, ⊤, refl};
    ghost use Rattle.std.specs.Range.{range_inclusive_end, range_inclusive_exhausted, range_inclusive_start};

    type Key = K;

    ghost read = { closed (λ _. ⊤) K.cmp };

    ghost has_end = { true };

    ghost has_key = { λ range.
        IsTrue (is_le (K.cmp (range_inclusive_start range) (range_inclusive_end range))) };

    ghost is_fresh = { λ range. range_inclusive_exhausted range ≡ false };

    ghost places = { closed_places K.cmp };

    ghost dots = { codes "..=" };

    fn dots() -> &'static str {
        "..="
    }

    ghost interval = { closed_interval K.total (λ _. ⊤) };

    ghost order = { λ x y. refl };

    ghost has_places = { closed_has_places K.cmp K.total (λ _. ⊤) };

    fn start(&self) -> &K {
        self.start()
    }

    fn end(&self) -> &K {
        self.end()
    }

    fn reaches(&self, key: &K) -> bool {
        key.cmp(self.end()).is_le()
    }

    fn between(start: K, end: K) -> Option<RangeInclusive<K>> {
        if start.cmp(&end).is_le() {
            Some(RangeInclusive::new(start, end))
        } else {
            None
        }
    }
}
