//! Classes of characters, as `[a-zA-Z0-9_]`.
ghost use Rattle.std.specs.Prelude.{◌≡◌, not, ◌&&◌, ◌||◌, IfOk, true};
ghost use Rattle.rangemap.specs.Ranges.{IsCanonOfPoints, same_ranges};
ghost use Rattle.rangemap.specs.Sets.{AreNonEmptyRanges};
ghost use Rattle.examples.specs.CharClass.{characters, has, is_word};

use rangemap::RangeInclusiveSet;
use std::alloc::{AllocError, Global};
use std::ops::RangeInclusive;

/// A set of characters. The `members` of two classes of the same characters are equal, however these
/// were made.
#[derive(Drop)]
pub struct CharClass {
    /// The characters.
    pub members: RangeInclusiveSet<char>,
}

impl CharClass {
    /// Returns the class of the characters of the ranges.
    ///
    /// # Requires
    ///
    /// No range is empty or was iterated to its end.
    ///
    /// # Errors
    ///
    /// Memory was refused.
    pub fn from_ranges<const N: usize>(
        alloc: Global,
        ranges: [RangeInclusive<char>; N],
    ) -> Result<Self, AllocError>
        requires { AreNonEmptyRanges characters ranges }
        ensures { IfOk result (λ class. IsCanonOfPoints characters (has ranges.entry) class.members) }
    {
        let members = RangeInclusiveSet::from(alloc, ranges)?;
        Ok(CharClass { members })
    }

    /// Returns `[a-zA-Z0-9_]`.
    ///
    /// # Errors
    ///
    /// Memory was refused.
    pub fn word(alloc: Global) -> Result<Self, AllocError>
        ensures { IfOk result (λ class. IsCanonOfPoints characters is_word class.members) }
    {
        let ranges = ['a'..='z', 'A'..='Z', '0'..='9', '_'..='_'];
        CharClass::from_ranges(alloc, ranges)
    }

    /// Returns whether the character is in the class.
    pub fn contains(&self, character: char) -> bool
        ensures { result ≡ has self.now.members character }
    {
        self.members.contains(&character)
    }

    /// Returns the class of the characters that are in this class or in the other.
    ///
    /// # Errors
    ///
    /// Memory was refused.
    pub fn union(&self, other: &CharClass) -> Result<CharClass, AllocError>
        ensures { IfOk result (λ class. IsCanonOfPoints characters (λ c. has self.now.members c || has other.now.members c) class.members) }
    {
        Ok(CharClass {
            members: (&self.members | &other.members)?,
        })
    }

    /// Returns the class of the characters that are in this class and in the other.
    ///
    /// # Errors
    ///
    /// Memory was refused.
    pub fn intersection(&self, other: &CharClass) -> Result<CharClass, AllocError>
        ensures { IfOk result (λ class. IsCanonOfPoints characters (λ c. has self.now.members c && has other.now.members c) class.members) }
    {
        Ok(CharClass {
            members: (&self.members & &other.members)?,
        })
    }

    /// Returns the class of the characters that are not in this class: its gaps in all characters.
    ///
    /// # Errors
    ///
    /// Memory was refused.
    pub fn complement(&self, alloc: Global) -> Result<CharClass, AllocError>
        ensures { IfOk result (λ class. IsCanonOfPoints characters (λ c. not (has self.now.members c)) class.members) }
    {
        let mut members = RangeInclusiveSet::new(alloc);
        let all = '\0'..=char::MAX;
        for gap in self.members.gaps(&all) {
            members.insert(gap?)?;
        }
        Ok(CharClass { members })
    }
}

/// The law of De Morgan: returns "not in one or the other", and "not in one, and not in the other",
/// whose members are equal.
///
/// # Errors
///
/// Memory was refused.
pub fn de_morgan(
    alloc: Global,
    one: &CharClass,
    other: &CharClass,
) -> Result<(CharClass, CharClass), AllocError>
    ensures neither { IfOk result (λ sides. IsCanonOfPoints characters (λ c. not (has one.now.members c || has other.now.members c)) sides.0.members) }
    ensures not_both { IfOk result (λ sides. IsCanonOfPoints characters (λ c. not (has one.now.members c) && not (has other.now.members c)) sides.1.members) }
    ensures equal { IfOk result (λ sides. same_ranges characters sides.0.members sides.1.members ≡ true) }
{
    let left = one.union(other)?.complement(alloc)?;
    let right = one
        .complement(alloc)?
        .intersection(&other.complement(alloc)?)?;
    Ok((left, right))
}

/// Returns the complement of the complement, whose members are equal to those of the class.
///
/// # Errors
///
/// Memory was refused.
pub fn complement_twice(alloc: Global, class: &CharClass) -> Result<CharClass, AllocError>
    ensures same { IfOk result (λ twice. IsCanonOfPoints characters (has class.now.members) twice.members) }
    ensures equal { IfOk result (λ twice. same_ranges characters twice.members class.now.members ≡ true) }
{
    class.members.known();
    class.complement(alloc)?.complement(alloc)
}
