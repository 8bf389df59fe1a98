//! Which containers rows are for, and what these are asked.

use super::chance::Chance;

/// Maps or sets.
#[derive(Clone, Copy)]
pub enum Family {
    /// Maps.
    Maps,
    /// Sets.
    Sets,
}

/// What containers are asked.
#[derive(Clone, Copy)]
pub enum Asked {
    /// What any can be.
    AnySteps,
    /// What one can be whose keys have steps of their own, or none.
    OwnSteps,
    /// What maps and sets can be alike.
    AnyContainer,
    /// Which blocks of memory it holds, and what it does without one.
    Memory,
}

/// Some containers, and what they are asked.
#[derive(Clone, Copy)]
pub struct Scene {
    /// Beginnings of their names.
    pub containers: &'static str,
    /// What they are asked.
    pub asked: Asked,
    /// Whether they are sets.
    pub is_set: bool,
    /// Whether a range has its end.
    pub is_closed: bool,
    /// Whether a key has three digits, so that texts are in the order of their numbers.
    pub is_padded: bool,
}

impl Scene {
    /// Draws a scene. Containers in one kind of store are asked about memory.
    pub fn draw(family: Family, chance: &mut Chance) -> Scene {
        let containers = match family {
            Family::Maps => maps(chance.below(24)),
            Family::Sets => sets(chance.below(24)),
        };
        let is_padded = containers.contains("text char") || containers.contains("set text");
        let asked = match chance.below(8) {
            _ if containers.contains(" in ") => Asked::Memory,
            0..=2 if !is_padded => Asked::OwnSteps,
            3 if !is_padded => Asked::AnyContainer,
            _ => Asked::AnySteps,
        };
        Scene {
            containers,
            asked,
            is_set: containers.contains("set"),
            is_closed: containers.starts_with('i'),
            is_padded,
        }
    }

    /// Returns whether calls are made that ask for steps of the key's own type. Those of texts have none.
    pub fn has_own_steps(self) -> bool {
        match self.asked {
            Asked::OwnSteps => true,
            Asked::Memory => !self.is_padded,
            _ => false,
        }
    }

    /// Returns whether they are in this kind of store.
    pub fn is_in(self, store: &str) -> bool {
        self.containers.contains(store)
    }

    /// Returns how many blocks a range holds: one for each end that is a text, one more for the start in a
    /// tree, and one for a value that is a text.
    pub fn blocks_of_each(self) -> u64 {
        match (self.is_padded, self.is_in("tree")) {
            (true, true) => 3,
            (true, false) => 2,
            (false, _) => u64::from(self.containers.contains("text")),
        }
    }
}

// Returns the names of maps.
fn maps(number: u64) -> &'static str {
    match number {
        0..=5 => "map u32 char, map costly char, map u32 text",
        6..=9 => "imap u32 char, imap costly char, imap u32 text, imap u8 text",
        10 | 11 => "map text char",
        12 => "map u32 char in vector, map costly char in vector",
        13 => "map u32 text in vector",
        14 => "map text char in vector",
        15 => "map u32 char in tree, map costly char in tree",
        16 => "map u32 text in tree",
        17 => "map text char in tree",
        18 => "map u32 char in chunks, map costly char in chunks",
        19 => "map u32 text in chunks",
        20 => "map text char in chunks",
        21 => "imap u32 char in vector, imap costly char in vector",
        22 => "imap u32 char in chunks, imap costly char in chunks",
        _ => "imap u32 text in chunks, imap u8 text in chunks",
    }
}

// Returns the names of sets.
fn sets(number: u64) -> &'static str {
    match number {
        0..=6 => "set u32, set costly",
        7..=12 => "iset u32, iset costly, iset u64, iset u8",
        13 | 14 => "set text",
        15 => "iset u16, iset u32, iset u128, iset usize, iset i16, iset i32, iset i64, iset isize",
        16 => "set u32 in vector, set costly in vector",
        17 => "set text in vector",
        18 => "set u32 in tree, set costly in tree",
        19 => "set text in tree",
        20 => "set u32 in chunks, set costly in chunks",
        21 => "set text in chunks",
        22 => "iset u32 in vector, iset costly in vector",
        _ => "iset u32 in chunks, iset costly in chunks",
    }
}
