//! What a map does with its list of pairs of a range and a value, for any kind of range.
//!
//! The pairs stand in one vector, in order, and the map keeps it canonical: no range shares a key
//! with another, and no two that touch have equal values. Whatever looks for a key, for where a
//! query begins or for a place to change goes by `search`, which halves and sees stored starts alone;
//! whether the range that it finds has the key is told by that range's end. Only where a query ends
//! is searched for over whole pairs (`overlapping`). A change makes every clone and all room that it
//! needs before it touches the list, so that one that is refused leaves all as it was.
ghost use Rattle.std.specs.Prelude.{◌≡◌, ◌*◌, ◌^◌, ◌<◌, ◌≤◌, length};
ghost use Rattle.std.specs.Option.{option_copied};
ghost use Rattle.rangemap_core.specs.Ranges.{IsCanonical, covering};

use crate::probe::Probe;
use crate::search::count_up_to;
use rangemap_core::key_range::KeyRange;
use rangemap_core::kind::Kind;

pub mod changes;
pub mod clones;
mod stretch;

/// Returns the pair whose range has the key, if there is one, and how many starts were asked
/// for to find it. Every lookup is one call of this.
///
/// The search is handed the starts alone, through a `Probe` that counts. Of *n* pairs it asks
/// for no start where *n* is 0, and else for one more than *n* can be halved: 1 of 1, 4 of 8,
/// 10 of 1000. Then the end of one pair is looked at.
pub fn covering<'a, Q: Kind<R>, R: KeyRange + 'a, V: Eq + 'a>(
    pairs: &'a [(R, V)],
    key: &R::Key,
) -> (Option<&'a (R, V)>, usize)
    requires { IsCanonical Q.kind V.eq pairs.now }
    ensures pair { option_copied result.0 ≡ covering Q.kind pairs.now key.now }
    ensures none_asked { length pairs.now ≡ 0 → result.1 ≡ 0 }
    ensures asked { 0 < length pairs.now → 1 ≤ result.1 }
    ensures few_asked { 0 < length pairs.now → 2 ^ result.1 ≤ 2 * length pairs.now }
{
    Q::known(key);
    let mut probe: Probe<'a, Q, R, V> = Probe::new(pairs);
    let count = count_up_to(&mut probe, key);
    let asked = probe.asked();
    if count == 0 {
        return (None, asked);
    }
    let pair = &pairs[count - 1];
    if pair.0.reaches(key) {
        (Some(pair), asked)
    } else {
        (None, asked)
    }
}
