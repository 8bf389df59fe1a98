//! The search for a key among stored starts, by halving.
ghost use Rattle.std.specs.Prelude.{◌≡◌, ◌*◌, ◌^◌, ◌<◌, ◌≤◌, length};
ghost use Rattle.std.specs.List.Sorted.{IsPartitionedBy};
ghost use Rattle.rangemap_core.specs.Ranges.{IsCanonical};
ghost use Rattle.rangemap_core.specs.engine.Shape.{PassesUpTo, is_up_to, starts_by_key};

use crate::probe::Probe;
use rangemap_core::key_range::KeyRange;
use rangemap_core::kind::Kind;

/// Returns how many of the pairs of a canonical list start no later than the key.
pub fn starts_up_to<'a, Q: Kind<R>, R: KeyRange + 'a, V: Eq + 'a>(
    pairs: &'a [(R, V)],
    key: &R::Key,
) -> usize
    requires { IsCanonical Q.kind V.eq pairs.now }
    ensures bound { result ≤ length pairs.now }
    ensures point { PassesUpTo (starts_by_key Q.kind key.now) pairs.now result }
{
    let mut probe: Probe<'a, Q, R, V> = Probe::new(pairs);
    count_up_to(&mut probe, key)
}

/// Returns how many starts are not after the key. The probe is fresh, and counts what is asked.
///
/// The first ask is for the start `whole` places before the end, where `whole` is the greatest power of
/// two that is no more than the number of starts. Where it is not after the key, all starts up to it
/// count, and either way fewer than `whole` are left to decide: the smaller powers are tried in turn,
/// and each is added where the start before the sum is not after the key. That is one ask for each power.
pub fn count_up_to<'a, Q: Kind<R>, R: KeyRange + 'a, V>(
    probe: &mut Probe<'a, Q, R, V>,
    key: &R::Key,
) -> usize
    requires rising { IsPartitionedBy (is_up_to Q.kind.cmp key.now) probe.old.0 }
    requires fresh { probe.old.1 ≡ 0 }
    ensures starts { probe.new.0 ≡ probe.old.0 }
    ensures bound { result ≤ length probe.old.0 }
    ensures point { PassesUpTo (is_up_to Q.kind.cmp key.now) probe.old.0 result }
    ensures none_asked { length probe.old.0 ≡ 0 → probe.new.1 ≡ 0 }
    ensures asked { 0 < length probe.old.0 → 1 ≤ probe.new.1 }
    ensures few_asked { 0 < length probe.old.0 → 2 ^ probe.new.1 ≤ 2 * length probe.old.0 }
{
    let len = probe.len();
    if len == 0 {
        return 0;
    }
    let exponent = len.ilog2();
    let whole = 1usize << exponent;
    let mut base = 0;
    if key.cmp(probe.start(len - whole)).is_ge() {
        base = len - whole + 1;
    }
    let mut half = whole;
    'halves: while 1 < half {
        half /= 2;
        // Its body never runs: `base + half` is at most `len`. In a loop that has no other within,
        // LLVM makes a branch of the conditional move below. After a change look at
        // `workloads::lookups` in the static library by `objdump -d`: a step takes ten instructions
        // with one `cmovae` (eleven for closed ranges and in chunks).
        'fits: while len < base + half {
            half >>= 1;
        }
        let next = base + half;
        if key.cmp(probe.start(next - 1)).is_ge() {
            base = next;
        }
    }
    base
}
