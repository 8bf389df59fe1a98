//! Steps between neighbours: those of the integers, and those that another type brings. Those of each
//! type, to its ends, rows make.
ghost use Rattle.std.specs.Prelude.{◌≡◌, Some, ◌<◌, ◌+◌, ◌<ℤ◌, ◌-ℤ◌, pos};
ghost use Rattle.std.specs.declared.cmp.Ordering.TheVariants.{Less};

use crate::checks::check_same;
use rangemap::{StepFns, StepLite};
use rows_text::SignedSteps;
use std::test::Fail;

// The key after one that has a greater.
fn step_up<K: StepLite>(key: &K, greater: &K) -> K
    requires { K.cmp key.now greater.now ≡ Less }
    ensures { K.after key.now ≡ Some result }
{
    greater.known();
    key.add_one()
}

// The key before one that has a smaller.
fn step_down<K: StepLite>(key: &K, smaller: &K) -> K
    requires { K.cmp smaller.now key.now ≡ Less }
    ensures { K.before key.now ≡ Some result }
{
    smaller.known();
    key.sub_one()
}

// One more, by the step of bytes: at a type that is known its contract says so.
fn next_byte(key: u8, greater: u8) -> u8
    requires { key < greater }
    ensures { result ≡ key + 1 }
{
    step_up(&key, &greater)
}

// One less, by the step of signed bytes.
fn previous_signed_byte(key: i8, smaller: i8) -> i8
    requires { smaller <ℤ key }
    ensures { result ≡ key -ℤ pos 1 }
{
    step_down(&key, &smaller)
}

// Whether, in each pair, one step up leads from the first key to the second, and one step down leads
// back, by steps that the type `S` brings: those of a key's own type are brought by it.
fn are_neighbours<K: Ord + Drop, S: StepFns<K>>(pairs: &[(K, K)]) -> bool {
    for (lower, upper) in pairs {
        if !lower.cmp(upper).is_lt() {
            return false;
        }
        S::known(lower);
        S::known(upper);
        if S::add_one(lower).cmp(upper).is_ne() || S::sub_one(upper).cmp(lower).is_ne() {
            return false;
        }
    }
    true
}

#[test]
fn one_step_leads_to_the_nearest_key(rt: HostRuntime) -> Result<(), Fail> {
    check_same(step_up(&254u8, &255), 255)?;
    check_same(step_down(&1u8, &0), 0)?;
    check_same(step_up(&126i8, &127), 127)?;
    check_same(step_down(&-127i8, &-128), -128)?;
    check_same(step_up(&0u8, &255), 1)?;
    check_same(step_down(&255u8, &0), 254)?;
    check_same(step_up(&-1i8, &127), 0)?;
    check_same(step_down(&1i8, &-128), 0)?;
    check_same(step_up(&'\u{D7FF}', &'\u{10FFFF}'), '\u{E000}')?;
    check_same(step_down(&'\u{E000}', &'\u{0}'), '\u{D7FF}')?;
    check_same(next_byte(99, 255), 100)?;
    check_same(previous_signed_byte(0, -128), -1)
}

#[test]
fn steps_may_be_own_or_brought(rt: HostRuntime) -> Result<(), Fail> {
    let own = are_neighbours::<u8, u8>(&[(0, 1), (u8::MAX - 1, u8::MAX)]);
    let least = (i128::MIN, i128::MIN + 1);
    let signed = are_neighbours::<i128, i128>(&[least, (-1, 0), (i128::MAX - 1, i128::MAX)]);
    let ends = [(i8::MIN, i8::MIN + 1), (-1, 0), (i8::MAX - 1, i8::MAX)];
    let brought = are_neighbours::<i8, SignedSteps>(&ends);
    check_same((own, signed, brought), (true, true, true))?;
    let two = are_neighbours::<u8, u8>(&[(0, 1), (2, 4)]);
    let none = are_neighbours::<i8, i8>(&[(7, 7)]);
    let back = are_neighbours::<i8, SignedSteps>(&[(4, 2)]);
    check_same((two, none, back), (false, false, false))
}
