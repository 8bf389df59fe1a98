//! Steps that another type brings for signed bytes.

use rangemap_steps::StepFns;

/// Steps of signed bytes.
pub struct SignedSteps;

impl StepFns<i8> for SignedSteps {
    ghost use Rattle.std.specs.Prelude.{◌^◌};
    ghost use Rattle.rangemap_steps.specs.StepLaws.{IsSigned, int_after, int_before, int_follows, int_precedes};

    ghost is_key = { IsSigned (2 ^ 7) };

    ghost after = { int_after (2 ^ 7) };

    ghost before = { int_before (2 ^ 7) };

    ghost follows = { int_follows (2 ^ 7) };

    ghost precedes = { int_precedes (2 ^ 7) };

    fn known(x: &i8) {
        let _value = *x;
    }

    fn add_one(start: &i8) -> i8 {
        *start + 1
    }

    fn sub_one(start: &i8) -> i8 {
        *start - 1
    }
}
