//! Pairs of bytes in lexicographic order.
ghost use Rattle.std.specs.Prelude.{◌^◌};
ghost use Rattle.rows_text.specs.Pairs.{IsPair, pair_after, pair_before, pair_follows, pair_precedes};

use rangemap_steps::StepFns;

/// The steps of pairs of bytes: behind `(1, 255)` comes `(2, 0)`.
pub struct PairSteps;

impl StepFns<(u8, u8)> for PairSteps {
    ghost is_key = { IsPair (2 ^ 8) };

    ghost after = { pair_after (2 ^ 8) };

    ghost before = { pair_before (2 ^ 8) };

    ghost follows = { pair_follows (2 ^ 8) };

    ghost precedes = { pair_precedes (2 ^ 8) };

    fn known(x: &(u8, u8)) {
        let _first = x.0;
        let _second = x.1;
    }

    fn add_one(start: &(u8, u8)) -> (u8, u8) {
        if start.1 < 255 {
            (start.0, start.1 + 1)
        } else {
            (start.0 + 1, 0)
        }
    }

    fn sub_one(start: &(u8, u8)) -> (u8, u8) {
        if start.1 > 0 {
            (start.0, start.1 - 1)
        } else {
            (start.0 - 1, 255)
        }
    }
}
