//! The steps of the integers: one more below the greatest, one less above the least.
ghost use Rattle.std.specs.Prelude.{◌<◌, ◌^◌};
ghost use Rattle.rangemap_steps.specs.StepLaws.{IsSigned, int_after, int_before, int_follows, int_precedes, nat_after, nat_before, nat_follows, nat_precedes};

use crate::steps::StepLite;

impl StepLite for u8 {
    ghost is_key = { λ x. x < 2 ^ 8 };

    ghost after = { nat_after (2 ^ 8) };

    ghost before = { nat_before };

    ghost follows = { nat_follows (2 ^ 8) };

    ghost precedes = { nat_precedes (2 ^ 8) };

    fn known(&self) {
        let _byte = *self;
    }

    fn add_one(&self) -> u8 {
        *self + 1
    }

    fn sub_one(&self) -> u8 {
        *self - 1
    }
}

impl StepLite for u16 {
    ghost is_key = { λ x. x < 2 ^ 16 };

    ghost after = { nat_after (2 ^ 16) };

    ghost before = { nat_before };

    ghost follows = { nat_follows (2 ^ 16) };

    ghost precedes = { nat_precedes (2 ^ 16) };

    fn known(&self) {
        let _value = *self;
    }

    fn add_one(&self) -> u16 {
        *self + 1
    }

    fn sub_one(&self) -> u16 {
        *self - 1
    }
}

impl StepLite for u32 {
    ghost is_key = { λ x. x < 2 ^ 32 };

    ghost after = { nat_after (2 ^ 32) };

    ghost before = { nat_before };

    ghost follows = { nat_follows (2 ^ 32) };

    ghost precedes = { nat_precedes (2 ^ 32) };

    fn known(&self) {
        let _value = *self;
    }

    fn add_one(&self) -> u32 {
        *self + 1
    }

    fn sub_one(&self) -> u32 {
        *self - 1
    }
}

impl StepLite for u64 {
    ghost is_key = { λ x. x < 2 ^ 64 };

    ghost after = { nat_after (2 ^ 64) };

    ghost before = { nat_before };

    ghost follows = { nat_follows (2 ^ 64) };

    ghost precedes = { nat_precedes (2 ^ 64) };

    fn known(&self) {
        let _value = *self;
    }

    fn add_one(&self) -> u64 {
        *self + 1
    }

    fn sub_one(&self) -> u64 {
        *self - 1
    }
}

impl StepLite for u128 {
    ghost is_key = { λ x. x < 2 ^ 128 };

    ghost after = { nat_after (2 ^ 128) };

    ghost before = { nat_before };

    ghost follows = { nat_follows (2 ^ 128) };

    ghost precedes = { nat_precedes (2 ^ 128) };

    fn known(&self) {
        let _value = *self;
    }

    fn add_one(&self) -> u128 {
        *self + 1
    }

    fn sub_one(&self) -> u128 {
        *self - 1
    }
}

impl StepLite for usize {
    ghost is_key = { λ x. x < 2 ^ 64 };

    ghost after = { nat_after (2 ^ 64) };

    ghost before = { nat_before };

    ghost follows = { nat_follows (2 ^ 64) };

    ghost precedes = { nat_precedes (2 ^ 64) };

    fn known(&self) {
        let _value = *self;
    }

    fn add_one(&self) -> usize {
        *self + 1
    }

    fn sub_one(&self) -> usize {
        *self - 1
    }
}

impl StepLite for i8 {
    ghost is_key = { IsSigned (2 ^ 7) };

    ghost after = { int_after (2 ^ 7) };

    ghost before = { int_before (2 ^ 7) };

    ghost follows = { int_follows (2 ^ 7) };

    ghost precedes = { int_precedes (2 ^ 7) };

    fn known(&self) {
        let _value = *self;
    }

    fn add_one(&self) -> i8 {
        *self + 1
    }

    fn sub_one(&self) -> i8 {
        *self - 1
    }
}

impl StepLite for i16 {
    ghost is_key = { IsSigned (2 ^ 15) };

    ghost after = { int_after (2 ^ 15) };

    ghost before = { int_before (2 ^ 15) };

    ghost follows = { int_follows (2 ^ 15) };

    ghost precedes = { int_precedes (2 ^ 15) };

    fn known(&self) {
        let _value = *self;
    }

    fn add_one(&self) -> i16 {
        *self + 1
    }

    fn sub_one(&self) -> i16 {
        *self - 1
    }
}

impl StepLite for i32 {
    ghost is_key = { IsSigned (2 ^ 31) };

    ghost after = { int_after (2 ^ 31) };

    ghost before = { int_before (2 ^ 31) };

    ghost follows = { int_follows (2 ^ 31) };

    ghost precedes = { int_precedes (2 ^ 31) };

    fn known(&self) {
        let _value = *self;
    }

    fn add_one(&self) -> i32 {
        *self + 1
    }

    fn sub_one(&self) -> i32 {
        *self - 1
    }
}

impl StepLite for i64 {
    ghost is_key = { IsSigned (2 ^ 63) };

    ghost after = { int_after (2 ^ 63) };

    ghost before = { int_before (2 ^ 63) };

    ghost follows = { int_follows (2 ^ 63) };

    ghost precedes = { int_precedes (2 ^ 63) };

    fn known(&self) {
        let _value = *self;
    }

    fn add_one(&self) -> i64 {
        *self + 1
    }

    fn sub_one(&self) -> i64 {
        *self - 1
    }
}

impl StepLite for i128 {
    ghost is_key = { IsSigned (2 ^ 127) };

    ghost after = { int_after (2 ^ 127) };

    ghost before = { int_before (2 ^ 127) };

    ghost follows = { int_follows (2 ^ 127) };

    ghost precedes = { int_precedes (2 ^ 127) };

    fn known(&self) {
        let _value = *self;
    }

    fn add_one(&self) -> i128 {
        *self + 1
    }

    fn sub_one(&self) -> i128 {
        *self - 1
    }
}

impl StepLite for isize {
    ghost is_key = { IsSigned (2 ^ 63) };

    ghost after = { int_after (2 ^ 63) };

    ghost before = { int_before (2 ^ 63) };

    ghost follows = { int_follows (2 ^ 63) };

    ghost precedes = { int_precedes (2 ^ 63) };

    fn known(&self) {
        let _value = *self;
    }

    fn add_one(&self) -> isize {
        *self + 1
    }

    fn sub_one(&self) -> isize {
        *self - 1
    }
}
