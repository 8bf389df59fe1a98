//! Ports of a host: keys of a type of one's own, with its steps.
ghost use Rattle.std.specs.Prelude.{◌<◌, ◌^◌, option_map, refl};
ghost use Rattle.std.specs.Ordering.{nat_cmp};
ghost use Rattle.rangemap.specs.StepLaws.{held_follows, held_precedes, nat_after, nat_before, nat_follows, nat_precedes};

use rangemap::StepLite;

/// A port of TCP. Ranges of ports are closed, since `u16::MAX` is a port too; those that follow one
/// another become one.
#[derive(Clone, Copy, Debug, PartialEq, Eq, PartialOrd, Ord)]
pub struct Port(pub u16);

impl StepLite for Port {
    ghost is_key = { λ port. port.0 < 2 ^ 16 };

    ghost after = { λ port. option_map (λ n. record { 0 = n }) (nat_after (2 ^ 16) port.0) };

    ghost before = { λ port. option_map (λ n. record { 0 = n }) (nat_before port.0) };

    ghost follows = { held_follows (λ n. n < 2 ^ 16) nat_cmp (λ port. port.0) (λ _ n. record { 0 = n }) (λ _ _. refl) (nat_after (2 ^ 16)) (nat_follows (2 ^ 16)) };

    ghost precedes = { held_precedes (λ n. n < 2 ^ 16) nat_cmp (λ port. port.0) (λ _ n. record { 0 = n }) (λ _ _. refl) nat_before (nat_precedes (2 ^ 16)) };

    fn known(&self) {
        let _number = self.0;
    }

    fn add_one(&self) -> Port {
        Port(self.0 + 1)
    }

    fn sub_one(&self) -> Port {
        Port(self.0 - 1)
    }
}
