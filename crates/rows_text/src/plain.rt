//! The types of std whose values are read of a text and printed as that text.
//!
//! The impls are written out, since none may be written by a macro.

use crate::word::Plain;

impl Plain for u8 {
    ghost use Rattle.std.proofs.Common.{rules};
    ghost use Rattle.std.specs.Cmp.Rules.{comparing};

    ghost ties = { Prim.search (comparing, rules) };

    ghost equals = { Prim.search (comparing, rules) };
}

impl Plain for u16 {
    ghost use Rattle.std.proofs.Common.{rules};
    ghost use Rattle.std.specs.Cmp.Rules.{comparing};

    ghost ties = { Prim.search (comparing, rules) };

    ghost equals = { Prim.search (comparing, rules) };
}

impl Plain for u32 {
    ghost use Rattle.std.proofs.Common.{rules};
    ghost use Rattle.std.specs.Cmp.Rules.{comparing};

    ghost ties = { Prim.search (comparing, rules) };

    ghost equals = { Prim.search (comparing, rules) };
}

impl Plain for u64 {
    ghost use Rattle.std.proofs.Common.{rules};
    ghost use Rattle.std.specs.Cmp.Rules.{comparing};

    ghost ties = { Prim.search (comparing, rules) };

    ghost equals = { Prim.search (comparing, rules) };
}

impl Plain for u128 {
    ghost use Rattle.std.proofs.Common.{rules};
    ghost use Rattle.std.specs.Cmp.Rules.{comparing};

    ghost ties = { Prim.search (comparing, rules) };

    ghost equals = { Prim.search (comparing, rules) };
}

impl Plain for usize {
    ghost use Rattle.std.proofs.Common.{rules};
    ghost use Rattle.std.specs.Cmp.Rules.{comparing};

    ghost ties = { Prim.search (comparing, rules) };

    ghost equals = { Prim.search (comparing, rules) };
}

impl Plain for i8 {
    ghost use Rattle.std.proofs.Common.{rules};
    ghost use Rattle.std.specs.Cmp.Rules.{comparing};

    ghost ties = { Prim.search (comparing, rules) };

    ghost equals = { Prim.search (comparing, rules) };
}

impl Plain for i16 {
    ghost use Rattle.std.proofs.Common.{rules};
    ghost use Rattle.std.specs.Cmp.Rules.{comparing};

    ghost ties = { Prim.search (comparing, rules) };

    ghost equals = { Prim.search (comparing, rules) };
}

impl Plain for i32 {
    ghost use Rattle.std.proofs.Common.{rules};
    ghost use Rattle.std.specs.Cmp.Rules.{comparing};

    ghost ties = { Prim.search (comparing, rules) };

    ghost equals = { Prim.search (comparing, rules) };
}

impl Plain for i64 {
    ghost use Rattle.std.proofs.Common.{rules};
    ghost use Rattle.std.specs.Cmp.Rules.{comparing};

    ghost ties = { Prim.search (comparing, rules) };

    ghost equals = { Prim.search (comparing, rules) };
}

impl Plain for i128 {
    ghost use Rattle.std.proofs.Common.{rules};
    ghost use Rattle.std.specs.Cmp.Rules.{comparing};

    ghost ties = { Prim.search (comparing, rules) };

    ghost equals = { Prim.search (comparing, rules) };
}

impl Plain for isize {
    ghost use Rattle.std.proofs.Common.{rules};
    ghost use Rattle.std.specs.Cmp.Rules.{comparing};

    ghost ties = { Prim.search (comparing, rules) };

    ghost equals = { Prim.search (comparing, rules) };
}

impl Plain for bool {
    ghost use Rattle.std.proofs.Common.{rules};
    ghost use Rattle.std.specs.Cmp.Rules.{comparing};

    ghost ties = { Prim.search (comparing, rules) };

    ghost equals = { Prim.search (comparing, rules) };
}
