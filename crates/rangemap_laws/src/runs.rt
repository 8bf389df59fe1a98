//! What commands return does not depend on what a map is made of.
ghost use Rattle.std.specs.Prelude.{IsOk, IsTrue, List, Result as ResultOf};
ghost use Rattle.std.specs.List.{AllByRecursion, AllZip};
ghost use Rattle.std.specs.declared.alloc.AllocError.{AllocError as Refusal};
ghost use Rattle.std.specs.declared.ops.Range.{Range as RangeOf};
ghost use Rattle.rangemap_laws.specs.declared.commands.command.Answer.{Answer as AnswerOf};
ghost use Rattle.rangemap_laws.specs.declared.commands.command.Command.{Command as CommandOf};
ghost use Rattle.rangemap_core.specs.Ranges.{IsCanonical, half_open, same_pairs};
ghost use Rattle.rangemap_laws.specs.Runs.{CommandStep, IsSameResult, Ran};

use std::alloc::Allocator;

/// Two maps of half-open ranges that are equal, on which the same commands were run and all accepted,
/// gave equal answers, one by one, and are equal again. What each map is made of doesn't matter, because
/// this law speaks only of what the contract of `commands::run` says.
pub fn accepted_runs_answer_alike<K: Ord, V: Eq, A: Allocator, B: Allocator>()
    ensures { (one other one_after other_after : List (RangeOf K × V))
        → (commands : List (CommandOf K (RangeOf K) V))
        → (answers : List (ResultOf (AnswerOf (RangeOf K) V A) Refusal))
        → (replies : List (ResultOf (AnswerOf (RangeOf K) V B) Refusal))
        → IsCanonical (half_open K.cmp) V.eq one
        → IsCanonical (half_open K.cmp) V.eq other
        → IsTrue (same_pairs (half_open K.cmp) V.eq one other)
        → Ran (CommandStep (half_open K.cmp) V.eq) one commands answers one_after
        → Ran (CommandStep (half_open K.cmp) V.eq) other commands replies other_after
        → AllByRecursion IsOk answers
        → AllByRecursion IsOk replies
        → AllZip (IsSameResult (half_open K.cmp) V.eq) answers replies
        × IsTrue (same_pairs (half_open K.cmp) V.eq one_after other_after) }
{}
