//! What the program may be asked to run over.

use super::run_over;
use crate::fault::Fault;
use crate::range::NumberRange;
use crate::target::ContainerTarget;
use calendar::Calendar;
use rangemap::map::Map;
use rangemap::set::Set;
use rangemap_core::key_range::KeyRange;
use rangemap_core::kind::Kind;
use rangemap_core::store::StoreMut;
use std::alloc::{Allocator, Global};
use std::io::{Read, Write};

/// What a run can go over, in memory of an allocator `A`.
///
/// It asks for no other trait, so that a proof which names a container tells of its store alone, and
/// not of all that a container does.
pub trait Runnable<A> {
    /// Carries out the commands of `input` over an empty one, as `run_in` does.
    ///
    /// # Errors
    ///
    /// As of `run_in`.
    fn run<R: Read + Drop, W: Write + Drop>(
        alloc: A,
        json_alloc: Global,
        input: R,
        output: W,
    ) -> Result<(), Fault>;
}

impl<
    A: Allocator + Copy,
    S: StoreMut<Range: NumberRange, Value = String<A>, Alloc = A> + Drop,
> Runnable<A> for Map<S>
where
    S::Kind: Kind<S::Range, Steps = <S::Range as KeyRange>::Key>,
{
    fn run<R: Read + Drop, W: Write + Drop>(
        alloc: A,
        json_alloc: Global,
        input: R,
        output: W,
    ) -> Result<(), Fault> {
        run_over::<A, ContainerTarget<A, Map<S>>, R, W>(alloc, json_alloc, input, output)
    }
}

impl<A: Allocator + Copy, S: StoreMut<Range: NumberRange, Value = (), Alloc = A> + Drop> Runnable<A>
    for Set<S>
where
    S::Kind: Kind<S::Range, Steps = <S::Range as KeyRange>::Key>,
{
    fn run<R: Read + Drop, W: Write + Drop>(
        alloc: A,
        json_alloc: Global,
        input: R,
        output: W,
    ) -> Result<(), Fault> {
        run_over::<A, ContainerTarget<A, Set<S>>, R, W>(alloc, json_alloc, input, output)
    }
}

impl<A: Allocator + Copy> Runnable<A> for Calendar<A> {
    fn run<R: Read + Drop, W: Write + Drop>(
        alloc: A,
        json_alloc: Global,
        input: R,
        output: W,
    ) -> Result<(), Fault> {
        run_over::<A, Calendar<A>, R, W>(alloc, json_alloc, input, output)
    }
}
