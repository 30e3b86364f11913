// Numbers that passed the test of a state: the only way into a session, and the one place that tests it.
ghost use Rattle.std.specs.Prelude.{◌≡◌, IsTrue};
ghost use Rattle.helm.specs.Stored.{Within, is_well_formed};

use crate::memory::Arrays;
use crate::stored::Numbers;
use std::marker::PhantomData;

/// The numbers of a machine's session, which are those of a session.
#[derive(Drop)]
pub(crate) struct Tested<M: Arrays> {
    pub(crate) numbers: Numbers,
    machine: PhantomData<M>,
    ghost formed: { IsTrue (is_well_formed M.limits numbers) },
    ghost within: { Within M.limits numbers },
}

impl<M: Arrays> Tested<M> {
    /// The numbers in memory, which passed the test.
    pub(crate) fn of(memory: &M) -> Tested<M>
        requires { IsTrue (is_well_formed M.limits (M.stored memory.now).numbers) }
        ensures { result.numbers ≡ (M.stored memory.now).numbers }
    {
        Tested {
            numbers: memory.numbers(),
            machine: PhantomData,
        }
    }
}

/// Whether the numbers in memory are those of a session.
#[inline(always)]
pub(crate) fn is_session<M: Arrays>(memory: &M) -> bool
    ensures { result ≡ is_well_formed M.limits (M.stored memory.now).numbers }
{
    memory.numbers().is_session(M::limits())
}
