// The lists of a session: each in an array, with a count. What stands past a count stays.
ghost use Rattle.std.specs.Prelude.{◌≡◌, ◌+◌, ◌<◌, ◌≤◌, length};
ghost use Rattle.tx_list.specs.Changed.{push_if};
ghost use Rattle.helm.specs.Stored.{HasSizes, buffer_of, capacity_of, with_array};
ghost use Rattle.helm.specs.Arrays.{storing, known_with, owed_by};

use crate::memory::Arrays;
use crate::stored::Which;

/// Each array is as long as the limits say.
#[inline(always)]
pub(crate) fn sized<M: Arrays>(memory: &M)
    ensures { HasSizes M.limits (M.stored memory.now) }
{
    memory.array(Which::Wanted);
    memory.array(Which::Owed);
    memory.array(Which::Fresh);
    memory.array(Which::List);
    memory.array(Which::Known);
    memory.array(Which::Saved);
    memory.array(Which::Present);
    memory.array(Which::Refused);
}

/// The PGN behind the last one of a list, where a test passed; answers how many the list has now.
pub(crate) fn push_if<M: Arrays>(
    memory: &mut M,
    which: Which,
    count: usize,
    yes: bool,
    pgn: u32,
) -> usize
    requires { count < capacity_of M.limits which }
    ensures items { M.stored memory.new ≡ with_array (M.stored memory.old) which (push_if yes (buffer_of which count (M.stored memory.old)) pgn).items }
    ensures count { result ≡ (push_if yes (buffer_of which count (M.stored memory.old)) pgn).n }
    ensures least { count ≤ result }
    ensures most { result ≤ count + 1 }
{
    if !yes {
        return count;
    }
    memory.store(which, count, &[pgn]);
    count + 1
}

/// Each present PGN noted in the known list.
pub(crate) fn note_present<M: Arrays>(memory: &mut M, count: usize, present: usize) -> usize
    requires room { count + present ≤ capacity_of M.limits Which.Known }
    requires within { present ≤ 256 }
    ensures most { result ≤ capacity_of M.limits Which.Known }
    ensures value { result ≡ length (known_with count present (M.stored memory.old)) }
    ensures known { M.stored memory.new ≡ storing (M.stored memory.old) Which.Known 0 (known_with count present (M.stored memory.old)) }
{
    sized(memory);
    memory.note_present(count, present)
}

/// The PGNs owed: the first of wanted that are not among the first of known, of present and of refused; answers how many.
pub(crate) fn owe<M: Arrays>(
    memory: &mut M,
    wanted: usize,
    list: usize,
    present: usize,
    refused: usize,
) -> usize
    requires wanted { wanted ≤ capacity_of M.limits Which.Wanted }
    ensures most { result ≤ wanted }
    ensures value { result ≡ length (owed_by wanted list present refused (M.stored memory.old)) }
    ensures owed { M.stored memory.new ≡ storing (M.stored memory.old) Which.Owed 0 (owed_by wanted list present refused (M.stored memory.old)) }
{
    sized(memory);
    memory.owe(wanted, list, present, refused)
}
