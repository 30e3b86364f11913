// A message while Format 2 is read: a part of its lists, or an error, which leads to Format 1.
// kept: a count has 32 bits in memory and is a usize in a slice: std has no `From` of u32 for usize, and `try_from` back would have a refusal that never comes.
ghost use Rattle.std.specs.Prelude.{◌≡◌, ◌≤◌, IfSome, IsNone, true, false, length};
ghost use Rattle.std.proofs.Math.Option.{none};
ghost use Rattle.lists.specs.Format2.{formed, pgns_of};
ghost use Rattle.tx_list.specs.Views.{f2_of};
ghost use Rattle.tx_list.specs.Moves.{puts, in_f2, in_whole};
ghost use Rattle.session.specs.Sync.{kind, put, step_of};
ghost use Rattle.session.specs.Lent.{hand_by};
ghost use Rattle.helm.specs.Stored.{capacity_of, parts_of, session_at};
ghost use Rattle.helm.specs.Steps.{Listed, told_step};
ghost use Rattle.helm.specs.Hands.{hand_in, handed_in};

use crate::arrays::sized;
use crate::memory::Memory;
use crate::moment::Moment;
use crate::reading::got;
use crate::steps::Step;
use crate::stored::{Numbers, Which};
use crate::tested::Tested;
use lists::F2List;
use replies::BEM_SUPPORTED_PGN_LIST;
use tx_list::State;
use views::F2Kind;

/// The most PGNs that a list in Format 2 has.
const WHOLE_LIST: usize = 767;

impl Numbers {
    /// The parts of a Format 2 read in hand, of those that are kept; none where the numbers say so.
    pub fn in_hand(self, parts: F2List) -> F2List
        ensures { result ≡ parts_of self parts }
    {
        let mut held = if self.blank != 0 {
            F2List::new()
        } else {
            parts
        };
        held.proprietary.list.n = self.proprietary as usize;
        held
    }
}

/// A part of a list, by the reply byte.
fn put_part(parts: &mut F2List, payload: &[u8])
    ensures { parts.new ≡ put payload.now parts.old }
{
    let content = replies::data_of(payload);
    if views::starts(payload, BEM_SUPPORTED_PGN_LIST) {
        parts.add_supported(content);
    } else {
        parts.add_enabled(content);
    }
}

/// The part is kept, with an answer awaited from now on.
fn keep<M: Memory>(memory: &mut M, old: Numbers, attempt: u32, parts: F2List, at: Moment) -> Step
    requires { parts.proprietary.list.n ≤ 512 }
    ensures left { told_step result (M.stored memory.new) ≡ step_of (puts kind (session_at (State.ReadingF2 attempt) old (M.stored memory.old)) parts at.ms) }
    ensures loans { (M.stored memory.new).loans ≡ (M.stored memory.old).loans }
    ensures hand { hand_in result.numbers (M.stored memory.new) ≡ record { parts = parts; blank = false } }
{
    memory.set_parts(parts);
    let mut numbers = old;
    numbers.proprietary = parts.proprietary.list.n as u32;
    numbers.blank = 0;
    numbers.awaiting(None, State::ReadingF2(attempt), at)
}

/// The list, once all three parts are in hand, at the start of an array; answers how many PGNs it has.
fn read_list(parts: F2List, out: &mut [u32]) -> Option<usize>
    requires room { 767 ≤ length out.old }
    requires formed { formed parts ≡ true }
    ensures whole { IfSome result (λ n. Listed parts n out.new) }
    ensures part { IsNone result → pgns_of parts ≡ none }
{
    match parts.pgns(out) {
        Ok(Some(count)) => Some(count),
        Ok(None) => None,
        Err(_) => None,
    }
}

/// A part of a list: once all three are in hand, the list is read. A call of its own, so that no other message pays for its array.
#[inline(never)]
fn on_part<M: Memory>(
    memory: &mut M,
    tested: Tested<M>,
    attempt: u32,
    at: Moment,
    payload: &[u8],
) -> Step
    requires { 1023 ≤ capacity_of M.limits Which.Known }
    ensures left { told_step result (M.stored memory.new) ≡ step_of (in_whole kind (pgns_of (put payload.now (parts_of tested.numbers (M.stored memory.old).parts))) (session_at (State.ReadingF2 attempt) tested.numbers (M.stored memory.old)) (put payload.now (parts_of tested.numbers (M.stored memory.old).parts)) at.ms) }
    ensures loans { (M.stored memory.new).loans ≡ (M.stored memory.old).loans }
    ensures hand { hand_in result.numbers (M.stored memory.new) ≡ hand_by (pgns_of (put payload.now (parts_of tested.numbers (M.stored memory.old).parts))) (put payload.now (parts_of tested.numbers (M.stored memory.old).parts)) (hand_in tested.numbers (M.stored memory.old)) }
{
    sized(memory);
    let old = tested.numbers;
    let mut parts = old.in_hand(memory.parts());
    put_part(&mut parts, payload);
    let mut list = [0u32; WHOLE_LIST];
    match read_list(parts, &mut list) {
        Some(count) => {
            memory.store(Which::Known, 0, &list[..count]);
            got(memory, tested, count, true, at)
        }
        None => keep(memory, old, attempt, parts, at),
    }
}

/// A message while Format 2 is read.
pub(crate) fn on_f2<M: Memory>(
    memory: &mut M,
    tested: Tested<M>,
    attempt: u32,
    at: Moment,
    payload: &[u8],
) -> Step
    requires { 1023 ≤ capacity_of M.limits Which.Known }
    ensures left { told_step result (M.stored memory.new) ≡ step_of (in_f2 kind (f2_of payload.now) (session_at (State.ReadingF2 attempt) tested.numbers (M.stored memory.old)) at.ms payload.now) }
    ensures loans { (M.stored memory.new).loans ≡ (M.stored memory.old).loans }
    ensures hand { hand_in result.numbers (M.stored memory.new) ≡ handed_in tested.numbers (M.stored memory.old) payload.now }
{
    match views::f2_kind(payload) {
        F2Kind::Wrong => tested.numbers.start_f1(1, at),
        F2Kind::Part => on_part(memory, tested, attempt, at, payload),
        F2Kind::Neither => tested.numbers.stay(State::ReadingF2(attempt)),
    }
}
