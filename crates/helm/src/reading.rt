// A message while the list is read, and what follows once it is.
// kept: a count has 32 bits in memory and is a usize in a slice: std has no `From` of u32 for usize, and `try_from` back would have a refusal that never comes.
ghost use Rattle.std.specs.Prelude.{◌≡◌, ◌+◌, ◌<◌, ◌≤◌, false, length, take, ltb};
ghost use Rattle.numbers.specs.Layout.{one, state_of};
ghost use Rattle.tx_list.specs.Views.{list_pgns, f1_of, added, group_count};
ghost use Rattle.tx_list.specs.Moves.{full_in, waits_from, adds_to, gets, in_f1};
ghost use Rattle.session.specs.Sync.{kind, step_of};
ghost use Rattle.session.specs.Lent.{minds_in};
ghost use Rattle.helm.specs.Stored.{Stored, array_of, capacity_of, kind_of, session_at, session_of, ignores_on};
ghost use Rattle.helm.specs.Steps.{Gets, told_step, asked_none, asked_some};
ghost use Rattle.helm.specs.Hands.{hand_in};

use crate::arrays::{note_present, owe, sized};
use crate::memory::Arrays;
use crate::moment::Moment;
use crate::steps::Step;
use crate::stored::{Numbers, Which};
use crate::tested::Tested;
use crate::words::{MESSAGE_LIMIT, OUTPUT_ROOM, TIME_LIMIT};
use bounds::Limits;
use commands::Command;
use replies::{
    BEM_ACTIVATE_PGN_ENABLE_LISTS, BEM_COMMIT_TO_EEPROM, BEM_TX_PGN_ENABLE,
    BEM_TX_PGN_ENABLE_LIST_F1,
};
use tx_list::State;
use views::F1Kind;

/// A flag as it is stored.
fn flag(set: bool) -> u32
    ensures { result ≡ one set }
{
    if set { 1 } else { 0 }
}

/// Whether a message brings more PGNs than the list in Format 1 has room for.
fn passes(count: usize, limit: usize, payload: &[u8]) -> bool
    requires { count ≤ limit }
    ensures { result ≡ ltb limit (count + length (added (f1_of payload.now))) }
{
    match views::f1_kind(payload) {
        F1Kind::Adds => limit - count < views::group_count(payload),
        F1Kind::Ends => false,
        F1Kind::Neither => false,
    }
}

impl Numbers {
    /// Whether a message is of interest in this phase; no other one changes anything.
    #[inline(always)]
    pub(crate) fn minds(self, payload: &[u8]) -> bool
        ensures { result ≡ minds_in (state_of self.phase self.attempt) payload.now }
    {
        match self.state() {
            State::AwaitStartup => views::is_mode(payload),
            State::ReadAt => false,
            State::Reading(_) => views::starts(payload, BEM_TX_PGN_ENABLE_LIST_F1),
            State::ReadingF2(_) => views::is_format2(payload),
            State::Enabling => views::starts(payload, BEM_TX_PGN_ENABLE),
            State::Committing => views::starts(payload, BEM_COMMIT_TO_EEPROM),
            State::Activating => views::starts(payload, BEM_ACTIVATE_PGN_ENABLE_LISTS),
            State::Done => false,
        }
    }

    /// Whether a message is taken and does nothing, told by one look; where it says no, nothing is said.
    #[inline(always)]
    pub fn skips(self, limits: Limits, time: u64, payload: &[u8], room: usize) -> bool
        ensures { result ≡ ignores_on limits self time payload.now room }
    {
        self.is_calm(limits)
            && time <= TIME_LIMIT
            && payload.len() <= MESSAGE_LIMIT
            && OUTPUT_ROOM <= room
            && !self.minds(payload)
    }

    /// Whether the list in Format 1 would pass its limit with this message.
    pub(crate) fn is_full(self, limits: Limits, payload: &[u8]) -> bool
        requires { self.list ≤ limits.list }
        ensures { (s : Stored) → result ≡ full_in (kind_of limits) (state_of self.phase self.attempt) (session_of self s) payload.now }
    {
        match self.state() {
            State::Reading(_) => passes(self.list as usize, limits.list, payload),
            State::AwaitStartup => false,
            State::ReadAt => false,
            State::ReadingF2(_) => false,
            State::Enabling => false,
            State::Committing => false,
            State::Activating => false,
            State::Done => false,
        }
    }

    /// The mode came: the list is read 2,000 ms later.
    pub(crate) fn on_mode(self, at: Moment) -> Step
        ensures { (st : State) (s : Stored) → told_step result s ≡ step_of (waits_from kind (session_at st self s) at.ms) }
    {
        let mut numbers = self;
        numbers.due = at.reading();
        numbers.stay(State::ReadAt)
    }
}

/// What is owed is asked for, oldest first; with nothing owed the session is done.
fn ask<M: Arrays>(memory: &M, known: Numbers, owed: usize, at: Moment) -> Step
    requires { owed ≤ capacity_of M.limits Which.Owed }
    ensures none { owed ≡ 0 → told_step result (M.stored memory.now) ≡ asked_none known at.ms (M.stored memory.now) }
    ensures some { 0 < owed → told_step result (M.stored memory.now) ≡ asked_some known owed at.ms (M.stored memory.now) }
    ensures hand { hand_in result.numbers (M.stored memory.now) ≡ hand_in known (M.stored memory.now) }
{
    if owed == 0 {
        return known.awaiting(None, State::Done, at);
    }
    let first = memory.array(Which::Owed)[0];
    let mut numbers = known;
    numbers.owed = owed as u32;
    numbers.fresh = 0;
    numbers.awaiting(Some(Command::Enable(first)), State::Enabling, at)
}

/// A list of so many PGNs stands at the front of the known one: it is known, with the present ones, and what is owed is asked for.
pub(crate) fn got<M: Arrays>(
    memory: &mut M,
    tested: Tested<M>,
    count: usize,
    complete: bool,
    at: Moment,
) -> Step
    requires { count + 256 ≤ capacity_of M.limits Which.Known }
    ensures left { Gets M.limits tested.numbers count complete at.ms result (M.stored memory.old) (M.stored memory.new) }
    ensures loans { (M.stored memory.new).loans ≡ (M.stored memory.old).loans }
    ensures hand { hand_in result.numbers (M.stored memory.new) ≡ hand_in tested.numbers (M.stored memory.old) }
{
    sized(memory);
    let old = tested.numbers;
    let known = note_present(memory, count, old.present as usize);
    let owed = owe(
        memory,
        old.wanted as usize,
        count,
        old.present as usize,
        old.refused as usize,
    );
    let mut numbers = old;
    numbers.read = 1;
    numbers.complete = flag(complete);
    numbers.known = known as u32;
    ask(memory, numbers, owed, at)
}

/// PGNs more of a list in Format 1.
fn add<M: Arrays>(memory: &mut M, old: Numbers, attempt: u32, at: Moment, payload: &[u8]) -> Step
    requires { old.list + length (list_pgns payload.now) ≤ capacity_of M.limits Which.List }
    ensures left { told_step result (M.stored memory.new) ≡ step_of (adds_to kind (session_at (State.Reading attempt) old (M.stored memory.old)) (list_pgns payload.now) at.ms) }
    ensures loans { (M.stored memory.new).loans ≡ (M.stored memory.old).loans }
    ensures hand { hand_in result.numbers (M.stored memory.new) ≡ hand_in old (M.stored memory.old) }
{
    let count = views::group_count(payload);
    memory.add_pgns(old.list as usize, payload, count);
    let mut numbers = old;
    numbers.list = old.list + count as u32;
    numbers.awaiting(None, State::Reading(attempt), at)
}

/// The list in Format 1 has ended.
fn end<M: Arrays>(memory: &mut M, tested: Tested<M>, at: Moment) -> Step
    ensures left { (st : State) → told_step result (M.stored memory.new) ≡ step_of (gets kind (session_at st tested.numbers (M.stored memory.old)) (take tested.numbers.list (array_of Which.List (M.stored memory.old))) false at.ms) }
    ensures loans { (M.stored memory.new).loans ≡ (M.stored memory.old).loans }
    ensures hand { hand_in result.numbers (M.stored memory.new) ≡ hand_in tested.numbers (M.stored memory.old) }
{
    sized(memory);
    let count = tested.numbers.list as usize;
    memory.know_list(count);
    got(memory, tested, count, false, at)
}

/// A message while Format 1 is read.
pub(crate) fn on_f1<M: Arrays>(
    memory: &mut M,
    tested: Tested<M>,
    attempt: u32,
    at: Moment,
    payload: &[u8],
) -> Step
    requires { ltb (capacity_of M.limits Which.List) (tested.numbers.list + length (added (f1_of payload.now))) ≡ false }
    ensures left { told_step result (M.stored memory.new) ≡ step_of (in_f1 kind (f1_of payload.now) (session_at (State.Reading attempt) tested.numbers (M.stored memory.old)) at.ms) }
    ensures loans { (M.stored memory.new).loans ≡ (M.stored memory.old).loans }
    ensures hand { hand_in result.numbers (M.stored memory.new) ≡ hand_in tested.numbers (M.stored memory.old) }
{
    match views::f1_kind(payload) {
        F1Kind::Adds => add(memory, tested.numbers, attempt, at, payload),
        F1Kind::Ends => end(memory, tested, at),
        F1Kind::Neither => tested.numbers.stay(State::Reading(attempt)),
    }
}
