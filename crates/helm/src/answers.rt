// The answers to enable, commit and activate.
// kept: a count has 32 bits in memory and is a usize in a slice: std has no `From` of u32 for usize, and `try_from` back would have a refusal that never comes.
ghost use Rattle.std.specs.Prelude.{◌≡◌, ◌+◌, ◌<◌, ◌≤◌, ◌&&◌, not, take};
ghost use Rattle.numbers.specs.Layout.{state_of};
ghost use Rattle.tx_list.specs.Views.{answer_of, good, has};
ghost use Rattle.tx_list.specs.Moves.{marks, goes_on, asks_next, activated};
ghost use Rattle.session.specs.Sync.{kind, step_of};
ghost use Rattle.helm.specs.Stored.{array_of, capacity_of, session_at};
ghost use Rattle.helm.specs.Steps.{told_step};
ghost use Rattle.helm.specs.Hands.{hand_in};

use crate::arrays::{push_if, sized};
use crate::memory::Arrays;
use crate::moment::Moment;
use crate::steps::Step;
use crate::stored::{Numbers, Which};
use crate::tested::Tested;
use commands::Command;
use tx_list::State;
use views::EnableResult;

/// Whether a test passed and the list lacks the PGN. The list is looked through only where the test passed.
fn absent<M: Arrays>(memory: &M, which: Which, count: usize, yes: bool, pgn: u32) -> bool
    ensures { result ≡ (yes && not (has pgn (take count (array_of which (M.stored memory.now))))) }
{
    yes && !pgns::has(memory.array(which), count, pgn)
}

/// The lists after an answer to the oldest PGN owed: a good one adds it to known, if a list is known and lacks it; already there: present;
/// refused: refused; enabled now and not saved before: fresh.
fn mark<M: Arrays>(memory: &mut M, old: Numbers, payload: &[u8]) -> Numbers
    requires known { old.known < capacity_of M.limits Which.Known }
    requires present { old.present < 256 }
    requires refused { old.refused < 256 }
    requires saved { old.saved ≤ 256 }
    requires fresh { old.fresh < capacity_of M.limits Which.Fresh }
    requires owed { 0 < capacity_of M.limits Which.Owed }
    ensures left { (st : State) → session_at st result (M.stored memory.new) ≡ marks kind (session_at st old (M.stored memory.old)) payload.now (answer_of payload.now) }
    ensures loans { (M.stored memory.new).loans ≡ (M.stored memory.old).loans }
    ensures hand { hand_in result (M.stored memory.new) ≡ hand_in old (M.stored memory.old) }
{
    let said = views::enable_result(payload);
    let pgn = memory.array(Which::Owed)[0];
    let learns = (old.read != 0) & (said != EnableResult::Refused);
    let learned = absent(memory, Which::Known, old.known as usize, learns, pgn);
    let now = said == EnableResult::Now;
    let unsaved = absent(memory, Which::Saved, old.saved as usize, now, pgn);
    let known = push_if(memory, Which::Known, old.known as usize, learned, pgn);
    let present = push_if(
        memory,
        Which::Present,
        old.present as usize,
        said == EnableResult::Already,
        pgn,
    );
    let refused = push_if(
        memory,
        Which::Refused,
        old.refused as usize,
        said == EnableResult::Refused,
        pgn,
    );
    let fresh = push_if(memory, Which::Fresh, old.fresh as usize, unsaved, pgn);
    let mut numbers = old;
    numbers.known = known as u32;
    numbers.present = present as u32;
    numbers.refused = refused as u32;
    numbers.fresh = fresh as u32;
    numbers
}

impl Numbers {
    /// A step to a phase in which an answer is awaited from now on.
    pub(crate) fn awaiting(self, sent: Option<Command<'static>>, state: State, at: Moment) -> Step
        ensures { result ≡ record { sent = sent.entry; state = state; numbers = record self { due = at.ms + 10000 } } }
    {
        let mut numbers = self;
        numbers.due = at.deadline();
        Step {
            sent,
            state,
            numbers,
        }
    }
}

/// The next PGN owed is asked for.
fn ask_next<M: Arrays>(memory: &mut M, old: Numbers, at: Moment) -> Step
    requires more { 1 < old.owed }
    requires within { old.owed ≤ capacity_of M.limits Which.Owed }
    ensures left { (st : State) → told_step result (M.stored memory.new) ≡ step_of (asks_next kind (session_at st old (M.stored memory.old)) at.ms) }
    ensures loans { (M.stored memory.new).loans ≡ (M.stored memory.old).loans }
    ensures hand { hand_in result.numbers (M.stored memory.new) ≡ hand_in old (M.stored memory.old) }
{
    sized(memory);
    let next = memory.array(Which::Owed)[1];
    memory.shift_owed(old.owed as usize);
    let mut numbers = old;
    numbers.owed = old.owed - 1;
    numbers.awaiting(Some(Command::Enable(next)), State::Enabling, at)
}

/// What comes after an answer: the next PGN owed; with none, commit where some are fresh, else done.
fn go_on<M: Arrays>(memory: &mut M, old: Numbers, at: Moment) -> Step
    requires { old.owed ≤ capacity_of M.limits Which.Owed }
    ensures left { (st : State) → told_step result (M.stored memory.new) ≡ step_of (goes_on kind (session_at st old (M.stored memory.old)) at.ms) }
    ensures loans { (M.stored memory.new).loans ≡ (M.stored memory.old).loans }
    ensures hand { hand_in result.numbers (M.stored memory.new) ≡ hand_in old (M.stored memory.old) }
{
    if 1 < old.owed {
        return ask_next(memory, old, at);
    }
    if old.fresh == 0 {
        return old.awaiting(None, State::Done, at);
    }
    old.awaiting(Some(Command::Commit), State::Committing, at)
}

/// The answer to an enable command.
pub(crate) fn on_answer<M: Arrays>(
    memory: &mut M,
    tested: Tested<M>,
    at: Moment,
    payload: &[u8],
) -> Step
    requires { state_of tested.numbers.phase tested.numbers.attempt ≡ State.Enabling }
    ensures left { (st : State) → told_step result (M.stored memory.new) ≡ step_of (goes_on kind (marks kind (session_at st tested.numbers (M.stored memory.old)) payload.now (answer_of payload.now)) at.ms) }
    ensures loans { (M.stored memory.new).loans ≡ (M.stored memory.old).loans }
    ensures hand { hand_in result.numbers (M.stored memory.new) ≡ hand_in tested.numbers (M.stored memory.old) }
{
    let marked = mark(memory, tested.numbers, payload);
    go_on(memory, marked, at)
}

/// The fresh PGNs are saved.
pub(crate) fn save<M: Arrays>(memory: &mut M, tested: Tested<M>, at: Moment) -> Step
    ensures left { (st : State) → told_step result (M.stored memory.new) ≡ step_of (activated kind good (session_at st tested.numbers (M.stored memory.old)) at.ms) }
    ensures loans { (M.stored memory.new).loans ≡ (M.stored memory.old).loans }
    ensures hand { hand_in result.numbers (M.stored memory.new) ≡ hand_in tested.numbers (M.stored memory.old) }
{
    sized(memory);
    let old = tested.numbers;
    memory.save_fresh(old.saved as usize, old.fresh as usize);
    let mut numbers = old;
    numbers.saved = old.saved + old.fresh;
    numbers.awaiting(None, State::Done, at)
}
