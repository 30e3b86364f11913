// The passing of time: the start of a read, another attempt, or the end. Only numbers change.
ghost use Rattle.std.specs.Prelude.{◌≡◌, ◌&&◌, true, leb, None};
ghost use Rattle.bounds.specs.declared.Limits.{Limits as Bounds};
ghost use Rattle.tx_list.specs.Moves.{start_f1, start_f2, finishes, gives_up, late, ticked};
ghost use Rattle.numbers.specs.Layout.{due_in, is_set};
ghost use Rattle.session.specs.Sync.{step_of};
ghost use Rattle.helm.specs.Stored.{Stored, kind_of, session_of, session_at, opened_with, rests_on};
ghost use Rattle.helm.specs.Steps.{told_step};

use crate::moment::Moment;
use crate::steps::Step;
use crate::stored::Numbers;
use crate::words::{F2_FIRMWARE, OUTPUT_ROOM, READ_ATTEMPTS, TIME_LIMIT};
use bounds::Limits;
use commands::Command;
use tx_list::State;

impl Numbers {
    /// Nothing changes.
    pub(crate) fn stay(self, state: State) -> Step
        ensures { result ≡ record { sent = None; state = state; numbers = self } }
    {
        Step {
            sent: None,
            state,
            numbers: self,
        }
    }

    // kept: no plainer: of the two reads, and of their time-outs below, only the due time is the same; what is empty then, what is sent and
    // what comes after the third attempt differ.

    /// Format 1 is asked for, with an empty list.
    pub(crate) fn start_f1(self, attempt: u32, at: Moment) -> Step
        ensures { (l : Bounds) (st : State) (s : Stored) → told_step result s ≡ step_of (start_f1 (kind_of l) (session_at st self s) attempt at.ms) }
    {
        let mut numbers = self;
        numbers.list = 0;
        numbers.due = at.deadline();
        Step {
            sent: Some(Command::ReadF1),
            state: State::Reading(attempt),
            numbers,
        }
    }

    /// Format 2 is asked for, with no part in hand.
    pub(crate) fn start_f2(self, attempt: u32, at: Moment) -> Step
        ensures { (l : Bounds) (st : State) (s : Stored) → told_step result s ≡ step_of (start_f2 (kind_of l) (session_at st self s) attempt at.ms) }
    {
        let mut numbers = self;
        numbers.blank = 1;
        numbers.proprietary = 0;
        numbers.due = at.deadline();
        Step {
            sent: Some(Command::ReadF2),
            state: State::ReadingF2(attempt),
            numbers,
        }
    }

    /// The session is done.
    fn finish(self) -> Step
        ensures { (l : Bounds) (st : State) (s : Stored) → told_step result s ≡ step_of (finishes (kind_of l) (session_at st self s)) }
    {
        self.stay(State::Done)
    }

    /// The session is done, and no list is known.
    pub(crate) fn give_up(self) -> Step
        ensures { (l : Bounds) (st : State) (s : Stored) → told_step result s ≡ step_of (gives_up (kind_of l) (session_at st self s)) }
    {
        let mut numbers = self;
        numbers.read = 0;
        numbers.complete = 0;
        numbers.known = 0;
        numbers.stay(State::Done)
    }

    /// Whether Format 2 is read first: on a machine that reads it, with a firmware that has it.
    fn has_format_2(self, limits: Limits) -> bool
        ensures { result ≡ (limits.two && (is_set self.told && leb 2500 self.version)) }
    {
        limits.two & ((self.told != 0) & (F2_FIRMWARE <= self.version))
    }

    fn start_read(self, limits: Limits, at: Moment) -> Step
        ensures { (s : Stored) → told_step result s ≡ step_of (late (kind_of limits) State.ReadAt (session_at State.ReadAt self s) at.ms) }
    {
        if self.has_format_2(limits) {
            self.start_f2(1, at)
        } else {
            self.start_f1(1, at)
        }
    }

    fn late_f1(self, attempt: u32, at: Moment) -> Step
        ensures { (l : Bounds) (s : Stored) → told_step result s ≡ step_of (late (kind_of l) (State.Reading attempt) (session_at (State.Reading attempt) self s) at.ms) }
    {
        if attempt < READ_ATTEMPTS {
            self.start_f1(attempt + 1, at)
        } else {
            self.give_up()
        }
    }

    fn late_f2(self, attempt: u32, at: Moment) -> Step
        ensures { (l : Bounds) (s : Stored) → told_step result s ≡ step_of (late (kind_of l) (State.ReadingF2 attempt) (session_at (State.ReadingF2 attempt) self s) at.ms) }
    {
        if attempt < READ_ATTEMPTS {
            self.start_f2(attempt + 1, at)
        } else {
            self.start_f1(1, at)
        }
    }

    /// At or after the due time.
    fn late(self, limits: Limits, state: State, at: Moment) -> Step
        ensures { (s : Stored) → told_step result s ≡ step_of (late (kind_of limits) state (session_at state self s) at.ms) }
    {
        match state {
            State::AwaitStartup => self.stay(state),
            State::ReadAt => self.start_read(limits, at),
            State::Reading(attempt) => self.late_f1(attempt, at),
            State::ReadingF2(attempt) => self.late_f2(attempt, at),
            State::Enabling => self.finish(),
            State::Committing => self.finish(),
            State::Activating => self.finish(),
            State::Done => self.stay(state),
        }
    }

    pub(crate) fn ticked(self, limits: Limits, at: Moment) -> Step
        ensures { (s : Stored) → told_step result s ≡ step_of (ticked (kind_of limits) (session_of self s) at.ms) }
    {
        let state = self.state();
        if self.due <= at.ms() {
            self.late(limits, state, at)
        } else {
            self.stay(state)
        }
    }

    /// Whether a tick at that time does something: at or after the due time, and neither waiting for the mode nor done.
    #[inline(always)]
    pub(crate) fn is_due(self, at: Moment) -> bool
        ensures { result ≡ due_in self.phase self.due at.ms }
    {
        (self.due <= at.ms()) & ((self.phase != 0) & (self.phase < 7))
    }

    /// Whether a tick is taken and does nothing, told by one look; where it says no, nothing is said.
    #[inline(always)]
    pub fn rests(self, limits: Limits, time: u64, room: usize) -> bool
        ensures { result ≡ rests_on limits self time room }
    {
        self.is_calm(limits)
            & ((time < self.due) | (self.phase == 0) | (self.phase == 7))
            & (time <= TIME_LIMIT)
            & (OUTPUT_ROOM <= room)
    }

    /// The numbers of a session that has just begun: so many PGNs are wanted, and the record's lists have the counts that they had.
    pub(crate) fn opened(self, wanted: u32) -> Numbers
        ensures { result ≡ opened_with self wanted }
    {
        Numbers {
            wanted,
            saved: self.saved,
            present: self.present,
            refused: self.refused,
            blank: 1,
            ..Numbers::default()
        }
    }
}
