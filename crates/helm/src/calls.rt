// The calls that need the numbers of a session alone, for callers whose arrays lie elsewhere: each answers the numbers to store.
ghost use Rattle.std.specs.Prelude.{◌≡◌, ◌≤◌, List, ℕ, Ok, IfOk, OnOk, IsTrue, true, length};
ghost use Rattle.tx_list.specs.Reading as model;
ghost use Rattle.tx_list.specs.Moves.{starts_over, with_firmware};
ghost use Rattle.bounds.specs.declared.Limits.{Limits as Bounds};
ghost use Rattle.helm.specs.Stored.{Stored, FitLimits, is_well_formed, kind_of, plain, session_of};
ghost use Rattle.helm.specs.Calls.{Holds, told, told_numbers, told_opened, told_ticked, begun_with, called, set_to, restarted, abandoned, state_of, done_of, told_lacks, lack_of, idle_at, ignored_at};

use crate::moment::Moment;
use crate::steps::write_sent;
use crate::stored::Numbers;
use crate::words::{Lack, MESSAGE_LIMIT, OUTPUT_ROOM, Refusal, TIME_LIMIT};
use bounds::Limits;

/// What a tick leaves: the numbers, and how many bytes of commands it wrote.
#[derive(Clone, Copy, Debug, PartialEq, Eq)]
pub struct Ticked {
    pub numbers: Numbers,
    pub count: usize,
}

/// Each call answers the numbers to be stored. After a refusal those that it was called with stay.
// kept: no plainer: the limits come with the numbers into each call, since memory as C has it keeps none; behind the test they are one (`Tested`).
impl Numbers {
    /// Whether the numbers are those of a session. Most are told by one look.
    #[inline(always)]
    pub(crate) fn is_session(self, limits: Limits) -> bool
        ensures { FitLimits limits → result ≡ is_well_formed limits self }
    {
        self.is_calm(limits) || self.is_well_formed(limits)
    }

    /// A session that wants so many PGNs, which the caller writes. Its record keeps its counts. Refuses with 11, 12.
    pub fn begin(self, limits: Limits, wanted: usize) -> Result<Numbers, Refusal>
        ensures left { (s : Stored) (pgns : List ℕ) → FitLimits limits → s.numbers ≡ self → length pgns ≡ wanted → told_opened result s pgns ≡ begun_with limits s pgns }
        ensures phase { IfOk result (λ n. n.phase ≤ 7) }
        ensures form { IfOk result (λ n. n ≡ plain n) }
        ensures room { OnOk result (wanted ≤ limits.wanted) }
    {
        let count = match u32::try_from(wanted) {
            Ok(count) if wanted <= limits.wanted => count,
            _ => return Err(Refusal::TooManyWanted),
        };
        if !self.has_old_record() {
            return Err(Refusal::RecordTooLong);
        }
        Ok(self.opened(count))
    }

    fn started_over(self) -> Numbers
        ensures { (l : Bounds) (s : Stored) → session_of result s ≡ starts_over (kind_of l) (session_of self s) }
    {
        Numbers {
            phase: 0,
            attempt: 0,
            due: 0,
            known: 0,
            read: 0,
            complete: 0,
            told: 0,
            ..self
        }
    }

    fn with_firmware(self, version: u16) -> Numbers
        ensures { (s : Stored) → session_of result s ≡ with_firmware (session_of self s) true version }
    {
        Numbers {
            told: 1,
            version,
            ..self
        }
    }

    /// The session from its start: what is wanted and the record are kept. Refuses with 16, 12.
    pub fn restart(self, limits: Limits) -> Result<Numbers, Refusal>
        ensures left { (s : Stored) → Holds limits self s → told_numbers result s ≡ restarted limits s }
        ensures phase { IfOk result (λ n. n.phase ≤ 7) }
        ensures form { IfOk result (λ n. n ≡ plain n) }
    {
        if !self.is_session(limits) {
            return Err(Refusal::NotWellFormed);
        }
        if !self.has_old_record() {
            return Err(Refusal::RecordTooLong);
        }
        Ok(self.started_over().plain())
    }

    /// The gateway's firmware version times 1000, from its product information. Refuses with 16.
    pub fn set_firmware(self, limits: Limits, version: u16) -> Result<Numbers, Refusal>
        ensures left { (s : Stored) → Holds limits self s → told_numbers result s ≡ set_to limits s version }
        ensures phase { IfOk result (λ n. n.phase ≤ 7) }
        ensures form { IfOk result (λ n. n ≡ plain n) }
    {
        if !self.is_session(limits) {
            return Err(Refusal::NotWellFormed);
        }
        Ok(self.with_firmware(version).plain())
    }

    /// The gateway has no list to set: the session is done, and no list is known. Refuses with 16.
    pub fn abandon(self, limits: Limits) -> Result<Numbers, Refusal>
        ensures left { (s : Stored) → Holds limits self s → told_numbers result s ≡ abandoned limits s }
        ensures phase { IfOk result (λ n. n.phase ≤ 7) }
        ensures form { IfOk result (λ n. n ≡ plain n) }
    {
        if !self.is_session(limits) {
            return Err(Refusal::NotWellFormed);
        }
        Ok(self.give_up().left())
    }

    /// Whether the session is done. Refuses with 16.
    pub fn is_done(self, limits: Limits) -> Result<bool, Refusal>
        ensures { (s : Stored) → Holds limits self s → result ≡ done_of (state_of limits s) }
    {
        if !self.is_session(limits) {
            return Err(Refusal::NotWellFormed);
        }
        Ok(self.phase == 7)
    }

    /// Whether the gateway's list, once read, lacks the PGN; `known` is its whole array. Refuses with 16.
    pub fn lacks(self, limits: Limits, known: &[u32], pgn: u32) -> Result<Option<Lack>, Refusal>
        ensures { (s : Stored) → Holds limits self s → s.known ≡ known.now → told_lacks result ≡ lack_of (state_of limits s) pgn }
    {
        if !self.is_session(limits) {
            return Err(Refusal::NotWellFormed);
        }
        if self.read == 0 {
            return Ok(None);
        }
        if pgns::has(known, self.known as usize, pgn) {
            return Ok(None);
        }
        if self.complete != 0 {
            Ok(Some(Lack::FromWhole))
        } else {
            Ok(Some(Lack::FromPart))
        }
    }

    /// Whether a tick with so much room would be taken and do nothing.
    #[inline(always)]
    pub fn is_idle(self, limits: Limits, time: u64, room: usize) -> bool
        ensures value { FitLimits limits → result ≡ idle_at limits self time room }
        ensures quiet { IsTrue result → (s : Stored) (out : List ℕ) → Holds limits self s → called limits s (model.tick time room) out ≡ told (Ok 0) s out }
    {
        let Some(at) = Moment::new(time) else {
            return false;
        };
        if !self.is_session(limits) {
            return false;
        }
        (OUTPUT_ROOM <= room) & !self.is_due(at)
    }

    /// Whether a message with so much room would be taken and do nothing.
    #[inline(always)]
    pub fn ignores(self, limits: Limits, time: u64, payload: &[u8], room: usize) -> bool
        ensures value { FitLimits limits → result ≡ ignored_at limits self time payload.now room }
        ensures quiet { IsTrue result → (s : Stored) (out : List ℕ) → Holds limits self s → called limits s (model.message time payload.now room) out ≡ told (Ok 0) s out }
    {
        self.is_session(limits)
            && time <= TIME_LIMIT
            && payload.len() <= MESSAGE_LIMIT
            && OUTPUT_ROOM <= room
            && !self.minds(payload)
    }

    /// The passing of time. Refuses with 16, 13, 7.
    pub fn tick(self, limits: Limits, time: u64, out: &mut [u8]) -> Result<Ticked, Refusal>
        ensures left { (s : Stored) → Holds limits self s → told_ticked result s out.new ≡ called limits s (model.tick time (length out.old)) out.old }
        ensures phase { IfOk result (λ t. t.numbers.phase ≤ 7) }
        ensures form { IfOk result (λ t. t.numbers ≡ plain t.numbers) }
    {
        if !self.is_session(limits) {
            return Err(Refusal::NotWellFormed);
        }
        let Some(at) = Moment::new(time) else {
            return Err(Refusal::TimeOverLimit);
        };
        if out.len() < OUTPUT_ROOM {
            return Err(Refusal::NoRoom);
        }
        let step = self.ticked(limits, at);
        let count = write_sent(step.sent, out);
        Ok(Ticked {
            numbers: step.left(),
            count,
        })
    }
}
