// The numbers of a session, as they lie in memory, and whether they are those of a session.
ghost use Rattle.std.specs.Prelude.{◌≡◌, ◌≤◌};
ghost use Rattle.bounds.specs.Bounds.{old_fits};
ghost use Rattle.numbers.specs.Layout.{state_of};
ghost use Rattle.helm.specs.Stored.{Stored, count_of, counts_of, is_calm, is_well_formed, plain, plain_in, session_of, with_state};

use bounds::{Counts, Limits};
use tx_list::State;

/// The numbers of a session. Any number may stand anywhere; a flag is set by any number but 0.
// kept: as C has them: memory may hold anything, so that a flag, a phase and what goes with a flag are numbers, where an `Option` or a `State` would be broken by a stray one.
#[repr(C)]
#[derive(Clone, Copy, Debug, Default, PartialEq, Eq)]
pub struct Numbers {
    /// 0 waits for the mode, 1 waits to read, 2 reads Format 1, 3 reads Format 2, 4 enables, 5 commits, 6 activates, 7 done.
    pub phase: u32,
    /// The attempt of the read, from 1, in phases 2 and 3.
    pub attempt: u32,
    /// In milliseconds: a tick at or after it acts, in phases 1 to 6.
    pub due: u64,
    /// How many PGNs each list holds.
    pub wanted: u32,
    pub owed: u32,
    pub fresh: u32,
    pub list: u32,
    /// How many proprietary PGNs are in hand while Format 2 is read.
    pub proprietary: u32,
    pub known: u32,
    pub saved: u32,
    pub present: u32,
    pub refused: u32,
    /// Whether a list of the gateway is known, and whether it is whole: read in Format 2.
    pub read: u32,
    pub complete: u32,
    /// Whether the firmware was told, and its version times 1000.
    pub told: u32,
    pub version: u16,
    /// Whether no part of Format 2 is in hand, whatever stands where they are kept.
    pub blank: u16,
}

/// A list of a session.
#[derive(Clone, Copy, Debug, PartialEq, Eq)]
pub enum Which {
    Wanted,
    Owed,
    Fresh,
    List,
    Known,
    Saved,
    Present,
    Refused,
}

impl Numbers {
    // kept: std has no `From` of u32 for usize.
    pub(crate) fn counts(self) -> Counts
        ensures { result ≡ counts_of self }
    {
        Counts {
            wanted: self.wanted as usize,
            owed: self.owed as usize,
            fresh: self.fresh as usize,
            list: self.list as usize,
            proprietary: self.proprietary as usize,
            known: self.known as usize,
            saved: self.saved as usize,
            present: self.present as usize,
            refused: self.refused as usize,
        }
    }

    /// How many PGNs a list holds.
    pub fn count(self, which: Which) -> u32
        ensures { result ≡ count_of which self }
    {
        match which {
            Which::Wanted => self.wanted,
            Which::Owed => self.owed,
            Which::Fresh => self.fresh,
            Which::List => self.list,
            Which::Known => self.known,
            Which::Saved => self.saved,
            Which::Present => self.present,
            Which::Refused => self.refused,
        }
    }

    /// The phase and the attempt. A phase over 7 is none, and no session is well formed there.
    pub fn state(self) -> State
        ensures { result ≡ state_of self.phase self.attempt }
    {
        numbers::state_of(u64::from(self.phase), self.attempt)
    }

    /// The same numbers in another phase.
    pub fn in_state(self, state: State) -> Numbers
        ensures { result ≡ with_state self state }
    {
        let (phase, attempt) = match state {
            State::AwaitStartup => (0, 0),
            State::ReadAt => (1, 0),
            State::Reading(attempt) => (2, attempt),
            State::ReadingF2(attempt) => (3, attempt),
            State::Enabling => (4, 0),
            State::Committing => (5, 0),
            State::Activating => (6, 0),
            State::Done => (7, 0),
        };
        Numbers {
            phase,
            attempt,
            ..self
        }
    }

    /// In another phase, in the one form in which a call stores numbers.
    pub(crate) fn plain_in(self, state: State) -> Numbers
        ensures { result ≡ plain_in self state }
    {
        Numbers {
            read: u32::from(self.read != 0),
            complete: u32::from(self.complete != 0),
            told: u32::from(self.told != 0),
            blank: u16::from(self.blank != 0),
            ..self.in_state(state)
        }
    }

    /// The same session in the one form in which a call stores numbers: a flag is 0 or 1, and an attempt stands only where the phase has one.
    pub fn plain(self) -> Numbers
        ensures value { result ≡ plain self }
        ensures held { (s : Stored) → session_of result s ≡ session_of self s }
        ensures phase { result.phase ≤ 7 }
        ensures form { result ≡ plain result }
    {
        self.plain_in(self.state())
    }

    // kept: no plainer: another test than `sound_at` of bounds: it suits every phase but enabling, in one look without a branch.
    /// Whether the numbers are within bounds that suit every phase but enabling: one look, side by side, without a branch.
    #[inline(always)]
    pub fn is_calm(self, limits: Limits) -> bool
        ensures { result ≡ is_calm limits self }
    {
        (self.wanted as usize <= limits.wanted)
            & (self.owed as usize <= limits.wanted)
            & (self.fresh as usize <= limits.wanted)
            & (self.list as usize <= limits.list)
            & (self.proprietary <= 512)
            & (self.known as usize <= limits.known)
            & (self.saved <= 192)
            & (self.present <= 192)
            & (self.refused <= 192)
            & (self.phase <= 7)
            & (self.phase != 4)
            & (limits.two | (self.phase != 3))
    }

    /// Whether no list of the record is over 192.
    pub(crate) fn has_old_record(self) -> bool
        ensures { result ≡ old_fits (counts_of self) }
    {
        self.counts().has_old_record()
    }

    /// Whether the numbers are those of a session.
    pub(crate) fn is_well_formed(self, limits: Limits) -> bool
        ensures { result ≡ is_well_formed limits self }
    {
        self.phase <= 7 && limits.sound_at(self.counts(), self.state())
    }
}
