ghost use Rattle.std.specs.Prelude.{◌≡◌, ◌≤◌, List, ℕ, Ok, IsTrue, OnErr, OnOk, length};
ghost use Rattle.tx_list.specs.Reading as model;
ghost use Rattle.field.specs.Pick.{pick};
ghost use Rattle.lists.specs.declared.F2List.{F2List};
ghost use Rattle.helm.specs.Stored.{pgns_in, plain, rests_on, with_parts};
ghost use Rattle.helm.specs.Steps.{minded};
ghost use Rattle.helm.specs.Hands.{hand_in, hand_after_message};
ghost use Rattle.helm.specs.Calls.{told, told_done, begun_with, called, set_to, restarted, abandoned, state_of, done_of, told_lacks, lack_of, idle_at, ignored_at};

use crate::arrays::sized;
use crate::entry;
use crate::memory::Memory;
use crate::stored::Which;
use crate::words::{Lack, Refusal};

/// The calls of a session. A refusal changes nothing; a call that is taken leaves a phase up to 7, and what it stores is `plain`: a tick that one
/// look tells to do nothing, and a message that is of no interest, store nothing; commands go into a lent output of `OUTPUT_ROOM` bytes or more, end to end.
/// No call but a message touches the parts of Format 2 in memory, and what it does is the same whatever stands there. So a call that is taken leaves
/// nothing of memory open, parts that are not in hand included (`renewed_fixes`, `tick_fixes`, `message_fixes`).
// kept: no plainer: what a call promises beside the session is a clause each: `form`, `loans`, `phase`, `parts` and `any_parts`, or `hand`, and `err` where it refuses; callers cite one
// at a time, and as one record it would be taken apart again by each.
pub trait Session: Memory {
    /// A session that wants these PGNs. Its record is what stands in the lists of saved, present and refused. Refuses with 11, 12.
    final fn begin(&mut self, wanted: &[u32]) -> Result<(), Refusal>
        ensures left { told_done result (Self.stored self.new) ≡ begun_with Self.limits (Self.stored self.old) wanted.now }
        ensures loans { (Self.stored self.new).loans ≡ (Self.stored self.old).loans }
        ensures phase { OnOk result ((Self.stored self.new).numbers.phase ≤ 7) }
        ensures form { OnOk result ((Self.stored self.new).numbers ≡ plain (Self.stored self.new).numbers) }
        ensures parts { (Self.stored self.new).parts ≡ (Self.stored self.old).parts }
        ensures any_parts { (f : F2List) → told_done result (with_parts (Self.stored self.new) f) ≡ begun_with Self.limits (with_parts (Self.stored self.old) f) wanted.now }
        ensures err { OnErr result (self.new ≡ self.old) }
    {
        sized(self);
        let numbers = self.numbers().begin(Self::limits(), wanted.len())?;
        self.store(Which::Wanted, 0, wanted);
        self.set_numbers(numbers);
        Ok(())
    }

    /// The session from its start: what is wanted and the record are kept. Refuses with 16, 12.
    final fn restart(&mut self) -> Result<(), Refusal>
        ensures left { told_done result (Self.stored self.new) ≡ restarted Self.limits (Self.stored self.old) }
        ensures loans { (Self.stored self.new).loans ≡ (Self.stored self.old).loans }
        ensures phase { OnOk result ((Self.stored self.new).numbers.phase ≤ 7) }
        ensures form { OnOk result ((Self.stored self.new).numbers ≡ plain (Self.stored self.new).numbers) }
        ensures parts { (Self.stored self.new).parts ≡ (Self.stored self.old).parts }
        ensures any_parts { (f : F2List) → told_done result (with_parts (Self.stored self.new) f) ≡ restarted Self.limits (with_parts (Self.stored self.old) f) }
        ensures err { OnErr result (self.new ≡ self.old) }
    {
        sized(self);
        let numbers = self.numbers().restart(Self::limits())?;
        self.set_numbers(numbers);
        Ok(())
    }

    /// The gateway's firmware version times 1000, from its product information. Refuses with 16.
    final fn set_firmware(&mut self, version: u16) -> Result<(), Refusal>
        ensures left { told_done result (Self.stored self.new) ≡ set_to Self.limits (Self.stored self.old) version }
        ensures loans { (Self.stored self.new).loans ≡ (Self.stored self.old).loans }
        ensures phase { OnOk result ((Self.stored self.new).numbers.phase ≤ 7) }
        ensures form { OnOk result ((Self.stored self.new).numbers ≡ plain (Self.stored self.new).numbers) }
        ensures parts { (Self.stored self.new).parts ≡ (Self.stored self.old).parts }
        ensures any_parts { (f : F2List) → told_done result (with_parts (Self.stored self.new) f) ≡ set_to Self.limits (with_parts (Self.stored self.old) f) version }
        ensures err { OnErr result (self.new ≡ self.old) }
    {
        sized(self);
        let numbers = self.numbers().set_firmware(Self::limits(), version)?;
        self.set_numbers(numbers);
        Ok(())
    }

    /// The gateway has no list to set: the session is done, and no list is known. Refuses with 16.
    final fn abandon(&mut self) -> Result<(), Refusal>
        ensures left { told_done result (Self.stored self.new) ≡ abandoned Self.limits (Self.stored self.old) }
        ensures loans { (Self.stored self.new).loans ≡ (Self.stored self.old).loans }
        ensures phase { OnOk result ((Self.stored self.new).numbers.phase ≤ 7) }
        ensures form { OnOk result ((Self.stored self.new).numbers ≡ plain (Self.stored self.new).numbers) }
        ensures parts { (Self.stored self.new).parts ≡ (Self.stored self.old).parts }
        ensures any_parts { (f : F2List) → told_done result (with_parts (Self.stored self.new) f) ≡ abandoned Self.limits (with_parts (Self.stored self.old) f) }
        ensures err { OnErr result (self.new ≡ self.old) }
    {
        sized(self);
        let numbers = self.numbers().abandon(Self::limits())?;
        self.set_numbers(numbers);
        Ok(())
    }

    /// Whether the session is done. Refuses with 16.
    final fn is_done(&self) -> Result<bool, Refusal>
        ensures { result ≡ done_of (state_of Self.limits (Self.stored self.now)) }
    {
        sized(self);
        self.numbers().is_done(Self::limits())
    }

    /// Whether the gateway's list, once read, lacks the PGN. Refuses with 16.
    final fn lacks(&self, pgn: u32) -> Result<Option<Lack>, Refusal>
        ensures { told_lacks result ≡ lack_of (state_of Self.limits (Self.stored self.now)) pgn }
    {
        sized(self);
        self.numbers()
            .lacks(Self::limits(), self.array(Which::Known), pgn)
    }

    /// The PGNs of a list: as many as its count says, and as far as its array goes. While the session is well formed, all that the count says.
    final fn pgns(&self, which: Which) -> &[u32]
        ensures { result.now ≡ pgns_in which (Self.stored self.now) }
    {
        let array = self.array(which);
        let count = self.numbers().count(which) as usize;
        &array[..count.min(array.len())]
    }

    /// Whether a tick with so much room would be taken and do nothing.
    final fn is_idle(&self, time: u64, room: usize) -> bool
        ensures value { result ≡ idle_at Self.limits (Self.stored self.now).numbers time room }
        ensures quiet { IsTrue result → (out : List ℕ) → called Self.limits (Self.stored self.now) (model.tick time room) out ≡ told (Ok 0) (Self.stored self.now) out }
    {
        sized(self);
        self.numbers().is_idle(Self::limits(), time, room)
    }

    /// Whether a message with so much room would be taken and do nothing.
    final fn ignores(&self, time: u64, payload: &[u8], room: usize) -> bool
        ensures value { result ≡ ignored_at Self.limits (Self.stored self.now).numbers time payload.now room }
        ensures quiet { IsTrue result → (out : List ℕ) → called Self.limits (Self.stored self.now) (model.message time payload.now room) out ≡ told (Ok 0) (Self.stored self.now) out }
    {
        sized(self);
        self.numbers().ignores(Self::limits(), time, payload, room)
    }

    /// The passing of time. Refuses with 16, 13, 7.
    final fn tick(&mut self, time: u64, out: &mut [u8]) -> Result<usize, Refusal>
        ensures left { told result (Self.stored self.new) out.new ≡ called Self.limits (Self.stored self.old) (model.tick time (length out.old)) out.old }
        ensures loans { (Self.stored self.new).loans ≡ (Self.stored self.old).loans }
        ensures phase { OnOk result ((Self.stored self.new).numbers.phase ≤ 7) }
        ensures form { OnOk result ((Self.stored self.new).numbers ≡ pick (rests_on Self.limits (Self.stored self.old).numbers time (length out.old)) (Self.stored self.old).numbers (plain (Self.stored self.new).numbers)) }
        ensures parts { (Self.stored self.new).parts ≡ (Self.stored self.old).parts }
        ensures any_parts { (f : F2List) → told result (with_parts (Self.stored self.new) f) out.new ≡ called Self.limits (with_parts (Self.stored self.old) f) (model.tick time (length out.old)) out.old }
        ensures err { OnErr result (self.new ≡ self.old) }
    {
        sized(self);
        if self.numbers().rests(Self::limits(), time, out.len()) {
            return Ok(0);
        }
        entry::tick(self, time, out)
    }

    /// A message of the gateway at a time. While Format 2 is read, a part of its lists is kept with those in hand, until the list is whole; any other message, and
    /// each one in another phase, leaves the parts in memory as they were, in hand or not. Refuses with 16, 13, 6, 7, 14.
    final fn message(&mut self, time: u64, payload: &[u8], out: &mut [u8]) -> Result<usize, Refusal>
        ensures left { told result (Self.stored self.new) out.new ≡ called Self.limits (Self.stored self.old) (model.message time payload.now (length out.old)) out.old }
        ensures loans { (Self.stored self.new).loans ≡ (Self.stored self.old).loans }
        ensures phase { OnOk result ((Self.stored self.new).numbers.phase ≤ 7) }
        ensures form { OnOk result ((Self.stored self.new).numbers ≡ pick (minded (Self.stored self.old).numbers payload.now) (plain (Self.stored self.new).numbers) (Self.stored self.old).numbers) }
        ensures hand { OnOk result (hand_in (Self.stored self.new).numbers (Self.stored self.new) ≡ hand_after_message (Self.stored self.old).numbers (Self.stored self.old) payload.now) }
        ensures err { OnErr result (self.new ≡ self.old) }
    {
        sized(self);
        if self
            .numbers()
            .skips(Self::limits(), time, payload, out.len())
        {
            return Ok(0);
        }
        entry::message(self, time, payload, out)
    }
}
