// The machine of a session whose lists are lent one by one, with its numbers in hand and without the parts of Format 2.
ghost use Rattle.std.proofs.Common.{rules};
ghost use Rattle.std.specs.Prelude.{◌≡◌, ◌≤◌, ◌↔◌, IsNone, IfSome, OnErr, OnOk, length, drop};
ghost use Rattle.field.specs.Pick.{pick};
ghost use Rattle.pgns.specs.Lists.{noted, owed_in};
ghost use Rattle.tx_list.specs.Reading as model;
ghost use Rattle.tx_list.specs.Views.{pgns_at};
ghost use Rattle.helm.specs.Stored.{array_of, capacity_of, plain, with_array, with_numbers};
ghost use Rattle.helm.specs.Steps.{minded};
ghost use Rattle.helm.specs.Hands.{hand_in, hand_after_message};
ghost use Rattle.helm.specs.Arrays.{storing, first, owed_by};
ghost use Rattle.helm.specs.Calls.{told, called};
ghost use Rattle.helm.specs.Machines.{SameArrays, helm_limits, arrays_plain, arrays_stored};

use crate::entry;
use crate::memory::Arrays;
use crate::stored::{Numbers, Which};
use crate::words::Refusal;
use bounds::Limits;

/// A session as in `Lent`, but with its numbers in hand, as `Numbers::from_lent` reads them, and with no place for the parts of Format 2.
// kept: no plainer: a machine of its own, with stores like those of `Lent`: one that borrowed the other's arrays would hold references of references, for
// which no rule tells the lender what he finds; and an option of parts is cleared whole at each call, 4.6 KB, used or not.
#[derive(Drop)]
pub struct LentArrays<'a> {
    pub numbers: Numbers,
    pub wanted: &'a mut [u32; 64],
    pub owed: &'a mut [u32; 64],
    pub fresh: &'a mut [u32; 64],
    pub list: &'a mut [u32; 1024],
    pub known: &'a mut [u32; 1344],
    pub saved: &'a mut [u32; 256],
    pub present: &'a mut [u32; 256],
    pub refused: &'a mut [u32; 256],
}

impl Arrays for LentArrays<'_> {
    ghost limits = { helm_limits };

    ghost stored = { arrays_stored };

    fn limits() -> Limits
        ensures { result ≡ helm_limits }
    {
        Limits {
            wanted: 64,
            list: 1024,
            known: 1344,
            two: true,
        }
    }

    fn numbers(&self) -> Numbers
        ensures { result ≡ (arrays_stored self.now).numbers }
    {
        self.numbers
    }

    fn set_numbers(&mut self, numbers: Numbers)
        ensures { arrays_stored self.new ≡ with_numbers (arrays_stored self.old) numbers }
    {
        self.numbers = numbers;
    }

    fn array(&self, which: Which) -> &[u32]
        ensures array { result.now ≡ array_of which (arrays_stored self.now) }
        ensures len { length result.now ≡ capacity_of helm_limits which }
    {
        match which {
            Which::Wanted => self.wanted,
            Which::Owed => self.owed,
            Which::Fresh => self.fresh,
            Which::List => self.list,
            Which::Known => self.known,
            Which::Saved => self.saved,
            Which::Present => self.present,
            Which::Refused => self.refused,
        }
    }

    fn store(&mut self, which: Which, at: usize, pgns: &[u32])
        ensures { arrays_stored self.new ≡ storing (arrays_stored self.old) which at pgns.now }
    {
        let count = pgns.len();
        match which {
            Which::Wanted => pgns::append(self.wanted, at, pgns, count),
            Which::Owed => pgns::append(self.owed, at, pgns, count),
            Which::Fresh => pgns::append(self.fresh, at, pgns, count),
            Which::List => pgns::append(self.list, at, pgns, count),
            Which::Known => pgns::append(self.known, at, pgns, count),
            Which::Saved => pgns::append(self.saved, at, pgns, count),
            Which::Present => pgns::append(self.present, at, pgns, count),
            Which::Refused => pgns::append(self.refused, at, pgns, count),
        }
    }

    fn add_pgns(&mut self, at: usize, message: &[u8], count: usize)
        ensures { arrays_stored self.new ≡ storing (arrays_stored self.old) Which.List at (pgns_at message.now 13 count) }
    {
        pgns::add_pgns(self.list, at, message, 13, count);
    }

    fn know_list(&mut self, count: usize)
        ensures { arrays_stored self.new ≡ storing (arrays_stored self.old) Which.Known 0 (first Which.List count (arrays_stored self.old)) }
    {
        let known = &mut *self.known;
        let list = &mut *self.list;
        pgns::append(known, 0, list, count);
    }

    fn note_present(&mut self, count: usize, present: usize) -> usize
        ensures value { result ≡ (noted (arrays_stored self.old).known count (arrays_stored self.old).present present).n }
        ensures known { arrays_stored self.new ≡ with_array (arrays_stored self.old) Which.Known (noted (arrays_stored self.old).known count (arrays_stored self.old).present present).items }
    {
        let known = &mut *self.known;
        let there = &mut *self.present;
        pgns::note_all(known, count, there, present)
    }

    fn owe(&mut self, wanted: usize, list: usize, present: usize, refused: usize) -> usize
        ensures value { result ≡ (owed_in (arrays_stored self.old).owed wanted (owed_by wanted list present refused (arrays_stored self.old))).n }
        ensures owed { arrays_stored self.new ≡ with_array (arrays_stored self.old) Which.Owed (owed_in (arrays_stored self.old).owed wanted (owed_by wanted list present refused (arrays_stored self.old))).items }
    {
        let owed = &mut *self.owed;
        let asked = &mut *self.wanted;
        let known = &mut *self.known;
        let there = &mut *self.present;
        let denied = &mut *self.refused;
        pgns::owed_into(
            owed, asked, wanted, known, list, there, present, denied, refused,
        )
    }

    fn shift_owed(&mut self, count: usize)
        ensures { arrays_stored self.new ≡ storing (arrays_stored self.old) Which.Owed 0 (drop 1 (first Which.Owed count (arrays_stored self.old))) }
    {
        pgns::shift(self.owed, count);
    }

    fn save_fresh(&mut self, at: usize, count: usize)
        ensures { arrays_stored self.new ≡ storing (arrays_stored self.old) Which.Saved at (first Which.Fresh count (arrays_stored self.old)) }
    {
        let saved = &mut *self.saved;
        let fresh = &mut *self.fresh;
        pgns::append(saved, at, fresh, count);
    }

    ghost limits_fit = { Prim.search rules };
}

impl LentArrays<'_> {
    /// A message of the gateway at a time, as `message` of `Session`. None while Format 2 is read: such a message is for a machine with parts, and
    /// nothing changes.
    pub fn hear(
        &mut self,
        time: u64,
        payload: &[u8],
        out: &mut [u8],
    ) -> Option<Result<usize, Refusal>>
        ensures none { IsNone result ↔ (self.old.numbers.phase ≡ 3) }
        ensures kept { IsNone result → (self.new ≡ self.old) × (out.new ≡ out.old) }
        ensures left { IfSome result (λ r. told r (arrays_plain self.new) out.new ≡ called helm_limits (arrays_plain self.old) (model.message time payload.now (length out.old)) out.old) }
        ensures same { SameArrays self.new self.old }
        ensures phase { IfSome result (λ r. OnOk r ((arrays_plain self.new).numbers.phase ≤ 7)) }
        ensures form { IfSome result (λ r. OnOk r ((arrays_plain self.new).numbers ≡ pick (minded (arrays_plain self.old).numbers payload.now) (plain (arrays_plain self.new).numbers) (arrays_plain self.old).numbers)) }
        ensures hand { IfSome result (λ r. OnOk r (hand_in (arrays_plain self.new).numbers (arrays_plain self.new) ≡ hand_after_message (arrays_plain self.old).numbers (arrays_plain self.old) payload.now)) }
        ensures err { IfSome result (λ r. OnErr r (self.new ≡ self.old)) }
    {
        if self.numbers.phase == 3 {
            return None;
        }
        Some(entry::message_outside(self, time, payload, out))
    }
}
