// The machine of a session whose numbers and lists are lent one by one, as C callers lend them.
ghost use Rattle.std.proofs.Common.{rules};
ghost use Rattle.std.specs.Prelude.{◌≡◌, ◌≤◌, ◌%◌, OnErr, OnOk, length, drop};
ghost use Rattle.field.specs.Pick.{pick};
ghost use Rattle.pgns.specs.Lists.{noted, owed_in};
ghost use Rattle.tx_list.specs.Reading as model;
ghost use Rattle.tx_list.specs.Views.{pgns_at};
ghost use Rattle.helm.specs.Stored.{array_of, capacity_of, parts_of, plain, with_array, with_numbers, with_parts};
ghost use Rattle.helm.specs.Steps.{minded};
ghost use Rattle.helm.specs.Hands.{hand_in, hand_after_message};
ghost use Rattle.helm.specs.Arrays.{storing, first, owed_by};
ghost use Rattle.helm.specs.Calls.{told, called};
ghost use Rattle.helm.specs.Machines.{SameLoans, helm_limits, word, half, numbers_in, lent_plain, lent_stored};

use crate::memory::{Arrays, Memory};
use crate::sessions::Session;
use crate::stored::{Numbers, Which};
use crate::words::Refusal;
use bounds::Limits;
use lists::F2List;

/// A session with a helm's limits in memory of somebody else: 17 numbers as crate `numbers` lays them out, and an array for each list. The parts
/// of a Format 2 read are lent by value; None where they are not lent, and then none is in hand.
#[derive(Drop)]
pub struct Lent<'a> {
    pub numbers: &'a mut [u64; 17],
    pub wanted: &'a mut [u32; 64],
    pub owed: &'a mut [u32; 64],
    pub fresh: &'a mut [u32; 64],
    pub list: &'a mut [u32; 1024],
    pub known: &'a mut [u32; 1344],
    pub saved: &'a mut [u32; 256],
    pub present: &'a mut [u32; 256],
    pub refused: &'a mut [u32; 256],
    pub parts: Option<F2List>,
}

/// A number of 32 bits; one that has more is the largest, which is over every count, is no phase, and is set as a flag.
fn word(x: u64) -> u32
    ensures { result ≡ word x }
{
    if 4294967295 < x { 4294967295 } else { x as u32 }
}

/// The same of 16 bits.
fn half(x: u64) -> u16
    ensures { result ≡ half x }
{
    if 65535 < x { 65535 } else { x as u16 }
}

/// A number of 32 bits, as it is laid out.
fn wide(x: u32) -> u64
    ensures whole { word result ≡ x }
    ensures cut { result % 4294967296 ≡ x }
{
    u64::from(x)
}

/// The same of 16 bits.
fn wide_16(x: u16) -> u64
    ensures whole { half result ≡ x }
    ensures cut { result % 65536 ≡ x }
{
    u64::from(x)
}

impl Numbers {
    /// The numbers that these 17 tell, as crate `numbers` lays them out.
    pub fn from_lent(n: &[u64; 17]) -> Numbers
        ensures { result ≡ numbers_in n.now }
    {
        Numbers {
            phase: word(n[0]),
            attempt: numbers::low32(n[1]),
            due: n[11],
            wanted: word(n[2]),
            owed: word(n[3]),
            fresh: word(n[4]),
            list: word(n[5]),
            proprietary: word(n[6]),
            known: word(n[7]),
            saved: word(n[8]),
            present: word(n[9]),
            refused: word(n[10]),
            read: word(n[12]),
            complete: word(n[13]),
            told: word(n[14]),
            version: numbers::low16(n[15]),
            blank: half(n[16]),
        }
    }
}

/// The 17 numbers that tell these.
fn laid_out(x: Numbers) -> [u64; 17]
    ensures { numbers_in result ≡ x }
{
    [
        wide(x.phase),
        wide(x.attempt),
        wide(x.wanted),
        wide(x.owed),
        wide(x.fresh),
        wide(x.list),
        wide(x.proprietary),
        wide(x.known),
        wide(x.saved),
        wide(x.present),
        wide(x.refused),
        x.due,
        wide(x.read),
        wide(x.complete),
        wide(x.told),
        wide_16(x.version),
        wide_16(x.blank),
    ]
}

impl Arrays for Lent<'_> {
    ghost limits = { helm_limits };

    ghost stored = { lent_stored };

    fn limits() -> Limits
        ensures { result ≡ helm_limits }
    {
        Limits {
            wanted: 64,
            list: 1024,
            known: 1344,
            two: true,
        }
    }

    fn numbers(&self) -> Numbers
        ensures { result ≡ (lent_stored self.now).numbers }
    {
        Numbers::from_lent(self.numbers)
    }

    fn set_numbers(&mut self, numbers: Numbers)
        ensures { lent_stored self.new ≡ with_numbers (lent_stored self.old) numbers }
    {
        *self.numbers = laid_out(numbers);
    }

    fn array(&self, which: Which) -> &[u32]
        ensures array { result.now ≡ array_of which (lent_stored self.now) }
        ensures len { length result.now ≡ capacity_of helm_limits which }
    {
        match which {
            Which::Wanted => self.wanted,
            Which::Owed => self.owed,
            Which::Fresh => self.fresh,
            Which::List => self.list,
            Which::Known => self.known,
            Which::Saved => self.saved,
            Which::Present => self.present,
            Which::Refused => self.refused,
        }
    }

    fn store(&mut self, which: Which, at: usize, pgns: &[u32])
        ensures { lent_stored self.new ≡ storing (lent_stored self.old) which at pgns.now }
    {
        let count = pgns.len();
        match which {
            Which::Wanted => pgns::append(self.wanted, at, pgns, count),
            Which::Owed => pgns::append(self.owed, at, pgns, count),
            Which::Fresh => pgns::append(self.fresh, at, pgns, count),
            Which::List => pgns::append(self.list, at, pgns, count),
            Which::Known => pgns::append(self.known, at, pgns, count),
            Which::Saved => pgns::append(self.saved, at, pgns, count),
            Which::Present => pgns::append(self.present, at, pgns, count),
            Which::Refused => pgns::append(self.refused, at, pgns, count),
        }
    }

    fn add_pgns(&mut self, at: usize, message: &[u8], count: usize)
        ensures { lent_stored self.new ≡ storing (lent_stored self.old) Which.List at (pgns_at message.now 13 count) }
    {
        pgns::add_pgns(self.list, at, message, 13, count);
    }

    // kept: `pgns::append(self.known, 0, self.list, count)`, and its like below, was tried: no rule proves a field that is read beside one that
    // is written, both behind `self`
    fn know_list(&mut self, count: usize)
        ensures { lent_stored self.new ≡ storing (lent_stored self.old) Which.Known 0 (first Which.List count (lent_stored self.old)) }
    {
        let known = &mut *self.known;
        let list = &mut *self.list;
        pgns::append(known, 0, list, count);
    }

    fn note_present(&mut self, count: usize, present: usize) -> usize
        ensures value { result ≡ (noted (lent_stored self.old).known count (lent_stored self.old).present present).n }
        ensures known { lent_stored self.new ≡ with_array (lent_stored self.old) Which.Known (noted (lent_stored self.old).known count (lent_stored self.old).present present).items }
    {
        let known = &mut *self.known;
        let there = &mut *self.present;
        pgns::note_all(known, count, there, present)
    }

    fn owe(&mut self, wanted: usize, list: usize, present: usize, refused: usize) -> usize
        ensures value { result ≡ (owed_in (lent_stored self.old).owed wanted (owed_by wanted list present refused (lent_stored self.old))).n }
        ensures owed { lent_stored self.new ≡ with_array (lent_stored self.old) Which.Owed (owed_in (lent_stored self.old).owed wanted (owed_by wanted list present refused (lent_stored self.old))).items }
    {
        let owed = &mut *self.owed;
        let asked = &mut *self.wanted;
        let known = &mut *self.known;
        let there = &mut *self.present;
        let denied = &mut *self.refused;
        pgns::owed_into(
            owed, asked, wanted, known, list, there, present, denied, refused,
        )
    }

    fn shift_owed(&mut self, count: usize)
        ensures { lent_stored self.new ≡ storing (lent_stored self.old) Which.Owed 0 (drop 1 (first Which.Owed count (lent_stored self.old))) }
    {
        pgns::shift(self.owed, count);
    }

    fn save_fresh(&mut self, at: usize, count: usize)
        ensures { lent_stored self.new ≡ storing (lent_stored self.old) Which.Saved at (first Which.Fresh count (lent_stored self.old)) }
    {
        let saved = &mut *self.saved;
        let fresh = &mut *self.fresh;
        pgns::append(saved, at, fresh, count);
    }

    ghost limits_fit = { Prim.search rules };
}

impl Memory for Lent<'_> {
    fn parts(&self) -> F2List
        ensures { result ≡ (lent_stored self.now).parts }
    {
        match self.parts {
            Some(parts) => parts,
            None => F2List::new(),
        }
    }

    fn set_parts(&mut self, parts: F2List)
        ensures { lent_stored self.new ≡ with_parts (lent_stored self.old) parts }
    {
        self.parts = Some(parts);
    }
}

impl Session for Lent<'_> {}

impl Lent<'_> {
    /// A message of the gateway at a time, as `message` of `Session`. What stands behind each reference afterwards is what its lender finds.
    /// A call of its own: within its caller it would have the parts cleared once more.
    #[inline(never)]
    pub fn hear(&mut self, time: u64, payload: &[u8], out: &mut [u8]) -> Result<usize, Refusal>
        ensures left { told result (lent_plain self.new) out.new ≡ called helm_limits (lent_plain self.old) (model.message time payload.now (length out.old)) out.old }
        ensures same { SameLoans self.new self.old }
        ensures phase { OnOk result ((lent_plain self.new).numbers.phase ≤ 7) }
        ensures form { OnOk result ((lent_plain self.new).numbers ≡ pick (minded (lent_plain self.old).numbers payload.now) (plain (lent_plain self.new).numbers) (lent_plain self.old).numbers) }
        ensures hand { OnOk result (hand_in (lent_plain self.new).numbers (lent_plain self.new) ≡ hand_after_message (lent_plain self.old).numbers (lent_plain self.old) payload.now) }
        ensures err { OnErr result (self.new ≡ self.old) }
    {
        self.message(time, payload, out)
    }

    /// The parts of a Format 2 read in hand, none where the numbers say so.
    pub fn in_hand(&self) -> F2List
        ensures { result ≡ parts_of (lent_plain self.now).numbers (lent_plain self.now).parts }
    {
        self.numbers().in_hand(self.parts())
    }
}
