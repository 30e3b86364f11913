// kept: a count has 32 bits in memory and is a usize in a slice: std has no `From` of u32 for usize, and `try_from` back would have a refusal that never comes.
ghost use Rattle.std.proofs.Common.{rules};
ghost use Rattle.std.specs.Prelude.{◌≡◌, IfOk, true};
ghost use Rattle.lists.specs.Format2.{no_parts};
ghost use Rattle.session.specs.Sync.{begun_with};
ghost use Rattle.helm.specs.Hands.{hand_in};
ghost use Rattle.helm.specs.Machines.{helm_blank, helm_limits, helm_stored, told_begun};
ghost use Rattle.helm.specs.Stored.{plain};

use crate::memory::{Arrays, Memory};
use crate::sessions::Session;
use crate::stored::{Numbers, Which};
use crate::words::Refusal;
use bounds::{Counts, Limits};
use lists::F2List;

/// The machine of a helm: up to 64 PGNs wanted, and a list of up to 1,024 in Format 1. All of it 0 is a session that wants nothing.
#[repr(C)]
#[derive(Clone, Copy, Drop)]
pub struct Helm {
    pub numbers: Numbers,
    pub wanted: [u32; 64],
    pub owed: [u32; 64],
    pub fresh: [u32; 64],
    pub list: [u32; 1024],
    pub known: [u32; 1344],
    pub saved: [u32; 256],
    pub present: [u32; 256],
    pub refused: [u32; 256],
    pub parts: F2List,
}

impl Helm {
    /// No session and no record, as in memory that is all 0: `begin` starts a session.
    pub fn new() -> Helm
        ensures { helm_stored result ≡ helm_blank }
    {
        Helm {
            numbers: Numbers::default(),
            wanted: [0; 64],
            owed: [0; 64],
            fresh: [0; 64],
            list: [0; 1024],
            known: [0; 1344],
            saved: [0; 256],
            present: [0; 256],
            refused: [0; 256],
            parts: F2List::new(),
        }
    }

    /// A session that wants these PGNs, with what earlier ones learned: those saved, already there, refused. No part of Format 2 is in memory. Refuses
    /// with 11, 12.
    pub fn begun(
        wanted: &[u32],
        saved: &[u32],
        present: &[u32],
        refused: &[u32],
    ) -> Result<Helm, Refusal>
        ensures left { told_begun result ≡ begun_with wanted.now (record { saved = saved.now; present = present.now; refused = refused.now }) }
        ensures form { IfOk result (λ h. h.numbers ≡ plain h.numbers) }
        ensures hand { IfOk result (λ h. hand_in h.numbers (helm_stored h) ≡ record { parts = no_parts; blank = true }) }
    {
        if Helm::limits().wanted < wanted.len() {
            return Err(Refusal::TooManyWanted);
        }
        let mut helm = Helm::new();
        let learned = Counts {
            saved: saved.len(),
            present: present.len(),
            refused: refused.len(),
            ..helm.numbers.counts()
        };
        if !learned.has_old_record() {
            return Err(Refusal::RecordTooLong);
        }
        helm.store(Which::Wanted, 0, wanted);
        helm.store(Which::Saved, 0, saved);
        helm.store(Which::Present, 0, present);
        helm.store(Which::Refused, 0, refused);
        let mut numbers = helm.numbers;
        numbers.saved = saved.len() as u32;
        numbers.present = present.len() as u32;
        numbers.refused = refused.len() as u32;
        helm.numbers = numbers.opened(wanted.len() as u32);
        Ok(helm)
    }
}

// kept: no plainer: of the three machines one has its arrays and two refer to theirs; each function is a line over crate `pgns` in each.
impl Arrays for Helm {
    ghost limits = { helm_limits };

    ghost stored = { helm_stored };

    fn limits() -> Limits {
        Limits {
            wanted: 64,
            list: 1024,
            known: 1344,
            two: true,
        }
    }

    fn numbers(&self) -> Numbers {
        self.numbers
    }

    fn set_numbers(&mut self, numbers: Numbers) {
        self.numbers = numbers;
    }

    fn array(&self, which: Which) -> &[u32] {
        match which {
            Which::Wanted => &self.wanted,
            Which::Owed => &self.owed,
            Which::Fresh => &self.fresh,
            Which::List => &self.list,
            Which::Known => &self.known,
            Which::Saved => &self.saved,
            Which::Present => &self.present,
            Which::Refused => &self.refused,
        }
    }

    fn store(&mut self, which: Which, at: usize, pgns: &[u32]) {
        let count = pgns.len();
        match which {
            Which::Wanted => pgns::append(&mut self.wanted, at, pgns, count),
            Which::Owed => pgns::append(&mut self.owed, at, pgns, count),
            Which::Fresh => pgns::append(&mut self.fresh, at, pgns, count),
            Which::List => pgns::append(&mut self.list, at, pgns, count),
            Which::Known => pgns::append(&mut self.known, at, pgns, count),
            Which::Saved => pgns::append(&mut self.saved, at, pgns, count),
            Which::Present => pgns::append(&mut self.present, at, pgns, count),
            Which::Refused => pgns::append(&mut self.refused, at, pgns, count),
        }
    }

    fn add_pgns(&mut self, at: usize, message: &[u8], count: usize) {
        pgns::add_pgns(&mut self.list, at, message, 13, count);
    }

    fn know_list(&mut self, count: usize) {
        pgns::append(&mut self.known, 0, &self.list, count);
    }

    fn note_present(&mut self, count: usize, present: usize) -> usize {
        pgns::note_all(&mut self.known, count, &self.present, present)
    }

    fn owe(&mut self, wanted: usize, list: usize, present: usize, refused: usize) -> usize {
        pgns::owed_into(
            &mut self.owed,
            &self.wanted,
            wanted,
            &self.known,
            list,
            &self.present,
            present,
            &self.refused,
            refused,
        )
    }

    fn shift_owed(&mut self, count: usize) {
        pgns::shift(&mut self.owed, count);
    }

    fn save_fresh(&mut self, at: usize, count: usize) {
        pgns::append(&mut self.saved, at, &self.fresh, count);
    }

    ghost limits_fit = { Prim.search rules };
}

impl Memory for Helm {
    fn parts(&self) -> F2List {
        self.parts
    }

    fn set_parts(&mut self, parts: F2List) {
        self.parts = parts;
    }
}

impl Session for Helm {}
