ghost use Rattle.std.specs.Prelude.{◌≡◌, length, drop};
ghost use Rattle.bounds.specs.declared.Limits.{Limits as Bounds};
ghost use Rattle.pgns.specs.Lists.{noted, owed_in};
ghost use Rattle.tx_list.specs.Views.{pgns_at};
ghost use Rattle.helm.specs.Stored.{Stored, FitLimits, array_of, capacity_of, with_array, with_numbers, with_parts};
ghost use Rattle.helm.specs.Arrays.{storing, first, owed_by};

use crate::stored::{Numbers, Which};
use bounds::Limits;
use lists::F2List;

/// A session in memory that its owner keeps: its numbers, and an array for each list.
pub trait Arrays {
    ghost limits: { Bounds };

    /// Any numbers, whatever the arrays hold.
    ghost stored: { Self → Stored };

    fn limits() -> Limits
        ensures { result ≡ limits };

    fn numbers(&self) -> Numbers
        ensures { result ≡ (stored self.now).numbers };

    fn set_numbers(&mut self, numbers: Numbers)
        ensures { stored self.new ≡ with_numbers (stored self.old) numbers };

    /// The whole array of a list, past its count too.
    fn array(&self, which: Which) -> &[u32]
        ensures array { result.now ≡ array_of which (stored self.now) }
        ensures len { length result.now ≡ capacity_of limits which };

    // kept: a clause lends a caller two references at most, so no function can lend all eight arrays: each store is a function of its own, of
    // one line over crate `pgns` in each machine

    /// These PGNs in a list's array, from a place on; what does not fit is dropped.
    fn store(&mut self, which: Which, at: usize, pgns: &[u32])
        ensures { stored self.new ≡ storing (stored self.old) which at pgns.now };

    /// PGNs of four bytes of a message, from its byte 13 on, in the array of the list in Format 1.
    fn add_pgns(&mut self, at: usize, message: &[u8], count: usize)
        ensures { stored self.new ≡ storing (stored self.old) Which.List at (pgns_at message.now 13 count) };

    /// The first PGNs of the list in Format 1, at the front of the known ones.
    fn know_list(&mut self, count: usize)
        ensures { stored self.new ≡ storing (stored self.old) Which.Known 0 (first Which.List count (stored self.old)) };

    /// Each present PGN noted among the known ones, once; answers how many these are now. Without room for all nothing is done.
    fn note_present(&mut self, count: usize, present: usize) -> usize
        ensures value { result ≡ (noted (stored self.old).known count (stored self.old).present present).n }
        ensures known { stored self.new ≡ with_array (stored self.old) Which.Known (noted (stored self.old).known count (stored self.old).present present).items };

    /// The wanted PGNs that neither the known list, nor the present nor the refused ones have are owed; answers how many. Without room for all
    /// that is wanted nothing is done.
    fn owe(&mut self, wanted: usize, list: usize, present: usize, refused: usize) -> usize
        ensures value { result ≡ (owed_in (stored self.old).owed wanted (owed_by wanted list present refused (stored self.old))).n }
        ensures owed { stored self.new ≡ with_array (stored self.old) Which.Owed (owed_in (stored self.old).owed wanted (owed_by wanted list present refused (stored self.old))).items };

    /// The PGNs owed without the oldest, one place down.
    fn shift_owed(&mut self, count: usize)
        ensures { stored self.new ≡ storing (stored self.old) Which.Owed 0 (drop 1 (first Which.Owed count (stored self.old))) };

    /// The fresh PGNs, behind those saved.
    fn save_fresh(&mut self, at: usize, count: usize)
        ensures { stored self.new ≡ storing (stored self.old) Which.Saved at (first Which.Fresh count (stored self.old)) };

    ghost limits_fit: { FitLimits limits };
}

/// The same with the parts of a Format 2 read.
pub trait Memory: Arrays {
    fn parts(&self) -> F2List
        ensures { result ≡ (Self.stored self.now).parts };

    fn set_parts(&mut self, parts: F2List)
        ensures { Self.stored self.new ≡ with_parts (Self.stored self.old) parts };
}
