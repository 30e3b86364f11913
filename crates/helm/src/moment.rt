ghost use Rattle.std.specs.Prelude.{◌≡◌, ◌+◌, ◌≤◌, ◌↔◌, IfSome, IsSome};
ghost use Rattle.helm.specs.declared.words.TheConstants.{TIME_LIMIT as LIMIT};

use crate::words::{ANSWER_TIMEOUT_MS, READ_DELAY_MS, TIME_LIMIT};

/// A time that leaves room for a wait, in milliseconds.
#[derive(Clone, Copy, Debug, PartialEq, Eq)]
pub struct Moment {
    ms: u64,
    ghost in_range: { ms ≤ LIMIT },
}

impl Moment {
    pub fn new(ms: u64) -> Option<Moment>
        ensures some { IsSome result ↔ (ms ≤ LIMIT) }
        ensures value { IfSome result (λ m. m.ms ≡ ms) }
    {
        if TIME_LIMIT < ms {
            return None;
        }
        Some(Moment { ms })
    }

    pub(crate) fn ms(self) -> u64
        ensures { result ≡ self.ms }
    {
        self.ms
    }

    /// When an answer is waited for no longer.
    pub(crate) fn deadline(self) -> u64
        ensures { result ≡ self.ms + 10000 }
    {
        self.ms + ANSWER_TIMEOUT_MS
    }

    /// When the list is read, after the mode came.
    pub(crate) fn reading(self) -> u64
        ensures { result ≡ self.ms + 2000 }
    {
        self.ms + READ_DELAY_MS
    }
}
