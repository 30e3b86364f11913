// The refusal of this crate.
ghost use Rattle.std.specs.Prelude.{◌≡◌};
ghost use Rattle.replies.specs.Numbers.{reply_number};

use std::error::Error;
use std::fmt;

/// A reply of fewer than 12 bytes, or start-up data of fewer than 3.
#[derive(Clone, Copy, Debug, PartialEq, Eq)]
pub struct ReplyTooShort;

impl ReplyTooShort {
    /// The number of this refusal: 8 (docs/NUMBERS.md).
    pub fn number(self) -> u8
        ensures { result ≡ reply_number self }
    {
        8
    }
}

impl fmt::Display for ReplyTooShort {
    fn fmt<W: fmt::Write>(&self, f: &mut fmt::Formatter<W>) -> fmt::Result {
        write!(f, "the reply has fewer bytes than are read of it")
    }
}

impl Error for ReplyTooShort {}
