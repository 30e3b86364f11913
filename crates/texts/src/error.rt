// What can go wrong, by name and by number.
ghost use Rattle.std.specs.Prelude.{◌≡◌};
ghost use Rattle.texts.specs.Texts.{text_number};

use std::error::Error;
use std::fmt;

/// A byte 80 to FE stands before a text's end.
#[derive(Clone, Copy, Debug, PartialEq, Eq)]
pub struct NotAscii;

impl NotAscii {
    /// The number that the documents have: 15.
    pub fn number(self) -> u8
        ensures { result ≡ text_number self }
    {
        15
    }
}

impl fmt::Display for NotAscii {
    fn fmt<W: fmt::Write>(&self, f: &mut fmt::Formatter<W>) -> fmt::Result {
        write!(f, "a byte from 80 to FE before a text's end")
    }
}

impl Error for NotAscii {}
