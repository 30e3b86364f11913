// Why no list is written, by name and by number.
ghost use Rattle.std.specs.Prelude.{◌≡◌};
ghost use Rattle.lists.specs.Numbers.{list_number};

use std::error::Error;
use std::fmt;

/// Why the list of PGNs is not asked of the parts. Nothing is written.
#[derive(Clone, Copy, Debug, PartialEq, Eq)]
pub enum ListError {
    CountTooLarge,
    OutputTooSmall,
}

impl ListError {
    /// The number that C sees: 16 or 7.
    pub fn number(self) -> u8
        ensures { result ≡ list_number self }
    {
        match self {
            ListError::CountTooLarge => 16,
            ListError::OutputTooSmall => 7,
        }
    }
}

impl fmt::Display for ListError {
    fn fmt<W: fmt::Write>(&self, f: &mut fmt::Formatter<W>) -> fmt::Result {
        f.write_str(match self {
            ListError::CountTooLarge => "the parts count more than 512 proprietary PGNs",
            ListError::OutputTooSmall => "the output has fewer than 767 places",
        })
    }
}

impl Error for ListError {}
