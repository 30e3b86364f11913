// Why a line cannot be read, by name and by number.
ghost use Rattle.std.specs.Prelude.{◌≡◌};
ghost use Rattle.scripts.specs.Told.{line_number};

use std::error::Error;
use std::fmt;

/// Why a line cannot be read.
#[derive(Clone, Copy, Debug, PartialEq, Eq)]
pub enum LineError {
    /// The first word is no number up to 18446744073709551615.
    NoTime,
    /// No such word after the time.
    NoWord,
    /// Something after `tick`, or after the firmware's number.
    TooMuch,
    /// Not one byte or more in pairs of hexadecimal digits.
    NoBytes,
    /// No firmware's number up to 65535.
    NoVersion,
}

impl LineError {
    /// Its number, 1 to 5.
    pub fn number(self) -> u8
        ensures { result ≡ line_number self }
    {
        match self {
            LineError::NoTime => 1,
            LineError::NoWord => 2,
            LineError::TooMuch => 3,
            LineError::NoBytes => 4,
            LineError::NoVersion => 5,
        }
    }
}

impl fmt::Display for LineError {
    fn fmt<W: fmt::Write>(&self, f: &mut fmt::Formatter<W>) -> fmt::Result {
        match self {
            LineError::NoTime => write!(
                f,
                "no time: a line begins with milliseconds, a number below 2^64"
            ),
            LineError::NoWord => write!(f, "after the time comes tick, wire or firmware"),
            LineError::TooMuch => write!(f, "more than there should be"),
            LineError::NoBytes => write!(
                f,
                "after wire come bytes, each of two hexadecimal digits"
            ),
            LineError::NoVersion => write!(
                f,
                "after firmware comes a number up to 65535, the version times 1000"
            ),
        }
    }
}

impl Error for LineError {}
