// Why nothing is listed, by name and by number.
ghost use Rattle.std.specs.Prelude.{◌≡◌};
ghost use Rattle.report.specs.Told.{list_number};
ghost use Rattle.report.specs.declared.error.ListError.TheVariants.{Decode};

use framing::DecodeError;
use std::error::Error;
use std::fmt;

/// Why a call lists nothing. Then nothing changes.
#[derive(Clone, Copy, Debug, PartialEq, Eq)]
pub enum ListError {
    /// The decoder takes no byte.
    Decode(DecodeError),
    /// The output has fewer than 128 bytes.
    OutputTooSmall,
}

impl ListError {
    /// 16 or 7 of the decoder, 7 of the output.
    pub fn number(self) -> u8
        ensures { result ≡ list_number self }
    {
        match self {
            ListError::Decode(error) => error.number(),
            ListError::OutputTooSmall => 7,
        }
    }
}

impl From<DecodeError> for ListError {
    ghost from_gives = { λ error e. e ≡ Decode error };

    fn from(error: DecodeError) -> Self {
        Self::Decode(error)
    }
}

impl fmt::Display for ListError {
    fn fmt<W: fmt::Write>(&self, f: &mut fmt::Formatter<W>) -> fmt::Result {
        match self {
            ListError::Decode(error) => write!(f, "{error}"),
            ListError::OutputTooSmall => write!(f, "the output has fewer than 128 bytes"),
        }
    }
}

impl Error for ListError {}
