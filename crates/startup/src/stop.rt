// Why a run ends early.
use crate::refused::Refused;
use helm::words::Refusal;
use scripts::LineError;
use std::fmt;

#[derive(Clone, Copy)]
pub(crate) enum Stop {
    Usage,
    // The argument at this place.
    NoPgn(usize),
    // The session does not begin.
    Refused(Refusal),
    // The line of this number.
    BadLine(u64, LineError),
    LongLine(u64),
    Unreadable,
}

impl fmt::Display for Stop {
    fn fmt<W: fmt::Write>(&self, f: &mut fmt::Formatter<W>) -> fmt::Result {
        match self {
            Stop::Usage => write!(f, "usage: startup PGN.. <SCRIPT"),
            Stop::NoPgn(i) => write!(f, "argument {i} is no PGN: a number up to 262143"),
            Stop::Refused(refusal) => {
                let refused = Refused(*refusal);
                write!(f, "{refused}")
            }
            Stop::BadLine(number, error) => write!(f, "line {number}: {error}"),
            Stop::LongLine(number) => write!(f, "line {number}: longer than 65535 bytes"),
            Stop::Unreadable => write!(f, "standard input cannot be read"),
        }
    }
}

impl From<Refusal> for Stop {
    fn from(refusal: Refusal) -> Stop {
        Stop::Refused(refusal)
    }
}

// Of a read that fails.
impl From<std::io::Error> for Stop {
    fn from(_e: std::io::Error) -> Stop {
        Stop::Unreadable
    }
}
