// What the session refuses, in words.
use helm::words::{Refusal, TIME_LIMIT};
use std::fmt;

// A refusal with its number and, where a script or the arguments can cause it, what is wrong with them.
#[derive(Clone, Copy)]
pub(crate) struct Refused(pub Refusal);

impl fmt::Display for Refused {
    fn fmt<W: fmt::Write>(&self, f: &mut fmt::Formatter<W>) -> fmt::Result {
        let number = self.0.number();
        write!(f, "refused with {number}")?;
        match self.0 {
            Refusal::TooManyWanted => write!(f, ": over 64 PGNs are wanted"),
            Refusal::TimeOverLimit => write!(f, ": a time over {TIME_LIMIT}"),
            Refusal::ListFull => write!(f, ": the list would pass 1024 PGNs"),
            Refusal::NotWellFormed
            | Refusal::MessageTooLong
            | Refusal::NoRoom
            | Refusal::RecordTooLong => Ok(()),
        }
    }
}
