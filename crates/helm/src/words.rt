// The words of a session: why a call changes nothing, what it sends, what is said of a PGN.
ghost use Rattle.std.specs.Prelude.{◌≡◌};
ghost use Rattle.helm.specs.Words.{refusal_number};

/// The largest time that a call may give: 10,000 ms more still fit 64 bits.
pub const TIME_LIMIT: u64 = 18446744073709541615;

/// The wait for any answer.
pub const ANSWER_TIMEOUT_MS: u64 = 10000;

/// The wait after the mode before the list is read.
pub const READ_DELAY_MS: u64 = 2000;

/// Attempts in each format.
pub const READ_ATTEMPTS: u32 = 3;

/// The first firmware with Format 2, times 1000.
pub const F2_FIRMWARE: u16 = 2500;

/// The most bytes of a message.
pub const MESSAGE_LIMIT: usize = 255;

/// The room that a call's output has at least, whatever is to be sent.
pub const OUTPUT_ROOM: usize = 32;

/// Why a call changes nothing. C callers see the number: 16, 13, 6, 7, 14, 11, 12.
#[derive(Clone, Copy, Debug, PartialEq, Eq)]
pub enum Refusal {
    /// The numbers in memory are none that a session can have.
    NotWellFormed,
    /// The time is over `TIME_LIMIT`.
    TimeOverLimit,
    /// A message is over 255 bytes.
    MessageTooLong,
    /// The output is under `OUTPUT_ROOM` bytes.
    NoRoom,
    /// The list in Format 1 would pass what the machine holds.
    ListFull,
    /// More PGNs are wanted than the machine holds.
    TooManyWanted,
    /// A list of the record is over 192 PGNs.
    RecordTooLong,
}

/// A PGN that the gateway's list lacks.
#[derive(Clone, Copy, Debug, PartialEq, Eq)]
pub enum Lack {
    /// From a whole list, read in Format 2.
    FromWhole,
    /// From a list that may have missed it, read in Format 1.
    FromPart,
}

impl Refusal {
    /// The number that C callers see.
    pub fn number(self) -> u8
        ensures { result ≡ refusal_number self }
    {
        match self {
            Refusal::NotWellFormed => 16,
            Refusal::TimeOverLimit => 13,
            Refusal::MessageTooLong => 6,
            Refusal::NoRoom => 7,
            Refusal::ListFull => 14,
            Refusal::TooManyWanted => 11,
            Refusal::RecordTooLong => 12,
        }
    }
}
