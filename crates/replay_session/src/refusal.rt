// Why a call is refused.
use helm::words;

/// Why an answer has no body, or why that of LENT_S has no more than the area.
#[derive(Clone, Copy, Debug, PartialEq, Eq)]
pub(crate) enum Refusal {
    /// No such op or kind.
    Unknown,
    NoSession,
    /// The session's own.
    Session(words::Refusal),
}

impl Refusal {
    /// The number in the head of the answer.
    pub(crate) fn number(self) -> u8 {
        match self {
            Refusal::Unknown => 254,
            Refusal::NoSession => 255,
            Refusal::Session(refusal) => refusal.number(),
        }
    }
}

impl From<words::Refusal> for Refusal {
    fn from(refusal: words::Refusal) -> Self {
        Refusal::Session(refusal)
    }
}
