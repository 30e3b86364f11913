// Why a call is refused.
use product::ProductError;
use records::RecordError;
use replies::ReplyTooShort;

// The number that stands in the head of an answer with no body.
#[derive(Clone, Copy, Debug, PartialEq, Eq)]
pub(crate) struct Refusal(pub u8);

// No such op.
// kept: no plainer: of this program, as its refusals are; replay_session has an enum of other ones, and the programs of framing have numbers.
pub(crate) const UNKNOWN: Refusal = Refusal(254);

impl From<RecordError> for Refusal {
    fn from(error: RecordError) -> Self {
        Refusal(error.number())
    }
}

impl From<ReplyTooShort> for Refusal {
    fn from(error: ReplyTooShort) -> Self {
        Refusal(error.number())
    }
}

impl From<ProductError> for Refusal {
    fn from(error: ProductError) -> Self {
        Refusal(error.number())
    }
}
