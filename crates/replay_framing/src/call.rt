// A call read: its op says which, and its body the rest.
use framing::{EncodeError, Phase};
use transcript::{Body, LentCall};

const ENCODE: u8 = 0x12;

const LENT: u8 = 0x4A;

// ENCODE: a message into a frame, in an area of so many bytes.
// kept: no plainer: replay_encode has its own, of more messages; one for both would stand in `transcript`, and `transcript` then on
// `framing`, `records` and `commands`
#[derive(Clone, Copy)]
pub(crate) struct Encode<'a> {
    pub command: u8,
    pub room: usize,
    pub payload: &'a [u8],
}

impl<'a> Encode<'a> {
    fn read(body: &mut Body<'a>) -> Self {
        Encode {
            command: body.take(),
            room: usize::from(body.take::<u16>()),
            payload: body.rest(),
        }
    }
}

impl LentCall for Encode<'_> {
    // The oracle compares what is answered; nothing is proved of it here.
    ghost answers = { λ call old outcome new. Unit {0} };

    fn make(self, area: &mut [u8]) -> Result<usize, u8> {
        framing::encode_ngt_message(self.command, self.payload, area)
            .map(|written| written.count)
            .map_err(EncodeError::number)
    }
}

// A call of the decoder, whose answer has a body.
#[derive(Clone, Copy)]
pub(crate) enum Decode<'a> {
    Reset,
    Push(&'a [u8]),
    PushEach(&'a [u8]),
    Set { phase: Phase, held: &'a [u8] },
    Look,
}

#[derive(Clone, Copy)]
pub(crate) enum Request<'a> {
    // Another decoder, over a lent buffer of so many bytes: DEC_RAW.
    Replace {
        phase: Phase,
        count: usize,
        len: usize,
    },
    Decode(Decode<'a>),
    Encode(Encode<'a>),
    Lent(Encode<'a>),
}

// The phase with a number, modulo 4.
// kept: no plainer: any byte of FORMAT.md is a phase, while a conversion of the library would have to refuse those over 3
fn phase_of(number: u8) -> Phase {
    match number % 4 {
        0 => Phase::Idle,
        1 => Phase::InFrame,
        2 => Phase::EscapeOutside,
        _ => Phase::EscapeInside,
    }
}

impl<'a> Request<'a> {
    // None where there is no such op, and for LENT of another op than ENCODE.
    pub(crate) fn read(op: u8, body: &mut Body<'a>) -> Option<Self> {
        match op {
            0x10 => Some(Request::Decode(Decode::Reset)),
            0x11 => Some(Request::Decode(Decode::Push(body.rest()))),
            ENCODE => Some(Request::Encode(Encode::read(body))),
            0x13 => Some(Request::Decode(Decode::Set {
                phase: phase_of(body.take()),
                held: body.rest(),
            })),
            0x14 => Some(Request::Replace {
                phase: phase_of(body.take()),
                count: usize::from(body.take::<u16>()),
                len: usize::from(body.take::<u16>()),
            }),
            0x15 => Some(Request::Decode(Decode::Look)),
            0x16 => Some(Request::Decode(Decode::PushEach(body.rest()))),
            LENT => match body.take() {
                ENCODE => Some(Request::Lent(Encode::read(body))),
                _ => None,
            },
            _ => None,
        }
    }
}
