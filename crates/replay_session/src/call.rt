// A call read: its op says which, and its body the rest.
use crate::refusal::Refusal;
use helm::{Helm, Session, words};
use transcript::Body;

const MESSAGE: u8 = 0x62;

const TICK: u8 = 0x63;

const LENT: u8 = 0x6A;

/// What a session is made of.
#[derive(Clone, Copy)]
pub(crate) enum Start<'a> {
    /// Counts and PGNs, as BEGIN has them.
    Begin(&'a [u8]),
    /// A stored state, which has to be well formed.
    Set(&'a [u8]),
    /// Any stored state.
    SetRaw(&'a [u8]),
}

/// A call that changes the session and writes nothing.
#[derive(Clone, Copy)]
pub(crate) enum Change {
    Restart,
    Firmware(u16),
    Abandon,
}

#[derive(Clone, Copy)]
pub(crate) enum Event<'a> {
    Message(&'a [u8]),
    Tick,
}

/// A call that is lent an output of so many bytes.
#[derive(Clone, Copy)]
pub(crate) struct Step<'a> {
    time: u64,
    pub room: usize,
    event: Event<'a>,
}

/// A call that changes nothing.
#[derive(Clone, Copy)]
pub(crate) enum Ask {
    Lacks(u32),
    IsDone,
    Dump,
    Parts,
    Look,
}

#[derive(Clone, Copy)]
pub(crate) enum Call<'a> {
    Start(Start<'a>),
    Change(Change),
    Step(Step<'a>),
    Ask(Ask),
}

#[derive(Clone, Copy)]
pub(crate) enum Request<'a> {
    Call(Call<'a>),
    /// LENT_S; none of a call that is lent nothing.
    Lent(Option<Step<'a>>),
}

impl Change {
    pub(crate) fn make(self, session: &mut Helm) -> Result<(), words::Refusal> {
        match self {
            Change::Restart => session.restart(),
            Change::Firmware(version) => session.set_firmware(version),
            Change::Abandon => session.abandon(),
        }
    }
}

impl<'a> Step<'a> {
    /// None of another op.
    fn read(op: u8, body: &mut Body<'a>) -> Option<Self> {
        let time = body.take();
        let room = usize::from(body.take::<u16>());
        let event = match op {
            MESSAGE => Event::Message(body.rest()),
            TICK => Event::Tick,
            _ => return None,
        };
        Some(Step { time, room, event })
    }

    /// The output, at the front of a buffer as far as that goes.
    pub(crate) fn area<'b>(&self, lent: &'b mut [u8]) -> &'b mut [u8] {
        let room = self.room.min(lent.len());
        &mut lent[..room]
    }

    /// How many bytes it writes.
    pub(crate) fn make(self, session: &mut Helm, area: &mut [u8]) -> Result<usize, words::Refusal> {
        match self.event {
            Event::Message(payload) => session.message(self.time, payload, area),
            Event::Tick => session.tick(self.time, area),
        }
    }
}

impl<'a> Call<'a> {
    fn read(op: u8, body: &mut Body<'a>) -> Result<Self, Refusal> {
        match op {
            0x60 => Ok(Call::Start(Start::Begin(body.rest()))),
            0x61 => Ok(Call::Change(Change::Restart)),
            0x64 => Ok(Call::Change(Change::Firmware(body.take()))),
            0x65 => Ok(Call::Ask(Ask::Lacks(body.take()))),
            0x66 => Ok(Call::Change(Change::Abandon)),
            0x67 => Ok(Call::Ask(Ask::Dump)),
            0x68 => Ok(Call::Start(Start::Set(body.rest()))),
            0x69 => Ok(Call::Start(Start::SetRaw(body.rest()))),
            0x6B => Ok(Call::Ask(Ask::Parts)),
            0x6C => Ok(Call::Ask(Ask::IsDone)),
            0x6D => Ok(Call::Ask(Ask::Look)),
            _ => match Step::read(op, body) {
                Some(step) => Ok(Call::Step(step)),
                None => Err(Refusal::Unknown),
            },
        }
    }
}

impl<'a> Request<'a> {
    pub(crate) fn read(op: u8, body: &mut Body<'a>) -> Result<Self, Refusal> {
        if op == LENT {
            return Ok(Request::Lent(Step::read(body.take(), body)));
        }
        Ok(Request::Call(Call::read(op, body)?))
    }
}
