// The block's decoder with the buffer that it is lent, and calls of it.
ghost use Rattle.std.specs.Prelude.{◌≡◌, ◌≤◌, length, min};

use crate::call::Decode;
use crate::event::{put_event, put_state};
use framing::{DecodeError, Decoder, MAX_COLLECT, Phase};
use std::marker::Model;
use transcript::{BLANK, Transcript};

// The most that a lent buffer can have.
const MOST: usize = 1100;

// The lent buffer is the front of an array. A contract sees the bytes in it alone.
// kept: a rule of the project (fixed memory) needs it: a `Vec` is on the heap, and each call could run out of memory
#[derive(Drop)]
pub(crate) struct Collector {
    decoder: Decoder,
    bytes: [u8; MOST],
    len: usize,
}

impl Model for Collector {
    ghost use Rattle.std.specs.Prelude.{ℕ, ◌≤◌, List, take};

    ghost Value = { List ℕ };

    ghost view = { λ c. take c.len c.bytes };

    ghost invariant = { λ c. c.len ≤ 1100 };
}

// Pushes all bytes by push_bytes.
// kept: no plainer: the place of each event in the call is told; by what is left, taken shorter, each would be a difference of two lengths
fn push_slices(
    decoder: &mut Decoder,
    lent: &mut [u8],
    bytes: &[u8],
    out: &mut Transcript<'_>,
) -> Result<(), DecodeError> {
    let mut at = 0;
    while at < bytes.len() {
        let fed = decoder.push_bytes(lent, &bytes[at..])?;
        at += fed.used;
        if let Some(event) = fed.event {
            put_event(out, at - 1, event, lent);
        }
    }
    Ok(())
}

// Pushes all bytes by push_byte.
// kept: the calls of FORMAT.md feed the decoder both ways, so that both are compared
fn push_each(
    decoder: &mut Decoder,
    lent: &mut [u8],
    bytes: &[u8],
    out: &mut Transcript<'_>,
) -> Result<(), DecodeError> {
    for (at, &b) in bytes.iter().enumerate() {
        if let Some(event) = decoder.push_byte(lent, b)? {
            put_event(out, at, event, lent);
        }
    }
    Ok(())
}

impl Collector {
    // A new decoder over a blank buffer.
    pub(crate) fn new() -> Self
        ensures { length result ≡ 1024 }
    {
        Collector {
            decoder: Decoder::new(),
            bytes: [BLANK; MOST],
            len: MAX_COLLECT,
        }
    }

    // A decoder in any state, over a blank buffer of so many bytes, or as many as it can have.
    pub(crate) fn raw(&mut self, phase: Phase, count: usize, len: usize)
        ensures { length self.new ≡ min len 1100 }
    {
        self.decoder = Decoder { phase, count };
        self.bytes = [BLANK; MOST];
        self.len = len.min(MOST);
    }

    // A decoder that holds bytes, at the front of a buffer of 1,024 bytes again.
    fn set(&mut self, phase: Phase, held: &[u8])
        requires { length held.now ≤ 1024 }
    {
        if self.len < MAX_COLLECT {
            self.bytes[self.len..MAX_COLLECT].fill(BLANK);
        }
        self.len = MAX_COLLECT;
        self.bytes[..held.len()].copy_from_slice(held);
        self.decoder = Decoder {
            phase,
            count: held.len(),
        };
    }

    // Phase, count and the sum of the lent buffer.
    fn put_state(&self, out: &mut Transcript<'_>)
        ensures { length self.now ≤ 1100 }
    {
        put_state(out, self.decoder, &self.bytes[..self.len]);
    }

    // Makes a call and puts the body of its answer, or gives its refusal.
    pub(crate) fn call(
        &mut self,
        call: Decode<'_>,
        out: &mut Transcript<'_>,
    ) -> Result<(), DecodeError> {
        match call {
            Decode::Reset => self.raw(Phase::Idle, 0, MAX_COLLECT),
            Decode::Push(bytes) => {
                let lent = &mut self.bytes[..];
                push_slices(&mut self.decoder, &mut lent[..self.len], bytes, out)?;
            }
            Decode::PushEach(bytes) => {
                let lent = &mut self.bytes[..];
                push_each(&mut self.decoder, &mut lent[..self.len], bytes, out)?;
            }
            Decode::Set { phase: _, held } if held.len() > MAX_COLLECT => {
                return Err(DecodeError::CountTooLarge);
            }
            Decode::Set { phase, held } => self.set(phase, held),
            Decode::Look => {}
        }
        self.put_state(out);
        Ok(())
    }
}
