// The calls of a script, and what stands in their bodies (oracle/FORMAT.md).
ghost use Rattle.std.specs.Prelude.{◌≡◌, drop, take, length};
ghost use Rattle.field.specs.Fields.{field};

use crate::{Number, first, rest};
use field::{byte_at, u16_at};
use std::marker::Model;

/// What is left of a call's body. A byte that is not there reads as 0.
#[derive(Drop)]
pub struct Body<'a> {
    bytes: &'a [u8],
}

impl<'a> Model for Body<'a> {
    ghost use Rattle.std.specs.Prelude.{ℕ, List};

    ghost Value = { List ℕ };

    ghost view = { λ b. b.bytes.now };
}

impl<'a> Body<'a> {
    pub fn new(bytes: &'a [u8]) -> Self
        ensures { result ≡ bytes.now }
    {
        Body { bytes }
    }

    /// The next number.
    pub fn take<N: Number>(&mut self) -> N
        ensures value { N.value result ≡ field self.old 0 N.WIDTH }
        ensures rest { self.new ≡ drop N.WIDTH self.old }
    {
        let value = N::read(self.bytes);
        self.bytes = rest(self.bytes, N::WIDTH);
        value
    }

    /// The next bytes, so many or as many as there are.
    pub fn take_bytes(&mut self, count: usize) -> &'a [u8]
        ensures value { result.now ≡ take count self.old }
        ensures rest { self.new ≡ drop count self.old }
    {
        let bytes = first(self.bytes, count);
        self.bytes = rest(self.bytes, count);
        bytes
    }

    /// All bytes that are left.
    pub fn rest(&self) -> &'a [u8]
        ensures { result.now ≡ self.now }
    {
        self.bytes
    }
}

/// A call: its op, never 0, and its body.
#[derive(Drop)]
pub struct Call<'a> {
    pub op: u8,
    pub body: Body<'a>,
}

/// What is left of a script of calls. It ends at op 0, and where less than a whole call is left.
#[derive(Drop)]
pub struct Script<'a> {
    bytes: &'a [u8],
}

impl<'a> Script<'a> {
    pub fn new(bytes: &'a [u8]) -> Self
        ensures { result.bytes.now ≡ bytes.now }
    {
        Script { bytes }
    }
}

impl<'a> Iterator for Script<'a> {
    type Item = Call<'a>;

    ghost use Rattle.std.specs.Prelude.{length};
    ghost use Rattle.std.specs.Iterator.{at_most};
    ghost use Rattle.transcript.specs.Calls.{TakesCall};

    ghost next_gives = { TakesCall };

    ghost remaining = { λ s. at_most (length s.bytes.now) };

    fn next(&mut self) -> Option<Call<'a>> {
        let op = byte_at(self.bytes, 0);
        if op == 0 {
            return None;
        }
        let size = 3 + usize::from(u16_at(self.bytes, 1));
        let body = self.bytes.get(3..size)?;
        self.bytes = rest(self.bytes, size);
        Some(Call {
            op,
            body: Body::new(body),
        })
    }
}
