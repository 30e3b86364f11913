// Numbers of any width, as they stand in scripts and transcripts: the lowest byte first.
ghost use Rattle.std.specs.Prelude.{ℕ, ◌≡◌};
ghost use Rattle.field.specs.Fields.{field, bytes_of};
ghost use Rattle.transcript.specs.Log.{puts};
ghost use Rattle.transcript.specs.Told.{told, Tells};

use crate::Transcript;
use field::{byte_at, u16_at, u32_at};

/// A number of fixed width as it stands in scripts and transcripts, the lowest byte first.
pub trait Number: Copy {
    /// How many bytes it takes.
    const WIDTH: usize;

    ghost WIDTH: { ℕ };

    ghost value: { Self → ℕ };

    /// Writes it. What does not fit is dropped.
    fn put_into(self, out: &mut Transcript<'_>)
        ensures { Tells out.old out.new (puts (told out.old) (bytes_of WIDTH (value self))) };

    /// The number at the start of a slice. A byte that is not there reads as 0.
    fn read(s: &[u8]) -> Self
        ensures { value result ≡ field s.now 0 WIDTH };
}

impl Number for u8 {
    const WIDTH: usize = 1;

    ghost WIDTH = { 1 };

    ghost value = { λ x. x };

    #[tactic(auto, using(crate::specs::LogLaws::bytes_of_1))]
    fn put_into(self, out: &mut Transcript<'_>) {
        out.put_bytes(&[self]);
    }

    #[tactic(auto, using(crate::specs::LogLaws::field_1))]
    fn read(s: &[u8]) -> Self {
        byte_at(s, 0)
    }
}

// kept: no plainer: a width of two to eight bytes each, by std's method of its type; no macro may write an impl
impl Number for u16 {
    const WIDTH: usize = 2;

    ghost WIDTH = { 2 };

    ghost value = { λ x. x };

    #[tactic(auto, using(crate::specs::LogLaws::bytes_of_2))]
    fn put_into(self, out: &mut Transcript<'_>) {
        out.put_bytes(&u16::to_le_bytes(self));
    }

    fn read(s: &[u8]) -> Self {
        u16_at(s, 0)
    }
}

impl Number for u32 {
    const WIDTH: usize = 4;

    ghost WIDTH = { 4 };

    ghost value = { λ x. x };

    #[tactic(auto, using(crate::specs::LogLaws::bytes_of_4))]
    fn put_into(self, out: &mut Transcript<'_>) {
        out.put_bytes(&u32::to_le_bytes(self));
    }

    fn read(s: &[u8]) -> Self {
        u32_at(s, 0)
    }
}

impl Number for u64 {
    const WIDTH: usize = 8;

    ghost WIDTH = { 8 };

    ghost value = { λ x. x };

    #[tactic(auto, using(crate::specs::LogLaws::bytes_of_8))]
    fn put_into(self, out: &mut Transcript<'_>) {
        out.put_bytes(&u64::to_le_bytes(self));
    }

    #[tactic(auto, using(crate::specs::LogLaws::field_8_bytes))]
    fn read(s: &[u8]) -> Self {
        u64::from_le_bytes([
            byte_at(s, 0),
            byte_at(s, 1),
            byte_at(s, 2),
            byte_at(s, 3),
            byte_at(s, 4),
            byte_at(s, 5),
            byte_at(s, 6),
            byte_at(s, 7),
        ])
    }
}
