// A transcript and the answers in it (oracle/FORMAT.md).
ghost use Rattle.std.specs.Prelude.{◌≡◌, replicate, take};
ghost use Rattle.field.specs.Fields.{bytes_of};
ghost use Rattle.transcript.specs.Log.{log, put, puts, head_of, sized};
ghost use Rattle.transcript.specs.Lent.{inside};
ghost use Rattle.transcript.specs.Told.{told, slice_name, Tells};

use crate::{Number, first};

/// A transcript as far as it is written: a lent slice, and the place after the last byte that was put. A byte for which the slice has
/// no place is dropped.
#[derive(Drop)]
pub struct Transcript<'a> {
    pub(crate) text: &'a mut [u8],
    pub(crate) place: usize,
}

/// Where an answer stands in a transcript: its op, the place of its head and the place after the head.
#[derive(Clone, Copy, Debug, PartialEq, Eq)]
pub struct Answer {
    pub op: u8,
    pub head: usize,
    pub body: usize,
}

impl<'a> Transcript<'a> {
    /// One that writes from a place of a slice on. Where the place is past the slice's end, all that is put is dropped.
    pub fn at(text: &'a mut [u8], place: usize) -> Self
        ensures told { told result ≡ log place text.old }
        ensures same_slice { slice_name result ≡ text.entry.ghost_name }
    {
        Transcript { text, place }
    }

    /// The place after the last byte.
    pub fn place(&self) -> usize
        ensures { result ≡ (told self.now).place }
    {
        self.place
    }

    /// What stands in it.
    pub fn written(&self) -> &[u8]
        ensures { result.now ≡ take (told self.now).place (told self.now).text }
    {
        first(self.text, self.place)
    }

    // The place, or the text's end where the place is past it.
    pub(crate) fn keep_inside(&mut self)
        ensures { Tells self.old self.new (inside (told self.old)) }
    {
        self.place = self.place.min(self.text.len());
    }

    #[tactic(auto, using(crate::specs::LogLaws::put_inside, crate::specs::LogLaws::put_full))]
    fn put_byte(&mut self, b: u8)
        ensures { Tells self.old self.new (put (told self.old) b) }
    {
        if self.place < self.text.len() {
            self.text[self.place] = b;
            self.place += 1;
        }
    }

    /// Bytes, one after the other.
    // kept: no plainer: as a copy it is a test, the lesser of two and two parts of slices, since what has no room is dropped
    pub fn put_bytes(&mut self, bytes: &[u8])
        ensures { Tells self.old self.new (puts (told self.old) bytes.now) }
    {
        for &b in bytes {
            self.put_byte(b);
        }
    }

    /// A byte, so many times.
    // kept: no plainer: as a `fill` it is two sums and a part of the slice, since what has no room is dropped
    pub fn fill(&mut self, count: usize, b: u8)
        ensures { Tells self.old self.new (puts (told self.old) (replicate count b)) }
    {
        for _ in 0..count {
            self.put_byte(b);
        }
    }

    /// A number, the lowest byte first.
    pub fn put<N: Number>(&mut self, x: N)
        ensures { Tells self.old self.new (puts (told self.old) (bytes_of N.WIDTH (N.value x))) }
    {
        x.put_into(self);
    }

    /// The low 16 bits of a number.
    #[tactic(auto, using(crate::specs::LogLaws::puts_low))]
    pub fn put_count(&mut self, x: usize)
        ensures { Tells self.old self.new (puts (told self.old) (bytes_of 2 x)) }
    {
        // kept: no plainer: the low bits fit, and `try_from` would have a refusal that never comes
        self.put((x % 65536) as u16);
    }

    /// The head of an answer. Its length comes when the body stands (`close`).
    #[tactic(auto, using(crate::specs::LogLaws::puts_head))]
    pub fn open(&mut self, op: u8, number: u8) -> Answer
        ensures tells { Tells self.old self.new (puts (told self.old) (head_of op number)) }
        ensures answer { result ≡ record { op = op; head = (told self.old).place; body = (told self.new).place } }
    {
        let head = self.place;
        self.put_bytes(&[op, number, 0, 0]);
        Answer {
            op,
            head,
            body: self.place,
        }
    }

    /// The length of an answer's body, which ends here, put into its head.
    pub fn close(&mut self, answer: Answer)
        ensures { Tells self.old self.new (log (told self.old).place (sized (told self.old).text answer.body (told self.old).place)) }
    {
        let end = self.place;
        self.place = answer.body.saturating_sub(2);
        self.put_count(end.saturating_sub(answer.body));
        self.place = end;
    }

    /// The number of a refusal in place of an answer that was begun: its body is empty.
    pub fn refuse(&mut self, answer: Answer, number: u8)
        ensures { Tells self.old self.new (puts (log answer.head (told self.old).text) (head_of answer.op number)) }
    {
        self.place = answer.head;
        self.open(answer.op, number);
    }
}
