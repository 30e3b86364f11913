// Answers that hold a lent area, a part of the transcript itself (oracle/FORMAT.md). Opened, the area is lent to a call, and what the call told
// closes the answer. The area lies in the transcript wherever it is opened (`area_lies` in specs/LentLaws).
ghost use Rattle.std.specs.Prelude.{ℕ, ◌≡◌, ◌≤◌, List, [], Result, length};
ghost use Rattle.field.specs.Fields.{bytes_of};
ghost use Rattle.transcript.specs.Lent.{lent, opened};
ghost use Rattle.transcript.specs.Told.{told, slice_name, Tells, told_closed, told_lent, number_of, LendsArea, AnswersArea};

use crate::{Answer, BLANK, Transcript};

// Where an answer that holds a lent area stands in a transcript: its op, the place of its head, the place after the head,
// the area's first place and the place after its last.
#[derive(Clone, Copy, Debug, PartialEq, Eq)]
struct Area {
    op: u8,
    head: usize,
    body: usize,
    start: usize,
    end: usize,
}

impl Area {
    fn answer(self) -> Answer
        ensures { result ≡ record { op = self.op; head = self.head; body = self.body } }
    {
        Answer {
            op: self.op,
            head: self.head,
            body: self.body,
        }
    }
}

// 0, or the number of a refusal.
fn number_of(outcome: Result<usize, u8>) -> u8
    ensures { result ≡ number_of outcome }
{
    outcome.err().unwrap_or(0)
}

/// A call that is lent an area of a transcript. It asks nothing of the area, so that any may be lent.
pub trait LentCall {
    /// What it may answer of an area, and leave there.
    ghost answers: { Self → List ℕ → Result ℕ ℕ → List ℕ → Type 0 };

    /// How many bytes it wrote, or the number of its refusal.
    fn make(self, area: &mut [u8]) -> Result<usize, u8>
        ensures { answers self area.old result area.new };
}

// Lends an area of the text to a call.
fn lend<C: LentCall>(text: &mut [u8], area: Area, call: C) -> Result<usize, u8>
    requires { (area.start ≤ area.end) × (area.end ≤ length text.old) }
    ensures { LendsArea (C.answers call) (lent area text.old) result text.new }
{
    call.make(&mut text[area.start..area.end])
}

impl<'a> Transcript<'a> {
    // An answer with `before` and the area.
    fn open_area(&mut self, op: u8, before: &[u8], room: usize) -> Area
        ensures told { lent result (told self.new).text ≡ opened op before.now room (told self.old) }
        ensures lies { (result.start ≤ result.end) × (result.end ≤ length (told self.new).text) }
        ensures same_slice { slice_name self.new ≡ slice_name self.old }
    {
        self.keep_inside();
        let answer = self.open(op, 0);
        self.put_bytes(before);
        let start = self.place();
        self.fill(room, BLANK);
        Area {
            op,
            head: answer.head,
            body: answer.body,
            start,
            end: self.place(),
        }
    }

    // How many bytes were written, before the area; or the number of a refusal alone.
    fn close_area(&mut self, area: Area, outcome: Result<usize, u8>)
        ensures { Tells self.old self.new (told_closed area outcome (told self.old).text) }
    {
        match outcome {
            Ok(written) => {
                self.place = area.body;
                self.put_count(written);
                self.place = area.end;
                self.close(area.answer());
            }
            Err(number) => self.refuse(area.answer(), number),
        }
    }

    // The number of a refusal or 0, and the area.
    // kept: no plainer: FORMAT.md has these two ends of an answer, and all that they share is `refuse` and `close`
    fn close_lent(&mut self, area: Area, outcome: Result<usize, u8>)
        ensures { Tells self.old self.new (told_lent area outcome (told self.old).text) }
    {
        self.refuse(area.answer(), number_of(outcome));
        self.place = area.end;
        self.close(area.answer());
    }

    /// The answer of a call on an area of `room` blank bytes that it is lent: how many it wrote, and the area; or the number of its refusal alone.
    pub fn answer_written<C: LentCall>(&mut self, op: u8, room: usize, call: C)
        ensures told { AnswersArea (C.answers call) told_closed (opened op (bytes_of 2 0) room (told self.old)) (told self.new) }
        ensures same_slice { slice_name self.new ≡ slice_name self.old }
    {
        let area = self.open_area(op, &[0, 0], room);
        let outcome = lend(self.text, area, call);
        self.close_area(area, outcome);
    }

    // kept: as `close_lent`
    /// The same with the number of a refusal or 0, and the area whatever the call answers.
    pub fn answer_lent<C: LentCall>(&mut self, op: u8, room: usize, call: C)
        ensures told { AnswersArea (C.answers call) told_lent (opened op [] room (told self.old)) (told self.new) }
        ensures same_slice { slice_name self.new ≡ slice_name self.old }
    {
        let area = self.open_area(op, &[], room);
        let outcome = lend(self.text, area, call);
        self.close_lent(area, outcome);
    }
}
