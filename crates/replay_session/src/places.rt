// The supported and the enabled list of a Format 2 read: a size, and so many places.
use lists::{EnabledEntry, SupportedEntry};
use transcript::{Body, Transcript};

/// A place of one of the lists, as FORMAT.md has it.
pub(crate) trait Place: Copy {
    fn read(body: &mut Body<'_>) -> Self;

    /// One that is not filled is all zeros.
    fn put(self, out: &mut Transcript<'_>);
}

/// The lowest bit of a byte.
pub(crate) fn flag(body: &mut Body<'_>) -> bool {
    body.take::<u8>() % 2 == 1
}

impl Place for SupportedEntry {
    fn read(body: &mut Body<'_>) -> Self {
        SupportedEntry {
            filled: flag(body),
            index: body.take(),
            pgn: body.take(),
        }
    }

    fn put(self, out: &mut Transcript<'_>) {
        out.put(u8::from(self.filled));
        if self.filled {
            out.put(self.index);
            out.put(self.pgn);
        } else {
            out.fill(5, 0);
        }
    }
}

impl Place for EnabledEntry {
    fn read(body: &mut Body<'_>) -> Self {
        EnabledEntry {
            filled: flag(body),
            index: body.take(),
        }
    }

    fn put(self, out: &mut Transcript<'_>) {
        out.put(u8::from(self.filled));
        out.put(if self.filled { self.index } else { 0 });
    }
}

/// The size; so many places are read.
pub(crate) fn read_places<P: Place>(body: &mut Body<'_>, places: &mut [P]) -> u8 {
    let size = body.take();
    for place in places.iter_mut().take(usize::from(size)) {
        *place = P::read(body);
    }
    size
}

/// The size, if a part told it, and as many places.
pub(crate) fn put_places<P: Place>(out: &mut Transcript<'_>, told: bool, size: u8, places: &[P]) {
    let size = if told { size } else { 0 };
    out.put(size);
    for &place in places.iter().take(usize::from(size)) {
        place.put(out);
    }
}
