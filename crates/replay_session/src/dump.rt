// DUMP and PARTS: a well-formed session's fields, as far as its phase has them.
use crate::places::put_places;
use crate::refusal::Refusal;
use crate::tell::{known_kind, low, proprietary_pgns, put_list, told};
use helm::stored::{Numbers, Which};
use helm::{Helm, Session};
use lists::F2List;
use transcript::Transcript;
use tx_list::State;

/// The body of DUMP: phase, due, attempt, known kind, then the lists. Refused where the session is not well formed.
pub(crate) fn put_dump(out: &mut Transcript<'_>, session: &Helm) -> Result<(), Refusal> {
    session.is_done()?;
    let numbers = session.numbers;
    let (due, attempt) = match numbers.state() {
        State::AwaitStartup | State::Done => (0, 0),
        State::Reading(attempt) | State::ReadingF2(attempt) => (numbers.due, attempt),
        State::ReadAt | State::Enabling | State::Committing | State::Activating => (numbers.due, 0),
    };
    out.put(low(numbers.phase));
    out.put(due);
    out.put(low(attempt));
    out.put(known_kind(numbers));
    for which in [
        Which::Saved,
        Which::Present,
        Which::Refused,
        Which::Owed,
        Which::Fresh,
        Which::List,
        Which::Known,
    ] {
        put_list(out, told(session, which));
    }
    Ok(())
}

/// Whether it is told, and the version.
pub(crate) fn put_firmware(out: &mut Transcript<'_>, numbers: Numbers) {
    let told = numbers.told != 0;
    out.put(u8::from(told));
    out.put(if told { numbers.version } else { 0 });
}

/// Flags, supported, enabled, proprietary; nothing where no part of Format 2 is in hand.
fn put_f2(out: &mut Transcript<'_>, session: &Helm) {
    let numbers = session.numbers;
    let reads = matches!(numbers.state(), State::ReadingF2(_)) & (numbers.blank == 0);
    let F2List {
        supported,
        enabled,
        proprietary,
    } = &session.parts;
    let has_supported = reads & supported.sized;
    let has_enabled = reads & enabled.sized;
    let has_proprietary = reads & proprietary.told;
    out.put(
        u8::from(has_supported) | (u8::from(has_enabled) << 1) | (u8::from(has_proprietary) << 2),
    );
    put_places(out, has_supported, supported.size, &supported.entries);
    put_places(out, has_enabled, enabled.size, &enabled.entries);
    let pgns = if has_proprietary {
        proprietary_pgns(session)
    } else {
        &[]
    };
    put_list(out, pgns);
}

/// The body of PARTS, refused where the session is not well formed.
pub(crate) fn put_parts(out: &mut Transcript<'_>, session: &Helm) -> Result<(), Refusal> {
    session.is_done()?;
    put_firmware(out, session.numbers);
    put_list(out, session.pgns(Which::Wanted));
    put_f2(out, session);
    Ok(())
}
