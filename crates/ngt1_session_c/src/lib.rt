// The static library libngt1_session.a that programs in C and Rust link: each function of `ngt1_session`, with its clauses, under its name in C.
// It keeps no state.
// kept: an export is one call of the library's function, under its clauses and over what C lends: no crate can stand on a static library.
// Numbers: those of `ngt1_session`; none is made here, and no function requires anything. What C must keep to is in bindings/c/ngt1.h.
// Place: on `ngt1_session` alone, and on what its clauses cite (`session`, `tx_list`, `lists`, `field`); libngt1.a (`ngt1_c`) has the other layers.
#![tactic(auto)]

ghost use Rattle.std.specs.Prelude.{◌≡◌, List, ℕ, eqb, length};
ghost use Rattle.field.specs.Pick.{pick};
ghost use Rattle.tx_list.specs.Reading as model;
ghost use Rattle.session.specs.Sync.{called, set_to, restarted, abandoned, lack_of};
ghost use Rattle.session.specs.Lent.{Arrays, Fits, lent, sync_of, begun_in, hand, handed};
ghost use Rattle.ngt1_session.specs.Session.{numbers_in, leaves, answers, rests_on, told_on, told_part_on, hears, hears_part, add_told, adds_on, ignores_on, renewed_on, renews, lack_number, asks};

use lists::F2List;
use ngt1_session::{Answer, PartAnswer};

// A session that wants these PGNs. The record's lists stay where they stand, with the counts that the numbers give; nothing else of the
// numbers counts. Answers 0, or 16 for a phase over 7, 11, 12.
#[unsafe(no_mangle)]
pub extern "C" fn ngt1_session_begin(n: &mut [u64; 17], wanted: &mut [u32; 64], want: &[u32]) -> u64
    ensures f_after { (o u l k s p q : List ℕ) (f : F2List) → renewed_on result n.new (lent wanted.new o u l k s p q f) ≡ renews n.old (lent wanted.old o u l k s p q f) (begun_in (numbers_in n.old) want.now (lent wanted.old o u l k s p q f)) }
    ensures n_after { n.new ≡ leaves result n.old n.new }
{
    ngt1_session::ngt1_session_begin(n, wanted, want)
}

// The session from its start: wanted and record are kept. Answers 0, or 16, 12.
#[unsafe(no_mangle)]
pub extern "C" fn ngt1_session_restart(n: &mut [u64; 17]) -> u64
    ensures a_after { (a : Arrays) → Fits a → renewed_on result n.new a ≡ renews n.old a (restarted (sync_of (numbers_in n.old) a)) }
    ensures n_after { n.new ≡ leaves result n.old n.new }
{
    ngt1_session::ngt1_session_restart(n)
}

// The gateway's firmware version times 1000, from its product information. Answers 0, or 16.
#[unsafe(no_mangle)]
pub extern "C" fn ngt1_session_firmware(n: &mut [u64; 17], version: u16) -> u64
    ensures a_after { (a : Arrays) → Fits a → renewed_on result n.new a ≡ renews n.old a (set_to (sync_of (numbers_in n.old) a) version) }
    ensures n_after { n.new ≡ leaves result n.old n.new }
{
    ngt1_session::ngt1_session_firmware(n, version)
}

// The gateway has no list to set: the session is done and no list is known. Answers 0, or 16.
#[unsafe(no_mangle)]
pub extern "C" fn ngt1_session_abandon(n: &mut [u64; 17]) -> u64
    ensures a_after { (a : Arrays) → Fits a → renewed_on result n.new a ≡ renews n.old a (abandoned (sync_of (numbers_in n.old) a)) }
    ensures n_after { n.new ≡ leaves result n.old n.new }
{
    ngt1_session::ngt1_session_abandon(n)
}

// What is said of a PGN: 0 nothing, 1 that it lacks from a whole list, 2 from a partial one, or the refusal 16.
#[unsafe(no_mangle)]
pub extern "C" fn ngt1_session_lacks(n: &[u64; 17], known: &[u32; 1344], pgn: u32) -> u64
    ensures { (w o u l s p q : List ℕ) (f : F2List) → Fits (lent w o u l known.now s p q f) → result ≡ asks n.now (lack_number (lack_of (sync_of (numbers_in n.now) (lent w o u l known.now s p q f)) pgn)) }
{
    ngt1_session::ngt1_session_lacks(n, known, pgn)
}

// The passing of time. Refuses with 16, 13, 7.
#[unsafe(no_mangle)]
pub extern "C" fn ngt1_session_tick(n: &mut [u64; 17], time: u64, out: &mut [u8]) -> Answer
    ensures out_after { (a : Arrays) → Fits a → told_on result n.new a out.new ≡ answers n.old a out.old (λ s. called s (model.tick time (length out.old)) out.old) }
    ensures n_after { n.new ≡ pick (rests_on n.old time (length out.old)) n.old (leaves result.number n.old n.new) }
{
    ngt1_session::ngt1_session_tick(n, time, out)
}

// Whether a message would change nothing, told by one look at the numbers and the message: true where it surely would be taken and change
// nothing. A false says nothing: give the message to the functions below.
#[unsafe(no_mangle)]
pub extern "C" fn ngt1_session_ignores(
    n: &[u64; 17],
    time: u64,
    payload: &[u8],
    room: usize,
) -> bool
    ensures { result ≡ ignores_on n.now time payload.now room }
{
    ngt1_session::ngt1_session_ignores(n, time, payload, room)
}

// The commonest message while Format 1 is read, PGNs more of the list, lending only that array: true where it was taken and all is done.
// A false changes nothing and says nothing: give the message to the functions below.
#[unsafe(no_mangle)]
pub extern "C" fn ngt1_session_add(
    n: &mut [u64; 17],
    list: &mut [u32; 1024],
    time: u64,
    payload: &[u8],
    room: usize,
) -> bool
    ensures { add_told result n.new list.new ≡ adds_on n.old list.old time payload.now room }
{
    ngt1_session::ngt1_session_add(n, list, time, payload, room)
}

// A message of the gateway at a time. While Format 2 is read it answers 100 and does nothing: such a message is for the function below.
// Refuses with 16, 13, 6, 7, 14.
#[unsafe(no_mangle)]
pub extern "C" fn ngt1_session_message(
    n: &mut [u64; 17],
    wanted: &mut [u32; 64],
    owed: &mut [u32; 64],
    fresh: &mut [u32; 64],
    list: &mut [u32; 1024],
    known: &mut [u32; 1344],
    saved: &mut [u32; 256],
    present: &mut [u32; 256],
    refused: &mut [u32; 256],
    time: u64,
    payload: &[u8],
    out: &mut [u8],
) -> Answer
    ensures out_after { (f : F2List) → Fits (lent wanted.old owed.old fresh.old list.old known.old saved.old present.old refused.old f) → told_on result n.new (lent wanted.new owed.new fresh.new list.new known.new saved.new present.new refused.new f) out.new ≡ hears n.old (lent wanted.old owed.old fresh.old list.old known.old saved.old present.old refused.old f) time payload.now out.old }
    ensures n_after { n.new ≡ leaves result.number n.old n.new }
{
    ngt1_session::ngt1_session_message(
        n, wanted, owed, fresh, list, known, saved, present, refused, time, payload, out,
    )
}

// A message of the gateway while Format 2 is read; in any other phase it answers 100 and does nothing. Refuses with 16, 13, 6, 7.
#[unsafe(no_mangle)]
pub extern "C" fn ngt1_session_part(
    n: &mut [u64; 17],
    parts: F2List,
    wanted: &mut [u32; 64],
    owed: &mut [u32; 64],
    known: &mut [u32; 1344],
    present: &mut [u32; 256],
    refused: &mut [u32; 256],
    time: u64,
    payload: &[u8],
    out: &mut [u8],
) -> PartAnswer
    ensures by_index { (fresh list saved : List ℕ) → Fits (lent wanted.old owed.old fresh list known.old saved present.old refused.old parts) → told_part_on result n.new (lent wanted.new owed.new fresh list known.new saved present.new refused.new) out.new ≡ hears_part n.old (lent wanted.old owed.old fresh list known.old saved present.old refused.old parts) time payload.now out.old }
    ensures n_after { n.new ≡ leaves result.number n.old n.new }
    ensures parts_after { hand (numbers_in n.new) result.parts ≡ pick (eqb result.number 0) (handed (numbers_in n.old) parts payload.now) (hand (numbers_in n.old) parts) }
{
    ngt1_session::ngt1_session_part(
        n, parts, wanted, owed, known, present, refused, time, payload, out,
    )
}
