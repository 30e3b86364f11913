// The static library libngt1.a that programs in C and Rust link: each function of `ngt1`, with its clauses, under its name in C. It keeps no state.
// Numbers: those of `ngt1`; none is made here, and no function requires anything. What C must keep to (a pointer with as many elements as its
// length says) is in bindings/c/ngt1.h.
// kept: the C interface needs it: each export is one call of the function of the same name in `ngt1`, with its clauses once more, since no crate
// can stand on a static library and Rattle programs are to have these functions too; its answers are numbers, as C is handed them.
// Place: on `ngt1` alone, and on `lists` for the parts of a Format 2 read; libngt1_session.a (`ngt1_session_c`) has the session.
#![tactic(auto)]

ghost use Rattle.std.specs.Prelude.{◌≡◌, []};
ghost use Rattle.lists.specs.Format2.{no_parts, add_supported, add_enabled, listed};
ghost use Rattle.ngt1.specs.Convention.{called};
ghost use Rattle.ngt1.specs.Numbers.{encodes, feeds, pushes};
ghost use Rattle.ngt1.specs.Records.{reads};
ghost use Rattle.ngt1.specs.Lists.{numbers_of, list_after};

use lists::F2List;
use ngt1::Listed;

// Wraps a message in a frame. answer: 0 or the refusal's number, bytes written, doubled DLEs.
#[unsafe(no_mangle)]
pub extern "C" fn ngt1_encode(cmd: u8, payload: &[u8], out: &mut [u8], answer: &mut [u64]) -> u64
    ensures { called result out.new answer.new ≡ encodes cmd payload.now out.old answer.old }
{
    ngt1::ngt1_encode(cmd, payload, out, answer)
}

// Feeds bytes up to and with the one that gives the first event. answer: phase, count, bytes used, kind, first, second.
#[unsafe(no_mangle)]
pub extern "C" fn ngt1_feed(
    phase: u8,
    count: usize,
    buf: &mut [u8],
    bytes: &[u8],
    answer: &mut [u64],
) -> u64
    ensures { called result buf.new answer.new ≡ feeds phase count buf.old bytes.now answer.old }
{
    ngt1::ngt1_feed(phase, count, buf, bytes, answer)
}

// Feeds one byte. answer: phase, count, kind, first, second.
#[unsafe(no_mangle)]
pub extern "C" fn ngt1_push(
    phase: u8,
    count: usize,
    buf: &mut [u8],
    b: u8,
    answer: &mut [u64],
) -> u64
    ensures { called result buf.new answer.new ≡ pushes phase count buf.old b answer.old }
{
    ngt1::ngt1_push(phase, count, buf, b, answer)
}

// Reads a record. answer: 0 or the refusal's number, timestamp, priority, PGN, source, destination, and the place and the length
// of the data in the payload; zeros after a refusal's number.
#[unsafe(no_mangle)]
pub extern "C" fn ngt1_record(command: u8, payload: &[u8], answer: &mut [u64]) -> u64
    ensures { called result [] answer.new ≡ reads command payload.now answer.old }
{
    ngt1::ngt1_record(command, payload, answer)
}

// No part yet.
#[unsafe(no_mangle)]
pub extern "C" fn ngt1_parts_new() -> F2List
    ensures { result ≡ no_parts }
{
    ngt1::ngt1_parts_new()
}

// Takes in the data of a reply 40.
#[unsafe(no_mangle)]
pub extern "C" fn ngt1_parts_supported(parts: F2List, data: &[u8]) -> F2List
    ensures { result ≡ add_supported «data».now parts }
{
    ngt1::ngt1_parts_supported(parts, data)
}

// Takes in the data of a reply 4F.
#[unsafe(no_mangle)]
pub extern "C" fn ngt1_parts_enabled(parts: F2List, data: &[u8]) -> F2List
    ensures { result ≡ add_enabled «data».now parts }
{
    ngt1::ngt1_parts_enabled(parts, data)
}

// Writes the list of PGNs, once all three parts are in hand.
#[unsafe(no_mangle)]
pub extern "C" fn ngt1_parts_pgns(parts: F2List, out: &mut [u32]) -> Listed
    ensures { (result ≡ numbers_of (listed parts out.old)) × (out.new ≡ list_after (listed parts out.old)) }
{
    ngt1::ngt1_parts_pgns(parts, out)
}
