// What a call does to a session in memory, once its tests are passed.
ghost use Rattle.std.specs.Prelude.{◌≡◌, ◌≤◌, OnErr, OnOk, Ok, IsTrue, true, false, length};
ghost use Rattle.numbers.specs.Layout.{state_of};
ghost use Rattle.session.specs.Sync.{wrote_step};
ghost use Rattle.session.specs.Lent.{reads_f2};
ghost use Rattle.field.specs.Pick.{pick};
ghost use Rattle.lists.specs.declared.F2List.{F2List};
ghost use Rattle.helm.specs.Stored.{is_well_formed, plain, with_parts};
ghost use Rattle.helm.specs.Steps.{told_step, minded, overfills, heard_by};
ghost use Rattle.helm.specs.Hands.{hand_in, hand_after_message};
ghost use Rattle.helm.specs.Calls.{told, called, Judged};
ghost use Rattle.tx_list.specs.Reading as model;

use crate::answers::{on_answer, save};
use crate::arrays::sized;
use crate::memory::{Arrays, Memory};
use crate::moment::Moment;
use crate::parts::on_f2;
use crate::reading::on_f1;
use crate::steps::{Step, write_sent};
use crate::tested::{Tested, is_session};
use crate::words::{MESSAGE_LIMIT, OUTPUT_ROOM, Refusal};
use commands::Command;
use tx_list::State;

/// A step's numbers are stored, and its commands written; answers how many bytes. Inlined, so that a step stays in registers.
#[inline(always)]
fn finish<M: Arrays>(memory: &mut M, step: Step, out: &mut [u8]) -> usize
    requires { 32 ≤ length out.old }
    ensures left { told (Ok result) (M.stored memory.new) out.new ≡ wrote_step (told_step step (M.stored memory.old)) out.old }
    ensures phase { (M.stored memory.new).numbers.phase ≤ 7 }
    ensures form { (M.stored memory.new).numbers ≡ plain (M.stored memory.new).numbers }
    ensures loans { (M.stored memory.new).loans ≡ (M.stored memory.old).loans }
    ensures hand { hand_in (M.stored memory.new).numbers (M.stored memory.new) ≡ hand_in step.numbers (M.stored memory.old) }
{
    memory.set_numbers(step.left());
    write_sent(step.sent, out)
}

// kept: no plainer: a message and its time are what the caller hands over, and each is looked at by itself; the room of the output is asked
// for by three functions, where a struct of the output would have a clause in each that its loan is the same.

// kept: no plainer: what a message does outside Format 2 stands over numbers and arrays alone, since on this target a place for the parts, whether an
// option, a field or a local, is 4.6 KB to be cleared by each call, used or not: an owner who lends no parts pays for none. Format 2 is added
// above, over memory with parts.

/// What a message of interest does outside Format 2, by the phase.
fn heard_outside<M: Arrays>(memory: &mut M, tested: Tested<M>, at: Moment, payload: &[u8]) -> Step
    requires outside { reads_f2 (state_of tested.numbers.phase tested.numbers.attempt) ≡ false }
    requires minds { minded tested.numbers payload.now ≡ true }
    requires room { overfills M.limits tested.numbers (M.stored memory.old) payload.now ≡ false }
    ensures left { told_step result (M.stored memory.new) ≡ heard_by M.limits tested.numbers (M.stored memory.old) at.ms payload.now }
    ensures loans { (M.stored memory.new).loans ≡ (M.stored memory.old).loans }
    ensures hand { hand_in result.numbers (M.stored memory.new) ≡ hand_in tested.numbers (M.stored memory.old) }
{
    let old = tested.numbers;
    let state = old.state();
    match state {
        State::AwaitStartup => old.on_mode(at),
        State::ReadAt => old.stay(state),
        State::Reading(attempt) => on_f1(memory, tested, attempt, at, payload),
        State::ReadingF2(_) => old.stay(state),
        State::Enabling => on_answer(memory, tested, at, payload),
        State::Committing => old.awaiting(Some(Command::Activate), State::Activating, at),
        State::Activating => save(memory, tested, at),
        State::Done => old.stay(state),
    }
}

/// What a message of interest does, by the phase.
fn heard<M: Memory>(memory: &mut M, tested: Tested<M>, at: Moment, payload: &[u8]) -> Step
    requires minds { minded tested.numbers payload.now ≡ true }
    requires room { overfills M.limits tested.numbers (M.stored memory.old) payload.now ≡ false }
    ensures left { told_step result (M.stored memory.new) ≡ heard_by M.limits tested.numbers (M.stored memory.old) at.ms payload.now }
    ensures loans { (M.stored memory.new).loans ≡ (M.stored memory.old).loans }
    ensures hand { hand_in result.numbers (M.stored memory.new) ≡ hand_after_message tested.numbers (M.stored memory.old) payload.now }
{
    let state = tested.numbers.state();
    match state {
        State::ReadingF2(attempt) => on_f2(memory, tested, attempt, at, payload),
        _ => heard_outside(memory, tested, at, payload),
    }
}

/// A message of interest outside Format 2.
fn hear_outside<M: Arrays>(memory: &mut M, at: Moment, payload: &[u8], out: &mut [u8]) -> usize
    requires outside { reads_f2 (state_of (M.stored memory.old).numbers.phase (M.stored memory.old).numbers.attempt) ≡ false }
    requires formed { IsTrue (is_well_formed M.limits (M.stored memory.old).numbers) }
    requires minds { minded (M.stored memory.old).numbers payload.now ≡ true }
    requires list { overfills M.limits (M.stored memory.old).numbers (M.stored memory.old) payload.now ≡ false }
    requires room { 32 ≤ length out.old }
    ensures left { told (Ok result) (M.stored memory.new) out.new ≡ wrote_step (heard_by M.limits (M.stored memory.old).numbers (M.stored memory.old) at.ms payload.now) out.old }
    ensures phase { (M.stored memory.new).numbers.phase ≤ 7 }
    ensures form { (M.stored memory.new).numbers ≡ plain (M.stored memory.new).numbers }
    ensures loans { (M.stored memory.new).loans ≡ (M.stored memory.old).loans }
    ensures hand { hand_in (M.stored memory.new).numbers (M.stored memory.new) ≡ hand_in (M.stored memory.old).numbers (M.stored memory.old) }
{
    let tested = Tested::of(memory);
    let step = heard_outside(memory, tested, at, payload);
    finish(memory, step, out)
}

/// A message of interest.
fn hear<M: Memory>(memory: &mut M, at: Moment, payload: &[u8], out: &mut [u8]) -> usize
    requires formed { IsTrue (is_well_formed M.limits (M.stored memory.old).numbers) }
    requires minds { minded (M.stored memory.old).numbers payload.now ≡ true }
    requires list { overfills M.limits (M.stored memory.old).numbers (M.stored memory.old) payload.now ≡ false }
    requires room { 32 ≤ length out.old }
    ensures left { told (Ok result) (M.stored memory.new) out.new ≡ wrote_step (heard_by M.limits (M.stored memory.old).numbers (M.stored memory.old) at.ms payload.now) out.old }
    ensures phase { (M.stored memory.new).numbers.phase ≤ 7 }
    ensures form { (M.stored memory.new).numbers ≡ plain (M.stored memory.new).numbers }
    ensures loans { (M.stored memory.new).loans ≡ (M.stored memory.old).loans }
    ensures hand { hand_in (M.stored memory.new).numbers (M.stored memory.new) ≡ hand_after_message (M.stored memory.old).numbers (M.stored memory.old) payload.now }
{
    let tested = Tested::of(memory);
    let step = heard(memory, tested, at, payload);
    finish(memory, step, out)
}

/// The passing of time, test by test. A call of its own, so that no register is saved for a tick that does nothing.
#[inline(never)]
pub(crate) fn tick<M: Arrays>(memory: &mut M, time: u64, out: &mut [u8]) -> Result<usize, Refusal>
    ensures left { told result (M.stored memory.new) out.new ≡ called M.limits (M.stored memory.old) (model.tick time (length out.old)) out.old }
    ensures loans { (M.stored memory.new).loans ≡ (M.stored memory.old).loans }
    ensures phase { OnOk result ((M.stored memory.new).numbers.phase ≤ 7) }
    ensures form { OnOk result ((M.stored memory.new).numbers ≡ plain (M.stored memory.new).numbers) }
    ensures parts { (M.stored memory.new).parts ≡ (M.stored memory.old).parts }
    ensures any_parts { (f : F2List) → told result (with_parts (M.stored memory.new) f) out.new ≡ called M.limits (with_parts (M.stored memory.old) f) (model.tick time (length out.old)) out.old }
    ensures err { OnErr result (memory.new ≡ memory.old) }
{
    sized(memory);
    let ticked = memory.numbers().tick(M::limits(), time, out)?;
    memory.set_numbers(ticked.numbers);
    Ok(ticked.count)
}

/// The tests of a message: when it is heard, None where it is of no interest.
#[inline(always)]
fn judge<M: Arrays>(
    memory: &M,
    time: u64,
    payload: &[u8],
    room: usize,
) -> Result<Option<Moment>, Refusal>
    ensures { Judged M.limits (M.stored memory.now) time payload.now room result }
{
    sized(memory);
    if !is_session(memory) {
        return Err(Refusal::NotWellFormed);
    }
    let Some(at) = Moment::new(time) else {
        return Err(Refusal::TimeOverLimit);
    };
    if MESSAGE_LIMIT < payload.len() {
        return Err(Refusal::MessageTooLong);
    }
    if room < OUTPUT_ROOM {
        return Err(Refusal::NoRoom);
    }
    let numbers = memory.numbers();
    if !numbers.minds(payload) {
        return Ok(None);
    }
    if numbers.is_full(M::limits(), payload) {
        return Err(Refusal::ListFull);
    }
    Ok(Some(at))
}

/// A message of the gateway, test by test. A call of its own, so that no register is saved for a message of no interest.
#[inline(never)]
pub(crate) fn message<M: Memory>(
    memory: &mut M,
    time: u64,
    payload: &[u8],
    out: &mut [u8],
) -> Result<usize, Refusal>
    ensures left { told result (M.stored memory.new) out.new ≡ called M.limits (M.stored memory.old) (model.message time payload.now (length out.old)) out.old }
    ensures loans { (M.stored memory.new).loans ≡ (M.stored memory.old).loans }
    ensures phase { OnOk result ((M.stored memory.new).numbers.phase ≤ 7) }
    ensures form { OnOk result ((M.stored memory.new).numbers ≡ pick (minded (M.stored memory.old).numbers payload.now) (plain (M.stored memory.new).numbers) (M.stored memory.old).numbers) }
    ensures hand { OnOk result (hand_in (M.stored memory.new).numbers (M.stored memory.new) ≡ hand_after_message (M.stored memory.old).numbers (M.stored memory.old) payload.now) }
    ensures err { OnErr result (memory.new ≡ memory.old) }
{
    sized(memory);
    let Some(at) = judge(memory, time, payload, out.len())? else {
        return Ok(0);
    };
    Ok(hear(memory, at, payload, out))
}

/// The same outside Format 2, with no place for its parts.
#[inline(never)]
pub(crate) fn message_outside<M: Arrays>(
    memory: &mut M,
    time: u64,
    payload: &[u8],
    out: &mut [u8],
) -> Result<usize, Refusal>
    requires outside { reads_f2 (state_of (M.stored memory.old).numbers.phase (M.stored memory.old).numbers.attempt) ≡ false }
    ensures left { told result (M.stored memory.new) out.new ≡ called M.limits (M.stored memory.old) (model.message time payload.now (length out.old)) out.old }
    ensures loans { (M.stored memory.new).loans ≡ (M.stored memory.old).loans }
    ensures phase { OnOk result ((M.stored memory.new).numbers.phase ≤ 7) }
    ensures form { OnOk result ((M.stored memory.new).numbers ≡ pick (minded (M.stored memory.old).numbers payload.now) (plain (M.stored memory.new).numbers) (M.stored memory.old).numbers) }
    ensures hand { OnOk result (hand_in (M.stored memory.new).numbers (M.stored memory.new) ≡ hand_after_message (M.stored memory.old).numbers (M.stored memory.old) payload.now) }
    ensures err { OnErr result (memory.new ≡ memory.old) }
{
    sized(memory);
    let Some(at) = judge(memory, time, payload, out.len())? else {
        return Ok(0);
    };
    Ok(hear_outside(memory, at, payload, out))
}
