// What a call does, and how its commands are written into the lent output.
ghost use Rattle.std.specs.Prelude.{◌≡◌, ◌≤◌, length};
ghost use Rattle.field.specs.Written.{written};
ghost use Rattle.framing.specs.Encode.{count_of};
ghost use Rattle.numbers.specs.Layout.{is_set};
ghost use Rattle.helm.specs.Steps.{bytes_of, told_step};
ghost use Rattle.helm.specs.Stored.{Stored, plain, session_of};

use crate::stored::Numbers;
use commands::Command;
use framing::{EncodeError, Written};
use tx_list::State;

/// What a call does: the commands that it sends, the phase that it leads to, and the session's other numbers after it.
#[derive(Clone, Copy)]
pub(crate) struct Step {
    pub(crate) sent: Option<Command<'static>>,
    pub(crate) state: State,
    pub(crate) numbers: Numbers,
}

impl Step {
    /// The session's numbers after it, its phase among them.
    pub(crate) fn left(self) -> Numbers
        ensures left { (s : Stored) → session_of result s ≡ (told_step self s).sync }
        ensures phase { result.phase ≤ 7 }
        ensures form { result ≡ plain result }
        ensures blank { is_set result.blank ≡ is_set self.numbers.blank }
    {
        self.numbers.plain_in(self.state)
    }
}

fn count_of(written: Result<Written, EncodeError>) -> usize
    ensures { result ≡ count_of written }
{
    written.map_or(0, |written| written.count)
}

/// The commands from the start of the output; answers how many bytes. A command that no session sends writes nothing.
pub(crate) fn write_sent(sent: Option<Command<'static>>, out: &mut [u8]) -> usize
    requires { 32 ≤ length out.old }
    ensures { (result ≡ length (bytes_of sent.entry)) × (out.new ≡ written (bytes_of sent.entry) out.old) }
{
    let Some(command) = sent else {
        return 0;
    };
    match command {
        Command::ReadF1 => count_of(Command::ReadF1.encode(out)),
        Command::ReadF2 => count_of(Command::ReadF2.encode(out)),
        Command::Enable(pgn) => count_of(Command::Enable(pgn).encode(out)),
        Command::Commit => count_of(Command::Commit.encode(out)),
        Command::Activate => count_of(Command::Activate.encode(out)),
        Command::GetProductInfo => 0,
        Command::GetOperatingMode => 0,
        Command::SetOperatingMode(_) => 0,
        Command::GetPortPcode => 0,
        Command::SetPortPcode(_) => 0,
    }
}
