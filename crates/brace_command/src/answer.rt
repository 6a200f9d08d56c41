ghost use Rattle.std.specs.Prelude.{◌≡◌, ℕ, List, IfOk};
ghost use Rattle.brace_command.specs.Answer.{IsSaid, sink_call};
ghost use Rattle.brace_command.specs.Messages.{named_message};
ghost use Rattle.brace_command.specs.Settled.{status_in, message_in, IsRefusedAs};

use crate::messages::named_message;
use crate::status::Status;
use brace_io::{Failed, Sink, write_whole};
use brace_num::NoMemory;
use std::alloc::Global;

/// What a command answers: its status, and the message on standard error.
#[derive(Drop)]
pub struct Answer {
    pub status: Status,
    pub message: Vec<u8>,
}

/// Why a command goes no further.
#[derive(Drop)]
pub enum Stopped {
    /// The words ask for no command.
    Usage,
    /// A file is refused, or was not saved.
    Refused(Answer),
    /// A write to standard output failed.
    WriteFault,
    /// The allocator refused memory.
    NoMemory,
}

impl From<Failed> for Stopped {
    ghost use Rattle.brace_command.specs.declared.answer.Stopped.TheVariants as kind;

    ghost from_gives = { λ _ stopped. stopped ≡ kind.WriteFault };

    fn from(_: Failed) -> Stopped {
        Stopped::WriteFault
    }
}

impl From<NoMemory> for Stopped {
    ghost use Rattle.brace_command.specs.declared.answer.Stopped.TheVariants as kind;

    ghost from_gives = { λ _ stopped. stopped ≡ kind.NoMemory };

    fn from(_: NoMemory) -> Stopped {
        Stopped::NoMemory
    }
}

/// The refusal with a message, unless memory was refused for it.
pub fn refuse(status: Status, message: Result<Vec<u8>, NoMemory>) -> Stopped
    ensures owed { (said : List ℕ) → IfOk message (λ text. text.items ≡ said)
        → IsRefusedAs status said result }
{
    match message {
        Ok(message) => Stopped::Refused(Answer { status, message }),
        Err(NoMemory) => Stopped::NoMemory,
    }
}

/// The refusal of the file of a name.
pub fn refuse_file(alloc: Global, name: &str, status: Status, rest: &[u8]) -> Stopped
    ensures { IsRefusedAs status (named_message name.now rest.now) result }
{
    refuse(status, named_message(alloc, name, rest))
}

/// Says the message of a command, and gives its status, which no fault of the sink changes.
pub fn say<E: Sink>(err: &mut E, answer: Result<Answer, Stopped>) -> Status
    ensures status { result ≡ status_in answer }
    ensures said { IsSaid (sink_call E.Sink err.old err.new) (message_in answer) }
{
    match answer {
        Ok(answer) => {
            tell(err, answer.message.as_slice());
            answer.status
        }
        Err(Stopped::Usage) => {
            tell(err, b"brace: usage\n");
            Status::Usage
        }
        Err(Stopped::Refused(answer)) => {
            tell(err, answer.message.as_slice());
            answer.status
        }
        Err(Stopped::WriteFault) => {
            tell(err, b"brace: write fault\n");
            Status::WriteFault
        }
        Err(Stopped::NoMemory) => {
            tell(err, b"brace: no memory\n");
            Status::NoMemory
        }
    }
}

/// Writes a message; where the sink fails a front of it stands there.
fn tell<E: Sink>(err: &mut E, message: &[u8])
    ensures { IsSaid (sink_call E.Sink err.old err.new) message.now }
{
    match write_whole(err, message) {
        Ok(()) => {}
        Err(_) => {}
    }
}
