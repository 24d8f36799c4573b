//! What a command comes to, and how that is reported.
ghost use Rattle.std.specs.Prelude.{◌≡◌, Some, string_bytes};
ghost use Rattle.smap_replies.specs.Outcome.{failure_report, fault_report, refusal, reply_report};
ghost use Rattle.smap_replies.specs.declared.outcome.Failure.TheVariants.{Memory};

use crate::lines;
use smap_codes::Code;
use smap_lines::LineFault;
use std::alloc::{AllocError, AllocFailed};

/// The exit status of a run that did what it was asked.
pub const DONE: u8 = 0;
/// The exit status of a run whose input is refused.
pub const REFUSED: u8 = 1;
/// The exit status where the arguments give no command.
pub const MISUSED: u8 = 2;
/// The exit status of a run in which a device failed, or memory ran out.
pub const FAILED: u8 = 3;

/// What a command answers: for standard output.
#[derive(Drop)]
pub enum Reply {
    /// The text that was asked for, whole, with its last LF.
    Text(String),
    /// The bytes that were asked for, whole, with their last LF: a map, or what a map answers.
    Bytes(Vec<u8>),
    /// That a map does not fit its generated file, or why it is refused, where the answer was asked for in JSON: whole, with
    /// its last LF. Its status is 1, and that of all others 0.
    Refused(String),
    /// The trace is rewritten, the positions are answered or the mappings are printed, and standard output has that already:
    /// nothing is added.
    Printed,
}

/// Why a command does not answer: for standard error. Each text is whole, with its last LF.
#[derive(Drop)]
pub enum Failure {
    /// Why the input is refused, and the code of that, where it has one: status 1.
    Refusal { code: Option<Code>, line: String },
    /// Why the arguments of the command line give no command: status 2.
    Misuse(String),
    /// An argument of the command line is not UTF-8: status 2.
    ArgumentNotUtf8,
    /// Which file can't be read: status 3.
    Unreadable(String),
    /// Standard input failed: status 3.
    InputFailure,
    /// The trace is rewritten, the positions are answered or the mappings are printed up to this fault: status 1 for an
    /// input that is too long, and 3 for the others.
    Fault(LineFault),
    /// Memory ran out: status 3.
    Memory,
}

impl From<AllocError> for Failure {
    ghost from_gives = { λ _ failure. failure ≡ Memory };

    fn from(_error: AllocError) -> Failure {
        Failure::Memory
    }
}

impl<T: Drop> From<AllocFailed<T>> for Failure {
    ghost from_gives = { λ _ failure. failure ≡ Memory };

    fn from(_error: AllocFailed<T>) -> Failure {
        Failure::Memory
    }
}

impl Reply {
    /// The exit status. The call takes no memory.
    pub fn status(&self) -> u8
        ensures { result ≡ (reply_report self.now).status }
    {
        match self {
            Reply::Refused(_) => REFUSED,
            Reply::Text(_) | Reply::Bytes(_) | Reply::Printed => DONE,
        }
    }

    /// What the user reads. The call takes no memory.
    pub fn bytes(&self) -> &[u8]
        ensures { result.now ≡ (reply_report self.now).text }
    {
        match self {
            Reply::Text(text) => text.as_bytes(),
            Reply::Bytes(bytes) => bytes,
            Reply::Refused(text) => text.as_bytes(),
            Reply::Printed => &[],
        }
    }
}

impl Failure {
    /// A refusal of this code, which is reported by this line.
    pub fn refusal(code: Code, line: String) -> Failure
        ensures { failure_report result ≡ refusal (Some code) (string_bytes line) }
    {
        Failure::Refusal {
            code: Some(code),
            line,
        }
    }

    /// The exit status. The call takes no memory.
    pub fn status(&self) -> u8
        ensures { result ≡ (failure_report self.now).status }
    {
        match self {
            Failure::Refusal { .. } | Failure::Fault(LineFault::TooMuch) => REFUSED,
            Failure::Misuse(_) | Failure::ArgumentNotUtf8 => MISUSED,
            Failure::Unreadable(_) | Failure::InputFailure | Failure::Fault(_) | Failure::Memory =>
                FAILED,
        }
    }

    /// What the user reads. The call takes no memory.
    pub fn bytes(&self) -> &[u8]
        ensures { result.now ≡ (failure_report self.now).text }
    {
        match self {
            Failure::Refusal { line, .. } => line.as_bytes(),
            Failure::Misuse(text) => text.as_bytes(),
            Failure::ArgumentNotUtf8 => lines::ARGUMENT_NOT_UTF8.as_bytes(),
            Failure::Unreadable(text) => text.as_bytes(),
            Failure::InputFailure => lines::INPUT_FAILED.as_bytes(),
            Failure::Fault(fault) => fault_line(*fault).as_bytes(),
            Failure::Memory => lines::NO_MEMORY.as_bytes(),
        }
    }

    /// The code of a refusal, where it has one. The call takes no memory.
    pub fn code(&self) -> Option<Code>
        ensures { result ≡ (failure_report self.now).code }
    {
        match self {
            Failure::Refusal { code, .. } => *code,
            Failure::Fault(LineFault::TooMuch) => Some(LineFault::TooMuch.code()),
            _ => None,
        }
    }
}

// Why a trace is not rewritten to its end.
#[tactic(auto, unfolding(smap_codes::specs::Codes::called))]
fn fault_line(fault: LineFault) -> &'static str
    ensures { result.now ≡ (fault_report fault).text }
{
    match fault {
        LineFault::Read => lines::TEXT_UNREAD,
        LineFault::Write => lines::TEXT_UNWRITTEN,
        LineFault::TooMuch => lines::TEXT_TOO_LONG,
        LineFault::Memory => lines::NO_MEMORY,
    }
}
