//! The text of a list of files, and why a list is refused.
ghost use Rattle.std.specs.Prelude.{◌≡◌, option_copied, IfOk};
ghost use Rattle.smap_record.specs.FileText.{without_mark};
ghost use Rattle.smap_replies.specs.Lists.{list_refusal, reason_of};
ghost use Rattle.smap_replies.specs.Outcome.{failure_report};

use crate::lines;
use crate::outcome::Failure;
use smap_codes::Code;
use smap_locations::{ListFault, ListRefusal};
use std::alloc::{AllocError, Global};

/// The text of a list: that of its file without a byte order mark at its start, as some editors write one.
pub fn list_text(text: &str) -> &str
    ensures { result.now ≡ without_mark text.now }
{
    match text.strip_prefix("\u{FEFF}") {
        Some(rest) => rest,
        None => text,
    }
}

/// Why the list at a path is refused.
pub fn refused_list(alloc: Global, list: &str, refused: ListRefusal) -> Result<Failure, AllocError>
    ensures { IfOk result (λ failure. failure_report failure ≡ list_refusal list.now refused) }
{
    let reason = reason_of(refused.fault).ok_or(AllocError)?;
    let line = lines::list_refused_line(alloc, list, refused.line, reason)?;
    Ok(Failure::Misuse(line))
}

/// Why a folder or a line is refused, in words; none stands for out of memory.
pub fn reason_of(fault: ListFault) -> Option<&'static str>
    ensures { option_copied result ≡ reason_of fault }
{
    match fault {
        ListFault::NoTab => Some("no TAB"),
        ListFault::NoFolder => Some("a folder needs PREFIX/, *MIDDLE/ or *MIDDLE\\"),
        ListFault::BadUrl => Some(Code::A1.text()),
        ListFault::Twice => Some(Code::A2.text()),
        ListFault::Memory => None,
    }
}
