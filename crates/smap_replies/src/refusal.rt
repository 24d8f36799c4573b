//! Saying why a file or an argument is refused.
ghost use Rattle.std.specs.Prelude.{◌≡◌, ◌≢◌, string_bytes, IfOk};
ghost use Rattle.smap_replies.specs.Arguments.{argument_text};
ghost use Rattle.smap_replies.specs.Lines.{argument_refused_line, map_refused_line};
ghost use Rattle.smap_replies.specs.Map.{refusal_result, refused_file};
ghost use Rattle.smap_replies.specs.Outcome.{failure_report, misuse, refused_by};
ghost use Rattle.smap_verdicts.specs.Refusal.{refusal_text};
ghost use Rattle.smap_record.specs.declared.refusal.MapRefusal.TheVariants.{Memory};

use crate::lines;
use crate::outcome::Failure;
use smap_codes::Code;
use smap_record::MapRefusal;
use smap_verdicts::refusal_text;
use std::alloc::{AllocError, Global};

/// Why the map file at this path is refused. Out of memory is no refusal of the map.
pub fn refusal_of(alloc: Global, path: &str, refused: MapRefusal) -> Result<Failure, AllocError>
    ensures reported { IfOk result (λ failure.
        failure_report failure ≡ refusal_result path.now refused) }
    ensures not_memory { IfOk result (λ _. refused ≢ Memory) }
{
    let line = refusal_line(alloc, path, refused)?;
    Ok(Failure::refusal(refused.code(), line))
}

/// The line that says why the map file at this path is refused, with its LF. Out of memory has none.
pub fn refusal_line(alloc: Global, path: &str, refused: MapRefusal) -> Result<String, AllocError>
    ensures reported { IfOk result (λ line. string_bytes line ≡ map_refused_line path.now
        (refusal_text refused)) }
    ensures not_memory { IfOk result (λ _. refused ≢ Memory) }
{
    if let MapRefusal::Memory = refused {
        return Err(AllocError);
    }
    let refused = refusal_text(alloc, refused)?;
    lines::map_refused_line(alloc, path, &refused)
}

/// A refusal that its code says whole.
pub fn refused_by(alloc: Global, code: Code) -> Result<Failure, AllocError>
    ensures { IfOk result (λ failure. failure_report failure ≡ refused_by code) }
{
    let line = lines::code_refused_line(alloc, code)?;
    Ok(Failure::refusal(code, line))
}

/// The file at this path is refused, and the name of this code says why.
pub fn refused_file(alloc: Global, path: &str, code: Code) -> Result<Failure, AllocError>
    ensures { IfOk result (λ failure. failure_report failure ≡ refused_file path.now code) }
{
    let line = lines::map_refused_line(alloc, path, code.name())?;
    Ok(Failure::refusal(code, line))
}

/// An argument that is a pair, such as a URL and a path, is refused, with the reason.
pub fn refused_argument(
    alloc: Global,
    reason: &str,
    url: &str,
    path: &str,
) -> Result<Failure, AllocError>
    ensures { IfOk result (λ failure. failure_report failure
        ≡ misuse (argument_refused_line (argument_text url.now path.now) reason.now)) }
{
    let line = lines::argument_refused_line(alloc, reason, url, path)?;
    Ok(Failure::Misuse(line))
}
