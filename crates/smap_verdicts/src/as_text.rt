//! Why a map file is refused, as text.
ghost use Rattle.std.specs.Prelude.{◌≡◌, string_bytes, IfOk};
ghost use Rattle.smap_verdicts.specs.Refusal.{build_section_text, fault_text, parts_text};
ghost use Rattle.smap_verdicts.specs.Refusal.{refusal_text};

use smap_record::{BuildRefusal, Fault, MapRefusal};
use std::alloc::{AllocError, Global};

/// A fault of a mappings text: its kind, its generated line, from 1, and the byte at which its segment begins, from 0.
pub fn fault_text(alloc: Global, fault: Fault) -> Result<String, AllocError>
    ensures { IfOk result (λ text. string_bytes text ≡ fault_text fault) }
{
    let kind = fault.kind.code().text();
    let (line, byte) = (u64::from(fault.line) + 1, fault.byte);
    format!(in alloc; "{kind} line {line} byte {byte}")
}

/// A refusal: its number and name, and then its parts. Its section counts from 0, and there is no LF.
pub fn refusal_text(alloc: Global, refusal: MapRefusal) -> Result<String, AllocError>
    ensures { IfOk result (λ text. string_bytes text ≡ refusal_text refusal) }
{
    let code = refusal.code().text();
    let parts = parts_text(alloc, refusal)?;
    format!(in alloc; "{code}{parts}")
}

// The parts of a refusal, where it has some, each after a space.
fn parts_text(alloc: Global, refusal: MapRefusal) -> Result<String, AllocError>
    ensures { IfOk result (λ text. string_bytes text ≡ parts_text refusal) }
{
    match refusal {
        MapRefusal::SectionOffset(section) | MapRefusal::Nested(section) => {
            format!(in alloc; " {section}")
        }
        MapRefusal::Text(section, fault) => {
            let fault = fault_text(alloc, fault)?;
            format!(in alloc; " {section} {fault}")
        }
        MapRefusal::Build(refusal) => {
            let code = refusal.code().text();
            let section = build_section_text(alloc, refusal)?;
            format!(in alloc; " {code}{section}")
        }
        _ => Ok(String::new(alloc)),
    }
}

// The section in which an index is not built, after a space, where there is one.
fn build_section_text(alloc: Global, refusal: BuildRefusal) -> Result<String, AllocError>
    ensures { IfOk result (λ text. string_bytes text ≡ build_section_text refusal) }
{
    match refusal {
        BuildRefusal::SectionOrder(section)
        | BuildRefusal::SectionOverlap(section)
        | BuildRefusal::PositionRange(section) => format!(in alloc; " {section}"),
        BuildRefusal::Interval | BuildRefusal::Memory => Ok(String::new(alloc)),
    }
}
