//! A refusal of a map as numbers.
ghost use Rattle.std.specs.Prelude.{◌≡◌, ◌≢◌, ◌==◌, Some, find, option_copied};
ghost use Rattle.smap_mappings.specs.Codes.{kind_code};
ghost use Rattle.smap_index.specs.Codes.{build_code};
ghost use Rattle.smap_record.specs.Codes.{map_code};
ghost use Rattle.smap_record.specs.declared.refusal.MapRefusal.TheVariants.{Build, Memory};
ghost use Rattle.smap_index.specs.declared.refusal.BuildRefusal.TheVariants as builds;
ghost use Rattle.smap_c.specs.Codes.{code_number};
ghost use Rattle.smap_c.specs.Refusal.{build_in, build_numbers, coded, coded_in, kind_in};
ghost use Rattle.smap_c.specs.Refusal.{numbers_of, refusal_in, refusal_with};

use crate::codes::code_number;
use smap_codes::Code;
use smap_record::{BuildRefusal, Fault, FaultKind, MapRefusal};

/// Why a map is refused, by the numbers of codes. What the refusal does not have is 0.
#[repr(C)]
#[derive(Clone, Copy)]
pub struct Refusal {
    /// M1 to M18, or `usage` where the base is no URL, or U1 where it is too long a URL.
    pub code: u32,
    /// Of M14 the fault of the mappings, F1 to F11, and of M15 why no index is built, B1 to B5.
    pub cause: u32,
    /// The generated line of the faulty segment, from 0.
    pub line: u32,
    /// 1 where the refusal is of a section, and else 0.
    pub has_section: u32,
    /// The section, from 0.
    pub section: u64,
    /// Where the faulty segment begins in the mappings, in bytes from 0.
    pub byte: u64,
}

// The numbers of a refusal, which read back as it.
pub(crate) fn numbers_of(refusal: MapRefusal) -> Refusal
    ensures numbers { result ≡ numbers_of refusal }
    ensures reads_back { refusal ≢ Memory → refusal ≢ Build builds.Memory
        → refusal_in result ≡ Some refusal }
{
    own_numbers(refusal)
}

// The numbers of its code and its parts.
fn own_numbers(refusal: MapRefusal) -> Refusal
    ensures { result ≡ numbers_of refusal }
{
    let code = refusal.code();
    match refusal {
        MapRefusal::SectionOffset(section) | MapRefusal::Nested(section) => coded_in(code, section),
        MapRefusal::Text(section, fault) => Refusal {
            cause: code_number(fault.kind.code()),
            line: fault.line,
            byte: fault.byte,
            ..coded_in(code, section)
        },
        MapRefusal::Build(refusal) => Refusal {
            cause: code_number(refusal.code()),
            ..build_numbers(code, refusal)
        },
        _ => coded(code),
    }
}

// The refusal of this code, which has no part.
pub(crate) fn coded(code: Code) -> Refusal
    ensures { result ≡ coded code }
{
    Refusal {
        code: code_number(code),
        cause: 0,
        line: 0,
        has_section: 0,
        section: 0,
        byte: 0,
    }
}

// The same of a section.
fn coded_in(code: Code, section: u64) -> Refusal
    ensures { result ≡ coded_in code section }
{
    Refusal {
        has_section: 1,
        section,
        ..coded(code)
    }
}

// The same of the section in which an index is not built, where there is one.
fn build_numbers(code: Code, refusal: BuildRefusal) -> Refusal
    ensures { result ≡ build_numbers code refusal }
{
    match refusal {
        BuildRefusal::SectionOrder(section)
        | BuildRefusal::SectionOverlap(section)
        | BuildRefusal::PositionRange(section) => coded_in(code, section),
        BuildRefusal::Interval | BuildRefusal::Memory => coded(code),
    }
}

// The refusal that has these numbers, if there is one.
#[tactic(auto, unfolding(crate::specs::Refusal::refusal_in))]
pub(crate) fn refusal_in(refusal: &Refusal) -> Option<MapRefusal>
    ensures { result ≡ refusal_in refusal.now }
{
    let Refusal { code, section, .. } = *refusal;
    if code == code_number(Code::M14) {
        let kind = kind_in(refusal.cause)?;
        let fault = Fault {
            byte: refusal.byte,
            line: refusal.line,
            kind,
        };
        return Some(MapRefusal::Text(section, fault));
    }
    if code == code_number(Code::M15) {
        return Some(MapRefusal::Build(build_in(refusal.cause, section)?));
    }
    refusal_with(code, section)
}

// The refusal of this number that has no part but a section.
fn refusal_with(number: u32, section: u64) -> Option<MapRefusal>
    ensures { result ≡ refusal_with number section }
{
    let all = [
        MapRefusal::TooLarge,
        MapRefusal::NotJson,
        MapRefusal::NotObject,
        MapRefusal::Version,
        MapRefusal::Sections,
        MapRefusal::SectionOffset(section),
        MapRefusal::Nested(section),
        MapRefusal::Sources,
        MapRefusal::Names,
        MapRefusal::SourcesContent,
        MapRefusal::IgnoreList,
        MapRefusal::FileOrRoot,
        MapRefusal::Mappings,
        MapRefusal::Url,
        MapRefusal::LongNames,
    ];
    refusal_among(&all, number).copied()
}

fn refusal_among<'a>(all: &'a [MapRefusal], number: u32) -> Option<&'a MapRefusal>
    ensures { option_copied result
        ≡ find (λ refusal. code_number (map_code refusal) == number) all.now }
{
    all.iter().find(|refusal| is_refusal(refusal, number))
}

// Whether the code of a refusal has this number.
fn is_refusal(refusal: &MapRefusal, number: u32) -> bool
    ensures { result ≡ (code_number (map_code refusal.now) == number) }
{
    code_number(refusal.code()) == number
}

// The kind of fault that has this number.
fn kind_in(number: u32) -> Option<FaultKind>
    ensures { result ≡ kind_in number }
{
    let all = [
        FaultKind::BadDigit,
        FaultKind::Unended,
        FaultKind::TooLong,
        FaultKind::TooLarge,
        FaultKind::NegativeZero,
        FaultKind::FieldCount,
        FaultKind::Negative,
        FaultKind::PastLimit,
        FaultKind::ColumnFalls,
        FaultKind::SourceIndex,
        FaultKind::NameIndex,
    ];
    kind_among(&all, number).copied()
}

fn kind_among<'a>(all: &'a [FaultKind], number: u32) -> Option<&'a FaultKind>
    ensures { option_copied result ≡ find (λ kind. code_number (kind_code kind) == number) all.now }
{
    all.iter().find(|kind| is_kind(kind, number))
}

// Whether the code of a kind of fault has this number.
fn is_kind(kind: &FaultKind, number: u32) -> bool
    ensures { result ≡ (code_number (kind_code kind.now) == number) }
{
    code_number(kind.code()) == number
}

// Why an index is not built, by its number and the section.
fn build_in(number: u32, section: u64) -> Option<BuildRefusal>
    ensures { result ≡ build_in number section }
{
    let all = [
        BuildRefusal::Interval,
        BuildRefusal::SectionOrder(section),
        BuildRefusal::SectionOverlap(section),
        BuildRefusal::PositionRange(section),
    ];
    build_among(&all, number).copied()
}

fn build_among<'a>(all: &'a [BuildRefusal], number: u32) -> Option<&'a BuildRefusal>
    ensures { option_copied result
        ≡ find (λ refusal. code_number (build_code refusal) == number) all.now }
{
    all.iter().find(|refusal| is_build(refusal, number))
}

// Whether the code of why an index is not built has this number.
fn is_build(refusal: &BuildRefusal, number: u32) -> bool
    ensures { result ≡ (code_number (build_code refusal.now) == number) }
{
    code_number(refusal.code()) == number
}
