//! How many bytes the names of a map's sources are made of.
ghost use Rattle.std.specs.Prelude.{◌≡◌, ◌<◌, ◌+◌, None, length, map, nat_lt, option_copied, option_map, string_bytes, IfSome};
ghost use Rattle.smap_record.specs.NameBytes.{base_bytes, name_bytes, names_refusal, section_name_bytes, text_bytes};
ghost use Rattle.smap_record.specs.Refusals.{unless};
ghost use Rattle.smap_record.specs.Given.{GivesRead};
ghost use Rattle.smap_record.specs.Private.Seen.{sources_seen};

use crate::refusal::MapRefusal;
use crate::section::SectionSources;
use crate::sources::text_of;
use smap_resolve::prefix_bytes;
use url::Url;

/// Refuses these sections, of a map that stands at this URL, where there is a bound and the names of their sources are made
/// of more bytes: each of those of the URL, of the prefix that `sourceRoot` makes, and of its own text.
pub fn check_names(
    sections: &[SectionSources],
    base: Option<&Url>,
    most: Option<u64>,
) -> Result<(), MapRefusal>
    ensures { let stated = map sources_seen sections.now in
        GivesRead (λ _. stated) result
        (unless (names_refusal most (name_bytes (option_copied base.entry) stated)) stated) }
{
    let Some(most) = most else {
        return Ok(());
    };
    if are_long(sections, base, most) {
        return Err(MapRefusal::LongNames);
    }
    Ok(())
}

// Whether they are made of more than so many.
fn are_long(sections: &[SectionSources], base: Option<&Url>, most: u64) -> bool
    ensures { result ≡ nat_lt most
        (name_bytes (option_copied base.entry) (map sources_seen sections.now)) }
{
    let base = base_bytes(base);
    let mut left = most;
    for section in sections {
        match left_behind(section, base, left) {
            Some(rest) => left = rest,
            None => return true,
        }
    }
    false
}

// How many of so many bytes are left behind the names of a section, if they are enough.
fn left_behind(section: &SectionSources, base: usize, most: u64) -> Option<u64>
    ensures enough { IfSome result (λ left.
        section_name_bytes base (sources_seen section.now) + left ≡ most) }
    ensures few { result ≡ None → most < section_name_bytes base (sources_seen section.now) }
{
    let prefix = prefix_bytes(text_of(&section.root));
    let mut left = most;
    for text in section.texts.iter() {
        left = left_behind_name(text, base, prefix, left)?;
    }
    Some(left)
}

// The same behind the name of a source with this text.
fn left_behind_name(text: &Option<String>, base: usize, prefix: usize, most: u64) -> Option<u64>
    ensures enough { IfSome result (λ left.
        text_bytes (base + prefix) (option_map string_bytes text.now) + left ≡ most) }
    ensures few { result ≡ None →
        most < text_bytes (base + prefix) (option_map string_bytes text.now) }
{
    let Some(text) = text else {
        return Some(most);
    };
    most.checked_sub(base as u64)?
        .checked_sub(prefix as u64)?
        .checked_sub(text.len() as u64)
}

fn base_bytes(base: Option<&Url>) -> usize
    ensures { result ≡ base_bytes (option_copied base.entry) }
{
    match base {
        Some(base) => base.as_str().len(),
        None => 0,
    }
}
