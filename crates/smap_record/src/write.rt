//! A written map (ECMA-426, Source map format).
ghost use Rattle.std.specs.Prelude.{◌≡◌, ◌≤◌, length, map, option_copied, option_map, string_bytes, IfOk};
ghost use Rattle.smap_mappings.specs.Mappings.{mappings_of};
ghost use Rattle.smap_record.specs.Limits.{most_file_bytes};
ghost use Rattle.smap_record.specs.ReadBack.{IsRegularMap, ReadsBackAs};
ghost use Rattle.smap_record.specs.Refusals.{encode_refusal};
ghost use Rattle.smap_record.specs.Sources.{source_of};
ghost use Rattle.smap_record.specs.Written.{written};
ghost use Rattle.smap_record.specs.declared.write.WriteRefusal.TheVariants.{Memory};
ghost use Rattle.smap_record.specs.Codes.{write_code};

use crate::entry::{SourceEntry, copied_names, copied_sources, copied_text};
use crate::written::members;
use serde_json::Value;
use smap_codes::Code;
use smap_index::EncodeAllRefusal;
use smap_index::laws::one_text_is_its_mappings;
use smap_mappings::laws::accepted_texts_have_no_fault;
use std::alloc::{AllocError, Global};

/// Why a map is not written: the first of these that holds, in this order.
#[derive(Clone, Copy)]
pub enum WriteRefusal {
    /// O1: its mappings, as one text, would have more than 67,108,864 bytes.
    TextTooLong,
    /// O2: there is not enough memory.
    Memory,
}

impl WriteRefusal {
    /// The code by which it is called.
    pub fn code(self) -> Code
        ensures { result ≡ write_code self }
    {
        match self {
            WriteRefusal::TextTooLong => Code::O1,
            WriteRefusal::Memory => Code::O2,
        }
    }
}

impl From<AllocError> for WriteRefusal {
    ghost from_gives = { λ _ refusal. refusal ≡ Memory };

    fn from(_error: AllocError) -> WriteRefusal {
        WriteRefusal::Memory
    }
}

impl From<EncodeAllRefusal> for WriteRefusal {
    ghost from_gives = { λ refusal given. given ≡ encode_refusal refusal };

    fn from(refusal: EncodeAllRefusal) -> WriteRefusal {
        match refusal {
            EncodeAllRefusal::TooLong => WriteRefusal::TextTooLong,
            EncodeAllRefusal::Memory => WriteRefusal::Memory,
        }
    }
}

/// The text of a regular map with these sources, these names, this generated file and this mappings text, as one JSON
/// object without blanks: its keys in the order of their bytes, `file`, `ignoreList` and `sourcesContent` only where
/// there is something to write.
pub fn write_record(
    alloc: Global,
    sources: &[SourceEntry],
    names: &[String],
    file: Option<&str>,
    mappings: &str,
) -> Result<Vec<u8>, AllocError>
    ensures text { IfOk result (λ bytes. bytes.items
        ≡ written (map source_of sources.now) (map string_bytes names.now)
        (option_copied file.entry) mappings.now) }
    ensures reads_back { IfOk result (λ bytes. length bytes.items ≤ most_file_bytes
        → IsRegularMap (length sources.now) (length names.now) mappings.now
        → ReadsBackAs bytes.items (mappings_of mappings.now)
        (map source_of sources.now) (map string_bytes names.now) (option_copied file.entry)) }
{
    write_copied(
        alloc,
        sources,
        names,
        file,
        String::from_str(alloc, mappings)?,
    )
}

/// The same of a mappings text that is moved into it.
pub fn write_copied(
    alloc: Global,
    sources: &[SourceEntry],
    names: &[String],
    file: Option<&str>,
    mappings: String,
) -> Result<Vec<u8>, AllocError>
    ensures text { IfOk result (λ bytes. bytes.items
        ≡ written (map source_of sources.now) (map string_bytes names.now)
        (option_copied file.entry) (string_bytes mappings)) }
    ensures reads_back { IfOk result (λ bytes. length bytes.items ≤ most_file_bytes
        → IsRegularMap (length sources.now) (length names.now) (string_bytes mappings)
        → ReadsBackAs bytes.items (mappings_of (string_bytes mappings))
        (map source_of sources.now) (map string_bytes names.now) (option_copied file.entry)) }
{
    let sources = copied_sources(alloc, sources)?;
    let names = copied_names(alloc, names)?;
    let file = copied_text(alloc, file)?;
    write_owned(alloc, sources, names, file, mappings)
}

/// The same of sources, names, a generated file and a mappings text whose texts are all moved into it.
pub fn write_owned(
    alloc: Global,
    sources: Vec<SourceEntry>,
    names: Vec<String>,
    file: Option<String>,
    mappings: String,
) -> Result<Vec<u8>, AllocError>
    ensures text { IfOk result (λ bytes. bytes.items
        ≡ written (map source_of sources.items) (map string_bytes names.items)
        (option_map string_bytes file) (string_bytes mappings)) }
    ensures reads_back { IfOk result (λ bytes. length bytes.items ≤ most_file_bytes
        → IsRegularMap (length sources.items) (length names.items) (string_bytes mappings)
        → ReadsBackAs bytes.items (mappings_of (string_bytes mappings))
        (map source_of sources.items) (map string_bytes names.items)
        (option_map string_bytes file)) }
{
    let members = members(alloc, sources, names, file, mappings)?;
    let text = Value::Object(members).to_string(alloc)?;
    accepted_texts_have_no_fault();
    one_text_is_its_mappings();
    Ok(text.into_bytes())
}
