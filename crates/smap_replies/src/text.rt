//! Files that are texts, such as a generated file or a list.
ghost use Rattle.std.specs.Prelude.{◌≡◌, None, string_bytes, IfErr, IfOk, IsSomeAnd, OnOk};
ghost use Rattle.smap_replies.specs.Map.{IsText, NeverText, OfText, refused_file, text_refusal};
ghost use Rattle.smap_replies.specs.Outcome.{OrMemory, failure_report};

use crate::files::FileReader;
use crate::map::file_bytes;
use crate::outcome::Failure;
use crate::refusal::refused_file;
use smap_codes::Code;
use smap_record::MOST_FILE_BYTES;
use std::alloc::Global;

/// The text of the file of this number and path, which may have as many bytes as a map file.
pub fn read_text<F: FileReader>(
    alloc: Global,
    reader: &F,
    number: usize,
    path: &str,
) -> Result<String, Failure>
    ensures read { IfOk result (λ text.
        IsText (F.gives reader.now) number path.now (string_bytes text)) }
    ensures refused { IfErr result (λ failure. OrMemory
        (OfText (F.gives reader.now) number path.now NeverText) (failure_report failure)) }
{
    let bytes = file_bytes(alloc, reader, number, path)?;
    text_of(alloc, path, bytes)
}

/// The text that the bytes of the file at a path are.
pub fn text_of(alloc: Global, path: &str, bytes: Vec<u8>) -> Result<String, Failure>
    ensures same { IfOk result (λ text. string_bytes text ≡ bytes.items) }
    ensures whole { OnOk result (text_refusal bytes.items ≡ None) }
    ensures refused { IfErr result (λ failure. OrMemory (λ report. IsSomeAnd
        (text_refusal bytes.items)
        (λ code. report ≡ refused_file path.now code)) (failure_report failure)) }
{
    if bytes.len() > MOST_FILE_BYTES {
        return Err(refused_file(alloc, path, Code::M1)?);
    }
    match String::from_utf8(bytes) {
        Ok(text) => Ok(text),
        Err(_) => Err(refused_file(alloc, path, Code::NotUtf8)?),
    }
}
