//! The generated file beside a map.
ghost use Rattle.std.specs.Prelude.{◌≡◌, None, Some, if◌then◌else◌, is_none, option_copied, option_map, string_bytes, IfOk};
ghost use Rattle.std.specs.Result.{result_map_both};
ghost use Rattle.smap_replies.specs.Map.{text_refusal};
ghost use Rattle.smap_text_answers.specs.Generated.{ReadsGenerated, fits_text, generated_path};

use smap_fit::fit_of;
use smap_io::ReadFailure;
use smap_record::{MOST_FILE_BYTES, MapFile};
use smap_replies::FileReader;
use std::alloc::{AllocError, Global};

/// The path of the generated file of the map at a path: that without its last `.map`, where it ends so.
pub fn generated_path(path: &str) -> Option<&str>
    ensures { option_copied result ≡ generated_path path.now }
{
    path.strip_suffix(".map")
}

/// The text of the generated file of this number and path, which is read if it is a regular file; `None` where it has more
/// than 64 MiB, is no UTF-8, or the map does not fit it.
pub fn read_generated<F: FileReader>(
    alloc: Global,
    files: &F,
    number: usize,
    file: &str,
    map: &MapFile,
) -> Result<Option<String>, ReadFailure>
    ensures { ReadsGenerated (F.gives files.now) number file.now map.now.stated
        (result_map_both (λ text. option_map string_bytes text) (λ failure. failure) result) }
{
    let bytes = files.read_regular(alloc, number, file)?;
    let Some(text) = text_in(bytes) else {
        return Ok(None);
    };
    match fits_text(alloc, map, &text) {
        Ok(true) => Ok(Some(text)),
        Ok(false) => Ok(None),
        Err(_) => Err(ReadFailure::Memory),
    }
}

// The text that bytes are, where they are one of at most 64 MiB.
fn text_in(bytes: Vec<u8>) -> Option<String>
    ensures { option_map string_bytes result
        ≡ (if is_none (text_refusal bytes.items) then Some bytes.items else None) }
{
    if bytes.len() > MOST_FILE_BYTES {
        return None;
    }
    match String::from_utf8(bytes) {
        Ok(text) => Some(text),
        Err(_) => None,
    }
}

// Whether a map fits a text.
fn fits_text(alloc: Global, map: &MapFile, text: &str) -> Result<bool, AllocError>
    ensures { IfOk result (λ fits. fits ≡ fits_text map.now.stated text.now) }
{
    let fit = fit_of(alloc, map, text)?;
    Ok(fit.fits())
}
