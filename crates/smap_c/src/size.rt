//! For how much memory a map counts.
ghost use Rattle.std.specs.Prelude.{◌≡◌, IfSome, IsSome, length};
ghost use Rattle.smap_record.specs.Sources.{source_of};
ghost use Rattle.smap_c.specs.Size.{counted, map_size, name_bytes, source_bytes, sources_bytes};
ghost use Rattle.smap_c.specs.Texts.{name_or_none, text_or_none};

use crate::handles::{Holder, MapHandle};
use crate::status::DONE;
use smap_record::{MOST_LISTED, MapFile, SourceEntry};

// What is counted beside texts: of a section or a source, of a name, of a checkpoint, and of a mapping.
const ENTRY_BYTES: u64 = 160;

const NAME_BYTES: u64 = 40;

const CHECKPOINT_BYTES: u64 = 32;

const MAPPING_BYTES: u64 = 8;

/// Says for how many bytes of memory a map counts, up to 18,446,744,073,709,551,615: those of the texts that it holds, 160
/// for each section and each source, 40 for each name, 32 for each checkpoint and 8 for each mapping. That is about what it
/// takes.
#[unsafe(no_mangle)]
pub extern "C" fn smap_map_size(map: &mut MapHandle, size: &mut u64) -> u32
    requires { IsSome map.old.held }
    ensures size { IfSome map.old.held (λ held. size.new ≡ counted (map_size held)) }
    ensures stays { map.new.held ≡ map.old.held }
    ensures status { result ≡ 0 }
{
    *size = map_size(map.lend().map());
    DONE
}

fn map_size(file: &MapFile) -> u64
    ensures { result ≡ counted (map_size file.now) }
{
    let entries = file.sections().saturating_add(file.sources());
    file_length(file)
        .saturating_add(sources_bytes(file))
        .saturating_add(names_bytes(file))
        .saturating_add(entries.saturating_mul(ENTRY_BYTES))
        .saturating_add(file.names().saturating_mul(NAME_BYTES))
        .saturating_add(file.checkpoints().saturating_mul(CHECKPOINT_BYTES))
        .saturating_add(file.segments().saturating_mul(MAPPING_BYTES))
}

fn file_length(file: &MapFile) -> u64
    ensures { result ≡ length (text_or_none file.now.stated.file) }
{
    match file.file() {
        Some(text) => text.len() as u64,
        None => 0,
    }
}

// How many bytes the names and the contents of the sources have.
fn sources_bytes(file: &MapFile) -> u64
    ensures { result ≡ counted (sources_bytes file.now.stated.sources) }
{
    let mut bytes = 0;
    for index in 0..MOST_LISTED as u32 {
        let Some(source) = file.source(index) else {
            return bytes;
        };
        bytes = bytes.saturating_add(source_bytes(source));
    }
    bytes
}

fn source_bytes(source: &SourceEntry) -> u64
    ensures { result ≡ counted (source_bytes (source_of source.now)) }
{
    name_length(source).saturating_add(content_length(source))
}

fn name_length(source: &SourceEntry) -> u64
    ensures { result ≡ length (name_or_none (source_of source.now).name) }
{
    match &source.name {
        Some(name) => name.text().len() as u64,
        None => 0,
    }
}

fn content_length(source: &SourceEntry) -> u64
    ensures { result ≡ length (text_or_none (source_of source.now).content) }
{
    match &source.content {
        Some(content) => content.len() as u64,
        None => 0,
    }
}

// How many bytes the names have.
fn names_bytes(file: &MapFile) -> u64
    ensures { result ≡ counted (name_bytes file.now.stated.names) }
{
    let mut bytes = 0;
    for index in 0..MOST_LISTED as u32 {
        let Some(name) = file.name(index) else {
            return bytes;
        };
        bytes = bytes.saturating_add(name.len() as u64);
    }
    bytes
}
