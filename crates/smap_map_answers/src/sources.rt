//! Printing the sources of a map, and how much of the generated file each makes.
ghost use Rattle.std.specs.Prelude.{◌≡◌, None, false, option_copied, option_map, string_bytes};
ghost use Rattle.smap_command.specs.Limits.{usual_interval};
ghost use Rattle.smap_replies.specs.Map.{IsResult, ReportsMap};
ghost use Rattle.smap_replies.specs.Outcome.{OrMemory, report_of};
ghost use Rattle.smap_replies.specs.Why.{ReportsChosen};
ghost use Rattle.smap_map_answers.specs.Sources.{IsSourcesReported, ReportsSources, content_report, content_result};

use crate::lines;
use smap_codes::Code;
use smap_command::{SourceContent, SourceOptions, Sources};
use smap_printing::sources_text;
use smap_record::MapFile;
use smap_replies::{
    Failure, FileReader, MapReader, Reply, read_chosen, read_map, read_text, refused_by,
};
use std::alloc::Global;

/// Reads the map of the command, and its generated file, where one is given, and prints the map's sources.
pub fn answer_sources<F: FileReader>(
    alloc: Global,
    reader: &F,
    asked: &Sources,
) -> Result<Reply, Failure>
    ensures { OrMemory (ReportsChosen (F.gives reader.now) false asked.now.map
        (ReportsSources (F.gives reader.now) asked.now.options
        (option_map string_bytes asked.now.generated))) (report_of result) }
{
    let map = read_chosen(alloc, reader, &asked.map, false)?;
    let generated = asked.generated.as_deref();
    sources_of(alloc, reader, &map, generated, asked.options)
}

// The sources of a map, with its generated file at this path, where one is given.
fn sources_of<F: FileReader>(
    alloc: Global,
    reader: &F,
    map: &MapFile,
    generated: Option<&str>,
    options: SourceOptions,
) -> Result<Reply, Failure>
    ensures { OrMemory (ReportsSources (F.gives reader.now) options
        (option_copied generated.entry) map.now.stated) (report_of result) }
{
    match generated {
        None => reported_sources(alloc, map, None, options),
        Some(path) => {
            let text = read_text(alloc, reader, 1, path)?;
            reported_sources(alloc, map, Some(&text), options)
        }
    }
}

// The sources of a map, with its generated text, where there is one.
fn reported_sources(
    alloc: Global,
    map: &MapFile,
    generated: Option<&str>,
    options: SourceOptions,
) -> Result<Reply, Failure>
    ensures { OrMemory (IsSourcesReported options
        (option_copied generated.entry) map.now.stated) (report_of result) }
{
    let text = sources_text(alloc, map, generated, options)?;
    Ok(Reply::Bytes(text))
}

/// Reads the map that the file at the path is, and prints the content of its source of the index, from 0.
pub fn answer_content<F: FileReader>(
    alloc: Global,
    reader: &F,
    asked: &SourceContent,
) -> Result<Reply, Failure>
    ensures { OrMemory (ReportsMap (F.gives reader.now) 0 (string_bytes asked.now.path) None
        usual_interval (IsResult (content_result asked.now.source))) (report_of result) }
{
    let map = read_map(alloc, &MapReader::usual(reader, None), 0, &asked.path)?;
    reported_content(alloc, &map, asked.source)
}

// The content of the source of this index, or that there is no such source.
fn reported_content(alloc: Global, map: &MapFile, source: u32) -> Result<Reply, Failure>
    ensures { OrMemory (IsResult (content_result source) map.now.stated) (report_of result) }
{
    match map.source(source) {
        Some(source) => content_reply(alloc, source.content.as_deref()),
        None => Err(refused_by(alloc, Code::C1)?),
    }
}

// The content of a source, or that the map does not hold it.
fn content_reply(alloc: Global, content: Option<&str>) -> Result<Reply, Failure>
    ensures { OrMemory (λ report. report ≡ content_report (option_copied content.entry))
        (report_of result) }
{
    match content {
        Some(content) => Ok(Reply::Text(String::from_str(alloc, content)?)),
        None => {
            let line = String::from_str(alloc, lines::NO_CONTENT)?;
            Err(Failure::Refusal { code: None, line })
        }
    }
}
