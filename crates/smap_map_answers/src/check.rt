//! Checking map files: how much each holds.
ghost use Rattle.std.specs.Prelude.{◌≡◌, ◌≢◌, false, map, option_copied, string_bytes, IfOk};
ghost use Rattle.smap_map_answers.specs.Check.{ChecksAll, ChecksFile, IsObjectReported, IsRefusedReported};
ghost use Rattle.smap_map_answers.specs.Check.{IsWhyObject, accepted_line, form_of, paths_of};
ghost use Rattle.smap_replies.specs.Outcome.{OrMemory, report_of};
ghost use Rattle.smap_replies.specs.Streams.{sinks_seen};
ghost use Rattle.smap_record.specs.declared.refusal.MapRefusal.TheVariants.{Memory};

use crate::check_lines;
use smap_codes::Code;
use smap_command::CheckOptions;
use smap_explain::explain;
use smap_io::ByteSink;
use smap_record::{MapFile, MapRefusal};
use smap_replies::{
    DONE, Failure, FileReader, MapReader, Reply, file_bytes_explained, refused_map, report,
};
use smap_verdicts::{MapCounts, counts_json, map_counts, refusal_json};
use std::alloc::{AllocError, Global};

// How a file is reported.
#[derive(Clone, Copy)]
enum FileForm {
    // By the counts of its map.
    Counts,
    // By its path and these.
    Named,
    // By a JSON object, also where the map is refused.
    Object,
}

// The same, and whether a refusal that is reported by a line is followed by why the map is refused.
#[derive(Clone, Copy)]
struct Reporting {
    form: FileForm,
    explain: bool,
}

/// Checks the map file at this path and then those at the other paths of the options, one after another: each is read,
/// reported and let go before the next is read, whether it is accepted or refused, can't be read, or memory runs out. A file
/// is reported by one line, with its path where there are others; as JSON a map, accepted or refused, is reported by one
/// object. Gives the greatest status of all. Where standard output fails, nothing more is read. The caller gives a standard
/// output that has not failed. The code of the first refusal that is reported on standard error is put into `first`, where
/// that has none.
#[tactic(auto, unfolding(crate::specs::Check::paths_of))]
pub fn answer_check<F: FileReader, W: ByteSink, E: ByteSink>(
    alloc: Global,
    maps: &MapReader<'_, F>,
    path: &str,
    options: &CheckOptions,
    output: &mut W,
    errors: &mut E,
    first: &mut Option<Code>,
) -> u8
    requires output_works { (W.seen output.old).failed ≡ false }
    ensures { ChecksAll (F.gives maps.now.files.now) (option_copied maps.now.base) maps.now.interval
        (form_of options.now) options.now.explain 0 (paths_of path.now options.now) result
        (sinks_seen (W.seen output.old) (E.seen errors.old) first.old)
        (sinks_seen (W.seen output.new) (E.seen errors.new) first.new) }
{
    let how = Reporting {
        form: form_of(options),
        explain: options.explain,
    };
    let outcome = checked_file(alloc, maps, 0, path, how);
    let status = report(&outcome, output, errors, first);
    if output.failed() {
        return status;
    }
    let others = check_others(alloc, maps, &options.others, how, output, errors, first);
    status.max(others)
}

// Checks the other files, whose numbers begin with 1.
fn check_others<F: FileReader, W: ByteSink, E: ByteSink>(
    alloc: Global,
    maps: &MapReader<'_, F>,
    paths: &[String],
    how: Reporting,
    output: &mut W,
    errors: &mut E,
    first: &mut Option<Code>,
) -> u8
    requires output_works { (W.seen output.old).failed ≡ false }
    ensures { ChecksAll (F.gives maps.now.files.now) (option_copied maps.now.base) maps.now.interval
        how.form how.explain 1 (map string_bytes paths.now) result
        (sinks_seen (W.seen output.old) (E.seen errors.old) first.old)
        (sinks_seen (W.seen output.new) (E.seen errors.new) first.new) }
{
    let mut status = DONE;
    for (number, path) in paths.iter().enumerate() {
        let outcome = checked_file(alloc, maps, number + 1, path, how);
        status = status.max(report(&outcome, output, errors, first));
        if output.failed() {
            break;
        }
    }
    status
}

// How each of the files is reported.
fn form_of(options: &CheckOptions) -> FileForm
    ensures { result ≡ form_of options.now }
{
    if options.form.is_json() {
        FileForm::Object
    } else if options.others.is_empty() {
        FileForm::Counts
    } else {
        FileForm::Named
    }
}

// What is said of the file of this number and path.
fn checked_file<F: FileReader>(
    alloc: Global,
    maps: &MapReader<'_, F>,
    number: usize,
    path: &str,
    how: Reporting,
) -> Result<Reply, Failure>
    ensures { OrMemory (ChecksFile (F.gives maps.now.files.now) (option_copied maps.now.base)
        maps.now.interval how.form how.explain number path.now) (report_of result) }
{
    let bytes = file_bytes_explained(alloc, maps.files, number, path, how.explain)?;
    match MapFile::read_with_id(alloc, &bytes, maps.base, maps.interval, None) {
        Ok((map, id)) => {
            let counts = map_counts(&map);
            let line = accepted_line(alloc, path, id.as_deref(), counts, how.form)?;
            Ok(Reply::Text(line))
        }
        Err(refused) => refused_reply(alloc, path, &bytes, refused, how),
    }
}

// The line for a map that holds so much, and may have a debug id.
fn accepted_line(
    alloc: Global,
    path: &str,
    id: Option<&str>,
    counts: MapCounts,
    form: FileForm,
) -> Result<String, AllocError>
    ensures { IfOk result (λ line. string_bytes line
        ≡ accepted_line path.now form (option_copied id.entry) counts) }
{
    match form {
        FileForm::Counts => check_lines::counts_line(alloc, counts),
        FileForm::Named => check_lines::map_counts_line(alloc, path, counts),
        FileForm::Object => check_lines::object_line(counts_json(alloc, path, id, counts)?),
    }
}

// Why the map of these bytes is refused. Out of memory is no refusal of the map.
fn refused_reply(
    alloc: Global,
    path: &str,
    bytes: &[u8],
    refused: MapRefusal,
    how: Reporting,
) -> Result<Reply, Failure>
    ensures { OrMemory (λ report. (refused ≢ Memory)
        × IsRefusedReported bytes.now path.now how.form how.explain refused report)
        (report_of result) }
{
    match how.form {
        FileForm::Object => object_reply(alloc, path, bytes, refused),
        FileForm::Counts | FileForm::Named => {
            Err(refused_map(alloc, path, bytes, refused, how.explain)?)
        }
    }
}

fn object_reply(
    alloc: Global,
    path: &str,
    bytes: &[u8],
    refused: MapRefusal,
) -> Result<Reply, Failure>
    ensures { OrMemory (λ report. (refused ≢ Memory)
        × IsObjectReported bytes.now path.now refused report) (report_of result) }
{
    if let MapRefusal::Memory = refused {
        return Err(Failure::Memory);
    }
    Ok(Reply::Refused(why_object(alloc, path, bytes, refused)?))
}

// The object that reports a refusal, and says why, as a line.
fn why_object(
    alloc: Global,
    path: &str,
    bytes: &[u8],
    refused: MapRefusal,
) -> Result<String, AllocError>
    ensures { IfOk result (λ line. IsWhyObject bytes.now path.now refused (string_bytes line)) }
{
    let explanation = explain(alloc, bytes, refused)?;
    check_lines::object_line(refusal_json(alloc, path, refused, &explanation)?)
}
