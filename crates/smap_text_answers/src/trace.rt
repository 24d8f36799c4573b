//! Rewriting the stack trace on standard input.
ghost use Rattle.std.specs.Prelude.{◌≡◌, ◌&&◌, [], false, map, option_copied, Ok, IfOk};
ghost use Rattle.smap_replies.specs.Outcome.{failure_report, report_of};
ghost use Rattle.smap_lines.specs.Editing.{devices_seen};
ghost use Rattle.smap_text_answers.specs.Private.Gathering.{gathered};
ghost use Rattle.smap_locations.specs.ListLine.{is_rule};
ghost use Rattle.smap_text_answers.specs.Trace.{Gathers, PutsNext, IsTraceRewritten, RewriteReports, rewrite_report, url_refusal_result};
ghost use Rattle.smap_replies.specs.Arguments.{argument_of};

use crate::standing::standing_named;
use smap_io::{ByteSink, ByteSource};
use smap_locations::is_rule;
use smap_replies::{Failure, FileReader, MapReader, Reply, file_bytes, map_of, refused_argument};
use smap_trace::{RewriteFault, Summary, Table, TableRefusal, rewrite};
use std::alloc::{AllocError, Global};

/// Reads the map of each argument, which is a URL and a path, from its file, and rewrites the trace on standard input over
/// them, with the frames of ignored sources hidden or not. The caller gives devices that have not failed.
pub fn rewrite_trace<F: FileReader, R: ByteSource, W: ByteSink>(
    alloc: Global,
    maps: &MapReader<'_, F>,
    arguments: &[(String, String)],
    hide_ignored: bool,
    input: &mut R,
    output: &mut W,
) -> Result<Reply, Failure>
    requires input_works { (R.seen input.old).failed ≡ false }
    requires output_works { (W.seen output.old).failed ≡ false }
    ensures { RewriteReports (F.gives maps.now.files.now) (option_copied maps.now.base)
        maps.now.interval (IsTraceRewritten hide_ignored) (map argument_of arguments.now)
        (devices_seen (R.seen input.old) (W.seen output.old))
        (devices_seen (R.seen input.new) (W.seen output.new))
        (report_of result) }
{
    let table = table_of(alloc, maps, false, arguments, false)?;
    rewritten(rewrite(alloc, input, output, &table, hide_ignored))
}

// What rewriting a text comes to.
fn rewritten(end: Result<Summary, RewriteFault>) -> Result<Reply, Failure>
    ensures { report_of result ≡ rewrite_report end }
{
    match end {
        Ok(_) => Ok(Reply::Printed),
        Err(fault) => Err(Failure::Fault(fault)),
    }
}

/// The maps of the files at the paths of the arguments, each under its URL, and with its sources named by the path that this
/// is, where that is asked and there is no base; or the first file that can't be read, and then the first refusal. Rules,
/// which have a folder or a pattern, are passed over where that is asked, and count as arguments.
pub fn table_of<F: FileReader>(
    alloc: Global,
    maps: &MapReader<'_, F>,
    paths: bool,
    arguments: &[(String, String)],
    passes_rules: bool,
) -> Result<Table, Failure>
    ensures { Gathers passes_rules (F.gives maps.now.files.now) paths (option_copied maps.now.base)
        maps.now.interval 0 (Ok []) (map argument_of arguments.now) (gathered result) }
{
    let mut table = Ok(Table::new(alloc));
    for (number, (url, path)) in arguments.iter().enumerate() {
        if is_passed_over(passes_rules, url, path) {
            continue;
        }
        let bytes = file_bytes(alloc, maps.files, number, path)?;
        table = with_map(alloc, maps, paths, table, url, path, bytes);
    }
    table
}

// Whether an argument with this URL and path is passed over: a rule, where those are.
fn is_passed_over(passes_rules: bool, url: &str, path: &str) -> bool
    ensures { result ≡ (passes_rules && is_rule url.now path.now) }
{
    passes_rules && is_rule(url, path)
}

// The table with the map that the bytes are under a URL, where nothing was refused before.
fn with_map<F: FileReader>(
    alloc: Global,
    maps: &MapReader<'_, F>,
    paths: bool,
    table: Result<Table, Failure>,
    url: &str,
    path: &str,
    bytes: Vec<u8>,
) -> Result<Table, Failure>
    ensures { PutsNext paths (option_copied maps.now.base) maps.now.interval (gathered table)
        url.now path.now bytes.items (gathered result) }
{
    let mut table = table?;
    let standing = standing_named(maps.base, paths, url);
    let map = map_of(alloc, path, standing, maps.interval, bytes)?;
    let owned = String::from_str(alloc, url)?;
    match table.add(owned, map) {
        Ok(()) => Ok(table),
        Err((refusal, _, _)) => Err(refused_url(alloc, refusal, url, path)?),
    }
}

// Why a map is not put under a URL.
fn refused_url(
    alloc: Global,
    refusal: TableRefusal,
    url: &str,
    path: &str,
) -> Result<Failure, AllocError>
    ensures { IfOk result (λ failure.
        failure_report failure ≡ url_refusal_result refusal url.now path.now) }
{
    match refusal {
        TableRefusal::Memory => Err(AllocError),
        _ => refused_argument(alloc, refusal.code().text(), url, path),
    }
}
