//! The map that bytes are, by where it stands.
ghost use Rattle.std.specs.Prelude.{◌≡◌, None, option_copied, IfErr, IfOk};
ghost use Rattle.smap_record.specs.MapFile.{IsMapOf};
ghost use Rattle.smap_record.specs.Record.{record_of};
ghost use Rattle.smap_replies.specs.Map.{Never, ReportsFound, refusal_result};
ghost use Rattle.smap_replies.specs.Outcome.{OrMemory, failure_report};
ghost use Rattle.smap_replies.specs.Standing.{MayRefuse, by_path, record_standing, standing_seen, url_in};
ghost use Rattle.url.specs.Parser.{parse_url};

use crate::outcome::Failure;
use crate::refusal::refusal_of;
use smap_record::{MapFile, MapRefusal, Url, name_sources_by_path};
use std::alloc::{AllocError, Global};
use url::ParseError;

/// Where a map stands: how its sources are resolved.
#[derive(Clone, Copy)]
pub enum Standing<'a> {
    /// At this base, where one is given.
    At(Option<&'a Url>),
    /// At this URL, where it is one.
    AtUrl(&'a str),
    /// At this URL, which is a path: by that its sources are named.
    ByPath(&'a [u8]),
}

/// The map that the bytes of the file at this path are, which are let go before its index is built.
pub fn map_of(
    alloc: Global,
    path: &str,
    standing: Standing<'_>,
    interval: u32,
    bytes: Vec<u8>,
) -> Result<MapFile, Failure>
    ensures read { IfOk result (IsMapOf
        (record_standing (standing_seen standing.entry) interval bytes.items) interval) }
    ensures refused { IfErr result (λ failure. OrMemory (ReportsFound (refusal_result path.now)
        (record_standing (standing_seen standing.entry) interval bytes.items) Never)
        (failure_report failure)) }
{
    match read_standing(alloc, standing, interval, bytes) {
        Ok(map) => Ok(map),
        Err(refused) => Err(refusal_of(alloc, path, refused)?),
    }
}

/// The same, with a refusal that is not reported.
pub fn read_standing(
    alloc: Global,
    standing: Standing<'_>,
    interval: u32,
    bytes: Vec<u8>,
) -> Result<MapFile, MapRefusal>
    ensures read { IfOk result (IsMapOf
        (record_standing (standing_seen standing.entry) interval bytes.items) interval) }
    ensures refused { IfErr result (MayRefuse
        (record_standing (standing_seen standing.entry) interval bytes.items)) }
{
    match standing {
        Standing::At(base) => read_at(alloc, base, interval, bytes),
        Standing::AtUrl(url) => {
            let own = own_base(alloc, url)?;
            read_at(alloc, own.as_ref(), interval, bytes)
        }
        Standing::ByPath(url) => read_by_path(alloc, url, interval, bytes),
    }
}

// The map that bytes are at a base.
fn read_at(
    alloc: Global,
    base: Option<&Url>,
    interval: u32,
    bytes: Vec<u8>,
) -> Result<MapFile, MapRefusal>
    ensures read { IfOk result
        (IsMapOf (record_of bytes.items (option_copied base.entry) interval) interval) }
    ensures refused { IfErr result
        (MayRefuse (record_of bytes.items (option_copied base.entry) interval)) }
{
    MapFile::read_owned(alloc, bytes, base, interval)
}

// The map that bytes are, with its sources named by a URL that is a path.
fn read_by_path(
    alloc: Global,
    url: &[u8],
    interval: u32,
    bytes: Vec<u8>,
) -> Result<MapFile, MapRefusal>
    ensures read { IfOk result
        (IsMapOf (record_standing (by_path url.now) interval bytes.items) interval) }
    ensures refused { IfErr result
        (MayRefuse (record_standing (by_path url.now) interval bytes.items)) }
{
    let mut map = read_at(alloc, None, interval, bytes)?;
    name_sources_by_path(alloc, &mut map, url)?;
    Ok(map)
}

// The URL that a text is, where it is one. For one of more than 4 GB memory counts as run out.
fn own_base(alloc: Global, url: &str) -> Result<Option<Url>, AllocError>
    ensures { IfOk result (λ own. own ≡ url_in (parse_url None url.now)) }
{
    match Url::parse(alloc, url) {
        Ok(url) => Ok(Some(url)),
        Err(ParseError::OutOfMemory | ParseError::Overflow) => Err(AllocError),
        Err(_) => Ok(None),
    }
}
