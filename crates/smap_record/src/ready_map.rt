//! A map that is ready for many look-ups.
ghost use Rattle.std.specs.Prelude.{◌≡◌, ◌<◌, ◌+◌, ◌-◌, ◌≤◌, ◌^◌, ◌⊎◌, ℕ, length, IfErr, OnErr, OnOk};
ghost use Rattle.smap_mappings.specs.Meter.{HasRoom};
ghost use Rattle.smap_index.specs.Marks.{marks};
ghost use Rattle.smap_resolve.specs.SourceName.{name_of};
ghost use Rattle.smap_record.specs.MapFile.{IsAnswerWithin};
ghost use Rattle.smap_record.specs.NamedSources.{bytes_beside, map_beside, map_by_path};
ghost use Rattle.smap_record.specs.Record.{answer_of_map, answer_of_map_from};
ghost use Rattle.smap_record.specs.Sources.{with_name_at};
ghost use Rattle.smap_record.specs.declared.refusal.MapRefusal.TheVariants.{LongNames, Memory};

use crate::beside::name_sources_beside;
use crate::map_file::MapFile;
use crate::named_sources::name_sources_by_path;
use crate::refusal::MapRefusal;
use smap_index::{Answer, LineStarts};
use smap_mappings::Meter;
use smap_resolve::SourceName;
use std::alloc::{AllocError, Global};
use std::marker::Model;

// Of how many checkpoints on it is kept where those of each line begin: among fewer few are compared.
const FEWEST_CHECKPOINTS: u64 = 64;

/// A map, and where the checkpoints of its lines begin, so that a look-up compares those of its line alone.
#[derive(Drop)]
pub struct ReadyMap {
    map: MapFile,
    starts: LineStarts,
}

impl Model for ReadyMap {
    ghost use Rattle.smap_index.specs.LineStarts.{AreLineStarts, marked_lines};
    ghost use Rattle.smap_record.specs.MapFile.{Map};

    ghost Value = { Map };

    ghost view = { λ ready. ready.map };

    ghost invariant = { λ ready.
        AreLineStarts (marked_lines ready.map.stated.parts ready.map.k) ready.starts };
}

impl ReadyMap {
    /// Makes a map ready: where the checkpoints of its lines begin is found in one pass over them. Where there is no memory
    /// for it, or they are few, look-ups go without.
    pub fn new(alloc: Global, map: MapFile) -> ReadyMap
        ensures { result ≡ map }
    {
        let starts = if map.checkpoints() < FEWEST_CHECKPOINTS {
            LineStarts::none(alloc)
        } else {
            match map.line_starts(alloc) {
                Ok(starts) => starts,
                Err(_) => LineStarts::none(alloc),
            }
        };
        ReadyMap { map, starts }
    }

    /// The map for a look-up or two, which are not worth that pass. The call takes no memory.
    pub fn for_few(alloc: Global, map: MapFile) -> ReadyMap
        ensures { result ≡ map }
    {
        ReadyMap {
            map,
            starts: LineStarts::none(alloc),
        }
    }

    /// The map.
    pub fn map(&self) -> &MapFile
        ensures { result.now ≡ self.now }
    {
        &self.map
    }

    /// The map itself.
    pub fn into_map(self) -> MapFile
        ensures { result ≡ self }
    {
        let ReadyMap { map, starts } = self;
        drop(starts);
        map
    }

    /// Looks a generated position up as `MapFile::look_up` does, with the same bounds. The call takes no memory.
    pub fn look_up(&self, line: u32, column: u32, meter: &mut Meter) -> Answer
        requires room { HasRoom meter.old }
        ensures answer { result ≡ answer_of_map self.now.stated line column }
        ensures within { IsAnswerWithin
            (length self.now.stated.sources) (length self.now.stated.names) result }
        ensures compared { (b : ℕ) → length (marks self.now.stated.parts self.now.k) < 2 ^ b
            → meter.new.comparisons ≤ meter.old.comparisons + b }
        ensures decoded { meter.new.segments ≤ meter.old.segments + (self.now.k - 1) }
        ensures onward { (meter.old.comparisons ≤ meter.new.comparisons)
            × (meter.old.segments ≤ meter.new.segments) }
    {
        self.map.look_up_among(&self.starts, line, column, meter)
    }

    /// Looks a generated position up in the other direction as `MapFile::look_up_from` does, with the same bounds. The call
    /// takes no memory.
    pub fn look_up_from(&self, line: u32, column: u32, meter: &mut Meter) -> Answer
        requires room { HasRoom meter.old }
        ensures answer { result ≡ answer_of_map_from self.now.stated line column }
        ensures within { IsAnswerWithin
            (length self.now.stated.sources) (length self.now.stated.names) result }
        ensures compared { (b : ℕ) → length (marks self.now.stated.parts self.now.k) < 2 ^ b
            → meter.new.comparisons ≤ meter.old.comparisons + b }
        ensures decoded { meter.new.segments ≤ meter.old.segments + (self.now.k - 1) }
        ensures onward { (meter.old.comparisons ≤ meter.new.comparisons)
            × (meter.old.segments ≤ meter.new.segments) }
    {
        self.map
            .look_up_from_among(&self.starts, line, column, meter)
    }

    /// Gives source `i`, from 0, another name, where there is one. All else stays as it was. The call takes no memory.
    pub fn rename_source(&mut self, i: u32, name: SourceName)
        ensures renamed { self.new.stated.sources
            ≡ with_name_at self.old.stated.sources i (name_of name) }
        ensures parts { self.new.stated.parts ≡ self.old.stated.parts }
        ensures others { (self.new.stated.names ≡ self.old.stated.names)
            × (self.new.stated.file ≡ self.old.stated.file) × (self.new.k ≡ self.old.k) }
    {
        self.map.rename_source(i, name);
    }

    /// Names the sources by the URL at which the map stands, as `name_sources_by_path` does. Where memory runs out nothing
    /// is changed.
    pub fn name_sources_by_path(&mut self, alloc: Global, url: &[u8]) -> Result<(), AllocError>
        ensures named { OnOk result (self.new ≡ map_by_path url.now self.old) }
        ensures memory { OnErr result (self.new ≡ self.old) }
    {
        name_sources_by_path(alloc, &mut self.map, url)
    }

    /// Names the sources by the path at which the file of the map stands, as `name_sources_beside` does, with the same
    /// bound. Where it is refused nothing is changed.
    pub fn name_sources_beside(
        &mut self,
        alloc: Global,
        path: &[u8],
        most_names: u64,
    ) -> Result<(), MapRefusal>
        ensures named { OnOk result (self.new ≡ map_beside path.now self.old) }
        ensures enough { OnOk result (bytes_beside path.now self.old.stated ≤ most_names) }
        ensures refused { IfErr result (λ refusal. (refusal ≡ Memory)
            ⊎ ((refusal ≡ LongNames) × (most_names < bytes_beside path.now self.old.stated))) }
        ensures stays { OnErr result (self.new ≡ self.old) }
    {
        name_sources_beside(alloc, &mut self.map, path, most_names)
    }
}
