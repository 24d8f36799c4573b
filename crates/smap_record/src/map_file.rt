//! A map file that was read, and the look-ups in it.
ghost use Rattle.std.specs.Prelude.{◌≡◌, ◌<◌, ◌+◌, ◌-◌, ◌≤◌, ◌*◌, ◌/◌, ◌^◌, ℕ, None, Err, length, map, slice_get, option_copied, option_map, IsOkUnless, IfOk, IfErr};
ghost use Rattle.std.specs.List.{All};
ghost use Rattle.serde_json.specs.View.{members_view};
ghost use Rattle.smap_mappings.specs.Canonical.{canonical_text};
ghost use Rattle.smap_mappings.specs.Limits.{most_text_bytes};
ghost use Rattle.smap_mappings.specs.Meter.{HasRoom};
ghost use Rattle.smap_mappings.specs.Order.{IsInOrder};
ghost use Rattle.smap_mappings.specs.Within.{IsWithin};
ghost use Rattle.smap_resolve.specs.SourceName.{name_of};
ghost use Rattle.smap_index.specs.Answer.{neighbours};
ghost use Rattle.smap_index.specs.Parts.{bytes_in, joined};
ghost use Rattle.smap_index.specs.Marks.{marks, used_lines_in, HasFewMarksOnEachLine};
ghost use Rattle.smap_record.specs.Limits.{most_file_bytes};
ghost use Rattle.smap_record.specs.MapFile.{IsAnswerWithin, IsMapOf, IsRefusalOf};
ghost use Rattle.smap_record.specs.ReadBack.{ReadsBackAs};
ghost use Rattle.smap_record.specs.Record.{answer_of_map, answer_of_map_from, record_of, record_of_within, record_within};
ghost use Rattle.smap_record.specs.Sources.{source_of, with_name_at};
ghost use Rattle.smap_record.specs.Written.{written};
ghost use Rattle.smap_record.specs.declared.refusal.MapRefusal.TheVariants as refusals;

mod among;
mod regular;
mod with_id;

use crate::entry::SourceEntry;
use crate::file_text::file_members;
use crate::index::build_index;
use crate::joined::read_sections;
use crate::name_bytes::check_names;
use crate::outer::read_outer;
use crate::refusal::MapRefusal;
use crate::sources::sources;
use crate::write::{WriteRefusal, write_copied};
use serde_json::{Map, Value};
use smap_index::{Answer, Index, JoinedMappings, Neighbours};
use smap_mappings::{Mapping, Meter};
use smap_resolve::SourceName;
use std::alloc::{AllocError, Global};
use std::marker::Model;
use url::Url;

/// A map that was read: what it states of its sources and names, and the index of its mappings.
#[derive(Drop)]
pub struct MapFile {
    index: Index,
    sources: Vec<SourceEntry>,
    names: Vec<String>,
    file: Option<String>,
    sections: u64,
}

impl Model for MapFile {
    ghost use Rattle.smap_record.specs.MapFile.{Map, map_seen, IsCounted};

    ghost Value = { Map };

    ghost view = { map_seen };

    ghost invariant = { IsCounted };
}

impl MapFile {
    /// Reads the bytes of a map file (ECMA-426, Source map format) that stands at this URL. Its index has a checkpoint
    /// at the segments of number 0, `k`, 2`k` and so on of each line of a section; `k` is 1 to 4096, and any other is
    /// refused before the sources get their names. `Url` comes after all other refusals, and only where a source has a
    /// name. After a refusal nothing is kept.
    pub fn read(
        alloc: Global,
        bytes: &[u8],
        base: Option<&Url>,
        k: u32,
    ) -> Result<MapFile, MapRefusal>
        ensures too_large { most_file_bytes < length bytes.now → result ≡ Err refusals.TooLarge }
        ensures stated { IfOk result (IsMapOf (record_of bytes.now (option_copied base.entry) k)
            k) }
        ensures refused { IfErr result (IsRefusalOf
            (record_of bytes.now (option_copied base.entry) k)) }
    {
        MapFile::read_within(alloc, bytes, base, k, None)
    }

    /// The same where there may be a bound on the bytes that the names of all sources are made of: each of those of the
    /// URL of the map, of the prefix that `sourceRoot` makes, and of its own text. A name has at most three times as many,
    /// as a URL writes some bytes as `%` and two digits. Where there are more, `LongNames` comes after all other refusals
    /// but `Url` and `Memory`, before a name is made.
    #[tactic(auto, unfolding(crate::specs::Record::record_of_within))]
    pub fn read_within(
        alloc: Global,
        bytes: &[u8],
        base: Option<&Url>,
        k: u32,
        most_names: Option<u64>,
    ) -> Result<MapFile, MapRefusal>
        ensures too_large { most_file_bytes < length bytes.now → result ≡ Err refusals.TooLarge }
        ensures stated { IfOk result
            (IsMapOf (record_of_within most_names bytes.now (option_copied base.entry) k) k) }
        ensures refused { IfErr result
            (IsRefusalOf (record_of_within most_names bytes.now (option_copied base.entry) k)) }
    {
        let members = file_members(alloc, bytes)?;
        MapFile::of_members(alloc, members, base, k, most_names)
    }

    /// The same of bytes that are let go once their JSON value is read, before the index is built.
    #[tactic(auto, unfolding(crate::specs::Record::record_of_within))]
    pub fn read_owned(
        alloc: Global,
        bytes: Vec<u8>,
        base: Option<&Url>,
        k: u32,
    ) -> Result<MapFile, MapRefusal>
        ensures too_large { most_file_bytes < length bytes.items → result ≡ Err refusals.TooLarge }
        ensures stated { IfOk result (IsMapOf (record_of bytes.items (option_copied base.entry) k)
            k) }
        ensures refused { IfErr result (IsRefusalOf
            (record_of bytes.items (option_copied base.entry) k)) }
    {
        let members = file_members(alloc, &bytes)?;
        drop(bytes);
        MapFile::of_members(alloc, members, base, k, None)
    }

    // The map of the file with these members.
    #[tactic(auto, unfolding(crate::specs::Record::record_within))]
    fn of_members(
        alloc: Global,
        members: Map<String, Value>,
        base: Option<&Url>,
        interval: u32,
        most_names: Option<u64>,
    ) -> Result<MapFile, MapRefusal>
        ensures stated { IfOk result
            (IsMapOf (record_within most_names (members_view members.entries)
            (option_copied base.entry) interval) interval) }
        ensures refused { IfErr result
            (IsRefusalOf (record_within most_names (members_view members.entries)
            (option_copied base.entry) interval)) }
    {
        let outer = read_outer(alloc, members)?;
        let joined = read_sections(alloc, outer.entries, Some(interval))?;
        let sections = joined.parts.len() as u64;
        let index = build_index(alloc, joined.parts, joined.marks, interval)?;
        check_names(&joined.sources, base, most_names)?;
        let sources = sources(alloc, joined.sources, base)?;
        Ok(MapFile {
            index,
            sources,
            names: joined.names,
            file: outer.file,
            sections,
        })
    }

    /// Source `i`, from 0, where there is one. The call takes no memory.
    pub fn source(&self, i: u32) -> Option<&SourceEntry>
        ensures { option_map (λ entry. source_of entry.now) result
            ≡ slice_get self.now.stated.sources i }
    {
        self.sources.get(i as usize)
    }

    // All sources.
    pub(crate) fn entries(&self) -> &[SourceEntry]
        ensures { map source_of result.now ≡ self.now.stated.sources }
    {
        &self.sources
    }

    /// Name `i`, from 0, where there is one. The call takes no memory.
    pub fn name(&self, i: u32) -> Option<&str>
        ensures { option_map (λ name. name.now) result ≡ slice_get self.now.stated.names i }
    {
        match self.names.get(i as usize) {
            Some(name) => Some(name.as_str()),
            None => None,
        }
    }

    /// Gives source `i`, from 0, another name, where there is one. All else stays as it was. The call takes no memory.
    pub fn rename_source(&mut self, i: u32, name: SourceName)
        ensures renamed { self.new.stated.sources
            ≡ with_name_at self.old.stated.sources i (name_of name) }
        ensures parts { self.new.stated.parts ≡ self.old.stated.parts }
        ensures others { (self.new.stated.names ≡ self.old.stated.names)
            × (self.new.stated.file ≡ self.old.stated.file) × (self.new.k ≡ self.old.k) }
    {
        if let Some(source) = self.sources.get_mut(i as usize) {
            source.name = Some(name);
        }
    }

    /// The name of the generated file, where the map has one. The call takes no memory.
    pub fn file(&self) -> Option<&str>
        ensures { option_map (λ file. file.now) result ≡ self.now.stated.file }
    {
        match &self.file {
            Some(file) => Some(file.as_str()),
            None => None,
        }
    }

    /// How many sections the map has. A regular map counts as one.
    pub fn sections(&self) -> u64
        ensures { result ≡ length self.now.stated.parts }
    {
        self.sections
    }

    /// How many sources the map has.
    pub fn sources(&self) -> u64
        ensures { result ≡ length self.now.stated.sources }
    {
        self.sources.len() as u64
    }

    /// How many names the map has.
    pub fn names(&self) -> u64
        ensures { result ≡ length self.now.stated.names }
    {
        self.names.len() as u64
    }

    /// How many mappings the map has.
    pub fn segments(&self) -> u64
        ensures count { result ≡ length (joined self.now.stated.parts) }
        ensures bound { 2 * result ≤ bytes_in self.now.stated.parts + length self.now.stated.parts }
    {
        self.index.segments()
    }

    /// How many generated lines hold a mapping. Each section's lines are counted by themselves.
    pub fn used_lines(&self) -> u64
        ensures { result ≡ used_lines_in self.now.stated.parts }
    {
        self.index.used_lines()
    }

    /// How many checkpoints the index has.
    pub fn checkpoints(&self) -> u64
        ensures count { result ≡ length (marks self.now.stated.parts self.now.k) }
        ensures bound { let segments = length (joined self.now.stated.parts) in
            result ≤ segments / self.now.k + used_lines_in self.now.stated.parts }
        ensures on_each_line { HasFewMarksOnEachLine self.now.stated.parts self.now.k }
    {
        self.index.checkpoints()
    }

    /// Looks a generated position up, from 0 and in UTF-16 code units: the last mapping on the line whose column is
    /// not after the asked one answers, and of equal columns the last. Of fewer than 2 ^ b checkpoints it compares at
    /// most b, and it decodes fewer than `k` segments; the meter has room for both. The call takes no memory.
    pub fn look_up(&self, line: u32, column: u32, meter: &mut Meter) -> Answer
        requires room { HasRoom meter.old }
        ensures answer { result ≡ answer_of_map self.now.stated line column }
        ensures within { IsAnswerWithin
            (length self.now.stated.sources) (length self.now.stated.names) result }
        ensures compared { (b : ℕ) → length (marks self.now.stated.parts self.now.k) < 2 ^ b
            → meter.new.comparisons ≤ meter.old.comparisons + b }
        ensures decoded { meter.new.segments ≤ meter.old.segments + (self.now.k - 1) }
        ensures onward { (meter.old.comparisons ≤ meter.new.comparisons)
            × (meter.old.segments ≤ meter.new.segments) }
    {
        self.index.look_up(line, column, meter)
    }

    /// Looks a generated position up in the other direction, from 0 and in UTF-16 code units: the first mapping on the
    /// line whose column is not before the asked one answers, and of equal columns the first. Of fewer than 2 ^ b
    /// checkpoints it compares at most b, and it decodes fewer than `k` segments; the meter has room for both. The call
    /// takes no memory.
    pub fn look_up_from(&self, line: u32, column: u32, meter: &mut Meter) -> Answer
        requires room { HasRoom meter.old }
        ensures answer { result ≡ answer_of_map_from self.now.stated line column }
        ensures within { IsAnswerWithin
            (length self.now.stated.sources) (length self.now.stated.names) result }
        ensures compared { (b : ℕ) → length (marks self.now.stated.parts self.now.k) < 2 ^ b
            → meter.new.comparisons ≤ meter.old.comparisons + b }
        ensures decoded { meter.new.segments ≤ meter.old.segments + (self.now.k - 1) }
        ensures onward { (meter.old.comparisons ≤ meter.new.comparisons)
            × (meter.old.segments ≤ meter.new.segments) }
    {
        self.index.look_up_from(line, column, meter)
    }

    /// The mappings next to a generated position, from 0 and in UTF-16 code units, on any line. Of fewer than 2 ^ b
    /// checkpoints it compares at most b, and it decodes fewer than `k` segments; the meter has room for both. The call
    /// takes no memory.
    pub fn neighbours(&self, line: u32, column: u32, meter: &mut Meter) -> Neighbours
        requires room { HasRoom meter.old }
        ensures both { result ≡ neighbours (joined self.now.stated.parts) line column }
        ensures compared { (b : ℕ) → length (marks self.now.stated.parts self.now.k) < 2 ^ b
            → meter.new.comparisons ≤ meter.old.comparisons + b }
        ensures decoded { meter.new.segments ≤ meter.old.segments + (self.now.k - 1) }
        ensures onward { (meter.old.comparisons ≤ meter.new.comparisons)
            × (meter.old.segments ≤ meter.new.segments) }
    {
        self.index.neighbours(line, column, meter)
    }

    /// A walk through all mappings, section after section, in order. It takes no memory.
    pub fn mappings<'a>(&'a self, alloc: Global) -> JoinedMappings<'a>
        ensures list { result ≡ joined self.now.stated.parts }
        ensures ordered { IsInOrder (joined self.now.stated.parts) }
        ensures within { All
            (IsWithin (length self.now.stated.sources) (length self.now.stated.names))
            (joined self.now.stated.parts) }
    {
        self.index.mappings(alloc)
    }

    /// All mappings, section after section, in order.
    pub fn decode_all(&self, alloc: Global) -> Result<Vec<Mapping>, AllocError>
        ensures list { IfOk result (λ list. list.items ≡ joined self.now.stated.parts) }
        ensures ordered { IsInOrder (joined self.now.stated.parts) }
        ensures within { All
            (IsWithin (length self.now.stated.sources) (length self.now.stated.names))
            (joined self.now.stated.parts) }
    {
        self.index.decode_all(alloc)
    }

    /// The map as the text of one regular map, whose mappings are canonical: JSON without blanks, as `write_record`
    /// makes it. The same map is read of it again, save that the names of its sources may be resolved once more.
    pub fn write(&self, alloc: Global) -> Result<Vec<u8>, WriteRefusal>
        ensures text { IfOk result (λ bytes. bytes.items
            ≡ written self.now.stated.sources self.now.stated.names
            self.now.stated.file (canonical_text (joined self.now.stated.parts))) }
        ensures too_long { most_text_bytes < length
            (canonical_text (joined self.now.stated.parts)) →
            result ≡ Err WriteRefusal.TextTooLong }
        ensures memory { length (canonical_text (joined self.now.stated.parts)) ≤ most_text_bytes →
            IsOkUnless result WriteRefusal.Memory }
        ensures reads_back { IfOk result (λ bytes. length bytes.items ≤ most_file_bytes
            → ReadsBackAs bytes.items (joined self.now.stated.parts) self.now.stated.sources
            self.now.stated.names self.now.stated.file) }
    {
        let mappings = self.index.encode_all(alloc)?;
        let bytes = write_copied(alloc, &self.sources, &self.names, self.file(), mappings)?;
        Ok(bytes)
    }
}

// A map does not keep the decoded list: with a further field this would not compile.
fn has_these_fields_alone(map: &MapFile) {
    let MapFile {
        index: _,
        sources: _,
        names: _,
        file: _,
        sections: _,
    } = map;
}
