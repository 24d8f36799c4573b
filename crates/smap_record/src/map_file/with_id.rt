//! A map that is read with its debug id.
ghost use Rattle.std.specs.Prelude.{◌≡◌, ◌<◌, Err, length, option_copied, option_map, string_bytes, IfErr, IfOk};
ghost use Rattle.smap_record.specs.DebugId.{debug_id_of};
ghost use Rattle.smap_record.specs.Limits.{most_file_bytes};
ghost use Rattle.smap_record.specs.MapFile.{IsMapOf, IsRefusalOf};
ghost use Rattle.smap_record.specs.Record.{record_of_within};
ghost use Rattle.smap_record.specs.declared.refusal.MapRefusal.TheVariants as refusals;

use super::MapFile;
use crate::debug_id::take_debug_id;
use crate::file_text::file_members;
use crate::refusal::MapRefusal;
use std::alloc::Global;
use url::Url;

impl MapFile {
    /// Reads a map file as `read_within` does, and its debug id with it: the text at `debugId` of its outer object, or at
    /// `debug_id` where that is none. What is no text is as if it were absent, and no map is refused for it.
    #[tactic(auto, unfolding(crate::specs::Record::record_of_within))]
    pub fn read_with_id(
        alloc: Global,
        bytes: &[u8],
        base: Option<&Url>,
        k: u32,
        most_names: Option<u64>,
    ) -> Result<(MapFile, Option<String>), MapRefusal>
        ensures too_large { most_file_bytes < length bytes.now → result ≡ Err refusals.TooLarge }
        ensures stated { IfOk result (λ read.
            IsMapOf (record_of_within most_names bytes.now (option_copied base.entry) k)
            k read.0) }
        ensures id { IfOk result (λ read. option_map string_bytes read.1 ≡ debug_id_of bytes.now) }
        ensures refused { IfErr result
            (IsRefusalOf (record_of_within most_names bytes.now (option_copied base.entry) k)) }
    {
        let mut members = file_members(alloc, bytes)?;
        let id = take_debug_id(&mut members);
        let map = MapFile::of_members(alloc, members, base, k, most_names)?;
        Ok((map, id))
    }
}
