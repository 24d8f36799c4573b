//! Why a map file is refused.
ghost use Rattle.std.specs.Prelude.{◌≡◌};
ghost use Rattle.smap_record.specs.declared.refusal.MapRefusal.TheVariants.{Memory};
ghost use Rattle.smap_record.specs.Refusals.{name_refusal};
ghost use Rattle.smap_record.specs.Codes.{map_code};

use smap_codes::Code;
use smap_index::BuildRefusal;
use smap_mappings::Fault;
use smap_resolve::ResolveRefusal;
use std::alloc::{AllocError, AllocFailed};
use thiserror::Error;

/// Why a map file is refused (ECMA-426, Source map format; that every fault refuses the whole file, the order and the
/// limits are this project's own). The first cause that holds is reported: they are asked in this order, save that `file`
/// is asked before `sources`, and that out of memory may stand in place of what would come later. A key at null
/// counts as absent. Section numbers count from 0. The numbers from M1 on are the refusals' own. The texts that are
/// derived here are for Rust callers: the program prints lines of its own, with the refusal's number and its parts.
#[derive(Clone, Copy, Debug, PartialEq, Eq, Error)]
pub enum MapRefusal {
    /// M1: it has more than 67,108,864 bytes.
    #[error("the file is too large")]
    TooLarge,
    /// M2: what stands after a byte order mark and a guard line is no JSON text, or one that `serde_json` doesn't
    /// read: nested more than 127 deep, or with a number past those that a float can hold.
    #[error("the file is no JSON")]
    NotJson,
    /// M3: its JSON value is no object.
    #[error("the JSON value is no object")]
    NotObject,
    /// M4: `version` is not the number 3, written without point and exponent.
    #[error("`version` is not 3")]
    Version,
    /// M5: `sections` is no list of objects, each with an object as its `map`, or there are more than 65,536.
    #[error("`sections` is no list of objects with a map, or too long")]
    Sections,
    /// M6: this section has no `offset` with a line and a column, each a whole number of 0 to 2147483647.
    #[error("section {0} has no offset")]
    SectionOffset(u64),
    /// M7: the map of this section is an index map.
    #[error("the map of section {0} has sections")]
    Nested(u64),
    /// M8: `sources` is no list of texts and nulls, or there are more than 33,554,432.
    #[error("`sources` is no list of texts and nulls, or too long")]
    Sources,
    /// M9: `names` is no list of texts, or there are more than 33,554,432.
    #[error("`names` is no list of texts, or too long")]
    Names,
    /// M10: `sourcesContent` is no list of texts and nulls.
    #[error("`sourcesContent` is no list of texts and nulls")]
    SourcesContent,
    /// M11: the list of ignored sources, which is `ignoreList`, or `x_google_ignoreList` where that is absent, is no
    /// list of indices of sources.
    #[error("`ignoreList` is no list of indices of sources")]
    IgnoreList,
    /// M12: `file` or `sourceRoot` is no text.
    #[error("`file` or `sourceRoot` is no text")]
    FileOrRoot,
    /// M13: `mappings` is no text, or has more than 67,108,864 bytes.
    #[error("`mappings` is no text, or too long")]
    Mappings,
    /// M14: the mappings of this section have this first fault.
    #[error("the mappings of section {0} are faulty")]
    Text(u64, Fault),
    /// M15: the index is not built, for another cause than memory.
    #[error("the index is not built")]
    Build(BuildRefusal),
    /// M16: the URL of a source would be longer than `url` holds, which is just under 4 GiB.
    #[error("the URL of a source is too long")]
    Url,
    /// M17: there is not enough memory.
    #[error("out of memory")]
    Memory,
    /// M18: the names of all sources are made of more bytes than the caller takes.
    #[error("the names of the sources are too long")]
    LongNames,
}

impl MapRefusal {
    /// The code by which it is called.
    pub fn code(self) -> Code
        ensures { result ≡ map_code self }
    {
        match self {
            MapRefusal::TooLarge => Code::M1,
            MapRefusal::NotJson => Code::M2,
            MapRefusal::NotObject => Code::M3,
            MapRefusal::Version => Code::M4,
            MapRefusal::Sections => Code::M5,
            MapRefusal::SectionOffset(_) => Code::M6,
            MapRefusal::Nested(_) => Code::M7,
            MapRefusal::Sources => Code::M8,
            MapRefusal::Names => Code::M9,
            MapRefusal::SourcesContent => Code::M10,
            MapRefusal::IgnoreList => Code::M11,
            MapRefusal::FileOrRoot => Code::M12,
            MapRefusal::Mappings => Code::M13,
            MapRefusal::Text(_, _) => Code::M14,
            MapRefusal::Build(_) => Code::M15,
            MapRefusal::Url => Code::M16,
            MapRefusal::Memory => Code::M17,
            MapRefusal::LongNames => Code::M18,
        }
    }
}

impl From<AllocError> for MapRefusal {
    ghost from_gives = { λ _ refusal. refusal ≡ Memory };

    fn from(_error: AllocError) -> MapRefusal {
        MapRefusal::Memory
    }
}

impl<T: Drop> From<AllocFailed<T>> for MapRefusal {
    ghost from_gives = { λ _ refusal. refusal ≡ Memory };

    fn from(_failed: AllocFailed<T>) -> MapRefusal {
        MapRefusal::Memory
    }
}

impl From<ResolveRefusal> for MapRefusal {
    ghost from_gives = { λ refusal given. given ≡ name_refusal refusal };

    fn from(refusal: ResolveRefusal) -> MapRefusal {
        match refusal {
            ResolveRefusal::UrlTooLong => MapRefusal::Url,
            ResolveRefusal::Memory => MapRefusal::Memory,
        }
    }
}
