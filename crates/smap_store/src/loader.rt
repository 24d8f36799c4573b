//! What reads the maps of URLs from files.
ghost use Rattle.std.specs.Prelude.{ℕ, List, Option};
ghost use Rattle.smap_record.specs.Record.{MapRecord};
ghost use Rattle.smap_store.specs.Loaded.{Came, came_seen, record_in};

use smap_record::MapFile;
use smap_trace::NoMap;
use std::alloc::Global;

/// A map that was loaded, and how many bytes its file has.
#[derive(Drop)]
pub struct LoadedMap {
    pub map: MapFile,
    pub file_bytes: u64,
}

/// What reads the map of a URL from the file at a path.
pub trait MapLoader {
    // What it may give for a URL and a path from now on: what the map states, or none.
    ghost MayLoad: { Self → (url path : List ℕ) → Option MapRecord → Type 0 };

    // What it gave for them, with the number of the file's bytes, or why it gave none, and how it stands after that.
    ghost Loads: { Self → (url path : List ℕ) → Came → Self → Type 0 };

    /// The map of a URL from the file at a path, or why there is none that can be read.
    fn load(&mut self, alloc: Global, url: &[u8], path: &str) -> Result<LoadedMap, NoMap>
        ensures { Loads self.old url.now path.now (came_seen result) self.new };

    // It may give a map or none.
    ghost some: { (loader : Self) (url path : List ℕ) →
        (found : Option MapRecord) × MayLoad loader url path found };

    // What it gave is what it may give.
    ghost given: { (loader after : Self) (url path : List ℕ) (came : Came) →
        Loads loader url path came after → MayLoad loader url path (record_in came) };

    // What it may give after it was asked, it may give before.
    ghost same: { (loader after : Self) (url path other other_path : List ℕ)
        (came : Came) (more : Option MapRecord) →
        Loads loader url path came after → MayLoad after other other_path more →
        MayLoad loader other other_path more };
}
