//! Maps that are read when they are named.
use crate::same::assert_holds;
use smap_locations::Locations;
use smap_record::MapFile;
use smap_store::{LoadedMap, MapCache, MapLoader, StoredMaps, add_list};
use smap_trace::{Maps, NoMap, Table};
use std::alloc::Global;
use std::test::Fail;

// Reads maps that name the URL and the path that they were asked for as their file, each of 1,000 bytes; but none where the
// path ends in `none.js.map`. It counts how often it was asked.
#[derive(Drop)]
struct Named {
    asked: u64,
}

impl MapLoader for Named {
    ghost use Rattle.std.specs.Prelude.{ℕ, Option, None};
    ghost use Rattle.smap_record.specs.Record.{MapRecord};

    ghost MayLoad = { λ loader url path found. Unit {0} };

    ghost Loads = { λ loader url path came after. Unit {0} };

    fn load(&mut self, alloc: Global, url: &[u8], path: &str) -> Result<LoadedMap, NoMap> {
        self.asked = self.asked.saturating_add(1);
        if path.as_bytes().ends_with(b"none.js.map") {
            return Err(NoMap::Unread);
        }
        match named_map(alloc, url, path) {
            Some(map) => Ok(LoadedMap {
                map,
                file_bytes: 1_000,
            }),
            None => Err(NoMap::Memory),
        }
    }

    ghost some = { λ loader url path. (None, tt) };

    ghost given = { λ loader after url path came loads. tt };

    ghost same = { λ loader after url path other other_path came more loads may. tt };
}

// A map that names a URL and a path as its file.
fn named_map(alloc: Global, url: &[u8], path: &str) -> Option<MapFile> {
    let url = str::from_utf8(url).ok()?;
    let text = format!(in alloc;
        r#"{{"version":3,"file":"{url} {path}","sources":["a.js"],"names":[],"mappings":"AAAA"}}"#
    ).ok()?;
    MapFile::read(alloc, text.as_bytes(), None, 64).ok()
}

const LIST: &str =
    "# maps\r\n\r\nhttps://a.test/js/app.js\tfile.map\nhttps://a.test/js/\tmaps/\r\n";

// A URL, and the file of the map that it has, or none: the text that the URL stands for, and a path.
const ROWS: [(&str, &str); 6] = [
    ("https://a.test/word.js", "word"),
    (
        "https://a.test/js/app.js?v=1",
        "https://a.test/js/app.js file.map",
    ),
    (
        "https://a.test/js/b.js#x",
        "https://a.test/js/b.js maps/b.js.map",
    ),
    (
        "https://a.test/js/b.js?v=2",
        "https://a.test/js/b.js maps/b.js.map",
    ),
    ("https://a.test/js/none.js", ""),
    ("https://b.test/js/b.js", ""),
];

const WORD: &str = r#"{"version":3,"file":"word","sources":[],"names":[],"mappings":""}"#;

// Whether the map that a URL has, where it has one, is of this file.
fn is_file<M: Maps>(maps: &mut M, url: &str, file: &str) -> bool {
    maps.find(url.as_bytes());
    match maps.map_for(url.as_bytes()) {
        Some(map) => map.map().file() == Some(file),
        None => file.is_empty(),
    }
}

// Whether each URL has its map, and once more.
fn are_files_twice<M: Maps>(maps: &mut M) -> bool {
    for _ in 0..2 {
        for (url, file) in ROWS {
            if !is_file(maps, url, file) {
                return false;
            }
        }
    }
    true
}

// A table of one map.
fn exact(alloc: Global) -> Result<Table, Fail> {
    let mut exact = Table::new(alloc);
    let map = MapFile::read(alloc, WORD.as_bytes(), None, 64)?;
    let url = String::from_str(alloc, "https://a.test/word.js")?;
    match exact.add(url, map) {
        Ok(()) => Ok(exact),
        Err(_) => Err(Fail::from("no table")),
    }
}

#[test]
fn each_url_has_its_map(rt: HostRuntime) -> Result<(), Fail> {
    let alloc = rt.alloc();
    let exact = exact(alloc)?;
    let mut locations = Locations::new(alloc);
    assert_holds(
        &rt,
        LIST,
        add_list(alloc, &mut locations, &exact, LIST).is_ok(),
    );
    // What is kept counts for 1,152 bytes, 1,150, 153 and 150, in the order of the rows. The second bound has room for both
    // maps, and a sixteenth of it for one URL that has none; the third for one of each.
    for (most, read, missing, kept) in [
        (1_000_000, 2, 2, (2_302, 303)),
        (2_302, 2, 4, (2_302, 150)),
        (1_150, 4, 4, (1_150, 150)),
    ] {
        let mut cache = MapCache::new(most);
        let mut loader = Named { asked: 0 };
        {
            let mut maps = StoredMaps {
                alloc,
                exact: &exact,
                locations: &locations,
                cache: &mut cache,
                loader: &mut loader,
            };
            assert_holds(&rt, "files", are_files_twice(&mut maps));
        }
        assert_holds(&rt, "asked", loader.asked == read + missing / 2);
        let found = (cache.read(), cache.missing(), cache.shortages());
        assert_holds(&rt, "read", found == (read, missing, 0));
        assert_holds(&rt, "kept", (cache.bytes(), cache.none_bytes()) == kept);
    }
    Ok(())
}

// URLs, and how many maps were asked for with them.
const OF_PATTERN: [(&str, u64); 4] = [
    ("https://a.test/app.js?v=1", 1),
    ("https://a.test/app.js?v=2", 1),
    ("https://a.test/app.js", 1),
    ("https://b.test/app.js", 2),
];

#[test]
fn a_pattern_is_read_once_for_a_cut_url(rt: HostRuntime) -> Result<(), Fail> {
    let alloc = rt.alloc();
    let exact = exact(alloc)?;
    let mut locations = Locations::new(alloc);
    let list = "*\tall.map\n";
    assert_holds(
        &rt,
        list,
        add_list(alloc, &mut locations, &exact, list).is_ok(),
    );
    let mut cache = MapCache::new(1_000_000);
    let mut loader = Named { asked: 0 };
    for (url, asked) in OF_PATTERN {
        let mut maps = StoredMaps {
            alloc,
            exact: &exact,
            locations: &locations,
            cache: &mut cache,
            loader: &mut loader,
        };
        maps.find(url.as_bytes());
        assert_holds(&rt, url, maps.map_for(url.as_bytes()).is_some());
        assert_holds(&rt, url, loader.asked == asked);
    }
    Ok(())
}
