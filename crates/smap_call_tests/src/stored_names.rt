//! Maps that are read when they are named, with the written names of functions.
use crate::same::assert_holds;
use smap_declarations::Declarations;
use smap_locations::Locations;
use smap_record::{MapFile, ReadyMap};
use smap_store::{
    LoadedMap, LoadedNames, MapCache, MapLoader, NamedMaps, NamesCache, NamesLoader, Program,
    StoredMaps, add_list,
};
use smap_trace::{Maps, NoMap, Table};
use std::alloc::Global;
use std::process::Abort;
use std::test::Fail;

// A map of a program whose only function has a name of one letter, which is the map's file, and was written with `was_`
// before it.
fn map_of(alloc: Global, function: &str) -> Option<MapFile> {
    let text = format!(in alloc;
        r#"{{"version":3,"file":"{function}","sources":["s.ts"],"names":["was_{function}"],"mappings":"SAAAA,IAAI"}}"#
    ).ok()?;
    MapFile::read(alloc, text.as_bytes(), None, 64).ok()
}

// Reads the map of the function `o` from the file of `other.js`; and from any other that of `a` at first, and then that of
// `b`, since the file has changed.
#[derive(Drop)]
struct Changing {
    read: u64,
}

impl MapLoader for Changing {
    ghost use Rattle.std.specs.Prelude.{ℕ, Option, None};
    ghost use Rattle.smap_record.specs.Record.{MapRecord};

    ghost MayLoad = { λ loader url path found. Unit {0} };

    ghost Loads = { λ loader url path came after. Unit {0} };

    fn load(&mut self, alloc: Global, _url: &[u8], path: &str) -> Result<LoadedMap, NoMap> {
        let map = if path.as_bytes().ends_with(b"other.js.map") {
            map_of(alloc, "o")
        } else if self.read == 0 {
            self.read = 1;
            map_of(alloc, "a")
        } else {
            map_of(alloc, "b")
        };
        match map {
            Some(map) => Ok(LoadedMap {
                map,
                file_bytes: 1_000,
            }),
            None => Err(NoMap::Memory),
        }
    }

    ghost some = { λ loader url path. (None, tt) };

    ghost given = { λ loader after url path came loads. tt };

    ghost same = { λ loader after url path other other_path came more loads may. tt };
}

// Lists the function that a map's file names, and counts how often it was asked.
#[derive(Drop)]
struct Lister {
    asked: u64,
}

impl NamesLoader for Lister {
    ghost use Rattle.std.specs.Prelude.{Option};

    ghost MayName = { λ namer program stated kept. Unit {0} };

    ghost Names = { λ namer program stated came after. Unit {0} };

    fn load_names(
        &mut self,
        alloc: Global,
        _program: Program<'_>,
        map: &ReadyMap,
    ) -> Option<LoadedNames> {
        self.asked = self.asked.saturating_add(1);
        names_of(alloc, map.map())
    }

    ghost given_names = { λ namer after program stated came names. tt };

    ghost same_names = { λ namer after program other stated other_stated came more names may. tt };
}

fn names_of(alloc: Global, map: &MapFile) -> Option<LoadedNames> {
    let function = map.file()?;
    let text = format!(in alloc; "function {function}(){{throw 1}}").ok()?;
    let declarations = Declarations::of_text(alloc, &text, map).ok()?;
    Some(LoadedNames {
        declarations,
        file_bytes: 1_000,
    })
}

// A URL, a function of its program, the name that was written for it, and how often declarations were listed then.
type Row = (&'static str, &'static str, &'static str, u64);

// Beside the map of `other.js` there is no room for that of `app.js`, which is then read anew from the changed file.
const CHANGED: &[Row] = &[
    ("https://a.test/app.js?v=1", "a", "was_a", 1),
    ("https://a.test/app.js?v=2", "a", "was_a", 1),
    ("https://a.test/other.js", "o", "was_o", 2),
    ("https://a.test/app.js?v=1", "b", "was_b", 3),
    ("https://a.test/app.js?v=2", "b", "was_b", 3),
    ("https://a.test/app.js#x", "b", "was_b", 3),
];

// The table has a map for exactly one URL, whose file is that of others.
const OF_TABLE: &[Row] = &[
    ("https://a.test/app.js", "t", "was_t", 1),
    ("https://a.test/app.js?v=1", "a", "was_a", 2),
    ("https://a.test/app.js", "t", "was_t", 2),
    ("https://a.test/app.js?v=2", "a", "was_a", 2),
];

// Whether the function has this name in the program of the URL.
fn is_named<M: Maps>(
    alloc: Global,
    maps: &mut M,
    url: &str,
    function: &str,
    written: &str,
) -> bool {
    maps.find(url.as_bytes());
    let name = maps.written_name(alloc, url.as_bytes(), function.as_bytes(), 1, 14);
    name == Some(written.as_bytes())
}

// Each function has its name, over a table and a folder, with this bound for the maps of files.
fn are_named(
    rt: &impl Abort,
    alloc: Global,
    exact: &Table,
    most: u64,
    rows: &[Row],
) -> Result<(), Fail> {
    let mut locations = Locations::new(alloc);
    let list = "https://a.test/\tmaps/\n";
    assert_holds(
        rt,
        list,
        add_list(alloc, &mut locations, exact, list).is_ok(),
    );
    let mut cache = MapCache::new(most);
    let mut loader = Changing { read: 0 };
    let mut names = NamesCache::new(alloc, 1_000_000)?;
    let mut namer = Lister { asked: 0 };
    for (url, function, written, asked) in rows {
        let maps = StoredMaps {
            alloc,
            exact,
            locations: &locations,
            cache: &mut cache,
            loader: &mut loader,
        };
        let mut named = NamedMaps {
            maps,
            names: &mut names,
            namer: &mut namer,
        };
        assert_holds(rt, url, is_named(alloc, &mut named, url, function, written));
        assert_holds(rt, url, namer.asked == *asked);
    }
    Ok(())
}

#[test]
fn names_are_listed_anew_with_their_map(rt: HostRuntime) -> Result<(), Fail> {
    let exact = Table::new(rt.alloc());
    are_named(&rt, rt.alloc(), &exact, 0, CHANGED)
}

#[test]
fn a_map_of_the_table_has_its_own_names(rt: HostRuntime) -> Result<(), Fail> {
    let mut exact = Table::new(rt.alloc());
    let url = String::from_str(rt.alloc(), "https://a.test/app.js")?;
    match map_of(rt.alloc(), "t") {
        Some(map) => assert_holds(&rt, "added", exact.add(url, map).is_ok()),
        None => return Err(Fail::from("no map")),
    }
    are_named(&rt, rt.alloc(), &exact, 1_000_000, OF_TABLE)
}
