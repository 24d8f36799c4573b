//! A map that several hold.
use crate::same::{assert_holds, assert_same};
use smap_record::{Answer, MapFile, Meter, SharedMap, SourceName};
use std::alloc::{AllocError, Global};
use std::process::Abort;
use std::test::Fail;

const MAP: &str = r#"{"version":3,"sources":["a.js"],"names":["f"],"mappings":"AAAAA"}"#;

fn first_hold(alloc: Global, map: MapFile) -> Result<SharedMap, AllocError> {
    Ok(SharedMap::new(alloc, map)?)
}

fn hold(alloc: Global) -> Result<SharedMap, Fail> {
    let map = MapFile::read(alloc, MAP.as_bytes(), None, 2)?;
    Ok(first_hold(alloc, map)?)
}

/// That the first source has this name.
pub(crate) fn assert_source(rt: &impl Abort, map: &MapFile, wanted: &str) {
    match map.source(0) {
        Some(source) => match &source.name {
            Some(name) => assert_same(rt, "a source", name.text(), wanted),
            None => assert_holds(rt, "a source without a name", false),
        },
        None => assert_holds(rt, "no source", false),
    }
}

#[test]
fn each_hold_has_the_map(rt: HostRuntime) -> Result<(), Fail> {
    let first = hold(rt.alloc())?;
    let second = first.share()?;
    drop(first);
    let mut meter = Meter::new(rt.alloc());
    let answer = second.map().look_up(0, 3, &mut meter);
    assert_holds(
        &rt,
        "found",
        matches!(answer, Answer::Found { column: 0, .. }),
    );
    assert_source(&rt, second.map(), "a.js");
    Ok(())
}

#[test]
fn a_map_that_is_held_twice_stays(rt: HostRuntime) -> Result<(), Fail> {
    let mut first = hold(rt.alloc())?;
    let second = first.share()?;
    assert_holds(&rt, "held twice", first.only().is_none());
    assert_source(&rt, first.map(), "a.js");
    match first.into_map() {
        Ok(_) => Err(Fail::new("a map that is held twice was taken out")),
        Err(first) => {
            assert_source(&rt, first.map(), "a.js");
            assert_source(&rt, second.map(), "a.js");
            Ok(())
        }
    }
}

#[test]
fn the_only_hold_changes_the_map(rt: HostRuntime) -> Result<(), Fail> {
    let mut first = hold(rt.alloc())?;
    drop(first.share()?);
    let Some(map) = first.only() else {
        return Err(Fail::new("a map that is held once was not lent"));
    };
    map.rename_source(0, SourceName::Kept(String::from_str(rt.alloc(), "b.js")?));
    assert_source(&rt, first.map(), "b.js");
    match first.into_map() {
        Ok(map) => {
            assert_source(&rt, &map, "b.js");
            Ok(())
        }
        Err(_) => Err(Fail::new("a map that is held once was not taken out")),
    }
}
