//! What texts, URLs and prefixes begin with in common.
use crate::same::assert_holds;
use smap_locations::{ByText, Locations, common_front};
use smap_record::MapFile;
use smap_trace::Table;
use std::alloc::Global;
use std::process::Abort;
use std::test::Fail;

const MAP: &str = r#"{"version":3,"sources":["a.ts"],"mappings":"AAAA,CAAC"}"#;

#[test]
fn texts_have_a_common_front(rt: HostRuntime) -> Result<(), Fail> {
    let (front, whole) = (
        common_front(b"/app.js", b"/a.js"),
        common_front(b"/app.js", b"/ap"),
    );
    let are_fronts = front == b"/a".as_slice() && whole == b"/ap".as_slice();
    assert_holds(&rt, "fronts", are_fronts);
    let mut texts: ByText<u8> = ByText::new(rt.alloc());
    assert_holds(&rt, "of no text", texts.common().is_none());
    let text = Vec::from_slice(rt.alloc(), b"ab/c")?;
    assert_holds(&rt, "added", texts.add(text, 1).is_ok());
    assert_holds(
        &rt,
        "of one text",
        texts.common() == Some(b"ab/c".as_slice()),
    );
    Ok(())
}

#[test]
fn urls_of_a_table_have_a_common_front(rt: HostRuntime) -> Result<(), Fail> {
    let mut table = Table::new(rt.alloc());
    assert_holds(&rt, "of no URL", table.common_url().is_none());
    for url in ["/x/a.js", "/x/b.js"] {
        let map = MapFile::read(rt.alloc(), MAP.as_bytes(), None, 64)?;
        let url = String::from_str(rt.alloc(), url)?;
        assert_holds(&rt, "added", table.add(url, map).is_ok());
    }
    assert_holds(&rt, "of two", table.common_url() == Some(b"/x/".as_slice()));
    Ok(())
}

// Adds a file and a folder under one name.
fn add_both(
    rt: &impl Abort,
    alloc: Global,
    locations: &mut Locations,
    name: &str,
) -> Result<(), Fail> {
    let url = String::from_str(alloc, name)?;
    let path = String::from_str(alloc, "a.map")?;
    assert_holds(rt, name, locations.add_file(url, path).is_ok());
    let prefix = String::from_str(alloc, name)?;
    let folder = String::from_str(alloc, "maps")?;
    assert_holds(rt, name, locations.add_folder(prefix, folder).is_ok());
    Ok(())
}

#[test]
fn urls_and_prefixes_of_locations_have_a_common_front(rt: HostRuntime) -> Result<(), Fail> {
    let mut locations = Locations::new(rt.alloc());
    assert_holds(&rt, "of no prefix", locations.common_prefix().is_none());
    for name in ["/x/a/", "/x/b/"] {
        add_both(&rt, rt.alloc(), &mut locations, name)?;
    }
    let front = Some(b"/x/".as_slice());
    assert_holds(&rt, "of URLs", locations.common_url() == front);
    assert_holds(&rt, "of prefixes", locations.common_prefix() == front);
    Ok(())
}
