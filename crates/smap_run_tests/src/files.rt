//! Files that are read: how many of their bytes, and why some can't be.
use crate::runs::{left, left_by};
use crate::same::{assert_holds, assert_same};
use smap_answers::FileReader;
use smap_command::{CheckOptions, Command};
use smap_io::ReadFailure;
use std::alloc::{AllocError, Global};
use std::test::Fail;
use std::{env, fs};

// How many bytes are read of the file at a path, or why none are.
fn read_text(rt: &HostRuntime, path: &str) -> Result<String, AllocError> {
    match rt.read_file(rt.alloc(), 0, path) {
        Ok(bytes) => format!(in rt.alloc(); "{}", bytes.len()),
        Err(ReadFailure::Device) => String::from_str(rt.alloc(), "unread"),
        Err(ReadFailure::Memory) => Err(AllocError),
    }
}

// A file without end is read to one byte more than a map file may have. A folder opens, and can't be read.
const PATHS: &[(&str, &str)] = &[
    ("/dev/null", "0"),
    ("/dev/zero", "67108865"),
    ("no/such\nfile", "unread"),
    ("/", "unread"),
];

#[test]
fn files_are_read_up_to_a_limit(rt: HostRuntime) -> Result<(), Fail> {
    for (path, wanted) in PATHS {
        assert_same(&rt, path, &read_text(&rt, path)?, wanted);
    }
    Ok(())
}

// Bytes that take more than one read, and of which two files have none at the same place.
fn bytes_of(alloc: Global, is_first: bool) -> Result<Vec<u8>, AllocError> {
    let mut bytes = Vec::new(alloc);
    for _ in 0..40 {
        for byte in 0..=250u8 {
            bytes.push(if is_first { byte } else { 255 - byte })?;
        }
    }
    Ok(bytes)
}

// Whether a file that is written is read byte by byte.
fn is_read(rt: &HostRuntime, folder: &str, is_first: bool) -> Result<bool, Fail> {
    let bytes = bytes_of(rt.alloc(), is_first)?;
    let path = [folder, "/", if is_first { "a" } else { "b" }].concat(rt.alloc())?;
    fs::write(rt, path.as_str(), bytes.as_slice())?;
    match rt.read_file(rt.alloc(), 0, &path) {
        Ok(read) => Ok(read == bytes),
        Err(_) => Ok(false),
    }
}

#[test]
fn files_are_read_byte_by_byte(rt: HostRuntime) -> Result<(), Fail> {
    let folder = [env::temp_dir(&rt)?.as_str(), "/smap-files"].concat(rt.alloc())?;
    fs::create_dir(&rt, folder.as_str())?;
    let are_read = is_read(&rt, &folder, true)? && is_read(&rt, &folder, false)?;
    fs::remove_dir_all(&rt, folder.as_str())?;
    assert_holds(&rt, "byte by byte", are_read);
    Ok(())
}

const HELD: &[(&str, &str)] = &[
    (
        "a.map",
        r#"{"version":3,"sources":["a.js"],"mappings":"AAAA,K;;EAAA"}"#,
    ),
    ("b.map", "[]"),
];

const CHECKED: &str =
    "3|a.map: ok sections 1 sources 1 names 0 segments 3 lines 2 checkpoints 2\n|refused: b.map: M3 NotObject\n  the JSON value is a list, of which the length is 0, and must be an object\ndevice: read folder\n  the path is that of a folder: to rewrite and locate a folder of maps is PREFIX/=FOLDER/, to check FOLDER/*.map\ndevice: read shut\n  the file may not be read: permission is denied\ndevice: read none\n  there is no such file\ndevice: read broken\n  reading the file failed for another cause\n";

#[test]
fn causes_are_reported_of_each_file(rt: HostRuntime) -> Result<(), Fail> {
    let words = [
        "check",
        "--explain",
        "a.map",
        "b.map",
        "folder",
        "shut",
        "none",
        "broken",
    ];
    let left = left(rt.alloc(), HELD, &words, b"")?;
    assert_same(&rt, "all", &left, CHECKED);
    Ok(())
}

// The command as a library makes it, by the options that nothing is asked with.
#[test]
fn of_one_file_the_counts_are_reported(rt: HostRuntime) -> Result<(), Fail> {
    let command = Command::Check {
        path: String::from_str(rt.alloc(), "a.map")?,
        base: None,
        interval: 64,
        options: CheckOptions::new(rt.alloc()),
    };
    let left = left_by(rt.alloc(), HELD, &command, b"")?;
    let wanted = "0|ok sections 1 sources 1 names 0 segments 3 lines 2 checkpoints 2\n|";
    assert_same(&rt, "one file", &left, wanted);
    Ok(())
}

// A text so many times, with a comma between two, and a text before and after all.
fn listed(alloc: Global, entry: &str, count: usize) -> Result<String, AllocError> {
    let mut text = String::from_str(alloc, r#"{"version":3,"sections":["#)?;
    for i in 0..count {
        if i > 0 {
            text.push(',')?;
        }
        text.push_str(entry)?;
    }
    text.push_str("]}")?;
    Ok(text)
}

const UNREAD_SECTION: &str = r#"{"offset":{"line":0,"column":0},"map":{}}"#;

const LAST_SECTION: &str =
    r#"{"offset":{"line":2147483647,"column":2147483647},"map":{"sources":[],"mappings":""}}"#;

// A section that stands in a map so many times, and what `check` leaves.
const SECTIONS: &[(&str, usize, &str)] = &[
    (UNREAD_SECTION, 65_537, "1||refused: m.map: M5 Sections\n"),
    (
        LAST_SECTION,
        65_536,
        "0|ok sections 65536 sources 0 names 0 segments 0 lines 0 checkpoints 0\n|",
    ),
];

#[test]
fn as_many_sections_are_read_as_a_map_may_have(rt: HostRuntime) -> Result<(), Fail> {
    for (entry, count, wanted) in SECTIONS {
        let map = listed(rt.alloc(), entry, *count)?;
        let left = left(rt.alloc(), &[("m.map", &map)], &["check", "m.map"], b"")?;
        assert_same(&rt, wanted, &left, wanted);
    }
    Ok(())
}
