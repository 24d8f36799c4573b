//! The texts of a map, lent.
ghost use Rattle.std.specs.Prelude.{◌≡◌, IfSome, IsSome, MatchOption, slice_get};
ghost use Rattle.smap_record.specs.Sources.{source_of};
ghost use Rattle.smap_c.specs.TableLook.{IsNoSource};
ghost use Rattle.smap_c.specs.Texts.{IsReported};

use crate::handles::{Holder, MapHandle};
use crate::status::{DONE, REFUSED};
use smap_record::SourceEntry;

/// A text in UTF-8.
#[repr(C)]
#[derive(Clone, Copy)]
pub struct Text<'a> {
    pub text: &'a [u8],
}

/// A source. A text that there is not has no bytes.
#[repr(C)]
#[derive(Clone, Copy)]
pub struct Source<'a> {
    pub name: &'a [u8],
    pub content: &'a [u8],
    /// 1 where the source has a name, and else 0.
    pub named: u32,
    /// 1 where the map holds its content, and else 0.
    pub held: u32,
    /// 1 where the map says that a debugger should pass over it, and else 0.
    pub ignored: u32,
}

/// Lends source `index`, from 0, where there is one.
#[unsafe(no_mangle)]
pub extern "C" fn smap_source<'a>(
    map: &'a mut MapHandle,
    index: u32,
    source: &mut Source<'a>,
) -> u32
    requires { IsSome map.old.held }
    ensures reported { IfSome map.old.held (λ held.
        MatchOption (slice_get held.stated.sources index)
        ((result ≡ 1) × (source.new ≡ source.old))
        (λ stated. (result ≡ 0) × IsReported stated source.new)) }
{
    match map.lend().map().source(index) {
        Some(entry) => {
            *source = reported(entry);
            DONE
        }
        None => REFUSED,
    }
}

// What is said of a source.
pub(crate) fn reported(entry: &SourceEntry) -> Source<'_>
    ensures { IsReported (source_of entry.now) result }
{
    Source {
        name: match &entry.name {
            Some(name) => name.text().as_bytes(),
            None => &[],
        },
        content: match &entry.content {
            Some(content) => content.as_bytes(),
            None => &[],
        },
        named: u32::from(entry.name.is_some()),
        held: u32::from(entry.content.is_some()),
        ignored: u32::from(entry.ignored),
    }
}

// What is said of no source.
pub(crate) fn no_source<'a>() -> Source<'a>
    ensures { IsNoSource result }
{
    Source {
        name: &[],
        content: &[],
        named: 0,
        held: 0,
        ignored: 0,
    }
}

/// Lends name `index`, from 0, where there is one.
#[unsafe(no_mangle)]
pub extern "C" fn smap_name<'a>(map: &'a mut MapHandle, index: u32, name: &mut Text<'a>) -> u32
    requires { IsSome map.old.held }
    ensures reported { IfSome map.old.held (λ held. MatchOption (slice_get held.stated.names index)
        ((result ≡ 1) × (name.new ≡ name.old))
        (λ text. (result ≡ 0) × (name.new.text.now ≡ text))) }
{
    match map.lend().map().name(index) {
        Some(text) => {
            name.text = text.as_bytes();
            DONE
        }
        None => REFUSED,
    }
}

/// Lends the name of the generated file, where the map has one.
#[unsafe(no_mangle)]
pub extern "C" fn smap_file<'a>(map: &'a mut MapHandle, file: &mut Text<'a>) -> u32
    requires { IsSome map.old.held }
    ensures reported { IfSome map.old.held (λ held. MatchOption held.stated.file
        ((result ≡ 1) × (file.new ≡ file.old))
        (λ text. (result ≡ 0) × (file.new.text.now ≡ text))) }
{
    match map.lend().map().file() {
        Some(text) => {
            file.text = text.as_bytes();
            DONE
        }
        None => REFUSED,
    }
}
