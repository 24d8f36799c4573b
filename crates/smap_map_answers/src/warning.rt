//! Warning of a map that may be that of another file than the source with which it is composed.
ghost use Rattle.std.specs.Prelude.{◌≡◌, option_copied, option_map, string_bytes, IfOk, OnErr, OnOk};
ghost use Rattle.smap_map_answers.specs.Private.Inners.{inners_stated};
ghost use Rattle.smap_map_answers.specs.Warning.{IsWarned, content_of, inner_at, is_misfit, source_text, warning_at, warning_line, warning_of, warnings};

use crate::generated::bracketed;
use smap_fit::fit_of;
use smap_io::ByteSink;
use smap_record::{MapFile, source_name};
use smap_replies::print_error;
use smap_text::shown;
use std::alloc::{AllocError, Global};

/// Warns where the map of this source of the outer map, from 0, does not fit the content that the outer map has of it.
pub fn warn<E: ByteSink>(
    alloc: Global,
    outer: &MapFile,
    source: u32,
    inner: &MapFile,
    errors: &mut E,
) -> Result<(), AllocError>
    ensures warned { OnOk result (IsWarned
        (warning_of outer.now.stated.sources source inner.now.stated)
        (E.seen errors.old) (E.seen errors.new)) }
    ensures unwarned { OnErr result (E.seen errors.new ≡ E.seen errors.old) }
{
    let text = warning_of(alloc, outer, source, inner)?;
    print_warning(&text, errors);
    Ok(())
}

/// The same of the maps of all sources, of those that have one.
pub fn warn_all<E: ByteSink>(
    alloc: Global,
    outer: &MapFile,
    inners: &[Option<MapFile>],
    errors: &mut E,
) -> Result<(), AllocError>
    ensures warned { OnOk result (IsWarned
        (warnings outer.now.stated.sources (inners_stated inners.now))
        (E.seen errors.old) (E.seen errors.new)) }
    ensures unwarned { OnErr result (E.seen errors.new ≡ E.seen errors.old) }
{
    let text = warnings(alloc, outer, inners)?;
    print_warning(&text, errors);
    Ok(())
}

// Prints a warning, where there is one.
fn print_warning<E: ByteSink>(text: &str, errors: &mut E)
    ensures { IsWarned text.now (E.seen errors.old) (E.seen errors.new) }
{
    if !text.is_empty() {
        print_error(errors, text.as_bytes());
    }
}

// The warnings of the maps of all sources, a line each.
fn warnings(
    alloc: Global,
    outer: &MapFile,
    inners: &[Option<MapFile>],
) -> Result<String, AllocError>
    ensures { IfOk result (λ text. string_bytes text
        ≡ warnings outer.now.stated.sources (inners_stated inners.now)) }
{
    let mut text = String::new(alloc);
    for i in 0..inners.len() {
        let line = warning_at(alloc, outer, inners, i)?;
        text.push_str(&line)?;
    }
    Ok(text)
}

// The warning of the map of this source, from 0, where it has one and does not fit. For one past 32 bits memory counts as
// run out.
fn warning_at(
    alloc: Global,
    outer: &MapFile,
    inners: &[Option<MapFile>],
    i: usize,
) -> Result<String, AllocError>
    ensures { IfOk result (λ text. string_bytes text
        ≡ warning_at outer.now.stated.sources (inners_stated inners.now) i) }
{
    let Ok(source) = u32::try_from(i) else {
        return Err(AllocError);
    };
    match inner_at(inners, i) {
        Some(inner) => warning_of(alloc, outer, source, inner),
        None => Ok(String::new(alloc)),
    }
}

// The map of this source, from 0, where it has one.
fn inner_at(inners: &[Option<MapFile>], i: usize) -> Option<&MapFile>
    ensures { option_map (λ inner. inner.now.stated) result
        ≡ inner_at (inners_stated inners.now) i }
{
    inners.get(i)?.as_ref()
}

// The warning of the map of this source, from 0, where it does not fit.
fn warning_of(
    alloc: Global,
    outer: &MapFile,
    source: u32,
    inner: &MapFile,
) -> Result<String, AllocError>
    ensures { IfOk result (λ text. string_bytes text
        ≡ warning_of outer.now.stated.sources source inner.now.stated) }
{
    if !is_misfit(alloc, content_of(outer, source), inner)? {
        return Ok(String::new(alloc));
    }
    let name = source_text(alloc, outer, source)?;
    warning_line(alloc, &name)
}

// The content that a map has of this source, from 0.
fn content_of(map: &MapFile, source: u32) -> Option<&str>
    ensures { option_copied result ≡ content_of map.now.stated.sources source }
{
    map.source(source)?.content.as_deref()
}

// Whether there is a content, and a map does not fit it.
fn is_misfit(alloc: Global, content: Option<&str>, map: &MapFile) -> Result<bool, AllocError>
    ensures { IfOk result (λ misfit.
        misfit ≡ is_misfit (option_copied content.entry) map.now.stated) }
{
    match content {
        Some(content) => {
            let fit = fit_of(alloc, map, content)?;
            Ok(!fit.fits())
        }
        None => Ok(false),
    }
}

// A source of this number, from 0, as it prints: by its name or, where it has none, by its number in brackets.
fn source_text(alloc: Global, map: &MapFile, source: u32) -> Result<String, AllocError>
    ensures { IfOk result (λ text. string_bytes text ≡ source_text map.now.stated.sources source) }
{
    match source_name(map.source(source)) {
        Some(name) => shown(alloc, name),
        None => bracketed(alloc, source),
    }
}

// Standard error: the map of a source may be that of another file.
fn warning_line(alloc: Global, name: &str) -> Result<String, AllocError>
    ensures { IfOk result (λ text. string_bytes text ≡ warning_line name.now) }
{
    format!(in alloc;
        "the inner map does not fit the content that the outer one has of {name}: swapped?\n"
    )
}
