//! What is kept of URLs, over random runs, as a model has it.
use crate::kept_rows::ROWS;
use crate::same::assert_same;
use smap_kept::{Kept, KeptAnswer, NoValue};
use std::alloc::Global;
use std::process::Abort;
use std::test::Fail;

// A step of a run: its name, a URL, and what stands behind that.
fn parts(row: &str) -> (&str, &str, &str) {
    let (name, rest) = row.split_once(' ').unwrap_or((row, ""));
    match rest.split_once('|') {
        Some((url, rest)) => (name, url, rest),
        None => (name, "", rest),
    }
}

// The number in a text.
fn number(text: &str) -> Result<u64, Fail> {
    Ok(text.parse::<u64>().map_err(|_| "a number")?)
}

// An answer as a row has it.
fn told(alloc: Global, answer: KeptAnswer<&u64>) -> Result<String, Fail> {
    let text = match answer {
        KeptAnswer::Known(value) => format!(in alloc; "v{value}")?,
        KeptAnswer::NoneKnown(NoValue::Missing) => String::from_str(alloc, "nm")?,
        KeptAnswer::NoneKnown(NoValue::Failed) => String::from_str(alloc, "nf")?,
        KeptAnswer::Wanted => String::from_str(alloc, "w")?,
    };
    Ok(text)
}

// How a store is, as a row has it.
fn state(alloc: Global, kept: &Kept<u64>) -> Result<String, Fail> {
    let (bytes, none_bytes, own_bytes) = (kept.bytes(), kept.none_bytes(), kept.own_bytes());
    let (count, none_count) = (kept.count(), kept.none_count());
    let (asked, hits, dropped) = (kept.asked(), kept.hits(), kept.dropped());
    Ok(format!(in alloc;
        "{bytes} {none_bytes} {own_bytes} {count} {none_count} {asked} {hits} {dropped}"
    )?)
}

// Keeps a value of so many bytes.
fn put(
    alloc: Global,
    kept: &mut Kept<u64>,
    url: &[u8],
    value: &str,
    bytes: &str,
) -> Result<(), Fail> {
    let (value, bytes) = (number(value)?, number(bytes)?);
    match kept.put(alloc, url, value, bytes) {
        Ok(_) => Ok(()),
        Err(_) => Err(Fail::new("memory")),
    }
}

// Keeps that there is no value, and why, until a time.
fn put_none(
    alloc: Global,
    kept: &mut Kept<u64>,
    url: &[u8],
    why: &str,
    until: &str,
) -> Result<(), Fail> {
    let until = match until {
        "-" => None,
        time => Some(number(time)?),
    };
    let why = match why {
        "m" => NoValue::Missing,
        _ => NoValue::Failed,
    };
    Ok(kept.put_none(alloc, url, why, until)?)
}

// The first letter that a row has for an answer.
fn letter(answer: KeptAnswer<()>) -> &'static str {
    match answer {
        KeptAnswer::Known(()) => "v",
        KeptAnswer::NoneKnown(_) => "n",
        KeptAnswer::Wanted => "w",
    }
}

// What is answered after a URL was asked for, where the same was answered before and by the asking.
fn ask(
    alloc: Global,
    kept: &mut Kept<u64>,
    url: &[u8],
    now: u64,
    wanted: &str,
) -> Result<String, Fail> {
    let before = told(alloc, kept.peek(url, now))?;
    let asked = letter(kept.ask(url, now));
    if before.as_str() != wanted {
        return Ok(before);
    }
    if !wanted.starts_with(asked) {
        return Ok(String::from_str(alloc, asked)?);
    }
    told(alloc, kept.peek(url, now))
}

// The key of a URL, if it is the wanted one.
fn key(alloc: Global, kept: &Kept<u64>, url: &[u8], wanted: &str) -> Result<String, Fail> {
    let key = if kept.key_for(url) == wanted.as_bytes() {
        wanted
    } else {
        "another"
    };
    Ok(String::from_str(alloc, key)?)
}

// What a step changes, and what it answers, where that is compared.
fn step(alloc: Global, kept: &mut Kept<u64>, row: &str) -> Result<Option<String>, Fail> {
    let (name, url, rest) = parts(row);
    let url = url.as_bytes();
    let (first, second) = rest.split_once(' ').unwrap_or((rest, ""));
    match name {
        "put" => put(alloc, kept, url, first, second)?,
        "none" => put_none(alloc, kept, url, first, second)?,
        "forget" => kept.forget(url),
        "forget_none" => kept.forget_none(),
        _ => return Ok(Some(answer(alloc, kept, row)?)),
    }
    Ok(None)
}

// What a step answers that is compared.
fn answer(alloc: Global, kept: &mut Kept<u64>, row: &str) -> Result<String, Fail> {
    let (name, url, rest) = parts(row);
    let url = url.as_bytes();
    let (first, second) = rest.split_once(' ').unwrap_or((rest, ""));
    match name {
        "ask" => ask(alloc, kept, url, number(first)?, second),
        "peek" => told(alloc, kept.peek(url, number(first)?)),
        "key" => key(alloc, kept, url, rest),
        _ => state(alloc, kept),
    }
}

// What a row says of the answer.
fn wanted(row: &str) -> &str {
    let (name, _, rest) = parts(row);
    match name {
        "state" | "key" => rest,
        _ => match rest.split_once(' ') {
            Some((_, answer)) => answer,
            None => "",
        },
    }
}

// Takes a step, and compares what it answers.
fn take_step(rt: &impl Abort, alloc: Global, kept: &mut Kept<u64>, row: &str) -> Result<(), Fail> {
    if let Some(most) = row.strip_prefix("new ") {
        *kept = Kept::new(alloc, number(most)?)?;
        return Ok(());
    }
    match step(alloc, kept, row)? {
        Some(answer) => assert_same(rt, row, &answer, wanted(row)),
        None => (),
    }
    Ok(())
}

#[test]
fn runs_are_as_the_model_has_them(rt: HostRuntime) -> Result<(), Fail> {
    let mut kept: Kept<u64> = Kept::new(rt.alloc(), 0)?;
    for row in ROWS.lines() {
        take_step(&rt, rt.alloc(), &mut kept, row.trim())?;
    }
    Ok(())
}
