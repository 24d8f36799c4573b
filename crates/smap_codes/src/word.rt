//! The codes that a word calls, and how all codes are called.
ghost use Rattle.std.specs.Prelude.{◌≡◌, flat_map, option_map, string_bytes, IfOk};
ghost use Rattle.std.specs.List.{filter};
ghost use Rattle.smap_codes.specs.Codes.{all_codes};
ghost use Rattle.smap_codes.specs.Texts.{TellsOf, title_line};
ghost use Rattle.smap_codes.specs.Words.{codes_called, is_called, same_letters};

use crate::code::{Code, all};
use crate::row::code_text;
use crate::table::row_of;
use std::alloc::{AllocError, Global};

/// All that is to be known of each code whose label or whose name this is, in the order of `all`; where it is that of none,
/// of each where it is whatever the case of its ASCII letters; `None` where that is none.
pub fn called_text(alloc: Global, word: &str) -> Result<Option<String>, AllocError>
    ensures { IfOk result (λ told.
        TellsOf (codes_called word.now) (option_map (λ text. string_bytes text) told)) }
{
    match told(alloc, word, true)? {
        Some(text) => Ok(Some(text)),
        None => told(alloc, word, false),
    }
}

// The same, by the word as it is or whatever the case of its letters.
fn told(alloc: Global, word: &str, exactly: bool) -> Result<Option<String>, AllocError>
    ensures { IfOk result (λ told. TellsOf (filter (is_called exactly word.now) all_codes)
        (option_map (λ text. string_bytes text) told)) }
{
    let codes = all();
    let mut text = String::new(alloc);
    let mut is_known = false;
    for code in codes {
        if is_called(*code, word, exactly) {
            let known = code_text(alloc, row_of(*code))?;
            text.push_str(&known)?;
            is_known = true;
        }
    }
    if is_known { Ok(Some(text)) } else { Ok(None) }
}

// Whether this is the label or the name of a code.
fn is_called(code: Code, word: &str, exactly: bool) -> bool
    ensures { result ≡ is_called exactly word.now code }
{
    if exactly {
        word == code.label() || word == code.name()
    } else {
        same_letters(word, code.label()) || same_letters(word, code.name())
    }
}

// Whether the words differ in the case of ASCII letters at most.
fn same_letters(word: &str, other: &str) -> bool
    ensures { result ≡ same_letters word.now other.now }
{
    word.eq_ignore_ascii_case(other)
}

/// The label and the name of each code, one a line.
pub fn all_codes_text(alloc: Global) -> Result<String, AllocError>
    ensures { IfOk result (λ text. string_bytes text ≡ flat_map title_line all_codes) }
{
    let codes = all();
    let mut text = String::new(alloc);
    for code in codes {
        text.push_str(code.text())?;
        text.push('\n')?;
    }
    Ok(text)
}
