//! What follows a name that is given a function. Each call is told what stands behind the end of the text's first bracket.
ghost use Rattle.std.specs.Prelude.{◌≡◌};
ghost use Rattle.smap_declarations.specs.Brackets.{first_of};
ghost use Rattle.smap_declarations.specs.Bytes.{behind_blanks};
ghost use Rattle.smap_declarations.specs.Functions.{begins_function, begins_plainly, is_arrow, is_before, is_body, is_empty, is_given_function, is_key, is_keyword, is_quote, is_value_function};
ghost use Rattle.smap_declarations.specs.Private.Open.{behind_next};

use crate::brackets::{Behind, first_of};
use crate::bytes::{behind_blanks, has_first, split_byte, split_word};

fn is_arrow(kind: Behind) -> bool
    ensures { result ≡ is_arrow kind }
{
    match kind {
        Behind::Arrow => true,
        Behind::Body | Behind::Other => false,
    }
}

fn is_body(kind: Behind) -> bool
    ensures { result ≡ is_body kind }
{
    match kind {
        Behind::Body => true,
        Behind::Arrow | Behind::Other => false,
    }
}

// Whether a word is `function` or `class`.
fn is_keyword(word: &[u8]) -> bool
    ensures { result ≡ is_keyword word.now }
{
    word == b"function".as_slice() || word == b"class".as_slice()
}

// Whether a text begins with brackets that end before `=>`.
#[tactic(auto, using(crate::proofs::BracketLaws::is_before_first))]
fn is_before_arrow(text: &[u8], next: Behind) -> bool
    requires { next ≡ behind_next text.now }
    ensures { result ≡ is_before is_arrow text.now }
{
    has_first(b'(', text) && is_arrow(next)
}

// Whether it begins with brackets that end before `{`.
#[tactic(auto, using(crate::proofs::BracketLaws::is_before_first))]
pub fn is_before_body(text: &[u8], next: Behind) -> bool
    requires { next ≡ behind_next text.now }
    ensures { result ≡ is_before is_body text.now }
{
    has_first(b'(', text) && is_body(next)
}

// Whether it begins with `function`, with `class` or with an arrow function.
#[tactic(auto, using(crate::proofs::BracketLaws::same_next), unfolding(crate::specs::Functions::begins_plainly))]
fn begins_plainly(text: &[u8], next: Behind) -> bool
    requires { next ≡ behind_next text.now }
    ensures { result ≡ begins_plainly text.now }
{
    let (word, behind) = split_word(text);
    if word.is_empty() {
        is_before_arrow(text, next)
    } else {
        is_keyword(word) || is_arrow(first_of(behind_blanks(behind)))
    }
}

// The same, perhaps behind `async`.
#[tactic(auto, using(crate::proofs::BracketLaws::same_next), unfolding(crate::specs::Functions::begins_function))]
fn begins_function(text: &[u8], next: Behind) -> bool
    requires { next ≡ behind_next text.now }
    ensures { result ≡ begins_function text.now }
{
    if begins_plainly(text, next) {
        return true;
    }
    let (word, behind) = split_word(text);
    word == b"async".as_slice() && begins_plainly(behind_blanks(behind), next)
}

// Whether a text begins with an `=` that is none of `==` and `=>`, and a function.
#[tactic(auto, using(crate::proofs::BracketLaws::same_next))]
pub fn is_given_function(text: &[u8], next: Behind) -> bool
    requires { next ≡ behind_next text.now }
    ensures { result ≡ is_given_function text.now }
{
    match split_byte(text) {
        Some((b'=', behind)) => {
            !has_first(b'=', behind)
                && !has_first(b'>', behind)
                && begins_function(behind_blanks(behind), next)
        }
        Some(_) => false,
        None => false,
    }
}

// Whether a name that has this behind it, and then blanks and this, is the key of a function, behind this byte.
#[tactic(auto, using(crate::proofs::BracketLaws::same_next), unfolding(crate::specs::Functions::is_key))]
pub fn is_key(before: u8, text: &[u8], rest: &[u8], next: Behind) -> bool
    requires rest { rest.now ≡ behind_blanks text.now }
    requires next { next ≡ behind_next text.now }
    ensures { result ≡ is_key before text.now }
{
    match split_byte(text) {
        Some((quote, behind)) if is_quote(quote) && quote == before => {
            is_value_function(behind_blanks(behind), next)
        }
        Some(_) => is_value_function(rest, next),
        None => is_value_function(rest, next),
    }
}

#[tactic(auto, using(crate::proofs::BracketLaws::same_next))]
fn is_value_function(text: &[u8], next: Behind) -> bool
    requires { next ≡ behind_next text.now }
    ensures { result ≡ is_value_function text.now }
{
    match split_byte(text) {
        Some((b':', behind)) => begins_function(behind_blanks(behind), next),
        Some(_) => false,
        None => false,
    }
}

// Whether a byte is a quotation mark.
fn is_quote(byte: u8) -> bool
    ensures { result ≡ is_quote byte }
{
    byte == b'"' || byte == b'\''
}
