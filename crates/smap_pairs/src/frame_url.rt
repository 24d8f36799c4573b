//! Which URL of a frame a pattern may have, and which a folder, or a list without its query: one that is a URL and no more.
//!
//! Each question goes through the bytes once; but a URL that begins behind a blank is read on from there, which is done once
//! for each blank, and up to the next; and where a scheme may end, three bytes are read.
ghost use Rattle.std.specs.Prelude.{◌≡◌, ◌∷◌, ◌≤◌, ◌<◌, [], IfSome, false, MatchOption, length, map, reverse};
ghost use Rattle.std.specs.Bool.{nat_eq};
ghost use Rattle.std.specs.List.{list_any, starts_with};
ghost use Rattle.smap_pairs.specs.Before.{has_separator, is_behind_digit};
ghost use Rattle.smap_pairs.specs.Behind.{is_barred};
ghost use Rattle.smap_pairs.specs.Bytes.{is_edge_byte};
ghost use Rattle.smap_pairs.specs.FrameUrl.{as_in_path, begins_again, begins_as_url, begins_with_sign, has_blank_or_quote, has_slash_behind_sign, is_behind_letter, is_blank_or_quote, is_bracket};
ghost use Rattle.smap_pairs.specs.FrameUrl.{has_more_behind, has_barred_query, has_blank_in_query, has_function, has_scheme_behind_sign, is_for_folder, is_for_pattern, is_function, is_in_scheme};
ghost use Rattle.smap_pairs.specs.FrameUrl.{is_no_sentence, is_one_url, is_relative, is_sentence, scheme_end};
ghost use Rattle.smap_pairs.specs.Path.{is_path};
ghost use Rattle.smap_pairs.specs.Private.FrameReading.{seen_as};
ghost use Rattle.smap_pairs.specs.Signs.{is_nothing, signs, text_of};

use crate::absolute::is_scheme_byte;
use crate::before::is_separator;
use crate::behind::{begins_query, is_barred};
use crate::brackets::has_paired_brackets;
use crate::bytes::{is_control, is_edge_byte};
use crate::pairs::Pair;
use crate::path::PathReader;
use crate::seen::{NOTHING, SeenByte};
use crate::signs::next_sign;

/// Whether what stands from byte `start` of a line to a pair, in a virtual line that begins at byte `virtual_start`, is one
/// URL and no more.
pub fn is_for_pattern(line: &[SeenByte], virtual_start: usize, start: usize, pair: &Pair) -> bool
    requires virtual_start { virtual_start ≤ start }
    requires start { start ≤ pair.now.start }
    requires within { pair.now.start ≤ length line.now }
    ensures { result ≡ is_for_pattern line.now virtual_start start pair.now }
{
    pair.piece <= start && is_one_url(&line[virtual_start..start], &line[start..pair.start])
}

/// Whether what stands from byte `start` of a line to a pair may be the URL of a folder, or of a list without its query.
pub fn is_for_folder(line: &[SeenByte], start: usize, pair: &Pair) -> bool
    requires start { start ≤ pair.now.start }
    requires within { pair.now.start ≤ length line.now }
    ensures { result ≡ is_for_folder line.now start pair.now }
{
    pair.piece <= start && is_no_sentence(&line[start..pair.start])
}

fn is_no_sentence(url: &[SeenByte]) -> bool
    ensures { result ≡ is_no_sentence url.now }
{
    !is_sentence(url) && !has_barred_query(url)
}

// Whether the query of a URL has a byte that does not stand behind a name.
#[tactic(auto, unfolding(crate::specs::FrameUrl::has_barred_query))]
fn has_barred_query(url: &[SeenByte]) -> bool
    ensures { result ≡ has_barred_query url.now }
{
    let mut rest = url;
    while let Some((seen, behind)) = rest.split_first() {
        if begins_query(seen.byte) {
            return has_barred(rest);
        }
        rest = behind;
    }
    false
}

fn has_barred(url: &[SeenByte]) -> bool
    ensures { result ≡ list_any is_barred url.now }
{
    url.iter().any(|seen| is_barred(*seen))
}

fn is_one_url(before: &[SeenByte], url: &[SeenByte]) -> bool
    ensures { result ≡ is_one_url before.now url.now }
{
    if !begins_with_sign(url) || !has_paired_brackets(url) {
        return false;
    }
    if begins_as_url(url, true) {
        !is_sentence(url)
    } else {
        is_relative(before, url)
    }
}

fn begins_with_sign(url: &[SeenByte]) -> bool
    ensures { result ≡ begins_with_sign url.now }
{
    match url.first() {
        Some(seen) => seen.counts != NOTHING,
        None => false,
    }
}

// The first byte of a text, and what stands behind it: of the bytes that stand there, or of what counts.
fn next(text: &[SeenByte], stands: bool) -> Option<(u8, &[SeenByte])>
    ensures found { MatchOption result (seen_as stands text.now ≡ [])
        (λ found. seen_as stands text.now ≡ found.0 ∷ seen_as stands found.1.now) }
    ensures shorter { IfSome result (λ found. length found.1.now < length text.now) }
{
    if !stands {
        return next_sign(text);
    }
    match text.split_first() {
        Some((seen, behind)) => Some((seen.byte, behind)),
        None => None,
    }
}

// Whether a text begins as a URL does.
fn begins_as_url(text: &[SeenByte], stands: bool) -> bool
    ensures { result ≡ begins_as_url (seen_as stands text.now) }
{
    let Some((byte, behind)) = next(text, stands) else {
        return false;
    };
    is_separator(byte)
        || byte.is_ascii_alphabetic()
            && (begins_with(behind, stands, b":\\") || is_in_scheme(behind, stands))
}

// Whether a text begins with two bytes.
fn begins_with(text: &[SeenByte], stands: bool, bytes: &[u8]) -> bool
    ensures { result ≡ starts_with nat_eq (seen_as stands text.now) bytes.now }
{
    let mut rest = text;
    for wanted in bytes {
        match next(rest, stands) {
            Some((byte, behind)) if byte == *wanted => rest = behind,
            _ => return false,
        }
    }
    true
}

#[tactic(auto, unfolding(crate::specs::FrameUrl::is_in_scheme))]
fn is_in_scheme(text: &[SeenByte], stands: bool) -> bool
    ensures { result ≡ is_in_scheme false (seen_as stands text.now) }
{
    let mut has_dot = false;
    let mut rest = text;
    while let Some((byte, behind)) = next(rest, stands) {
        if byte == b':' {
            return begins_with(behind, stands, if has_dot { b"//" } else { b"/" });
        }
        if !is_scheme_byte(byte) {
            return false;
        }
        has_dot = has_dot || byte == b'.';
        rest = behind;
    }
    false
}

fn is_sentence(url: &[SeenByte]) -> bool
    ensures { result ≡ is_sentence (signs url.now) }
{
    has_blank_or_quote(url) && has_more_behind(url) || has_function(url)
}

fn has_more_behind(url: &[SeenByte]) -> bool
    ensures { result ≡ has_more_behind (signs url.now) }
{
    begins_again(url)
        || has_slash_behind_sign(url)
        || has_scheme_behind_sign(url)
        || has_blank_in_query(url)
}

fn has_blank_or_quote(url: &[SeenByte]) -> bool
    ensures { result ≡ has_blank_or_quote (signs url.now) }
{
    let mut rest = url;
    while let Some((byte, behind)) = next_sign(rest) {
        if is_blank_or_quote(byte) {
            return true;
        }
        rest = behind;
    }
    false
}

fn is_blank_or_quote(byte: u8) -> bool
    ensures { result ≡ is_blank_or_quote byte }
{
    is_control(byte) || byte == b'"' || byte == b'\''
}

// Whether a URL begins behind a blank and signs. No byte of the beginning of one is such a sign, so each byte is read as one
// of it once.
#[tactic(auto, unfolding(crate::specs::FrameUrl::begins_again))]
fn begins_again(url: &[SeenByte]) -> bool
    ensures { result ≡ begins_again false (signs url.now) }
{
    let mut is_behind_blank = false;
    let mut rest = url;
    while let Some((byte, behind)) = next_sign(rest) {
        if is_behind_blank && begins_as_url(rest, false) {
            return true;
        }
        is_behind_blank = is_control(byte) || is_behind_blank && is_edge_byte(byte);
        rest = behind;
    }
    false
}

#[tactic(auto, unfolding(crate::specs::FrameUrl::has_slash_behind_sign))]
fn has_slash_behind_sign(url: &[SeenByte]) -> bool
    ensures { result ≡ has_slash_behind_sign false (signs url.now) }
{
    let mut is_behind_sign = false;
    let mut rest = url;
    while let Some((byte, behind)) = next_sign(rest) {
        if is_behind_sign && byte == b'/' {
            return true;
        }
        is_behind_sign = is_edge_byte(byte) && !is_bracket(byte);
        rest = behind;
    }
    false
}

// Whether `://` stands behind a sign.
#[tactic(auto, unfolding(crate::specs::FrameUrl::has_scheme_behind_sign))]
fn has_scheme_behind_sign(url: &[SeenByte]) -> bool
    ensures { result ≡ has_scheme_behind_sign false (signs url.now) }
{
    let mut is_behind_sign = false;
    let mut rest = url;
    while let Some((byte, behind)) = next_sign(rest) {
        if is_behind_sign && begins_with(rest, false, b"://") {
            return true;
        }
        is_behind_sign = is_behind_sign || is_edge_byte(byte);
        rest = behind;
    }
    false
}

// Whether a blank stands behind a `?`.
#[tactic(auto, unfolding(crate::specs::FrameUrl::has_blank_in_query))]
fn has_blank_in_query(url: &[SeenByte]) -> bool
    ensures { result ≡ has_blank_in_query false (signs url.now) }
{
    let mut is_in_query = false;
    let mut rest = url;
    while let Some((byte, behind)) = next_sign(rest) {
        if is_in_query && is_control(byte) {
            return true;
        }
        is_in_query = is_in_query || byte == b'?';
        rest = behind;
    }
    false
}

// Whether it has a function of Firefox.
#[tactic(auto, unfolding(crate::specs::FrameUrl::has_function))]
fn has_function(url: &[SeenByte]) -> bool
    ensures { result ≡ has_function false (signs url.now) }
{
    let mut is_behind_angle = false;
    let mut rest = url;
    while let Some((byte, behind)) = next_sign(rest) {
        if is_behind_angle && byte == b'@' {
            return true;
        }
        is_behind_angle = byte == b'<';
        rest = behind;
    }
    false
}

fn is_bracket(byte: u8) -> bool
    ensures { result ≡ is_bracket byte }
{
    matches!(byte, b'(' | b')' | b'[' | b']' | b'{' | b'}')
}

fn is_relative(before: &[SeenByte], url: &[SeenByte]) -> bool
    ensures { result ≡ is_relative before.now url.now }
{
    !has_nothing(url) && !has_blank_or_quote(url) && is_function(before) && is_path(url)
}

fn has_nothing(url: &[SeenByte]) -> bool
    ensures { result ≡ list_any is_nothing url.now }
{
    url.iter().any(|seen| seen.counts == NOTHING)
}

fn is_function(before: &[SeenByte]) -> bool
    ensures { result ≡ is_function (reverse (text_of before.now)) }
{
    match before.split_last() {
        Some((seen, head)) => seen.byte != b'@' || !has_separator(head),
        None => true,
    }
}

#[tactic(auto, using(crate::proofs::BackLaws::reversed), unfolding(crate::specs::Before::has_separator))]
fn has_separator(before: &[SeenByte]) -> bool
    ensures { result ≡ has_separator false (reverse (text_of before.now)) }
{
    let mut is_before_digit = false;
    let mut rest = before;
    while let Some((seen, more)) = rest.split_last() {
        if is_separator(seen.byte) && !(is_before_digit && ends_in_digit(more)) {
            return true;
        }
        is_before_digit = seen.byte.is_ascii_digit();
        rest = more;
    }
    false
}

fn ends_in_digit(text: &[SeenByte]) -> bool
    ensures { result ≡ is_behind_digit (reverse (text_of text.now)) }
{
    match text.last() {
        Some(seen) => seen.byte.is_ascii_digit(),
        None => false,
    }
}

fn is_path(url: &[SeenByte]) -> bool
    ensures { result ≡ is_path is_edge_byte (map as_in_path (text_of url.now)) }
{
    let mut reader = PathReader::new();
    for seen in url {
        let byte = as_in_path(seen.byte);
        reader = reader.after(byte, is_edge_byte(byte));
    }
    reader.is_path()
}

// What a byte of a path counts as, where brackets may stand in its pieces.
fn as_in_path(byte: u8) -> u8
    ensures { result ≡ as_in_path byte }
{
    match byte {
        b'(' | b')' | b'[' | b']' | b'{' | b'}' => b'x',
        b'\\' => b'/',
        _ => byte,
    }
}
