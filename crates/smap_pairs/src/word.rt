//! The URL that a pattern may have before a pair: the word there, or the end of it.
ghost use Rattle.std.specs.Prelude.{◌≡◌, ◌≤◌, ◌<◌, ℕ, IfSome, None, length, reverse, slice_range, take};
ghost use Rattle.smap_pairs.specs.Signs.{signs};
ghost use Rattle.smap_pairs.specs.Word.{IsOfWord, begin_of_path, before_word, ends_word, goes_on, is_behind_backslash, is_free, is_of_scheme, is_whole};
ghost use Rattle.smap_pairs.specs.Word.{scheme_end, scheme_start, word_begin, word_start};

use crate::absolute::is_scheme_byte;
use crate::before::{has_scheme, may_go_on};
use crate::bytes::is_control;
use crate::pairs::Pair;
use crate::path::is_path;
use crate::path_start::path_begin;
use crate::seen::{NOTHING, SeenByte};

/// How many bytes of a word are read.
const MOST_WORD: usize = 2048;

/// How many bytes decide at most, with a pair, whether what stands before it is the end of a longer URL.
const MOST_CONTEXT: usize = 65536;

/// Where the URL begins that a pattern may have before a pair, and where the pair begins if there is none. The virtual line
/// of the pair begins at byte `virtual_start`.
///
/// Each byte of the word is read eight times at most; and where it has no scheme, as often each byte before it in its piece
/// and its virtual line.
#[tactic(auto, unfolding(crate::specs::Word::word_begin))]
pub fn begin_by_word(line: &[SeenByte], virtual_start: usize, pair: &Pair) -> usize
    requires piece { pair.now.piece ≤ pair.now.start }
    requires within { pair.now.start ≤ length line.now }
    ensures begin { result ≡ word_begin line.now virtual_start pair.now }
    ensures least { pair.now.piece ≤ result }
    ensures most { result ≤ pair.now.start }
    ensures words { (at : ℕ) → result ≤ at → at < pair.now.start
        → IsOfWord line.now pair.now.start at }
{
    let low = pair.piece.max(pair.start.saturating_sub(MOST_WORD));
    let start = word_start(line, low, pair.start);
    let before = &line[pair.piece..start];
    if is_behind_backslash(before) {
        return pair.start;
    }
    let is_longer = goes_on(before);
    let word = &line[start..pair.start];
    let Some(mark) = scheme_end(word) else {
        return if is_longer {
            pair.start
        } else {
            begin_of_path(line, virtual_start, pair, start + path_begin(word))
        };
    };
    match scheme_start(&word[..mark]) {
        Some(scheme) if !(is_longer && scheme == 0) => start + scheme,
        _ => pair.start,
    }
}

// Where a URL without a scheme begins, if it may begin there.
#[tactic(auto, using(crate::proofs::WordLaws::slice_to))]
fn begin_of_path(line: &[SeenByte], virtual_start: usize, pair: &Pair, begin: usize) -> usize
    requires begin { begin ≤ pair.now.start }
    requires within { pair.now.start ≤ length line.now }
    ensures begin { result ≡ begin_of_path line.now virtual_start pair.now begin }
    ensures least { begin ≤ result }
    ensures most { result ≤ pair.now.start }
{
    let context = virtual_start
        .max(pair.piece)
        .max(pair.end.saturating_sub(MOST_CONTEXT));
    let before = &line[context.min(begin)..begin];
    let url = &line[begin..pair.start];
    if is_free(&line[..begin]) && is_whole(before, url) {
        begin
    } else {
        pair.start
    }
}

// Whether a URL without a scheme is a path, and not the end of a longer one.
fn is_whole(before: &[SeenByte], url: &[SeenByte]) -> bool
    ensures { result ≡ is_whole (reverse before.now) (signs url.now) }
{
    !has_scheme(before) && is_path(url) && !may_go_on(before, url)
}

// Whether a URL may begin behind this.
fn is_free(before: &[SeenByte]) -> bool
    ensures { result ≡ is_free (reverse before.now) }
{
    match before.split_last() {
        Some((seen, _)) => seen.is_edge,
        None => true,
    }
}

// Where the word begins that ends before a byte.
#[tactic(auto, using(crate::proofs::BackLaws::reversed), unfolding(crate::specs::Word::before_word))]
fn word_start(line: &[SeenByte], low: usize, end: usize) -> usize
    requires low { low ≤ end }
    requires within { end ≤ length line.now }
    ensures start { result ≡ word_start line.now low end }
    ensures least { low ≤ result }
    ensures most { result ≤ end }
{
    let mut within: usize = 0;
    let mut rest = &line[low..end];
    while let Some((seen, before)) = rest.split_last() {
        if within > 0 {
            within -= 1;
        } else {
            if ends_word(seen) {
                break;
            }
            within = seen.size.saturating_sub(1);
        }
        rest = before;
    }
    low + rest.len()
}

fn is_behind_backslash(before: &[SeenByte]) -> bool
    ensures { result ≡ is_behind_backslash (reverse before.now) }
{
    match before.split_last() {
        Some((seen, _)) => seen.byte == b'\\',
        None => false,
    }
}

fn goes_on(before: &[SeenByte]) -> bool
    ensures { result ≡ goes_on (reverse before.now) }
{
    match before.split_last() {
        Some((seen, _)) => !ends_word(seen),
        None => false,
    }
}

// How many bytes of a word stand before its last `://`.
#[tactic(auto, using(crate::proofs::BackLaws::reversed), unfolding(crate::specs::Word::scheme_end))]
fn scheme_end(word: &[SeenByte]) -> Option<usize>
    ensures end { result ≡ scheme_end 0 0 (reverse word.now) }
    ensures within { IfSome result (λ end. end ≤ length word.now) }
{
    let mut next = 0;
    let mut after = 0;
    let mut rest = word;
    while let Some((seen, before)) = rest.split_last() {
        if seen.byte == b':' && next == b'/' && after == b'/' {
            return Some(before.len());
        }
        after = next;
        next = seen.byte;
        rest = before;
    }
    None
}

// How many bytes of a word stand before the scheme that ends it.
#[tactic(auto, using(crate::proofs::BackLaws::reversed), unfolding(crate::specs::Word::scheme_start))]
fn scheme_start(word: &[SeenByte]) -> Option<usize>
    ensures start { result ≡ scheme_start None (reverse word.now) }
    ensures within { IfSome result (λ start. start ≤ length word.now) }
{
    let mut letter = None;
    let mut rest = word;
    while let Some((seen, before)) = rest.split_last() {
        if !is_of_scheme(seen) {
            break;
        }
        if seen.byte.is_ascii_alphabetic() {
            letter = Some(before.len());
        }
        rest = before;
    }
    letter
}

fn is_of_scheme(seen: &SeenByte) -> bool
    ensures { result ≡ is_of_scheme seen.now }
{
    seen.size == 0 && is_scheme_byte(seen.byte)
}

// Whether a byte, or an escape or a colour that ends with it, ends the word that stands behind.
fn ends_word(seen: &SeenByte) -> bool
    ensures { result ≡ ends_word seen.now }
{
    if seen.counts == NOTHING {
        return true;
    }
    match seen.counts {
        b'"' | b'\'' | b'`' | b',' | b';' | b'|' | b'\\' => true,
        b'<' | b'>' | b'(' | b')' | b'[' | b']' | b'{' | b'}' => true,
        byte => is_control(byte),
    }
}
