//! What stands before a URL without a scheme: whether the URL may be the end of a longer one.
//!
//! Each question goes through the bytes once, the last first; they are of one piece and of one virtual line.
ghost use Rattle.std.specs.Prelude.{◌≡◌, ◌<◌, [], ◌∷◌, IfSome, MatchOption, false, not, length, reverse};
ghost use Rattle.std.specs.Bool.{nat_eq};
ghost use Rattle.std.specs.List.{starts_with};
ghost use Rattle.smap_pairs.specs.Before.{before_in, closed_before, counts_of, ends_in, ends_in_a, ends_in_nothing, ends_stretch, has_path, has_scheme, is_behind_at};
ghost use Rattle.smap_pairs.specs.Before.{is_behind_colour, is_behind_digit, is_behind_eval, is_behind_function, is_blank, is_closing, is_cut, is_end_of_path};
ghost use Rattle.smap_pairs.specs.Before.{is_in_call, is_in_eval, is_in_text_of_call, is_in_word, is_separator, may_go_on, stretch};
ghost use Rattle.smap_pairs.specs.Bytes.{is_edge_byte};
ghost use Rattle.smap_pairs.specs.Signs.{signs};

use crate::absolute::is_absolute;
use crate::bytes::{is_control, is_edge_byte, is_letter_or_digit};
use crate::seen::{NOTHING, SeenByte};
use crate::signs::last_sign;

/// Whether a URL without a scheme may be the end of a path, of which this stands before it.
pub fn may_go_on(before: &[SeenByte], url: &[SeenByte]) -> bool
    ensures { result ≡ may_go_on (reverse before.now) (signs url.now) }
{
    if is_absolute(url) {
        is_cut(before)
    } else {
        is_end_of_path(before)
    }
}

/// Whether a scheme stands before a URL, and nothing ends it.
#[tactic(auto, unfolding(crate::specs::Before::has_scheme))]
pub fn has_scheme(before: &[SeenByte]) -> bool
    ensures { result ≡ has_scheme 0 0 (stretch (reverse before.now)) }
{
    let mut next = 0;
    let mut after = 0;
    let mut rest = before;
    while let Some((byte, more)) = previous(rest, true) {
        if byte == b':' && next == b'/' && after == b'/' {
            return true;
        }
        after = next;
        next = byte;
        rest = more;
    }
    false
}

// Whether a bracket or a colour cuts a path.
fn is_cut(before: &[SeenByte]) -> bool
    ensures { result ≡ is_cut (reverse before.now) }
{
    (ends_in_closing(before) || is_behind_colour(before)) && has_path(before, false)
}

fn is_end_of_path(before: &[SeenByte]) -> bool
    ensures { result ≡ is_end_of_path (reverse before.now) }
{
    has_path(before, true) && !is_behind_function(before)
        || ends_in_blank(before) && has_path(before, false)
        || is_in_text_of_call(before)
}

fn is_in_text_of_call(before: &[SeenByte]) -> bool
    ensures { result ≡ is_in_text_of_call (counts_of (reverse before.now)) }
{
    is_in_call(before) && !(is_behind_at(before) || is_behind_eval(before))
}

// Whether a function of Firefox without a name stands before, and its `@`.
fn is_behind_function(before: &[SeenByte]) -> bool
    ensures { result ≡ is_behind_function (stretch (reverse before.now)) }
{
    match previous(before, true) {
        Some((b'@', function)) => match previous(function, true) {
            Some((byte, _)) => byte == b'<',
            None => false,
        },
        _ => false,
    }
}

fn ends_in_closing(before: &[SeenByte]) -> bool
    ensures { result ≡ ends_in is_closing (signs (reverse before.now)) }
{
    matches!(last_sign(before), Some(b')' | b']' | b'}'))
}

fn ends_in_blank(before: &[SeenByte]) -> bool
    ensures { result ≡ ends_in is_blank (signs (reverse before.now)) }
{
    match last_sign(before) {
        Some(byte) => is_blank(byte),
        None => false,
    }
}

// Whether a colour ends it, which does not begin at an edge.
fn is_behind_colour(before: &[SeenByte]) -> bool
    ensures { result ≡ is_behind_colour (reverse before.now) }
{
    ends_in_nothing(before) && ends_in_no_edge(before)
}

fn ends_in_nothing(before: &[SeenByte]) -> bool
    ensures { result ≡ ends_in_nothing (reverse before.now) }
{
    match before.split_last() {
        Some((seen, _)) => seen.counts == NOTHING,
        None => false,
    }
}

fn ends_in_no_edge(before: &[SeenByte]) -> bool
    ensures { result ≡ ends_in (λ byte. not (is_edge_byte byte)) (signs (reverse before.now)) }
{
    match last_sign(before) {
        Some(byte) => !is_edge_byte(byte),
        None => false,
    }
}

// Whether a `/` or a `\` stands in a stretch, or in all, and not between digits.
#[tactic(auto, unfolding(crate::specs::Before::has_separator))]
fn has_path(before: &[SeenByte], is_stretch: bool) -> bool
    ensures { result ≡ has_path is_stretch (reverse before.now) }
{
    let mut is_before_digit = false;
    let mut rest = before;
    while let Some((byte, more)) = previous(rest, is_stretch) {
        if is_separator(byte) && !(is_before_digit && is_behind_digit(more, is_stretch)) {
            return true;
        }
        is_before_digit = byte.is_ascii_digit();
        rest = more;
    }
    false
}

// Whether the last byte is a digit.
fn is_behind_digit(before: &[SeenByte], is_stretch: bool) -> bool
    ensures { result ≡ is_behind_digit (before_in is_stretch (reverse before.now)) }
{
    match previous(before, is_stretch) {
        Some((byte, _)) => byte.is_ascii_digit(),
        None => false,
    }
}

// The last byte of a stretch, or of all, and what stands before it. Each byte is passed twice at most: for `has_path`, which
// goes on from there, and for `is_behind_digit` once before.
#[tactic(auto, using(crate::proofs::BackLaws::reversed))]
fn previous(before: &[SeenByte], is_stretch: bool) -> Option<(u8, &[SeenByte])>
    ensures found { MatchOption result (before_in is_stretch (reverse before.now) ≡ [])
        (λ found. before_in is_stretch (reverse before.now)
        ≡ found.0 ∷ before_in is_stretch (reverse found.1.now)) }
    ensures shorter { IfSome result (λ found. length found.1.now < length before.now) }
{
    let mut rest = before;
    while let Some((seen, more)) = rest.split_last() {
        if !is_stretch {
            return Some((seen.counts, more));
        }
        if seen.counts != NOTHING {
            return if ends_stretch(seen.counts) {
                None
            } else {
                Some((seen.counts, more))
            };
        }
        rest = more;
    }
    None
}

// Whether a `(` is open, and a blank stands behind it.
#[tactic(auto, using(crate::proofs::BackLaws::reversed), unfolding(crate::specs::Before::is_in_call))]
fn is_in_call(before: &[SeenByte]) -> bool
    ensures { result ≡ is_in_call 0 false (counts_of (reverse before.now)) }
{
    let mut closed: usize = 0;
    let mut has_blank = false;
    let mut rest = before;
    while let Some((seen, more)) = rest.split_last() {
        let byte = seen.counts;
        if byte == b'(' && closed == 0 && has_blank {
            return true;
        }
        closed = closed_before(byte, closed);
        has_blank = has_blank || is_blank(byte);
        rest = more;
    }
    false
}

fn closed_before(byte: u8, closed: usize) -> usize
    requires { closed < usize.MAX }
    ensures { result ≡ closed_before byte closed }
{
    match byte {
        b'(' => closed.saturating_sub(1),
        b')' => closed + 1,
        _ => closed,
    }
}

// Whether the word `at` stands before, with blanks behind it.
#[tactic(auto, using(crate::proofs::BackLaws::reversed), unfolding(crate::specs::Before::is_behind_at))]
fn is_behind_at(before: &[SeenByte]) -> bool
    ensures { result ≡ is_behind_at false (counts_of (reverse before.now)) }
{
    let mut has_blank = false;
    let mut rest = before;
    while let Some((seen, more)) = rest.split_last() {
        if !is_blank(seen.counts) {
            return has_blank && seen.counts == b't' && ends_in_a(more);
        }
        has_blank = true;
        rest = more;
    }
    false
}

// Whether a `(` stands before, and `(eval at ` and a function before that.
fn is_behind_eval(before: &[SeenByte]) -> bool
    ensures { result ≡ is_behind_eval (counts_of (reverse before.now)) }
{
    match before.split_last() {
        Some((seen, more)) => seen.counts == b'(' && is_in_eval(more),
        None => false,
    }
}

// Whether `(eval at ` stands before, and no bracket behind it. Each byte is passed once, and once where that may end.
#[tactic(auto, using(crate::proofs::BackLaws::reversed))]
fn is_in_eval(before: &[SeenByte]) -> bool
    ensures { result ≡ is_in_eval (counts_of (reverse before.now)) }
{
    let mut rest = before;
    while let Some((seen, more)) = rest.split_last() {
        if ends_with(rest, b"(eval at ") {
            return true;
        }
        if seen.counts == b'(' || seen.counts == b')' {
            return false;
        }
        rest = more;
    }
    false
}

// Whether a text stands before.
#[tactic(auto, using(crate::proofs::BackLaws::reversed))]
fn ends_with(before: &[SeenByte], text: &[u8]) -> bool
    ensures { result ≡ starts_with nat_eq (counts_of (reverse before.now)) (reverse text.now) }
{
    let mut rest = before;
    let mut wanted = text;
    while let Some((byte, others)) = wanted.split_last() {
        match rest.split_last() {
            Some((seen, more)) if seen.counts == *byte => rest = more,
            _ => return false,
        }
        wanted = others;
    }
    true
}

fn ends_in_a(before: &[SeenByte]) -> bool
    ensures { result ≡ ends_in_a (counts_of (reverse before.now)) }
{
    match before.split_last() {
        Some((seen, more)) => seen.counts == b'a' && !is_in_word(more),
        None => false,
    }
}

fn is_in_word(before: &[SeenByte]) -> bool
    ensures { result ≡ is_in_word (counts_of (reverse before.now)) }
{
    match before.split_last() {
        Some((seen, _)) => is_letter_or_digit(seen.counts),
        None => false,
    }
}

// Whether a byte ends a stretch.
fn ends_stretch(byte: u8) -> bool
    ensures { result ≡ ends_stretch byte }
{
    is_control(byte) || byte == b'"' || byte == b'\''
}

// Whether a byte stands between the pieces of paths.
pub fn is_separator(byte: u8) -> bool
    ensures { result ≡ is_separator byte }
{
    byte == b'/' || byte == b'\\'
}

fn is_blank(byte: u8) -> bool
    ensures { result ≡ is_blank byte }
{
    byte == b' ' || byte == b'\t'
}
