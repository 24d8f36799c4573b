//! What depends on the neighbours of a byte: an edge behind a `:` before a path or before a root, and an apostrophe.
ghost use Rattle.std.specs.Prelude.{◌≡◌, ◌==◌, ◌||◌, [], length, nat_le, reverse};
ghost use Rattle.smap_pairs.specs.Seen.{begins_drive, begins_file, begins_letter, begins_path, ends_sign, ends_with_drive, ends_with_file, ends_word, first_byte};
ghost use Rattle.smap_pairs.specs.Seen.{is_apostrophe, is_before_path, is_before_root, is_continuation, is_in_word, settled, settled_from};

use crate::bytes::{is_edge_byte, is_letter_or_digit};
use crate::seen::{SIGN, SeenByte};

/// Finds the edges behind a `:` before a path and behind a sign before a root, and apostrophes. It goes from the end on,
/// since each depends on how those before it were.
pub fn settle(line: &[u8], seen: &mut [SeenByte])
    requires { length seen.old ≡ length line.now }
    ensures { seen.new ≡ settled_from [] line.now seen.old }
{
    let mut i = seen.len();
    while i > 0 {
        i -= 1;
        if seen[i].byte == b':' || seen[i].counts == b'\'' || may_end_sign(seen[i]) {
            let one = seen[i];
            seen[i] = settled(&seen[..i], one, &line[i + 1..]);
        }
    }
}

// Whether a sign beyond ASCII may end with a byte.
fn may_end_sign(one: SeenByte) -> bool
    ensures { result ≡ (nat_le 128 one.byte || one.counts == 226) }
{
    one.byte >= 0x80 || one.counts == SIGN
}

// A byte between these bytes and a text. Few are asked for: the loop that asks stays short without it.
#[inline(never)]
#[tactic(auto, unfolding(crate::specs::Seen::settled))]
fn settled(before: &[SeenByte], one: SeenByte, text: &[u8]) -> SeenByte
    ensures { result ≡ settled (reverse before.now) one text.now }
{
    if is_before_path(one, text) {
        SeenByte {
            is_edge: !(ends_with_drive(before) || ends_with_file(before)),
            ..one
        }
    } else if is_apostrophe(before, one, text) {
        SeenByte {
            counts: SIGN,
            is_edge: false,
            ..one
        }
    } else if is_before_root(before, one, text) {
        SeenByte {
            is_edge: true,
            ..one
        }
    } else {
        one
    }
}

// Whether a byte is a `:` before a path.
fn is_before_path(one: SeenByte, text: &[u8]) -> bool
    ensures { result ≡ is_before_path one text.now }
{
    one.byte == b':' && begins_path(text)
}

// Whether a byte ends a sign before a drive or `file:`.
fn is_before_root(before: &[SeenByte], one: SeenByte, text: &[u8]) -> bool
    ensures { result ≡ is_before_root (reverse before.now) one text.now }
{
    (begins_drive(text) || begins_file(text)) && ends_sign(before, one)
}

// Whether a `'`, or an escape of one, stands within a word.
#[tactic(auto, using(crate::proofs::SeenLaws::drop_reverse))]
fn is_apostrophe(before: &[SeenByte], one: SeenByte, text: &[u8]) -> bool
    ensures { result ≡ is_apostrophe (reverse before.now) one text.now }
{
    let start = before.len().saturating_sub(one.size.saturating_sub(1));
    one.counts == b'\'' && is_in_word(&before[..start], text)
}

// Whether a text begins with a `/` and no second one.
fn begins_path(text: &[u8]) -> bool
    ensures { result ≡ begins_path text.now }
{
    match text {
        [b'/', b'/', ..] => false,
        [b'/', ..] => true,
        _ => false,
    }
}

// Whether one letter, `:` and a path begin a text.
fn begins_drive(text: &[u8]) -> bool
    ensures { result ≡ begins_drive text.now }
{
    let Some((letter, text)) = text.split_first() else {
        return false;
    };
    let Some((colon, path)) = text.split_first() else {
        return false;
    };
    letter.is_ascii_alphabetic() && *colon == b':' && begins_path(path)
}

// Whether `file:` and a path do.
fn begins_file(text: &[u8]) -> bool
    ensures { result ≡ begins_file text.now }
{
    let Some((f, text)) = text.split_first() else {
        return false;
    };
    let Some((i, text)) = text.split_first() else {
        return false;
    };
    let Some((l, text)) = text.split_first() else {
        return false;
    };
    let Some((e, text)) = text.split_first() else {
        return false;
    };
    let Some((colon, path)) = text.split_first() else {
        return false;
    };
    *f == b'f' && *i == b'i' && *l == b'l' && *e == b'e' && *colon == b':' && begins_path(path)
}

// Whether no word goes on behind these bytes.
fn ends_word(before: &[SeenByte]) -> bool
    ensures { result ≡ ends_word (reverse before.now) }
{
    match before.split_last() {
        None => true,
        Some((last, before)) => {
            last.is_edge || !is_letter_or_digit(last.byte) || ends_sign(before, *last)
        }
    }
}

// Whether a byte behind these bytes ends a character beyond ASCII, or an escape of one, that is no letter of a script with
// blanks. Each byte of a character is looked at once.
fn ends_sign(before: &[SeenByte], one: SeenByte) -> bool
    ensures { result ≡ ends_sign (reverse before.now) one }
{
    if one.size == 0 {
        is_continuation(one.byte) && !begins_letter(first_byte(before))
    } else {
        one.counts == SIGN
    }
}

// With which byte the last character begins, of which one more byte stands behind.
#[tactic(auto, using(crate::proofs::BackLaws::reversed))]
fn first_byte(before: &[SeenByte]) -> u8
    ensures { result ≡ first_byte (reverse before.now) }
{
    let mut rest = before;
    while let Some((seen, more)) = rest.split_last() {
        if !is_continuation(seen.byte) {
            return seen.byte;
        }
        rest = more;
    }
    0
}

fn is_continuation(byte: u8) -> bool
    ensures { result ≡ is_continuation byte }
{
    matches!(byte, 0x80..=0xbf)
}

// Whether letters from U+00C0 to U+1FFF begin with a byte.
fn begins_letter(byte: u8) -> bool
    ensures { result ≡ begins_letter byte }
{
    matches!(byte, 0xc3..=0xe1)
}

// Whether these bytes end with one letter alone.
fn ends_with_drive(before: &[SeenByte]) -> bool
    ensures { result ≡ ends_with_drive (reverse before.now) }
{
    match before.split_last() {
        None => false,
        Some((letter, before)) => letter.byte.is_ascii_alphabetic() && ends_word(before),
    }
}

// Whether these bytes end with `file` alone.
fn ends_with_file(before: &[SeenByte]) -> bool
    ensures { result ≡ ends_with_file (reverse before.now) }
{
    let Some((e, before)) = before.split_last() else {
        return false;
    };
    let Some((l, before)) = before.split_last() else {
        return false;
    };
    let Some((i, before)) = before.split_last() else {
        return false;
    };
    let Some((f, before)) = before.split_last() else {
        return false;
    };
    e.byte == b'e' && l.byte == b'l' && i.byte == b'i' && f.byte == b'f' && ends_word(before)
}

// Whether what stands between these bytes and a text is within a word.
fn is_in_word(before: &[SeenByte], text: &[u8]) -> bool
    ensures { result ≡ is_in_word (reverse before.now) text.now }
{
    let Some((last, before)) = before.split_last() else {
        return false;
    };
    let Some((other, _)) = before.split_last() else {
        return false;
    };
    let Some(next) = text.first() else {
        return false;
    };
    is_letter_or_digit(last.byte) && !is_edge_byte(other.byte) && is_letter_or_digit(*next)
}
