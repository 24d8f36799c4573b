//! Where a URL without a scheme begins in a word.
ghost use Rattle.std.specs.Prelude.{◌≡◌, ◌≤◌, ◌==◌, length, reverse};
ghost use Rattle.std.specs.List.{position_or_len};
ghost use Rattle.smap_pairs.specs.PathStart.{colon_end, edge_end, path_begin};

use crate::seen::SeenByte;

/// How many bytes of a word stand before a URL without a scheme.
#[tactic(auto, unfolding(crate::specs::PathStart::path_begin))]
pub fn path_begin(word: &[SeenByte]) -> usize
    ensures begin { result ≡ path_begin word.now }
    ensures within { result ≤ length word.now }
{
    let path = &word[..byte_at(word, b'?')];
    let colon = colon_end(path);
    if colon == 0 {
        edge_end(&path[..byte_at(path, b'/')])
    } else {
        colon
    }
}

// How many bytes stand before the first of these.
fn byte_at(word: &[SeenByte], byte: u8) -> usize
    ensures first { result ≡ position_or_len (λ seen. seen.byte == byte) word.now }
    ensures within { result ≤ length word.now }
{
    let mut rest = word;
    while let Some((seen, behind)) = rest.split_first() {
        if seen.byte == byte {
            break;
        }
        rest = behind;
    }
    word.len() - rest.len()
}

// How many bytes stand up to the last edge.
#[tactic(auto, using(crate::proofs::BackLaws::reversed))]
fn edge_end(text: &[SeenByte]) -> usize
    ensures end { result ≡ edge_end (reverse text.now) }
    ensures within { result ≤ length text.now }
{
    let mut rest = text;
    while let Some((seen, before)) = rest.split_last() {
        if seen.is_edge {
            return rest.len();
        }
        rest = before;
    }
    0
}

// How many bytes stand up to the last edge behind a `:` and before a `/`.
#[tactic(auto, using(crate::proofs::BackLaws::reversed))]
fn colon_end(text: &[SeenByte]) -> usize
    ensures end { result ≡ colon_end 0 (reverse text.now) }
    ensures within { result ≤ length text.now }
{
    let mut behind = 0;
    let mut rest = text;
    while let Some((seen, before)) = rest.split_last() {
        if behind == b'/' && seen.byte == b':' && seen.is_edge {
            return rest.len();
        }
        behind = seen.byte;
        rest = before;
    }
    0
}
