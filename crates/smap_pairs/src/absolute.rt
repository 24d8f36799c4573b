//! Whether a URL begins at a root.
ghost use Rattle.std.specs.Prelude.{◌≡◌};
ghost use Rattle.smap_pairs.specs.Absolute.{begins_with_slash, is_absolute, is_behind_dot, is_behind_scheme, is_scheme_byte};
ghost use Rattle.smap_pairs.specs.Signs.{signs};

use crate::seen::SeenByte;
use crate::signs::next_sign;

/// Whether a URL begins with a `/`, `./`, `../`, `~/` or a scheme and `:/`.
pub fn is_absolute(url: &[SeenByte]) -> bool
    ensures { result ≡ is_absolute (signs url.now) }
{
    let Some((byte, behind)) = next_sign(url) else {
        return false;
    };
    match byte {
        b'/' => true,
        b'.' => is_behind_dot(behind),
        b'~' => begins_with_slash(behind),
        b'A'..=b'Z' | b'a'..=b'z' => is_behind_scheme(behind),
        _ => false,
    }
}

fn begins_with_slash(url: &[SeenByte]) -> bool
    ensures { result ≡ begins_with_slash (signs url.now) }
{
    match next_sign(url) {
        Some((byte, _)) => byte == b'/',
        None => false,
    }
}

fn is_behind_dot(url: &[SeenByte]) -> bool
    ensures { result ≡ is_behind_dot (signs url.now) }
{
    match next_sign(url) {
        Some((b'/', _)) => true,
        Some((b'.', behind)) => begins_with_slash(behind),
        _ => false,
    }
}

#[tactic(auto, unfolding(crate::specs::Absolute::is_behind_scheme))]
fn is_behind_scheme(url: &[SeenByte]) -> bool
    ensures { result ≡ is_behind_scheme (signs url.now) }
{
    let mut rest = url;
    while let Some((byte, behind)) = next_sign(rest) {
        if byte == b':' {
            return begins_with_slash(behind);
        }
        if !is_scheme_byte(byte) {
            return false;
        }
        rest = behind;
    }
    false
}

/// Whether schemes are made of a byte.
pub fn is_scheme_byte(byte: u8) -> bool
    ensures { result ≡ is_scheme_byte byte }
{
    byte.is_ascii_alphanumeric() || byte == b'+' || byte == b'-' || byte == b'.'
}
