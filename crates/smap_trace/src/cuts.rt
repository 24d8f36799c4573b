//! Bytes, cut in two.
ghost use Rattle.std.specs.Prelude.{◌≡◌, option_map};
ghost use Rattle.smap_trace.specs.Cuts.{cut_at_call, cut_at_first_byte, cut_at_last_byte, without_last};

use memchr::memchr;

/// What stands before the first of these bytes, and what stands after it.
pub fn cut_at_first_byte(byte: u8, text: &[u8]) -> Option<(&[u8], &[u8])>
    ensures { option_map (λ cut. (cut.0.now, cut.1.now)) result ≡ cut_at_first_byte byte text.now }
{
    let place = memchr(byte, text)?;
    Some((&text[..place], &text[place + 1..]))
}

/// What stands before the last of these bytes, and what stands after it.
pub fn cut_at_last_byte(byte: u8, text: &[u8]) -> Option<(&[u8], &[u8])>
    ensures { option_map (λ cut. (cut.0.now, cut.1.now)) result ≡ cut_at_last_byte byte text.now }
{
    let mut end = text.len();
    while end > 0 {
        if text[end - 1] == byte {
            return Some((&text[..end - 1], &text[end..]));
        }
        end -= 1;
    }
    None
}

/// What stands before the first ` (`, and what stands after it.
pub fn cut_at_call(text: &[u8]) -> Option<(&[u8], &[u8])>
    ensures { option_map (λ cut. (cut.0.now, cut.1.now)) result ≡ cut_at_call text.now }
{
    let mut place = 0;
    while let Some(further) = memchr(b'(', &text[place..]) {
        place += further;
        if place > 0 && text[place - 1] == b' ' {
            return Some((&text[..place - 1], &text[place + 1..]));
        }
        place += 1;
    }
    None
}

/// The text without its last byte, where that is this one.
pub fn without_last(byte: u8, text: &[u8]) -> Option<&[u8]>
    ensures { option_map (λ front. front.now) result ≡ without_last byte text.now }
{
    let (last, front) = text.split_last()?;
    if *last == byte { Some(front) } else { None }
}
