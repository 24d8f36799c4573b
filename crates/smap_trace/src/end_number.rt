//! The number that a text ends in.
ghost use Rattle.std.specs.Prelude.{◌≡◌, Some, None, cond, nat_le, option_map};
ghost use Rattle.smap_lines.specs.Numbers.{decimal_number, most_printed, read_on};
ghost use Rattle.smap_trace.specs.Private.EndNumber.{cut_at_number, with_front};

// The largest line or column that is printed.
const MOST: u64 = 2147483648;

/// The number behind the last `:` of a text, if there is one, and what stands before that `:`. The text is read from its
/// end, and no further.
pub fn cut_at_number(text: &[u8]) -> Option<(&[u8], u32)>
    ensures { option_map (λ cut. (cut.0.now, cut.1)) result ≡ cut_at_number text.now }
{
    let mut value: u64 = 0;
    let mut unit: u64 = 1;
    let mut start = text.len();
    while start > 0 {
        let byte = text[start - 1];
        if byte == b':' {
            return with_value(&text[..start - 1], &text[start..], value);
        }
        if !byte.is_ascii_digit() {
            return None;
        }
        if unit > MOST {
            return None;
        }
        value += unit * u64::from(byte - b'0');
        unit *= 10;
        start -= 1;
    }
    None
}

// What stands before digits that have this value, and the number that they print, if they do.
fn with_value<'a>(front: &'a [u8], digits: &[u8], value: u64) -> Option<(&'a [u8], u32)>
    requires { read_on 0 digits.now ≡ cond (nat_le value most_printed) (Some value) None }
    ensures { option_map (λ cut. (cut.0.now, cut.1)) result
        ≡ option_map (with_front front.now) (decimal_number digits.now) }
{
    let first = digits.first()?;
    if *first <= b'0' || value > MOST {
        return None;
    }
    Some((front, value as u32))
}
