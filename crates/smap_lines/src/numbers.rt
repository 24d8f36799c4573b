//! Lines and columns as a line of text prints them.
ghost use Rattle.std.specs.Prelude.{◌≡◌, ◌≤◌, length};
ghost use Rattle.std.specs.Char.{is_ascii_digit};
ghost use Rattle.std.specs.List.{prefix_len};
ghost use Rattle.smap_lines.specs.Numbers.{decimal_number};

// The largest line or column that may be printed: a map's largest, counted from 1.
const MOST: u64 = 2147483648;

/// The number from 1 to 2147483648 that a text writes in decimal without leading zeros.
pub fn number(text: &[u8]) -> Option<u32>
    ensures { result ≡ decimal_number text.now }
{
    let first = text.first()?;
    if *first <= b'0' {
        return None;
    }
    let mut value: u64 = 0;
    for byte in text {
        if !byte.is_ascii_digit() {
            return None;
        }
        value = value * 10 + u64::from(*byte - b'0');
        if value > MOST {
            return None;
        }
    }
    Some(value as u32)
}

/// How many digits a text begins with.
pub fn digits(text: &[u8]) -> usize
    ensures count { result ≡ prefix_len is_ascii_digit text.now }
    ensures within { result ≤ length text.now }
{
    text.iter().take_while(|byte| byte.is_ascii_digit()).count()
}
