//! The numbers of a place: `:`, a line, `:` and a column.
ghost use Rattle.std.specs.Prelude.{◌≡◌, ◌≤◌, IfSome, length};
ghost use Rattle.smap_pairs.specs.Numbers.{number_after, numbers_after};

use smap_lines::{digits, number};

/// The line and the column that a text begins with, and how many bytes they are with the `:` before each.
#[tactic(auto, unfolding(crate::specs::Numbers::numbers_after))]
pub fn numbers_after(text: &[u8]) -> Option<(u32, u32, usize)>
    ensures numbers { result ≡ numbers_after text.now }
    ensures within { IfSome result (λ numbers. numbers.2 ≤ length text.now) }
{
    let (line, size) = number_after(text)?;
    let (column, more) = number_after(&text[size..])?;
    Some((line, column, size + more))
}

// The number after the `:` that a text begins with, and how many bytes both are.
fn number_after(text: &[u8]) -> Option<(u32, usize)>
    ensures number { result ≡ number_after text.now }
    ensures within { IfSome result (λ number. number.1 ≤ length text.now) }
{
    let (first, rest) = text.split_first()?;
    if *first != b':' {
        return None;
    }
    let count = digits(rest);
    Some((number(&rest[..count])?, count + 1))
}
