//! The numbers of codes, by which it is said why something is refused.
ghost use Rattle.std.specs.Prelude.{◌≡◌, ◌≢◌, MatchOption, Some};
ghost use Rattle.smap_codes.specs.Codes.{text_of};
ghost use Rattle.smap_c.specs.Codes.{code_at, code_number};

use crate::status::{DONE, REFUSED};
use crate::texts::Text;
use smap_codes::{Code, all};

/// Lends what the program prints of the code of this number, as `M14 Text`. There is no code of the number 0, nor of one
/// that is more than there are.
#[unsafe(no_mangle)]
pub extern "C" fn smap_code_text(number: u32, text: &mut Text<'_>) -> u32
    ensures { MatchOption (code_at number) ((result ≡ 1) × (text.new ≡ text.old))
        (λ code. (result ≡ 0) × (text.new.text.now ≡ text_of code)) }
{
    match code_at(number) {
        Some(code) => {
            text.text = code.text().as_bytes();
            DONE
        }
        None => REFUSED,
    }
}

// The code of a number, if it has one.
fn code_at(number: u32) -> Option<Code>
    ensures { result ≡ code_at number }
{
    if number == 0 {
        return None;
    }
    all().get(number as usize - 1).copied()
}

/// The number of a code: its place among all of them, from 1.
pub(crate) fn code_number(code: Code) -> u32
    ensures number { result ≡ code_number code }
    ensures reads_back { code_at result ≡ Some code }
    ensures some { result ≢ 0 }
{
    code as u32 + 1
}
