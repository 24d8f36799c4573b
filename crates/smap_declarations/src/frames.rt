//! The name of a frame's function.
ghost use Rattle.std.specs.Prelude.{◌≡◌, option_map};
ghost use Rattle.std.specs.List.{list_all};
ghost use Rattle.smap_declarations.specs.Bytes.{is_word_byte};
ghost use Rattle.smap_declarations.specs.Frames.{behind_front, function_name, is_name, printed};

use crate::bytes::{is_word_byte, split_byte};

/// The one name that a frame's function is, behind `async ` and `new `, as V8, Firefox and Safari print it; `None` for any
/// other, as `TYPE.method`, `<anonymous>`, `f/<` or what has `[as x]`. The call takes no memory.
#[tactic(auto, unfolding(crate::specs::Frames::function_name))]
pub fn function_name(function: &[u8]) -> Option<&[u8]>
    ensures { option_map (λ name. name.now) result ≡ function_name function.now }
{
    printed(behind_front(b"new ", behind_front(b"async ", function)))
}

// What is behind these bytes, where a text begins with them.
fn behind_front<'t>(front: &[u8], text: &'t [u8]) -> &'t [u8]
    ensures { result.now ≡ behind_front front.now text.now }
{
    if text.starts_with(front) {
        &text[front.len()..]
    } else {
        text
    }
}

/// Whether a text is a name: letters, digits, `_`, `$` and bytes above 0x7F alone, and one at least. The call takes no
/// memory.
pub fn is_name(text: &[u8]) -> bool
    ensures { result ≡ is_name text.now }
{
    match split_byte(text) {
        Some(_) => are_of_words(text),
        None => false,
    }
}

// Whether all bytes are of words.
fn are_of_words(text: &[u8]) -> bool
    ensures { result ≡ list_all is_word_byte text.now }
{
    text.iter().all(|byte| is_word_byte(*byte))
}

// A name, where it can be printed.
pub fn printed(name: &[u8]) -> Option<&[u8]>
    ensures { option_map (λ name. name.now) result ≡ printed name.now }
{
    if is_name(name) { Some(name) } else { None }
}
