//! The place that a line asks for.
ghost use Rattle.std.specs.Prelude.{◌≡◌, ◌↔◌, Some, option_map};
ghost use Rattle.smap_text_answers.specs.UrlPlace.{UrlPlace, place_of, place_with};
ghost use Rattle.smap_text_answers.specs.PlaceForm.{IsPlace};
ghost use Rattle.smap_text_answers.specs.PlaceSeen.{place_seen};

use smap_lines::laws::numbers_are_read_as_printed;
use smap_lines::{blanks, number};
use smap_printing::{AskedPlace, PrintedPosition, column_of};
use smap_trace::cut_at_last_byte;

/// The place that a line, without its LF, asks for: a URL, a line and a column, with one `:` between each two. Blanks before
/// and after them, and a CR at the end, are passed over. The call takes no memory.
pub fn read_place(line: &[u8]) -> Option<AskedPlace<'_>>
    ensures place { option_map place_seen result ≡ place_of line.now }
    ensures form { (place : UrlPlace) → (place_of line.now ≡ Some place) ↔ IsPlace line.now place }
{
    numbers_are_read_as_printed();
    place_in(line)
}

#[tactic(auto, unfolding(crate::specs::UrlPlace::place_of))]
fn place_in(line: &[u8]) -> Option<AskedPlace<'_>>
    ensures { option_map place_seen result ≡ place_of line.now }
{
    let (front, column) = cut_at_last_byte(b':', &line[blanks(line)..])?;
    let (url, line) = cut_at_last_byte(b':', front)?;
    let position = PrintedPosition {
        line: number(line)?,
        column: column_of(column)?,
    };
    place_at(url, position)
}

// The place at a URL, if that is one: UTF-8, and not empty.
fn place_at(url: &[u8], position: PrintedPosition) -> Option<AskedPlace<'_>>
    ensures { option_map place_seen result ≡ place_with url.now (Some position) }
{
    if url.is_empty() {
        return None;
    }
    match str::from_utf8(url) {
        Ok(url) => Some(AskedPlace { url, position }),
        Err(_) => None,
    }
}
