//! The place that a line asks for, and the function beside it.
ghost use Rattle.std.specs.Prelude.{◌≡◌, Some, option_map};
ghost use Rattle.smap_text_answers.specs.NamedPlace.{alone, named_place_of, named_place_seen, with_function, without_end};
ghost use Rattle.smap_text_answers.specs.PlaceSeen.{place_seen};

use crate::place::read_place;
use smap_lines::blanks;
use smap_printing::AskedPlace;
use smap_trace::cut_at_last_byte;

/// A place, and the function beside it, where a line has one.
#[derive(Clone, Copy)]
pub struct NamedPlace<'a> {
    pub place: AskedPlace<'a>,
    pub function: Option<&'a str>,
}

/// The place that a line, without its LF, asks for, and behind the last TAB that does not stand before it the function, up
/// to the end of the line or a CR there. It is UTF-8, and may be empty. The call takes no memory.
#[tactic(auto, unfolding(crate::specs::NamedPlace::named_place_of))]
pub fn read_named_place(line: &[u8]) -> Option<NamedPlace<'_>>
    ensures { option_map named_place_seen result ≡ named_place_of line.now }
{
    let text = &line[blanks(line)..];
    match cut_at_last_byte(b'\t', text) {
        Some((front, function)) => with_function(read_place(front), without_end(function)),
        None => alone(read_place(text)),
    }
}

// A place with no function beside it.
fn alone(place: Option<AskedPlace<'_>>) -> Option<NamedPlace<'_>>
    ensures { option_map named_place_seen result
        ≡ option_map alone (option_map place_seen place.entry) }
{
    match place {
        Some(place) => Some(NamedPlace {
            place,
            function: None,
        }),
        None => None,
    }
}

// A place with a function, if that is UTF-8.
fn with_function<'a>(place: Option<AskedPlace<'a>>, function: &'a [u8]) -> Option<NamedPlace<'a>>
    ensures { option_map named_place_seen result
        ≡ with_function (option_map place_seen place.entry) function.now }
{
    match place {
        Some(place) => with_text(place, function),
        None => None,
    }
}

fn with_text<'a>(place: AskedPlace<'a>, function: &'a [u8]) -> Option<NamedPlace<'a>>
    ensures { option_map named_place_seen result
        ≡ with_function (Some (place_seen place.entry)) function.now }
{
    match str::from_utf8(function) {
        Ok(function) => Some(NamedPlace {
            place,
            function: Some(function),
        }),
        Err(_) => None,
    }
}

// A function without the CR that may end it.
fn without_end(function: &[u8]) -> &[u8]
    ensures { result.now ≡ without_end function.now }
{
    if function.ends_with(b"\r") {
        &function[..function.len().saturating_sub(1)]
    } else {
        function
    }
}
