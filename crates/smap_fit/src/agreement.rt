//! Whether the original place of a mapping shows what its generated place shows.
ghost use Rattle.std.specs.Prelude.{◌≡◌, option_copied, option_map};
ghost use Rattle.std.specs.Str.{chars};
ghost use Rattle.smap_fit.specs.Agreement.{agreement_at, is_same};

use crate::standing::{Spot, Standing};
use crate::words::begin_alike;

/// How the original place of a mapping agrees with its generated place.
#[derive(Clone, Copy)]
pub enum Agreement {
    /// The mapping has no origin, or its source no content.
    Unknown,
    /// The place is past the content.
    Outside,
    /// The same word or the same character is at both places.
    Same,
    /// Something else is there, or nothing.
    Other,
}

/// How an origin at this spot of its content agrees with what the generated line has from its place on.
pub fn agreement_at(text: Option<&str>, original: Spot<'_>) -> Agreement
    ensures { result ≡ agreement_at (option_map (λ text. chars text) (option_copied text.entry))
        original.entry.standing
        (option_map (λ text. chars text) (option_copied original.entry.text)) }
{
    match original.standing {
        Standing::PastText => Agreement::Outside,
        Standing::Fits | Standing::InsideWord => {
            if is_same(text, original.text) {
                Agreement::Same
            } else {
                Agreement::Other
            }
        }
    }
}

// Whether there is something at both places, and the same.
fn is_same(text: Option<&str>, original: Option<&str>) -> bool
    ensures { result ≡ is_same (option_map (λ text. chars text) (option_copied text.entry))
        (option_map (λ text. chars text) (option_copied original.entry)) }
{
    match (text, original) {
        (Some(text), Some(original)) => begin_alike(text, original),
        _ => false,
    }
}
