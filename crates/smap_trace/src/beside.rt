//! What is looked at beside the frames of a trace.

use crate::passed::PlaceCounter;
use crate::url_notes::UrlNotes;

/// What is looked at beside the frames of a trace: what they name, and the places of its other lines.
#[derive(Drop)]
pub struct Beside<'n, 'p, P: PlaceCounter> {
    /// What was noted of the URLs that frames name.
    pub notes: &'n mut UrlNotes,
    /// What counts the places of lines that are no frames of the maps.
    pub places: &'p mut P,
}
