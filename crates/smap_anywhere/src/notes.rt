//! What is noted of a text whose places are rewritten.
ghost use Rattle.smap_anywhere.specs.Anywhere.{AreNone};

use smap_trace::UrlNotes;
use std::alloc::Global;

/// What is noted of a text: of the URLs that its places name, and of those that look like one and have no map.
#[derive(Drop)]
pub struct PlaceNotes {
    pub named: UrlNotes,
    pub others: UrlNotes,
}

impl PlaceNotes {
    /// Nothing is noted. The call takes no memory.
    pub fn new(alloc: Global) -> PlaceNotes
        ensures { AreNone result }
    {
        PlaceNotes {
            named: UrlNotes::new(alloc),
            others: UrlNotes::new(alloc),
        }
    }
}
