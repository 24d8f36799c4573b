//! The parts of a composed map.
use crate::listing::Listing;
use smap_record::Mapping;

/// Mappings, and what is listed beside them.
#[derive(Drop)]
pub struct Parts<'a> {
    pub mappings: Vec<Mapping>,
    pub listing: Listing<'a>,
}
