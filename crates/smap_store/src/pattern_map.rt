//! The map of a pattern.

use smap_record::SharedMap;

/// The text of a pattern, which stands behind `*`, and its map.
#[derive(Drop)]
pub struct PatternMap {
    pub text: Vec<u8>,
    pub map: SharedMap,
}
