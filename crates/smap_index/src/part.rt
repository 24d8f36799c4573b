//! One section of a map.

use smap_mappings::PackedText;

/// One section of a map (ECMA-426, Index source map): a checked text, its offset, which is the position at which its
/// first line begins, and what is added to its indices. The four numbers may be any: what they make too large is
/// refused when an index is built.
#[derive(Drop)]
pub struct Part {
    /// The generated line of the text's first line, from 0.
    pub line: u32,
    /// What is added to the columns of the text's first line, in UTF-16 code units.
    pub column: u32,
    /// The section's mappings.
    pub text: PackedText,
    /// What is added to each source index.
    pub source_base: u32,
    /// What is added to each name index.
    pub name_base: u32,
}
