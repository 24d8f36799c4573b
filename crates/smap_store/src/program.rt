//! Which generated program a URL is of.

/// Where the map of a program is.
#[derive(Clone, Copy)]
pub enum MapKind {
    /// In the table, which holds it from the first.
    Table,
    /// In a file, which is read when a URL of it is named, and perhaps again.
    File,
}

/// A generated program, as what is known of it is kept: beside its map, so that URLs with one map have one program.
#[derive(Clone, Copy)]
pub struct Program<'u> {
    pub kind: MapKind,
    /// The URL that the table has; or the text under which the map of a file is kept.
    pub key: &'u [u8],
}
