//! What is left out of a composed map.

/// What is left out of the map that maps compose to.
#[derive(Clone, Copy)]
pub struct LeftOut {
    /// Whether the sources and names are that no mapping has and, of those that are the same, all but the first that a
    /// mapping has. Sources are the same in the text of their name, in content and in mark.
    pub unused: bool,
    /// Whether the contents of the sources are.
    pub contents: bool,
}

impl LeftOut {
    /// Nothing is left out.
    pub const NOTHING: LeftOut = LeftOut {
        unused: false,
        contents: false,
    };
}
