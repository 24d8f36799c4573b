//! The name of a source.
ghost use Rattle.std.specs.Prelude.{◌≡◌, string_bytes, IfOk};

use std::alloc::AllocError;

/// How a source is called.
#[derive(Drop)]
pub enum SourceName {
    /// The text is a URL, in the form that the URL Standard writes it.
    Resolved(String),
    /// The text stands as the map gives it.
    Kept(String),
}

impl SourceName {
    ghost use Rattle.smap_resolve.specs.SourceName.{name_of, name_text};

    /// The text of the name. The call takes no memory.
    pub fn text(&self) -> &str
        ensures { result.now ≡ name_text (name_of self.now) }
    {
        match self {
            SourceName::Resolved(url) => url.as_str(),
            SourceName::Kept(text) => text.as_str(),
        }
    }

    /// The text of the name, moved out of it. The call takes no memory.
    pub fn into_text(self) -> String
        ensures { string_bytes result ≡ name_text (name_of self) }
    {
        match self {
            SourceName::Resolved(url) => url,
            SourceName::Kept(text) => text,
        }
    }

    /// The same name, with a text of its own.
    pub fn copied(&self) -> Result<SourceName, AllocError>
        ensures { IfOk result (λ copy. name_of copy ≡ name_of self.now) }
    {
        match self {
            SourceName::Resolved(url) => Ok(SourceName::Resolved(url.clone()?)),
            SourceName::Kept(text) => Ok(SourceName::Kept(text.clone()?)),
        }
    }
}
