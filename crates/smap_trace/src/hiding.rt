//! Which frames are left out of a trace.
ghost use Rattle.std.specs.Prelude.{◌≡◌, ◌&&◌, ◌||◌, option_map, string_bytes};
ghost use Rattle.std.specs.List.{list_any};
ghost use Rattle.smap_trace.specs.Hiding.{has_text, hides, hiding_seen, only_ignored};

/// Which frames are left out, with their line ends: by the source of their original.
#[derive(Clone, Copy)]
pub struct Hiding<'t> {
    /// Those of sources that a map says to ignore.
    pub ignored: bool,
    /// Those of sources whose name, as it is printed, contains one of these texts.
    pub texts: &'t [String],
}

impl Hiding<'_> {
    /// Those of sources that a map says to ignore, or none.
    pub fn only_ignored(ignored: bool) -> Hiding<'static>
        ensures { hiding_seen result ≡ only_ignored ignored }
    {
        Hiding {
            ignored,
            texts: &[],
        }
    }

    /// Whether frames are left out of a source that its map says to ignore or not, and that has this name, where it has one
    /// that prints.
    pub fn hides(&self, ignored: bool, name: Option<&str>) -> bool
        ensures { result ≡ hides (hiding_seen self.now) ignored
            (option_map (λ name. name.now) name.entry) }
    {
        let named = has_any(name, self.texts);
        is_hidden(named, self.ignored, ignored)
    }
}

// Whether a name, where there is one, contains one of these texts.
fn has_any(name: Option<&str>, texts: &[String]) -> bool
    ensures { result ≡ list_any (λ text. has_text (option_map (λ name. name.now) name.entry)
        (string_bytes text)) texts.now }
{
    texts.iter().any(|text| has_text(name, text))
}

// Whether a source is one whose frames are left out: by its name, or since its map says to ignore it.
fn is_hidden(named: bool, ignoring: bool, ignored: bool) -> bool
    ensures { result ≡ (named || ignoring && ignored) }
{
    named || (ignoring && ignored)
}

// Whether a name, where there is one, contains a text.
fn has_text(name: Option<&str>, text: &str) -> bool
    ensures { result ≡ has_text (option_map (λ name. name.now) name.entry) text.now }
{
    match name {
        Some(name) => name.contains(text),
        None => false,
    }
}
