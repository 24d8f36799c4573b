//! How a text is rewritten.
ghost use Rattle.std.specs.Prelude.{◌≡◌, unwrap_or};
ghost use Rattle.smap_command.specs.Limits.{usual_cache_bytes};
ghost use Rattle.smap_text_answers.specs.Request.{asks_for_more, fit_number, has_rule, most_passed, request_seen};
ghost use Rattle.smap_trace.specs.Hiding.{hiding_seen};

use smap_command::{FurtherOptions, USUAL_CACHE_BYTES, USUAL_LIMIT_BYTES};
use smap_locations::is_rule;
use smap_replies::{FileReader, MapReader};
use smap_trace::Hiding;

/// How a text is rewritten.
#[derive(Drop)]
pub struct TextRequest<'a, 'r, F: FileReader> {
    /// How map files are read.
    pub maps: &'a MapReader<'r, F>,
    /// Pairs of a URL and a path; where the path ends in `/`, of a prefix of URLs and a folder; where the URL begins with
    /// `*`, of a pattern.
    pub arguments: &'a [(String, String)],
    /// Whether the lines of frames from sources that a map says to ignore are dropped.
    pub hide_ignored: bool,
    /// What else is asked for.
    pub options: &'a FurtherOptions,
    /// Whether standard error is told at the end, where nothing else was said, which option takes the places of lines that
    /// are no frames.
    pub hint: bool,
}

impl<F: FileReader> TextRequest<'_, '_, F> {
    // Whether a rule is given, or an option, or a terminal is to be told of what is passed over.
    pub(crate) fn asks_for_more(&self) -> bool
        ensures { result ≡ asks_for_more self.now.arguments.now self.now.options.now self.now.hint }
    {
        self.options.are_given() || self.hint || has_rule(self.arguments)
    }

    // Which frames are left out, with their line ends.
    pub(crate) fn hiding(&self) -> Hiding<'_>
        ensures { hiding_seen result ≡ (request_seen self.now).hide }
    {
        Hiding {
            ignored: self.hide_ignored,
            texts: &self.options.hide,
        }
    }

    // Where maps are compared with their generated files, the number under which these are read.
    pub(crate) fn fit_number(&self) -> Option<usize>
        ensures { result ≡ fit_number (request_seen self.now) }
    {
        if self.options.fit {
            Some(self.arguments.len() + 2)
        } else {
            None
        }
    }

    // How many bytes of files are kept as maps.
    pub(crate) fn cache_bytes(&self) -> u64
        ensures { result ≡ (request_seen self.now).cache_bytes }
    {
        self.all_bytes().saturating_sub(self.names_bytes())
    }

    // How many bytes of files are kept as declarations: a quarter of all, where they are listed.
    pub(crate) fn names_bytes(&self) -> u64
        ensures { result ≡ (request_seen self.now).names_bytes }
    {
        if self.options.names {
            self.all_bytes() / 4
        } else {
            0
        }
    }

    // How many bytes of files are kept.
    fn all_bytes(&self) -> u64
        ensures { result ≡ unwrap_or self.now.options.now.cache_bytes usual_cache_bytes }
    {
        self.options.cache_bytes.unwrap_or(USUAL_CACHE_BYTES)
    }

    // How many bytes of the text are taken.
    pub(crate) fn limit_bytes(&self) -> u64
        ensures { result ≡ (request_seen self.now).limit_bytes }
    {
        self.options.limit_bytes.unwrap_or(USUAL_LIMIT_BYTES)
    }

    // How many of the places are counted, at most, that are passed.
    pub(crate) fn most_passed(&self) -> u64
        ensures { result ≡ most_passed (request_seen self.now) }
    {
        if self.options.summary {
            u64::MAX
        } else if self.hint || self.options.explain {
            1
        } else {
            0
        }
    }
}

// Whether one of the pairs is a rule: it has a folder or a pattern.
fn has_rule(arguments: &[(String, String)]) -> bool
    ensures { result ≡ has_rule arguments.now }
{
    arguments.iter().any(|(url, path)| is_rule(url, path))
}
