//! What the program is asked to do.
ghost use Rattle.std.specs.Prelude.{◌≡◌};
ghost use Rattle.smap_command.specs.Runnable.{strips_ansi};

use crate::asked::{
    ComposeAll, Explain, Fit, Generated, Locate, Mappings, Positions, SourceContent, Sources,
};
use crate::options::{CheckOptions, FurtherOptions, LookupOptions, WriteOptions};
use url::Url;

/// A command. Lines and columns count from 0 here, columns in UTF-16 code units. Sources are resolved against the base. The
/// indices that a command makes have a checkpoint at the segments of number 0, `interval`, 2 `interval` and so on of each
/// line.
#[derive(Drop)]
pub enum Command {
    /// Looks up a generated line and column in the bare mappings text on standard input.
    Raw {
        line: u32,
        column: u32,
        interval: u32,
    },
    /// Checks the source map in the file at this path, and those in the other files that the options name.
    Check {
        path: String,
        base: Option<Url>,
        interval: u32,
        options: CheckOptions,
    },
    /// Writes the source map in the file at this path as one regular map, without what the options leave out.
    Show {
        path: String,
        base: Option<Url>,
        options: WriteOptions,
    },
    /// Looks up a generated line and column in the source map in the file at this path: the last mapping at the
    /// position or before it answers or, with `after`, the first at it or after it.
    Lookup {
        path: String,
        line: u32,
        column: u32,
        base: Option<Url>,
        interval: u32,
        after: bool,
        options: LookupOptions,
    },
    /// Looks a place in a source up in a source map.
    Generated(Generated),
    /// Answers the positions on the lines of standard input, each by a line, as a look-up does.
    Positions(Positions),
    /// Prints mappings of a source map, a line each.
    Mappings(Mappings),
    /// Prints the sources of a source map, a line each, with how many segments each has.
    Sources(Sources),
    /// Writes the content of a source, and nothing else.
    SourceContent(SourceContent),
    /// Rewrites the text on standard input over maps: pairs of the URL that it names and of the path of the map's file or,
    /// where the path ends in `/`, of a prefix of URLs and of the path of the folder that their maps are in; and those that
    /// the options name. A map's sources are resolved against the base or, where there is none, against the map's URL,
    /// where that is one. With `hide_ignored` the lines of frames from sources that a map says to pass over are dropped.
    /// Where there are files alone, and no options, their maps are read before the text.
    Rewrite {
        maps: Vec<(String, String)>,
        base: Option<Url>,
        interval: u32,
        hide_ignored: bool,
        options: FurtherOptions,
    },
    /// Answers the places on the lines of standard input, which are a URL, a line and a column, each by a line.
    Locate(Locate),
    /// Composes the source map in the file at the path `outer` with that of its source of this number, from 0, in the
    /// file at the path `inner`, and writes the result without what the options leave out.
    Compose {
        outer: String,
        source: u32,
        inner: String,
        base: Option<Url>,
        options: WriteOptions,
    },
    /// Composes a source map with those of several of its sources at once.
    ComposeAll(ComposeAll),
    /// Reports of each map whether it can be that of its generated file.
    Fit(Fit),
    /// Reports what a code of a refusal means, what usually causes it and what to do about it; without one, how all codes
    /// are called.
    Explain(Explain),
}

impl Command {
    /// Whether the control sequences of a terminal are left out of standard input.
    pub fn strips_ansi(&self) -> bool
        ensures { result ≡ strips_ansi self.now }
    {
        match self {
            Command::Rewrite { options, .. } => options.strip_ansi,
            _ => false,
        }
    }
}
