//! What each command is asked that holds one struct. Lines, columns and indices count from 0.
use crate::options::{
    AnswerOptions, FitOptions, LookupOptions, MappingsOptions, SourceOptions, WriteOptions,
};
use url::Url;

/// A source map, and how it is read.
#[derive(Drop)]
pub struct MapChoice {
    /// The path of its file.
    pub path: String,
    /// The URL against which its sources are resolved, where one is given.
    pub base: Option<Url>,
    /// The interval of its checkpoints: 1 to `MOST_INTERVAL`.
    pub interval: u32,
}

/// A place in a source that is looked up: the generated places of the mappings whose origin has this source and line and,
/// where a column is given, the greatest column that is not after it or, with `after`, the least that is not before it.
#[derive(Drop)]
pub struct Generated {
    pub map: MapChoice,
    /// The name of a source, as it is printed, or its index in brackets. All sources of one name are asked.
    pub source: String,
    pub line: u32,
    /// In UTF-16 code units. Without one the whole line is asked for.
    pub column: Option<u32>,
    pub after: bool,
    pub options: LookupOptions,
}

/// How the positions on the lines of standard input are answered, each by a line, as a look-up does.
#[derive(Drop)]
pub struct Positions {
    pub map: MapChoice,
    pub options: AnswerOptions,
}

/// Which mappings of a map are printed, a line each.
#[derive(Drop)]
pub struct Mappings {
    pub map: MapChoice,
    pub options: MappingsOptions,
}

/// How the sources of a map are printed, a line each, with how many segments each has.
#[derive(Drop)]
pub struct Sources {
    pub map: MapChoice,
    /// The path of the generated file, where one is given: each source is reported with how many of its bytes it makes.
    pub generated: Option<String>,
    pub options: SourceOptions,
}

/// The source whose content is written.
#[derive(Drop)]
pub struct SourceContent {
    /// The path of the map.
    pub path: String,
    /// The number of the source.
    pub source: u32,
}

/// How places are answered, and over which maps.
#[derive(Drop)]
pub struct Locate {
    /// Pairs of the URL that places name and of the path of the map's file, as `Rewrite` has them.
    pub maps: Vec<(String, String)>,
    /// The URL against which sources are resolved, where one is given.
    pub base: Option<Url>,
    /// The interval of the checkpoints: 1 to `MOST_INTERVAL`.
    pub interval: u32,
    /// The path of a file with more pairs, on a line each.
    pub list: Option<String>,
    /// Whether the sources of a map whose URL is a path are named by paths that go on from its folder.
    pub paths: bool,
    /// How many bytes the files may have whose maps are kept for when a line names them again: 0 to `MOST_OPTION_BYTES`, and
    /// `USUAL_CACHE_BYTES` where nothing else is asked for.
    pub cache_bytes: Option<u64>,
    /// Whether a line may name a function, which gets the name that was written, where the generated file beside the map
    /// says it.
    pub names: bool,
    pub options: AnswerOptions,
}

/// The map that is composed with those of several of its sources. The result is written without what the options leave out.
#[derive(Drop)]
pub struct ComposeAll {
    /// The path of the outer map.
    pub outer: String,
    /// Pairs of a source's name, as it is written, and of the path of that source's map.
    pub inners: Vec<(String, String)>,
    /// The path of a file with more pairs, on a line each.
    pub list: Option<String>,
    /// The URL against which the outer map's sources are resolved, where one is given.
    pub base: Option<Url>,
    pub options: WriteOptions,
}

/// Which maps are compared with their generated files, and how that is reported.
#[derive(Drop)]
pub struct Fit {
    /// Those of a map and of its generated file, of another map and its generated file, and so on.
    pub paths: Vec<String>,
    pub options: FitOptions,
}

/// The code of a refusal that is explained, or none where all are to be named.
#[derive(Drop)]
pub struct Explain {
    pub code: Option<String>,
}
