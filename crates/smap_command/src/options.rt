//! What may be asked of a command beside what it is about. Nothing of it is asked for by default.
ghost use Rattle.std.specs.Prelude.{◌≡◌, [], false};
ghost use Rattle.smap_command.specs.Options.{HasBytes, are_further, direction_of, is_json, leaves_out};
ghost use Rattle.smap_command.specs.declared.options.Form.TheVariants.{Text};

use std::alloc::Global;

/// How an answer is printed.
#[derive(Clone, Copy)]
pub enum Form {
    /// As text, which is the default.
    Text,
    /// As a JSON object, on one line.
    Json,
}

impl Form {
    /// JSON where that is asked for.
    pub fn of(json: bool) -> Form
        ensures { is_json result ≡ json }
    {
        if json { Form::Json } else { Form::Text }
    }

    pub fn is_json(self) -> bool
        ensures { result ≡ is_json self }
    {
        matches!(self, Form::Json)
    }
}

/// Which mapping answers a position, of those on its line.
#[derive(Clone, Copy)]
pub enum Direction {
    /// The last one at the position or before it.
    AtOrBefore,
    /// The first one at the position or after it.
    AtOrAfter,
}

impl Direction {
    /// At the position or after it, where that is asked for.
    pub fn of(after: bool) -> Direction
        ensures { result ≡ direction_of after }
    {
        if after {
            Direction::AtOrAfter
        } else {
            Direction::AtOrBefore
        }
    }
}

/// Which mappings answer positions, and how the answers are printed.
#[derive(Clone, Copy)]
pub struct AnswerOptions {
    pub direction: Direction,
    pub form: Form,
    /// How many lines of its source stand in JSON before and behind that of a place that is found, where they are to: 0 to
    /// `MOST_CONTEXT`.
    pub context: Option<u32>,
}

/// Which mappings of a map are reported, and how.
#[derive(Clone, Copy)]
pub struct MappingsOptions {
    /// Those of this generated line, from 0, or all.
    pub line: Option<u32>,
    pub form: Form,
}

/// How the sources of a map are reported.
#[derive(Clone, Copy)]
pub struct SourceOptions {
    /// Whether those that make the most bytes come first; else they stand by index.
    pub by_bytes: bool,
    /// Whether it is said at the end how many mappings do not fit the generated file.
    pub fit: bool,
    pub form: Form,
}

/// How source maps are checked, beside the first.
#[derive(Drop)]
pub struct CheckOptions {
    /// The paths of other files whose maps are checked after the first, one after another. Where there are any, each map is
    /// reported with its path.
    pub others: Vec<String>,
    /// How each map is reported; as JSON always with its path, and with why it is refused.
    pub form: Form,
    /// Whether a refusal is followed by why the map is refused.
    pub explain: bool,
}

impl CheckOptions {
    /// One map, reported as text.
    pub fn new(alloc: Global) -> CheckOptions
        ensures alone { result.others.items ≡ [] }
        ensures as_text { result.form ≡ Text }
        ensures unexplained { result.explain ≡ false }
    {
        CheckOptions {
            others: Vec::new(alloc),
            form: Form::Text,
            explain: false,
        }
    }
}

/// How a look-up is reported.
#[derive(Clone, Copy)]
pub struct LookupOptions {
    pub form: Form,
    /// Whether an answer as text is followed by which mappings are nearest to the position.
    pub explain: bool,
}

/// How it is reported whether maps fit their generated files.
#[derive(Clone, Copy)]
pub struct FitOptions {
    pub form: Form,
    /// Whether a map that does not fit is followed by where it does not.
    pub explain: bool,
}

/// What is left out of a map that is written.
#[derive(Clone, Copy)]
pub struct WriteOptions {
    /// Whether sources and names that no mapping has are left out, and of equal ones all but the first that is used.
    pub prune: bool,
    /// Whether the contents of the sources are left out.
    pub no_content: bool,
    /// Whether the debug id of the map, or of the outer one, is written too.
    pub keep_debug_id: bool,
}

impl WriteOptions {
    /// Whether something is left out.
    pub fn leaves_out(self) -> bool
        ensures { result ≡ leaves_out self }
    {
        self.prune || self.no_content
    }
}

/// How many of the frames of a text are to get their places.
#[derive(Clone, Copy)]
pub enum Required {
    /// At least one of them.
    One,
    /// So many of a hundred, 1 to 100.
    Percent(u32),
}

/// How a text is rewritten. With one of them, the first aside, it is over maps that are read only when it names them.
#[derive(Drop)]
pub struct FurtherOptions {
    /// Whether the control sequences of a terminal are left out of the text before anything else is looked at.
    pub strip_ansi: bool,
    /// The path of a file with more pairs, on a line each.
    pub list: Option<String>,
    /// Whether places are rewritten wherever they stand in the text, which excludes that lines are dropped.
    pub anywhere: bool,
    /// How many bytes the files may have whose maps are kept for when the text names them again: 0 to `MOST_OPTION_BYTES`,
    /// and `USUAL_CACHE_BYTES` where nothing else is asked for.
    pub cache_bytes: Option<u64>,
    /// How many bytes of the text are taken: 1 to `MOST_OPTION_BYTES`, and `USUAL_LIMIT_BYTES` where nothing else is asked
    /// for.
    pub limit_bytes: Option<u64>,
    /// Whether counts are reported at the end.
    pub summary: bool,
    /// Texts: the lines of frames from sources whose printed names have one of them are dropped.
    pub hide: Vec<String>,
    /// Whether it is reported at the end what became of the URLs that the text names.
    pub explain: bool,
    /// Whether the sources of a map whose URL is a path are named by paths that go on from its folder.
    pub paths: bool,
    /// Whether frames get the names of functions that were written, where the generated files beside the maps say them.
    pub names: bool,
    /// Whether a map that does not fit the generated file beside it counts as refused.
    pub fit: bool,
    /// How many of the frames are to get their places, where it is reported if fewer do.
    pub required: Option<Required>,
    /// Whether a map that is not there changes no status.
    pub missing_ok: bool,
}

impl FurtherOptions {
    /// None of them.
    pub fn new(alloc: Global) -> FurtherOptions
        ensures as_it_is { result.strip_ansi ≡ false }
        ensures none { are_further result ≡ false }
        ensures in_range { HasBytes result }
    {
        FurtherOptions {
            strip_ansi: false,
            list: None,
            anywhere: false,
            cache_bytes: None,
            limit_bytes: None,
            summary: false,
            hide: Vec::new(alloc),
            explain: false,
            paths: false,
            names: false,
            fit: false,
            required: None,
            missing_ok: false,
        }
    }

    /// Whether one of them is asked for, the first aside.
    pub fn are_given(&self) -> bool
        ensures { result ≡ are_further self.now }
    {
        self.list.is_some()
            || self.anywhere
            || self.cache_bytes.is_some()
            || self.limit_bytes.is_some()
            || self.summary
            || !self.hide.is_empty()
            || self.explain
            || self.paths
            || self.names
            || self.fit
            || self.required.is_some()
            || self.missing_ok
    }
}
