//! Commands as texts.
use smap_command::{
    CheckOptions, Command, ComposeAll, Direction, Fit, Form, FurtherOptions, Generated, Locate,
    MapChoice, Mappings, Positions, Required, Sources, USUAL_CACHE_BYTES, USUAL_LIMIT_BYTES, Url,
    WriteOptions,
};
use std::alloc::{AllocError, Global};

/// What a command asks. Lines and columns count from 0.
pub fn command_text(alloc: Global, command: &Command) -> Result<String, AllocError> {
    match command {
        Command::Raw {
            line,
            column,
            interval,
        } => format!(in alloc; "raw {line} {column} every {interval}"),
        Command::Check {
            path,
            base,
            interval,
            options,
        } => checking_text(alloc, path, base_text(base), *interval, options),
        Command::Explain(asked) => {
            let code = asked.code.as_deref().unwrap_or("all");
            format!(in alloc; "explain {code}")
        }
        Command::Fit(asked) => fitting_text(alloc, asked),
        Command::Lookup { .. } => lookup_text(alloc, command),
        Command::Generated(asked) => generated_text(alloc, asked),
        Command::Positions(asked) => positions_text(alloc, asked),
        Command::Mappings(asked) => mappings_text(alloc, asked),
        Command::Sources(asked) => sources_text(alloc, asked),
        Command::SourceContent(asked) => {
            let (path, source) = (&asked.path, asked.source);
            format!(in alloc; "content {source} of {path}")
        }
        Command::Rewrite { maps, options, .. } => rewriting_text(alloc, command, maps, options),
        Command::Locate(asked) => locating_text(alloc, asked),
        Command::ComposeAll(asked) => composing_text(alloc, asked),
        _ => writing_text(alloc, command),
    }
}

fn lookup_text(alloc: Global, command: &Command) -> Result<String, AllocError> {
    let Command::Lookup {
        path,
        line,
        column,
        base,
        interval,
        after,
        options,
    } = command
    else {
        return String::from_str(alloc, "another command");
    };
    let (base, after) = (base_text(base), flag_text(*after, " after"));
    let (json, explain) = (form_text(options.form), explain_text(options.explain));
    format!(in alloc; "lookup {path} {line} {column}{base} every {interval}{after}{json}{explain}")
}

fn generated_text(alloc: Global, asked: &Generated) -> Result<String, AllocError> {
    let MapChoice { path, base, .. } = &asked.map;
    let (source, line, options) = (&asked.source, asked.line, asked.options);
    let (base, after) = (base_text(base), flag_text(asked.after, " after"));
    let (json, explain) = (form_text(options.form), explain_text(options.explain));
    let column = number_text(alloc, " ", asked.column)?;
    format!(in alloc; "generated {path} [{source}] {line}{column}{base}{after}{json}{explain}")
}

fn positions_text(alloc: Global, asked: &Positions) -> Result<String, AllocError> {
    let MapChoice {
        path,
        base,
        interval,
    } = &asked.map;
    let (base, after) = (base_text(base), after_text(asked.options.direction));
    let json = form_text(asked.options.form);
    format!(in alloc; "positions {path}{base} every {interval}{after}{json}")
}

// `check` of one file, reported as text, or of several.
fn checking_text(
    alloc: Global,
    path: &str,
    base: &str,
    interval: u32,
    options: &CheckOptions,
) -> Result<String, AllocError> {
    let explain = explain_text(options.explain);
    if options.others.is_empty() && !options.form.is_json() {
        return format!(in alloc; "check {path}{base} every {interval}{explain}");
    }
    let (json, others) = (
        form_text(options.form),
        list_text(alloc, " [", &options.others, "]")?,
    );
    format!(in alloc; "check all{base} every {interval}{json}{explain} [{path}]{others}")
}

fn fitting_text(alloc: Global, asked: &Fit) -> Result<String, AllocError> {
    let options = asked.options;
    let (json, explain) = (form_text(options.form), explain_text(options.explain));
    let paths = list_text(alloc, " [", &asked.paths, "]")?;
    format!(in alloc; "fit{json}{explain}{paths}")
}

fn mappings_text(alloc: Global, asked: &Mappings) -> Result<String, AllocError> {
    let MapChoice { path, base, .. } = &asked.map;
    let (base, json) = (base_text(base), form_text(asked.options.form));
    let line = number_text(alloc, " ", asked.options.line)?;
    format!(in alloc; "mappings {path}{line}{base}{json}")
}

fn sources_text(alloc: Global, asked: &Sources) -> Result<String, AllocError> {
    let MapChoice { path, base, .. } = &asked.map;
    let options = asked.options;
    let (base, order) = (base_text(base), flag_text(options.by_bytes, " by bytes"));
    let (fit, json) = (flag_text(options.fit, " with fit"), form_text(options.form));
    let generated = path_text(alloc, " of ", asked.generated.as_deref())?;
    format!(in alloc; "sources {path}{generated}{base}{order}{fit}{json}")
}

// `rewrite` over files alone, or over what is read when the text names it.
fn rewriting_text(
    alloc: Global,
    command: &Command,
    maps: &[(String, String)],
    options: &FurtherOptions,
) -> Result<String, AllocError> {
    let Command::Rewrite {
        base,
        interval,
        hide_ignored,
        ..
    } = command
    else {
        return String::from_str(alloc, "another command");
    };
    let (base, hiding) = (base_text(base), flag_text(*hide_ignored, " hiding"));
    let maps_text = pairs_text(alloc, options.list.as_deref(), maps)?;
    if options.are_given() || has_folder(maps) {
        let read = reading_text(alloc, options, hiding)?;
        return format!(in alloc; "from{base} every {interval}{read}{maps_text}");
    }
    let stripped = flag_text(options.strip_ansi, " stripped");
    format!(in alloc; "rewrite{base} every {interval}{hiding}{stripped}{maps_text}")
}

fn has_folder(maps: &[(String, String)]) -> bool {
    maps.iter().any(|(_, path)| path.ends_with("/"))
}

// The options of what is read when the text names it.
fn reading_text(
    alloc: Global,
    options: &FurtherOptions,
    hiding: &'static str,
) -> Result<String, AllocError> {
    let cache_bytes = options.cache_bytes.unwrap_or(USUAL_CACHE_BYTES);
    let limit_bytes = options.limit_bytes.unwrap_or(USUAL_LIMIT_BYTES);
    let stripped = flag_text(options.strip_ansi, " stripped");
    let hidden = list_text(alloc, " hiding <", &options.hide, ">")?;
    let flags = reading_flags_text(alloc, options)?;
    format!(in alloc; " cache {cache_bytes} limit {limit_bytes}{hiding}{stripped}{hidden}{flags}")
}

fn reading_flags_text(alloc: Global, options: &FurtherOptions) -> Result<String, AllocError> {
    let anywhere = flag_text(options.anywhere, " anywhere");
    let summary = flag_text(options.summary, " in sum");
    let explain = explain_text(options.explain);
    let paths = flag_text(options.paths, " by paths");
    let read = reading_more_text(alloc, options)?;
    format!(in alloc; "{anywhere}{summary}{explain}{paths}{read}")
}

// The options of what is read beside the maps, and of the status.
fn reading_more_text(alloc: Global, options: &FurtherOptions) -> Result<String, AllocError> {
    let (names, fit) = (
        flag_text(options.names, " by names"),
        flag_text(options.fit, " with fit"),
    );
    let missing = flag_text(options.missing_ok, " if there");
    let required = match options.required {
        Some(Required::One) => String::from_str(alloc, " one")?,
        Some(Required::Percent(percent)) => number_text(alloc, " percent ", Some(percent))?,
        None => String::new(alloc),
    };
    format!(in alloc; "{names}{fit}{missing}{required}")
}

fn locating_text(alloc: Global, asked: &Locate) -> Result<String, AllocError> {
    let (interval, options) = (asked.interval, asked.options);
    let (base, after) = (base_text(&asked.base), after_text(options.direction));
    let (json, paths) = (form_text(options.form), flag_text(asked.paths, " by paths"));
    let names = flag_text(asked.names, " by names");
    let cache_bytes = asked.cache_bytes.unwrap_or(USUAL_CACHE_BYTES);
    let context = number_text(alloc, " with ", options.context)?;
    let maps = pairs_text(alloc, asked.list.as_deref(), &asked.maps)?;
    let given = format!(in alloc; "{after}{json}{context}{paths}{names}{maps}")?;
    format!(in alloc; "locate{base} every {interval} cache {cache_bytes}{given}")
}

fn composing_text(alloc: Global, asked: &ComposeAll) -> Result<String, AllocError> {
    let outer = &asked.outer;
    let (base, options) = (base_text(&asked.base), options_text(asked.options));
    let id = id_text(asked.options);
    let inners = pairs_text(alloc, asked.list.as_deref(), &asked.inners)?;
    format!(in alloc; "compose all {outer}{base}{options}{id}{inners}")
}

fn writing_text(alloc: Global, command: &Command) -> Result<String, AllocError> {
    match command {
        Command::Show {
            path,
            base,
            options,
        } => {
            let (base, left) = (base_text(base), left_out_text(*options));
            let id = id_text(*options);
            format!(in alloc; "show {path}{base}{left}{id}")
        }
        Command::Compose {
            outer,
            source,
            inner,
            base,
            options,
        } => {
            let (base, left) = (base_text(base), left_out_text(*options));
            let id = id_text(*options);
            format!(in alloc; "compose {outer} {source} {inner}{base}{left}{id}")
        }
        _ => String::from_str(alloc, "another command"),
    }
}

// The path of a list, where there is one, and pairs of texts.
fn pairs_text(
    alloc: Global,
    list: Option<&str>,
    pairs: &[(String, String)],
) -> Result<String, AllocError> {
    let mut text = path_text(alloc, " list ", list)?;
    for (first, second) in pairs {
        push_all(
            &mut text,
            &[" [", first.as_str(), "][", second.as_str(), "]"],
        )?;
    }
    Ok(text)
}

// Texts, each between two others.
fn list_text(
    alloc: Global,
    before: &'static str,
    texts: &[String],
    behind: &'static str,
) -> Result<String, AllocError> {
    let mut list = String::new(alloc);
    for text in texts {
        push_all(&mut list, &[before, text.as_str(), behind])?;
    }
    Ok(list)
}

fn push_all(text: &mut String, parts: &[&str]) -> Result<(), AllocError> {
    for part in parts {
        text.push_str(part)?;
    }
    Ok(())
}

// A path behind a word, where there is one.
fn path_text(alloc: Global, word: &'static str, path: Option<&str>) -> Result<String, AllocError> {
    match path {
        Some(path) => format!(in alloc; "{word}{path}"),
        None => Ok(String::new(alloc)),
    }
}

// A number behind a word, where there is one.
fn number_text(
    alloc: Global,
    word: &'static str,
    number: Option<u32>,
) -> Result<String, AllocError> {
    match number {
        Some(number) => format!(in alloc; "{word}{number}"),
        None => Ok(String::new(alloc)),
    }
}

fn flag_text(is_given: bool, text: &'static str) -> &'static str {
    if is_given { text } else { "" }
}

fn after_text(direction: Direction) -> &'static str {
    match direction {
        Direction::AtOrBefore => "",
        Direction::AtOrAfter => " after",
    }
}

fn form_text(form: Form) -> &'static str {
    flag_text(form.is_json(), " in JSON")
}

fn explain_text(is_given: bool) -> &'static str {
    flag_text(is_given, " explained")
}

// What is left out of a written map, where something is.
fn left_out_text(options: WriteOptions) -> &'static str {
    if options.leaves_out() {
        options_text(options)
    } else {
        ""
    }
}

// What is left out of a written map.
fn options_text(options: WriteOptions) -> &'static str {
    match (options.prune, options.no_content) {
        (false, false) => " whole",
        (true, false) => " pruned",
        (false, true) => " without content",
        (true, true) => " pruned without content",
    }
}

fn id_text(options: WriteOptions) -> &'static str {
    flag_text(options.keep_debug_id, " with its id")
}

fn base_text(base: &Option<Url>) -> &str {
    match base {
        Some(url) => url.as_str(),
        None => "",
    }
}
