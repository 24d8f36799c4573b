//! The command line as clap gets it.
ghost use Rattle.std.specs.Prelude.{◌≡◌, All, IfOk, IsOkAnd, false, map};
ghost use Rattle.clap.specs.Built.{AddsSubcommand};
ghost use Rattle.clap.specs.Words.{app_of, rule_of};
ghost use Rattle.smap_arguments.specs.CommandLine.{IsLocalCommand, check, compose, explain, first_commands, fit, generated, last_commands, locate, lookup};
ghost use Rattle.smap_arguments.specs.CommandLine.{mappings, next_commands, positions, raw, rewrite, show, smap, smap_alone, sources};
ghost use Rattle.smap_arguments.specs.CommandLine.{with_commands, with_rules};

use crate::argument::{
    base_url, bytes, content, context, flag, interval, list, missing, optional,
    optional_position_number, order, position_number, repeated, required, source, text, texts,
};
use crate::help::{
    AFTER_HELP, ALIKE_HELP, ANYWHERE_HELP, CACHE_HELP, CHECK_ABOUT, CHECK_NOTES, CODE_HELP,
    COLUMN_HELP, COMPOSE_ABOUT, COMPOSE_NOTES, DEBUG_ID_HELP, EXPLAIN_ABOUT, EXPLAIN_NOTES,
    FIT_ABOUT, FIT_HELP, FIT_NOTES, GENERATED_ABOUT, GENERATED_HELP, GENERATED_NOTES, HIDE_HELP,
    INNER_HELP, INNER_LIST_HELP, INNER_PAIRS_HELP, JSON_HELP, LIMIT_HELP, LINE_HELP, LIST_HELP,
    LOCATE_ABOUT, LOCATE_NOTES, LOCATED_NAMES_HELP, LOOKUP_ABOUT, LOOKUP_NOTES, MAPPINGS_ABOUT,
    MAPPINGS_NOTES, MISFIT_COUNT_HELP, MISFITS_HELP, MISFITS_REFUSED_HELP, NAMES_HELP,
    NEAREST_HELP, NO_CONTENT_HELP, ONE_LINE_HELP, OUTER_HELP, PAIRS_HELP, PATH_HELP, PATHS_HELP,
    PATHS_OF_SOURCES_HELP, POSITIONS_ABOUT, POSITIONS_NOTES, PRUNE_HELP, RAW_ABOUT, RAW_NOTES,
    REWRITE_ABOUT, REWRITE_NOTES, SHOW_ABOUT, SHOW_NOTES, SOURCE_AFTER_HELP, SOURCE_COLUMN_HELP,
    SOURCE_LINE_HELP, SOURCE_NAME_HELP, SOURCES_ABOUT, SOURCES_NOTES, STATUSES, STRIP_HELP,
    SUMMARY_HELP, TEXT_HELP, TO_GENERATED_HELP, URLS_HELP, WHY_HELP,
};
use clap::{Arg, Command};
use std::alloc::{AllocError, Global};

const VERSION: &str = "0.3.0";

/// The command line of `smap`. Its lifetime is the caller's, since clap keeps its texts and the arguments under one.
pub fn command_line<'a>(alloc: Global) -> Result<Command<'a>, AllocError>
    ensures { IfOk result (λ command. app_of command ≡ smap) }
{
    let smap = with_first_commands(alloc, smap_alone(alloc)?)?;
    let smap = with_next_commands(alloc, smap)?;
    with_last_commands(alloc, smap)
}

/// `smap` without a command.
pub fn smap_alone<'a>(alloc: Global) -> Result<Command<'a>, AllocError>
    ensures { IfOk result (λ command. app_of command ≡ smap_alone) }
{
    let smap = Command::new(alloc, "smap")
        .bin_name("smap")?
        .version(VERSION)
        .about("Answers questions about source maps")
        .after_help(STATUSES)
        .subcommand_required(true);
    Ok(smap)
}

// The commands stand in the order in which the help names them.
fn with_first_commands<'a>(alloc: Global, smap: Command<'a>) -> Result<Command<'a>, AllocError>
    ensures { IfOk result (λ command. app_of command
        ≡ with_commands (app_of smap.entry) first_commands) }
{
    let smap = with_command(smap, lookup_command(alloc))?;
    let smap = with_command(smap, positions_command(alloc))?;
    let smap = with_command(smap, mappings_command(alloc))?;
    with_command(smap, sources_command(alloc))
}

fn with_next_commands<'a>(alloc: Global, smap: Command<'a>) -> Result<Command<'a>, AllocError>
    ensures { IfOk result (λ command. app_of command
        ≡ with_commands (app_of smap.entry) next_commands) }
{
    let smap = with_command(smap, rewrite_command(alloc))?;
    let smap = with_command(smap, locate_command(alloc))?;
    let smap = with_command(smap, check_command(alloc))?;
    with_command(smap, show_command(alloc))
}

fn with_last_commands<'a>(alloc: Global, smap: Command<'a>) -> Result<Command<'a>, AllocError>
    ensures { IfOk result (λ command. app_of command
        ≡ with_commands (app_of smap.entry) last_commands) }
{
    let smap = with_command(smap, compose_command(alloc))?;
    let smap = with_command(smap, fit_command(alloc))?;
    let smap = with_command(smap, explain_command(alloc))?;
    with_command(smap, raw_command(alloc))
}

/// The command line with this command, the last. It takes a command that may not have been made, so that the caller has
/// nothing to drop where it was not.
pub fn with_command<'a>(
    above: Command<'a>,
    made: Result<Command<'a>, AllocError>,
) -> Result<Command<'a>, AllocError>
    ensures { IfOk result (λ smap. IsOkAnd made.entry
        (λ command. AddsSubcommand above.entry command smap)) }
{
    above.subcommand(made?)
}

pub fn lookup_command<'a>(alloc: Global) -> Result<Command<'a>, AllocError>
    ensures { IfOk result (IsLocalCommand lookup) }
{
    let arguments = vec![in alloc;
        text(alloc, "PATH", PATH_HELP),
        position_number(alloc, "LINE", LINE_HELP),
        position_number(alloc, "COLUMN", COLUMN_HELP),
        base_url(alloc),
        interval(alloc),
        flag(alloc, "after", AFTER_HELP),
        flag(alloc, "json", JSON_HELP),
        flag(alloc, "explain", NEAREST_HELP),
        flag(alloc, "generated", TO_GENERATED_HELP),
    ]?;
    described(alloc, "lookup", LOOKUP_ABOUT, LOOKUP_NOTES, arguments)
}

/// `lookup` with `--generated`.
pub fn generated_command<'a>(alloc: Global) -> Result<Command<'a>, AllocError>
    ensures { IfOk result (IsLocalCommand generated) }
{
    let arguments = vec![in alloc;
        text(alloc, "PATH", PATH_HELP),
        text(alloc, "SOURCE", SOURCE_NAME_HELP),
        position_number(alloc, "LINE", SOURCE_LINE_HELP),
        optional_position_number(alloc, "COLUMN", SOURCE_COLUMN_HELP),
        base_url(alloc),
        flag(alloc, "after", SOURCE_AFTER_HELP),
        flag(alloc, "json", JSON_HELP),
        flag(alloc, "explain", ALIKE_HELP),
        flag(alloc, "generated", TO_GENERATED_HELP),
    ]?;
    described(alloc, "lookup", GENERATED_ABOUT, GENERATED_NOTES, arguments)
}

fn positions_command<'a>(alloc: Global) -> Result<Command<'a>, AllocError>
    ensures { IfOk result (IsLocalCommand positions) }
{
    let arguments = vec![in alloc;
        text(alloc, "MAP", PATH_HELP),
        base_url(alloc),
        interval(alloc),
        flag(alloc, "after", AFTER_HELP),
        flag(alloc, "json", JSON_HELP),
    ]?;
    described(
        alloc,
        "positions",
        POSITIONS_ABOUT,
        POSITIONS_NOTES,
        arguments,
    )
}

fn mappings_command<'a>(alloc: Global) -> Result<Command<'a>, AllocError>
    ensures { IfOk result (IsLocalCommand mappings) }
{
    let arguments = vec![in alloc;
        text(alloc, "MAP", PATH_HELP),
        optional_position_number(alloc, "LINE", ONE_LINE_HELP),
        base_url(alloc),
        flag(alloc, "json", JSON_HELP),
    ]?;
    described(alloc, "mappings", MAPPINGS_ABOUT, MAPPINGS_NOTES, arguments)
}

fn sources_command<'a>(alloc: Global) -> Result<Command<'a>, AllocError>
    ensures { IfOk result (IsLocalCommand sources) }
{
    let arguments = vec![in alloc;
        text(alloc, "MAP", PATH_HELP),
        optional(alloc, "GENERATED", GENERATED_HELP),
        base_url(alloc),
        order(alloc),
        flag(alloc, "fit", MISFIT_COUNT_HELP),
        flag(alloc, "json", JSON_HELP),
        content(alloc),
    ]?;
    described(alloc, "sources", SOURCES_ABOUT, SOURCES_NOTES, arguments)
}

fn rewrite_command<'a>(alloc: Global) -> Result<Command<'a>, AllocError>
    ensures { IfOk result (IsLocalCommand rewrite) }
{
    let arguments = vec![in alloc;
        texts(alloc, "URL=FILE", PAIRS_HELP, false),
        list(alloc, "maps", LIST_HELP),
        base_url(alloc),
        interval(alloc),
        flag(alloc, "hide-ignored", HIDE_HELP),
        repeated(alloc, "TEXT", "hide", TEXT_HELP),
        flag(alloc, "anywhere", ANYWHERE_HELP),
        flag(alloc, "paths", PATHS_OF_SOURCES_HELP),
        flag(alloc, "names", NAMES_HELP),
        flag(alloc, "fit", MISFITS_REFUSED_HELP),
        required(alloc),
        missing(alloc),
        bytes(alloc, "cache", CACHE_HELP, 0),
        bytes(alloc, "limit", LIMIT_HELP, 1),
        flag(alloc, "summary", SUMMARY_HELP),
        flag(alloc, "explain", URLS_HELP),
        flag(alloc, "strip-ansi", STRIP_HELP),
    ]?;
    described(alloc, "rewrite", REWRITE_ABOUT, REWRITE_NOTES, arguments)
}

fn locate_command<'a>(alloc: Global) -> Result<Command<'a>, AllocError>
    ensures { IfOk result (IsLocalCommand locate) }
{
    let arguments = vec![in alloc;
        texts(alloc, "URL=FILE", PAIRS_HELP, false),
        list(alloc, "maps", LIST_HELP),
        base_url(alloc),
        interval(alloc),
        flag(alloc, "paths", PATHS_OF_SOURCES_HELP),
        flag(alloc, "names", LOCATED_NAMES_HELP),
        bytes(alloc, "cache", CACHE_HELP, 0),
        flag(alloc, "after", AFTER_HELP),
        flag(alloc, "json", JSON_HELP),
        context(alloc),
    ]?;
    described(alloc, "locate", LOCATE_ABOUT, LOCATE_NOTES, arguments)
}

fn check_command<'a>(alloc: Global) -> Result<Command<'a>, AllocError>
    ensures { IfOk result (IsLocalCommand check) }
{
    let arguments = vec![in alloc;
        texts(alloc, "PATH", PATHS_HELP, true),
        base_url(alloc),
        interval(alloc),
        flag(alloc, "json", JSON_HELP),
        flag(alloc, "explain", WHY_HELP),
    ]?;
    described(alloc, "check", CHECK_ABOUT, CHECK_NOTES, arguments)
}

fn show_command<'a>(alloc: Global) -> Result<Command<'a>, AllocError>
    ensures { IfOk result (IsLocalCommand show) }
{
    let arguments = vec![in alloc;
        text(alloc, "PATH", PATH_HELP),
        base_url(alloc),
        flag(alloc, "prune", PRUNE_HELP),
        flag(alloc, "no-content", NO_CONTENT_HELP),
        flag(alloc, "keep-debug-id", DEBUG_ID_HELP),
    ]?;
    described(alloc, "show", SHOW_ABOUT, SHOW_NOTES, arguments)
}

fn compose_command<'a>(alloc: Global) -> Result<Command<'a>, AllocError>
    ensures { IfOk result (IsLocalCommand compose) }
{
    let arguments = vec![in alloc;
        text(alloc, "OUTER", OUTER_HELP),
        source(alloc),
        optional(alloc, "INNER", INNER_HELP),
        repeated(alloc, "NAME=FILE", "inner", INNER_PAIRS_HELP),
        list(alloc, "inners", INNER_LIST_HELP),
        base_url(alloc),
        flag(alloc, "prune", PRUNE_HELP),
        flag(alloc, "no-content", NO_CONTENT_HELP),
        flag(alloc, "keep-debug-id", DEBUG_ID_HELP),
    ]?;
    described(alloc, "compose", COMPOSE_ABOUT, COMPOSE_NOTES, arguments)
}

fn fit_command<'a>(alloc: Global) -> Result<Command<'a>, AllocError>
    ensures { IfOk result (IsLocalCommand fit) }
{
    let arguments = vec![in alloc;
        texts(alloc, "MAP GENERATED", FIT_HELP, true),
        flag(alloc, "json", JSON_HELP),
        flag(alloc, "explain", MISFITS_HELP),
    ]?;
    described(alloc, "fit", FIT_ABOUT, FIT_NOTES, arguments)
}

fn explain_command<'a>(alloc: Global) -> Result<Command<'a>, AllocError>
    ensures { IfOk result (IsLocalCommand explain) }
{
    let arguments = vec![in alloc; optional(alloc, "CODE", CODE_HELP)]?;
    described(alloc, "explain", EXPLAIN_ABOUT, EXPLAIN_NOTES, arguments)
}

fn raw_command<'a>(alloc: Global) -> Result<Command<'a>, AllocError>
    ensures { IfOk result (IsLocalCommand raw) }
{
    let arguments = vec![in alloc;
        position_number(alloc, "LINE", LINE_HELP),
        position_number(alloc, "COLUMN", COLUMN_HELP),
        interval(alloc),
    ]?;
    described(alloc, "raw", RAW_ABOUT, RAW_NOTES, arguments)
}

// A command with these texts and arguments.
fn described<'a>(
    alloc: Global,
    name: &'a str,
    about: &'a str,
    notes: &'a str,
    arguments: Vec<Arg<'a>>,
) -> Result<Command<'a>, AllocError>
    requires { All (λ argument. argument.global ≡ false) arguments.items }
    ensures { IfOk result (IsLocalCommand
        (with_rules name.entry.now (map rule_of arguments.entry.items))) }
{
    Command::new(alloc, name)
        .about(about)
        .after_help(notes)
        .args(arguments)
}
