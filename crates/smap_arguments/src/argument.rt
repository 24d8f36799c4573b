//! The kinds of arguments that commands have, as clap gets them.
ghost use Rattle.smap_arguments.specs.CommandLine.{IsLocalArgument, base_rule, bytes_rule, content_rule, context_rule, flag_rule, interval_rule, list_rule, missing_rule, number, number_rule};
ghost use Rattle.smap_arguments.specs.CommandLine.{optional_number_rule, optional_rule, order_rule, repeated_rule, required_rule, source_rule, text_rule, texts_rule};

use crate::help::{
    CONTENT_HELP, CONTEXT_HELP, INTERVAL_HELP, MISSING_HELP, ORDER_HELP, REQUIRED_HELP, SOURCE_HELP,
};
use clap::builder::ValueParser;
use clap::{Arg, ArgAction, value_parser};
use smap_command::{LIMIT, MOST_CONTEXT, MOST_INTERVAL, MOST_OPTION_BYTES};
use std::alloc::Global;

/// A required argument that is of any text.
pub fn text<'a>(alloc: Global, name: &'a str, help: &'a str) -> Arg<'a>
    ensures { IsLocalArgument (text_rule name.entry.now) result }
{
    Arg::new(alloc, name).required(true).help(help)
}

/// The same, where it may be missing.
pub fn optional<'a>(alloc: Global, name: &'a str, help: &'a str) -> Arg<'a>
    ensures { IsLocalArgument (optional_rule name.entry.now) result }
{
    Arg::new(alloc, name).help(help)
}

/// An argument that is one or more arguments, of any text.
pub fn texts<'a>(alloc: Global, name: &'a str, help: &'a str, required: bool) -> Arg<'a>
    ensures { IsLocalArgument (texts_rule required name.entry.now) result }
{
    Arg::new(alloc, name)
        .required(required)
        .action(ArgAction::Append)
        .help(help)
}

/// A required argument that is a line or column, from 1.
pub fn position_number<'a>(alloc: Global, name: &'a str, help: &'a str) -> Arg<'a>
    ensures { IsLocalArgument (number_rule number name.entry.now) result }
{
    Arg::new(alloc, name)
        .required(true)
        .value_parser(value_parser!(u32).range(1..=i64::from(LIMIT) + 1))
        .help(help)
}

/// The same, where it may be missing.
pub fn optional_position_number<'a>(alloc: Global, name: &'a str, help: &'a str) -> Arg<'a>
    ensures { IsLocalArgument (optional_number_rule number name.entry.now) result }
{
    Arg::new(alloc, name)
        .value_parser(value_parser!(u32).range(1..=i64::from(LIMIT) + 1))
        .help(help)
}

/// The argument that is the number of a source, which may be missing.
pub fn source<'a>(alloc: Global) -> Arg<'a>
    ensures { IsLocalArgument source_rule result }
{
    Arg::new(alloc, "SOURCE")
        .value_parser(value_parser!(u32))
        .help(SOURCE_HELP)
}

/// The option that is the URL against which sources are resolved.
pub fn base_url<'a>(alloc: Global) -> Arg<'a>
    ensures { IsLocalArgument base_rule result }
{
    Arg::new(alloc, "URL")
        .long("base")
        .help("URL against which the names of sources are resolved")
}

/// The option that is what sources are put in order by.
pub fn order<'a>(alloc: Global) -> Arg<'a>
    ensures { IsLocalArgument order_rule result }
{
    Arg::new(alloc, "BY").long("sort").help(ORDER_HELP)
}

/// The option that is what a map may be that is not there.
pub fn missing<'a>(alloc: Global) -> Arg<'a>
    ensures { IsLocalArgument missing_rule result }
{
    Arg::new(alloc, "HOW").long("missing").help(MISSING_HELP)
}

/// The option that is how many of a hundred frames are to get their places.
pub fn required<'a>(alloc: Global) -> Arg<'a>
    ensures { IsLocalArgument required_rule result }
{
    Arg::new(alloc, "PERCENT")
        .long("require-mapped")
        .value_parser(value_parser!(u32).range(0..=100))
        .help(REQUIRED_HELP)
}

/// The option that is the number of the source whose content is written.
pub fn content<'a>(alloc: Global) -> Arg<'a>
    ensures { IsLocalArgument content_rule result }
{
    Arg::new(alloc, "INDEX")
        .long("content")
        .value_parser(value_parser!(u32))
        .help(CONTENT_HELP)
}

/// The option that is the interval of the checkpoints.
pub fn interval<'a>(alloc: Global) -> Arg<'a>
    ensures { IsLocalArgument interval_rule result }
{
    Arg::new(alloc, "K")
        .long("interval")
        .value_parser(value_parser!(u32).range(1..=i64::from(MOST_INTERVAL)))
        .help(INTERVAL_HELP)
}

/// The option that is how many lines are shown on each side of one.
pub fn context<'a>(alloc: Global) -> Arg<'a>
    ensures { IsLocalArgument context_rule result }
{
    Arg::new(alloc, "N")
        .long("context")
        .value_parser(value_parser!(u32).range(0..=i64::from(MOST_CONTEXT)))
        .help(CONTEXT_HELP)
}

/// A flag, which its name stands for.
pub fn flag<'a>(alloc: Global, name: &'a str, help: &'a str) -> Arg<'a>
    ensures { IsLocalArgument (flag_rule name.entry.now) result }
{
    Arg::new(alloc, name)
        .long(name)
        .action(ArgAction::SetTrue)
        .help(help)
}

/// The option of this name that is the path of a list of maps.
pub fn list<'a>(alloc: Global, long: &'a str, help: &'a str) -> Arg<'a>
    ensures { IsLocalArgument (list_rule long.entry.now) result }
{
    Arg::new(alloc, "LIST").long(long).help(help)
}

/// The option that is of any text, and may be given more than once.
pub fn repeated<'a>(alloc: Global, name: &'a str, long: &'a str, help: &'a str) -> Arg<'a>
    ensures { IsLocalArgument (repeated_rule name.entry.now long.entry.now) result }
{
    Arg::new(alloc, name)
        .long(long)
        .action(ArgAction::Append)
        .help(help)
}

/// An option that is a number of bytes, from the least one on.
pub fn bytes<'a>(alloc: Global, name: &'a str, help: &'a str, least: u64) -> Arg<'a>
    ensures { IsLocalArgument (bytes_rule least name.entry.now) result }
{
    Arg::new(alloc, name)
        .long(name)
        .value_name("BYTES")
        .value_parser(ValueParser::unsigned(least, MOST_OPTION_BYTES))
        .help(help)
}
