//! The lines for arguments that clap takes, but the command does not.
ghost use Rattle.std.specs.Prelude.{◌≡◌, string_bytes, IfOk};
ghost use Rattle.smap_arguments.specs.Refusals.{no_maps_text, no_pair_line};

use smap_text::shown;
use std::alloc::{AllocError, Global};

/// Standard error: the base is no URL.
pub const BAD_BASE: &str = "usage: bad base URL\n";

/// Standard error: the base is longer than a URL may be here, which is less than 4 GB.
pub const LONG_BASE: &str = "usage: base URL too long\n";

/// A base of fewer bytes is never too long: each of them would come to 4,096.
pub const LONG_BASE_BYTES: usize = 1048576;

pub const BOTH_FLAGS: &str = "usage: not together: --hide-ignored, --anywhere\n";

/// Standard error: `rewrite` has more texts that hide frames than there may be.
pub const MANY_HIDDEN: &str = "usage: more than 16 --hide\n";

/// Standard error: a text that hides frames is empty, as each name has it.
pub const EMPTY_HIDDEN: &str = "usage: --hide without TEXT\n";

pub const HIDDEN_ANYWHERE: &str = "usage: not together: --hide, --anywhere\n";

/// Standard error: a URL is `*` alone, which each place has, as times of day are.
pub const ANY_URL: &str = "usage: not together: *=FILE, --anywhere\n";

pub const BASE_AND_PATHS: &str = "usage: not together: --base, --paths\n";

/// Standard error: `locate` is to show lines of sources, and to answer as text.
pub const CONTEXT_ALONE: &str = "usage: --context without --json\n";

pub const SOURCE_WITH_INNERS: &str = "usage: not together: SOURCE, --inner or --inners\n";

/// Standard error: `compose` has neither SOURCE nor a map by its name. It is reported as `no_maps_text` is.
pub const NO_SOURCE: &str = "\
error: the following required arguments were not provided:
  <SOURCE>
  <INNER>

Usage: smap compose <OUTER> <SOURCE> <INNER>
       smap compose <OUTER> --inner <NAME=FILE>...

For more information, try '--help'.
";

/// Standard error: `compose` has SOURCE without INNER. It is reported as `no_maps_text` is.
pub const NO_INNER: &str = "\
error: the following required arguments were not provided:
  <INNER>

Usage: smap compose <OUTER> <SOURCE> <INNER>
       smap compose <OUTER> --inner <NAME=FILE>...

For more information, try '--help'.
";

/// Standard error: `sources` is to write the content of a source and to do something else.
pub const CONTENT_WITH_MORE: &str =
    "usage: not together: --content, and GENERATED, --base, --fit, --json or --sort\n";

/// Standard error: a map that is not there may be something else than `ok`.
pub const BAD_MISSING: &str = "usage: --missing takes ok alone\n";

/// Standard error: `sources` has an order that there is none of.
pub const BAD_ORDER: &str = "usage: --sort takes bytes alone\n";

/// Standard error: `sources` has an order, and no generated file.
pub const SORT_ALONE: &str = "usage: --sort without GENERATED\n";

/// Standard error: `sources` is to say how many mappings do not fit, and has no generated file.
pub const FIT_ALONE: &str = "usage: --fit without GENERATED\n";

/// Standard error: the last map of `fit` has no generated file.
pub const NO_GENERATED: &str = "usage: MAP without GENERATED\n";

/// Standard error: an argument without `=`, or without a path behind it, which is to have this form.
pub fn no_pair_line(alloc: Global, form: &str, argument: &str) -> Result<String, AllocError>
    ensures { IfOk result (λ text. string_bytes text ≡ no_pair_line form.now argument.now) }
{
    let argument = shown(alloc, argument)?;
    format!(in alloc; "usage: no {form}: {argument}\n")
}

/// Standard error: a command has neither a word nor a list, of which one will do. It is reported as clap reports any
/// argument that is missing.
pub fn no_maps_text(alloc: Global, command: &str) -> Result<String, AllocError>
    ensures { IfOk result (λ text. string_bytes text ≡ no_maps_text command.now) }
{
    format!(in alloc;
        "\
error: the following required arguments were not provided:
  <URL=FILE>... or --maps <LIST>

Usage: smap {command} <URL=FILE>...
       smap {command} --maps <LIST> [URL=FILE]...

For more information, try '--help'.
"
    )
}
