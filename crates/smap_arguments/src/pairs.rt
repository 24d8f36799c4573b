//! Arguments that are pairs, as `URL=FILE`.
ghost use Rattle.std.specs.Prelude.{◌∷◌, [], IfErr, IfOk, codes, map, string_bytes};
ghost use Rattle.clap.specs.Words.{first_of, found_of, rows_of};
ghost use Rattle.smap_arguments.specs.Arguments.{ArePairs, GivesPairs, HasMaps, IsPair};
ghost use Rattle.smap_arguments.specs.Refusals.{IsNamedRefusal, ReportsBadPair, ReportsMaps, ReportsNoPair};

use crate::mistakes::{no_maps_text, no_pair_line};
use crate::usage::Usage;
use crate::values::has_text_in;
use clap::ArgMatches;
use std::alloc::Global;

/// The arguments of the form URL=FILE, cut into pairs. There has to be one, or a list of more.
pub fn maps_in(
    alloc: Global,
    matches: &ArgMatches<'_>,
    command: &str,
) -> Result<Vec<(String, String)>, Usage>
    ensures given { IfOk result (λ maps. GivesPairs (rows_of (found_of matches.now))
        (codes "URL=FILE") maps.items) }
    ensures some { IfOk result (λ maps. HasMaps maps.items
        (first_of (codes "LIST") (rows_of (found_of matches.now)))) }
    ensures refused { IfErr result (IsNamedRefusal
        (ReportsMaps command.now (rows_of (found_of matches.now)))) }
{
    let maps = pairs_in(alloc, matches, "URL=FILE")?;
    if maps.is_empty() && !has_text_in(matches, "LIST") {
        return Err(Usage::Words(no_maps_text(alloc, command)?));
    }
    Ok(maps)
}

/// The arguments of this form, cut into pairs. There may be none.
pub fn pairs_in(
    alloc: Global,
    matches: &ArgMatches<'_>,
    form: &str,
) -> Result<Vec<(String, String)>, Usage>
    ensures given { IfOk result (λ pairs. GivesPairs (rows_of (found_of matches.now)) form.now
        pairs.items) }
    ensures refused { IfErr result (IsNamedRefusal
        (ReportsBadPair (rows_of (found_of matches.now)) form.now)) }
{
    match matches.get_strs(form) {
        Some(words) => pairs_of(alloc, form, words),
        None => Ok(Vec::new(alloc)),
    }
}

fn pairs_of(alloc: Global, form: &str, arguments: &[&str]) -> Result<Vec<(String, String)>, Usage>
    ensures cut { IfOk result (λ pairs. ArePairs (map (λ argument. argument.now) arguments.now)
        pairs.items) }
    ensures refused { IfErr result (IsNamedRefusal
        (ReportsNoPair form.now (map (λ argument. argument.now) arguments.now))) }
{
    let mut pairs = Vec::new(alloc);
    for argument in arguments {
        let pair = pair_of(alloc, form, argument)?;
        match pairs.push(pair) {
            Ok(_) => {}
            Err(_) => return Err(Usage::Memory),
        }
    }
    Ok(pairs)
}

// The two parts of an argument, which is cut at its last `=`, since a URL or a name may have others.
fn pair_of(alloc: Global, form: &str, argument: &str) -> Result<(String, String), Usage>
    ensures cut { IfOk result (λ pair. IsPair argument.now (string_bytes pair.0)
        (string_bytes pair.1)) }
    ensures refused { IfErr result (IsNamedRefusal (ReportsNoPair form.now (argument.now ∷ []))) }
{
    match argument.rsplit_once('=') {
        Some((url, path)) => Ok((
            String::from_str(alloc, url)?,
            String::from_str(alloc, path)?,
        )),
        None => Err(Usage::Words(no_pair_line(alloc, form, argument)?)),
    }
}
