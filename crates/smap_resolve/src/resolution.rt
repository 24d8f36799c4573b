//! A source's text, made into its name.
ghost use Rattle.std.specs.Prelude.{◌≡◌, ◌++◌, length, option_copied, IfOk};
ghost use Rattle.std.specs.Cow.{cow_str_bytes};
ghost use Rattle.std.specs.Result.{result_ok};
ghost use Rattle.url.specs.Parser.{parse_url};
ghost use Rattle.smap_resolve.specs.Private.ParseAnswer.{parsed_url};
ghost use Rattle.smap_resolve.specs.SourceName.{name_of, root_prefix, source_name};

use crate::refusal::ResolveRefusal;
use crate::source_name::SourceName;
use std::alloc::{AllocError, Global};
use std::borrow::CowStr;
use url::{ParseError, ParseResult, Url};

/// The name of a source with this text, in a map with this `sourceRoot` that stands at `base` (ECMA-426, Resolving
/// sources): the URL that the URL Standard's parser (4.4, URL parsing) gives for the prefix, the text and the base.
///
/// Own: the prefix is empty where the root is absent or empty, the root where it ends in `/`, and else the root and
/// `/`; a text that does not parse is kept, after its prefix. A URL that `url` has no room for is refused and not kept.
#[tactic(auto, unfolding(crate::specs::SourceName::source_name))]
pub fn resolve(
    alloc: Global,
    root: Option<&str>,
    source: &str,
    base: Option<&Url>,
) -> Result<SourceName, ResolveRefusal>
    ensures { IfOk result (λ name. name_of name
        ≡ source_name (option_copied root.entry) source.now (option_copied base.entry)) }
{
    let text = prefixed(alloc, root, source)?;
    match parse(alloc, text.as_str(), base)? {
        Some(url) => Ok(SourceName::Resolved(String::from(url))),
        None => Ok(SourceName::Kept(text.into_owned(alloc)?)),
    }
}

// The text after the prefix that the root makes. Where there is no prefix, it is not copied.
fn prefixed<'a>(
    alloc: Global,
    root: Option<&str>,
    source: &'a str,
) -> Result<CowStr<'a>, AllocError>
    ensures { IfOk result (λ text. cow_str_bytes text
        ≡ root_prefix (option_copied root.entry) ++ source.now) }
{
    let root = root.unwrap_or("");
    if root.is_empty() {
        return Ok(CowStr::Borrowed(source));
    }
    let mut text = String::with_capacity(alloc, root.len() + "/".len() + source.len())?;
    text.push_str(root)?;
    if !root.ends_with('/') {
        text.push('/')?;
    }
    text.push_str(source)?;
    Ok(CowStr::Owned(text))
}

/// How many bytes the prefix has that the root puts before each source of its map.
pub fn prefix_bytes(root: Option<&str>) -> usize
    ensures { result ≡ length (root_prefix (option_copied root.entry)) }
{
    let root = root.unwrap_or("");
    if root.is_empty() || root.ends_with('/') {
        return root.len();
    }
    root.len() + "/".len()
}

// The URL of a text, or none where it does not parse.
fn parse(alloc: Global, text: &str, base: Option<&Url>) -> Result<Option<Url>, ResolveRefusal>
    ensures { IfOk result (λ url. url ≡ result_ok (parse_url (option_copied base.entry) text.now)) }
{
    url_or_none(match base {
        Some(base) => base.join(text),
        None => Url::parse(alloc, text),
    })
}

// That there was no room for a URL does not say that the text has none.
fn url_or_none(parsed: ParseResult<Url>) -> Result<Option<Url>, ResolveRefusal>
    ensures { result ≡ parsed_url parsed }
{
    match parsed {
        Ok(url) => Ok(Some(url)),
        Err(ParseError::Overflow) => Err(ResolveRefusal::UrlTooLong),
        Err(ParseError::OutOfMemory) => Err(ResolveRefusal::Memory),
        Err(_) => Ok(None),
    }
}
