//! What is said of a pattern that is not what it looks like: `*.js`, `**/app.js`.
ghost use Rattle.std.specs.Prelude.{◌≡◌, map, string_bytes};
ghost use Rattle.std.specs.List.{list_any};
ghost use Rattle.smap_locations.specs.Patterns.{is_separator};
ghost use Rattle.smap_replies.specs.Arguments.{argument_of};
ghost use Rattle.smap_text_answers.specs.Dotted.{TellsPatterns, is_dotted, is_starred};

use smap_io::ByteSink;
use smap_locations::is_separator;
use smap_replies::print_error;

const DOTTED: &str =
    "a pattern such as *.js has only files that are called .js: *app.js has app.js, and * alone has each URL\n";

const STARRED: &str =
    "a * stands for other text only as the first character: not **/app.js, but *app.js has each app.js\n";

/// Says once what a pattern of a file has that begins with `.`, where one of the arguments is such a one; or that a `*` past
/// the beginning is just that, where one has it.
pub fn tell_patterns<E: ByteSink>(arguments: &[(String, String)], errors: &mut E)
    ensures { TellsPatterns (map argument_of arguments.now) (E.seen errors.old)
        (E.seen errors.new) }
{
    if has_dotted(arguments) {
        print_error(errors, DOTTED.as_bytes());
    } else if has_starred(arguments) {
        print_error(errors, STARRED.as_bytes());
    }
}

// Whether one of the arguments is such a pattern.
fn has_dotted(arguments: &[(String, String)]) -> bool
    ensures { result ≡ list_any (λ a. is_dotted a.0) (map argument_of arguments.now) }
{
    is_any_dotted(arguments)
}

// The same, of the pairs as they are.
fn is_any_dotted(arguments: &[(String, String)]) -> bool
    ensures { result ≡ list_any (λ a. is_dotted (string_bytes a.0)) arguments.now }
{
    arguments.iter().any(|(url, _)| is_dotted(url.as_bytes()))
}

// Whether this is a pattern of one piece that begins with `.`.
fn is_dotted(url: &[u8]) -> bool
    ensures { result ≡ is_dotted url.now }
{
    url.starts_with(b"*.") && !has_separator(url)
}

// Whether a text has more than one piece.
fn has_separator(url: &[u8]) -> bool
    ensures { result ≡ list_any is_separator url.now }
{
    url.iter().any(|byte| is_separator(*byte))
}

// Whether one of the arguments has a `*` past its beginning.
fn has_starred(arguments: &[(String, String)]) -> bool
    ensures { result ≡ list_any (λ a. is_starred a.0) (map argument_of arguments.now) }
{
    is_any_starred(arguments)
}

// The same, of the pairs as they are.
fn is_any_starred(arguments: &[(String, String)]) -> bool
    ensures { result ≡ list_any (λ a. is_starred (string_bytes a.0)) arguments.now }
{
    arguments.iter().any(|(url, _)| is_starred(url.as_bytes()))
}

// Whether a URL or a pattern has a `*` behind its first byte.
fn is_starred(url: &[u8]) -> bool
    ensures { result ≡ is_starred url.now }
{
    url.iter().skip(1).any(|byte| *byte == b'*')
}
