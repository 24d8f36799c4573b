//! Which argument is nearest to a URL that none has.
ghost use Rattle.std.specs.Prelude.{◌≡◌, length, map, min, option_copied, option_map};
ghost use Rattle.smap_replies.specs.Arguments.{argument_of};
ghost use Rattle.smap_text_answers.specs.NearestUrl.{common_ending, file_ending, front_ending, nearer, nearest_of, shared, shared_so_far};

use smap_locations::{is_folder, without_query};

// How many bytes of a URL are compared with the prefix of a folder.
const MOST_FRONT_BYTES: usize = 1024;

/// The URL, or the prefix, of the first argument of those that share most with this URL, where one shares something.
pub fn nearest_of<'a>(url: &[u8], arguments: &'a [(String, String)]) -> Option<&'a str>
    ensures { option_copied result ≡ nearest_of url.now (map argument_of arguments.now) }
{
    let mut nearest = None;
    for argument in arguments {
        nearest = nearer(url, nearest, argument);
    }
    let (name, _) = nearest?;
    Some(name)
}

// Of an argument and the nearest so far the nearer.
fn nearer<'a>(
    url: &[u8],
    nearest: Option<&'a (String, String)>,
    argument: &'a (String, String),
) -> Option<&'a (String, String)>
    ensures { option_map argument_of (option_copied result)
        ≡ nearer url.now (option_map argument_of (option_copied nearest.entry))
        (argument_of argument.now) }
{
    if shared_so_far(url, nearest) < shared(url, argument) {
        Some(argument)
    } else {
        nearest
    }
}

// How much a URL shares with the nearest so far.
fn shared_so_far(url: &[u8], nearest: Option<&(String, String)>) -> usize
    ensures { result ≡
        shared_so_far url.now (option_map argument_of (option_copied nearest.entry)) }
{
    match nearest {
        Some(nearest) => shared(url, nearest),
        None => 0,
    }
}

// How much a URL shares with what an argument names: with the URL of a file an ending, and with the prefix of a folder one
// of its fronts does.
fn shared(url: &[u8], argument: &(String, String)) -> usize
    ensures { result ≡ shared url.now (argument_of argument.now) }
{
    let (name, path) = argument;
    if is_folder(path.as_bytes()) {
        front_ending(url, name.as_bytes())
    } else {
        file_ending(url, name.as_bytes())
    }
}

// How long the longer ending is that a URL and that of a file share, as they stand or both without a query and a fragment.
fn file_ending(url: &[u8], name: &[u8]) -> usize
    ensures { result ≡ file_ending url.now name.now }
{
    common_ending(url, name).max(common_ending(without_query(url), without_query(name)))
}

// How long the longest ending is that a front of a URL shares with a prefix.
fn front_ending(url: &[u8], prefix: &[u8]) -> usize
    ensures { result ≡ front_ending url.now prefix.now (min 1024 (length url.now)) }
{
    let most = url.len().min(MOST_FRONT_BYTES);
    let (mut count, mut longest) = (0, 0);
    while count < most {
        count += 1;
        longest = longest.max(common_ending(&url[..count], prefix));
    }
    longest
}

// How long the ending is that two texts share.
fn common_ending(one: &[u8], other: &[u8]) -> usize
    ensures { result ≡ common_ending one.now other.now }
{
    let mut count = 0;
    while count < one.len() && count < other.len() {
        if one[one.len() - 1 - count] != other[other.len() - 1 - count] {
            break;
        }
        count += 1;
    }
    count
}
