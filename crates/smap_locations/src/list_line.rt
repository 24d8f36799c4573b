//! A line of a list of maps.
ghost use Rattle.std.specs.Prelude.{◌≡◌, option_map};
ghost use Rattle.std.specs.Result.{result_map_both};
ghost use Rattle.smap_locations.specs.ListLine.{is_folder, is_passed_over, is_rule, line_entry, pattern_text};

use crate::refusal::ListFault;

/// What a line of a list says: what stands before its first TAB, and what behind that. An empty line, and one that begins
/// with `#`, says nothing; any other without a TAB is refused.
pub fn entry_of_line(line: &str) -> Result<Option<(&str, &str)>, ListFault>
    ensures { result_map_both (option_map (λ entry. (entry.0.now, entry.1.now))) (λ fault. fault)
        result
        ≡ line_entry line.now }
{
    if is_passed_over(line.as_bytes()) {
        return Ok(None);
    }
    match line.split_once('\t') {
        Some(entry) => Ok(Some(entry)),
        None => Err(ListFault::NoTab),
    }
}

// Whether a line says nothing.
fn is_passed_over(line: &[u8]) -> bool
    ensures { result ≡ is_passed_over line.now }
{
    line.is_empty() || line.starts_with(b"#")
}

/// Whether a path is that of a folder, and a prefix that of URLs: it ends in `/`.
pub fn is_folder(path: &[u8]) -> bool
    ensures { result ≡ is_folder path.now }
{
    path.ends_with(b"/")
}

/// The text of a pattern: what stands behind the `*` that begins the URL of an entry.
pub fn pattern_text(url: &[u8]) -> Option<&[u8]>
    ensures { option_map (λ text. text.now) result ≡ pattern_text url.now }
{
    let (byte, text) = url.split_first()?;
    if *byte == b'*' { Some(text) } else { None }
}

/// Whether an entry is a rule, which says where the maps of many URLs are: it has a pattern or a folder.
pub fn is_rule(url: &str, path: &str) -> bool
    ensures { result ≡ is_rule url.now path.now }
{
    pattern_text(url.as_bytes()).is_some() || is_folder(path.as_bytes())
}
