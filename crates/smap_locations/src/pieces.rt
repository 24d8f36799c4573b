//! Where a text stands in a URL.
ghost use Rattle.std.specs.Prelude.{◌≡◌, option_map};
ghost use Rattle.smap_locations.specs.Patterns.{begins_piece, begins_with_separator, ends_in_separator, has_ending, is_separator, path_byte, rest_behind, rest_here, slash_for};

/// Whether a URL ends with a text, and a piece of it begins there.
pub fn has_ending(text: &[u8], url: &[u8]) -> bool
    ensures { result ≡ has_ending text.now url.now }
{
    match url.strip_suffix(text) {
        Some(before) => text.is_empty() || begins_piece(before, text),
        None => false,
    }
}

/// What a URL has behind the first place where a text stands in it and a piece of it begins.
pub fn rest_behind<'u>(text: &[u8], url: &'u [u8]) -> Option<&'u [u8]>
    ensures { option_map (λ rest. rest.now) result ≡ rest_behind text.now url.now }
{
    let mut begins = true;
    let mut left = url;
    while let Some((byte, behind)) = left.split_first() {
        if let Some(rest) = rest_here(text, begins, left) {
            return Some(rest);
        }
        begins = is_separator(*byte);
        left = behind;
    }
    None
}

// What a URL has behind a text with which it begins; `begins` says whether a piece begins there.
fn rest_here<'u>(text: &[u8], begins: bool, url: &'u [u8]) -> Option<&'u [u8]>
    ensures { option_map (λ rest. rest.now) result ≡ rest_here text.now begins url.now }
{
    if begins || begins_with_separator(url) {
        url.strip_prefix(text)
    } else {
        None
    }
}

// Whether behind these bytes of a URL a text begins with a piece, or with what stands before one.
fn begins_piece(before: &[u8], text: &[u8]) -> bool
    ensures { result ≡ begins_piece before.now text.now }
{
    before.is_empty() || ends_in_separator(before) || begins_with_separator(text)
}

/// Whether a text begins with `/` or `\`.
pub fn begins_with_separator(text: &[u8]) -> bool
    ensures { result ≡ begins_with_separator text.now }
{
    text.starts_with(b"/") || text.starts_with(b"\\")
}

/// Whether a text ends in `/` or `\`.
pub fn ends_in_separator(text: &[u8]) -> bool
    ensures { result ≡ ends_in_separator text.now }
{
    text.ends_with(b"/") || text.ends_with(b"\\")
}

/// Whether a byte is `/` or `\`.
pub fn is_separator(byte: u8) -> bool
    ensures { result ≡ is_separator byte }
{
    byte == b'/' || byte == b'\\'
}

/// A byte of a path, where `\` stands for `/` if it has backslashes.
pub fn path_byte(has_backslashes: bool, byte: u8) -> u8
    ensures { result ≡ path_byte has_backslashes byte }
{
    if has_backslashes {
        slash_for(byte)
    } else {
        byte
    }
}

/// A byte of a path, where `\` stands for `/`.
pub fn slash_for(byte: u8) -> u8
    ensures { result ≡ slash_for byte }
{
    if byte == b'\\' { b'/' } else { byte }
}
