//! The path of a file in a folder.
ghost use Rattle.std.specs.Prelude.{◌≡◌};
ghost use Rattle.std.specs.List.{list_all};
ghost use Rattle.smap_pairs.specs.FilePaths.{IsByParts, is_file_name, is_plain_byte, is_plain_piece};

/// Whether a piece of a path is the name of a file, or of a folder in a folder.
pub fn is_file_name(piece: &[u8]) -> bool
    ensures { result ≡ is_file_name piece.now }
{
    if !is_plain_piece(piece) || !has_plain_bytes(piece) {
        return false;
    }
    match str::from_utf8(piece) {
        Ok(_) => true,
        Err(_) => false,
    }
}

fn has_plain_bytes(piece: &[u8]) -> bool
    ensures { result ≡ list_all is_plain_byte piece.now }
{
    piece.iter().all(|byte| is_plain_byte(*byte))
}

// Whether it names neither the folder itself nor the one that it is in.
fn is_plain_piece(piece: &[u8]) -> bool
    ensures { result ≡ is_plain_piece piece.now }
{
    !piece.is_empty() && piece != b".".as_slice() && piece != b"..".as_slice()
}

// Whether a byte may stand in the name of a file: no control byte, and none that begins a drive or a folder elsewhere.
fn is_plain_byte(byte: u8) -> bool
    ensures { result ≡ is_plain_byte byte }
{
    byte >= 0x20 && byte != 0x7f && byte != b'\\' && byte != b':'
}

/// A law: a path is one of a file where it is UTF-8, and its bytes and its pieces are plain.
pub fn paths_of_files_are_plain()
    ensures { IsByParts }
{}
