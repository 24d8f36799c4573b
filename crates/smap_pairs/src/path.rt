//! Whether a URL without a scheme is a path.
ghost use Rattle.std.specs.Prelude.{◌≡◌};
ghost use Rattle.smap_pairs.specs.Path.{before_next, is_of_no_path, is_path, is_strange};
ghost use Rattle.smap_pairs.specs.Private.PathReading.{first_after, first_begins, is_name_with, is_path_begun, is_path_read, path_after, start_after};
ghost use Rattle.smap_pairs.specs.Signs.{signs};

use crate::bytes::{is_edge_byte, is_letter_or_digit};
use crate::root::Root;
use crate::seen::{NOTHING, SeenByte};

/// As what the first piece of a path begins.
#[derive(Clone, Copy)]
pub enum Start {
    Nothing,
    /// Dots alone.
    Dots,
    /// A `~` alone.
    Home,
    /// A `+` or a `-`, as before what a list or a difference has.
    Mark,
    /// Other bytes.
    Name,
}

impl Start {
    fn after(self, byte: u8) -> Self
        ensures { result ≡ start_after self byte }
    {
        match self {
            Start::Nothing => match byte {
                b'.' => Start::Dots,
                b'~' => Start::Home,
                b'+' | b'-' => Start::Mark,
                _ => Start::Name,
            },
            Start::Dots if byte == b'.' => Start::Dots,
            Start::Mark => Start::Mark,
            _ => Start::Name,
        }
    }

    // Whether it is a name, where a letter or a digit is in it or not; or dots, `~` or nothing.
    fn is_name_with(self, has_letter: bool) -> bool
        ensures { result ≡ is_name_with has_letter self }
    {
        match self {
            Start::Name => has_letter,
            Start::Mark => false,
            _ => true,
        }
    }
}

/// What has been read of the first piece of a path.
#[derive(Clone, Copy)]
pub struct FirstPiece {
    pub root: Root,
    /// The last byte, and a `/` before the first.
    pub last: u8,
    pub start: Start,
    /// Whether a letter or a digit is in it.
    pub has_letter: bool,
    pub has_strange: bool,
    pub has_colon: bool,
}

impl FirstPiece {
    fn after(self, byte: u8, is_strange: bool) -> Self
        ensures { result ≡ first_after is_strange byte self }
    {
        FirstPiece {
            root: self.root.after(byte),
            last: byte,
            start: self.start.after(byte),
            has_letter: self.has_letter || is_letter_or_digit(byte),
            has_strange: self.has_strange || is_strange,
            has_colon: self.has_colon || byte == b':',
        }
    }

    fn begins_path(self) -> bool
        ensures { result ≡ is_path_begun self }
    {
        if self.root.is_whole() {
            return true;
        }
        if self.has_colon || is_edge_byte(self.last) {
            return false;
        }
        self.start.is_name_with(self.has_letter) && !self.has_strange
    }
}

/// What has been read of a URL without a scheme.
#[derive(Clone, Copy)]
pub enum PathReader {
    First(FirstPiece),
    /// More than the first piece: its last byte, but for dots and `~` behind an edge.
    Later(u8),
    /// All that decides whether it is a path.
    Read(bool),
}

impl PathReader {
    pub fn new() -> Self
        ensures { result ≡ PathReader.First first_begins }
    {
        PathReader::First(FirstPiece {
            root: Root::Begins,
            last: b'/',
            start: Start::Nothing,
            has_letter: false,
            has_strange: false,
            has_colon: false,
        })
    }

    /// What has been read with another byte, which may be strange in a first piece.
    pub fn after(self, byte: u8, is_strange: bool) -> Self
        ensures { result ≡ path_after is_strange byte self }
    {
        match self {
            PathReader::First(first) => match byte {
                b'?' => PathReader::Read(true),
                b'/' if first.begins_path() => PathReader::Later(b'/'),
                b'/' => PathReader::Read(false),
                _ => PathReader::First(first.after(byte, is_strange)),
            },
            PathReader::Later(last) => match byte {
                b'?' => PathReader::Read(true),
                b':' | b'<' | b'>' => PathReader::Read(false),
                b'/' if is_edge_byte(last) => PathReader::Read(false),
                _ => PathReader::Later(before_next(last, byte)),
            },
            PathReader::Read(is_path) => PathReader::Read(is_path),
        }
    }

    /// Whether a URL is a path, of which all has been read.
    pub fn is_path(self) -> bool
        ensures { result ≡ is_path_read self }
    {
        match self {
            PathReader::Read(is_path) => is_path,
            _ => true,
        }
    }
}

/// Whether a URL without a scheme is a path.
pub fn is_path(url: &[SeenByte]) -> bool
    ensures { result ≡ is_path is_strange (signs url.now) }
{
    let mut reader = PathReader::new();
    for seen in url {
        if seen.counts != NOTHING {
            reader = reader.after(seen.counts, is_strange(seen.counts));
        }
    }
    reader.is_path()
}

// What stands before the next byte: dots and `~` behind an edge are passed over.
fn before_next(last: u8, byte: u8) -> u8
    ensures { result ≡ before_next last byte }
{
    match byte {
        b'.' | b'~' if is_edge_byte(last) => last,
        _ => byte,
    }
}

// Whether a character begins with a byte that is no name of a path.
fn is_strange(byte: u8) -> bool
    ensures { result ≡ is_strange byte }
{
    matches!(byte, 0xc0..=0xc2 | 0xe0..=0xff)
}
