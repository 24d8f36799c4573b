//! What stands behind a name and before a pair.
ghost use Rattle.std.specs.Prelude.{◌≡◌, ◌++◌, ◌∷◌, [], ◌+◌, ◌-◌, ◌<◌, ◌≤◌, ◌^◌, ◌&&◌, if◌then◌else◌, IfOk, MatchOption, false, length, not, slice_range, true, vec_capacity, IsOk};
ghost use Rattle.smap_pairs.specs.Behind.{AreQueries, HasRoom, IsBehind, KeepsRoom, begins_query, fits, is_barred, is_barred_byte, is_behind_slash, is_in_folder, is_noted, lowest, most_noted};
ghost use Rattle.smap_pairs.specs.FilePaths.{is_file_name};
ghost use Rattle.smap_pairs.specs.Private.Rest.{IsEnd, IsPiece, IsRest, piece_with, rest_empty, rest_fits};
ghost use Rattle.smap_pairs.specs.Signs.{text_of};

use crate::brackets::Closed;
use crate::bytes::is_control;
use crate::file_path::is_file_name;
use crate::seen::SeenByte;
use std::alloc::{AllocError, Global};

/// How many bytes before a pair it has at most.
pub const MOST_REST: usize = 2048;

/// The first byte with which it may begin, where `before` is the line up to a pair whose piece begins at byte `piece`.
pub fn lowest(before: &[SeenByte], piece: usize) -> usize
    ensures { result ≡ lowest before.now piece }
{
    before.len().saturating_sub(MOST_REST).max(piece)
}

/// What stands behind a name and before a pair: from which bytes on it may stand behind the prefix of a folder that has a
/// file for it, and where it begins as a query or a fragment. Its room is kept from pair to pair.
#[derive(Drop)]
pub struct Behind {
    end: usize,
    folders: Vec<bool>,
    queries: Vec<usize>,
}

impl Behind {
    /// Of no pair, with room for those of lines of at most so many bytes.
    pub fn with_room(alloc: Global, most_bytes: usize) -> Result<Behind, AllocError>
        ensures { IfOk result (HasRoom (most_noted most_bytes)) }
    {
        let most = most_bytes.min(MOST_REST);
        Ok(Behind {
            end: 0,
            folders: Vec::with_capacity(alloc, most)?,
            queries: Vec::with_capacity(alloc, most)?,
        })
    }

    /// Notes what stands before a pair, whose piece begins at byte `piece` of its line: `before` is the line up to it, and
    /// `text` the bytes of that. It reads at most 2,048 of them, each once, and twice more as one of a piece of a path.
    /// Where there is room for so many, no memory is asked for.
    pub fn note(&mut self, text: &[u8], before: &[SeenByte], piece: usize) -> Result<(), AllocError>
        requires { text_of before.now ≡ text.now }
        ensures noted { IfOk result (λ _. IsBehind before.now piece self.new) }
        ensures room { HasRoom (most_noted (length before.now)) self.old → IsOk result }
        ensures keeps_room { KeepsRoom self.old self.new }
    {
        self.folders.clear();
        self.queries.clear();
        self.end = before.len();
        let low = lowest(before, piece);
        let mut rest = Rest::empty(before.len());
        while rest.at > low {
            let Some(with) = rest.with_byte_before(text, before) else {
                return Ok(());
            };
            rest = with;
            self.put(rest, before[rest.at].byte)?;
        }
        Ok(())
    }

    // Notes what stands from a byte on.
    fn put(&mut self, rest: Rest, byte: u8) -> Result<(), AllocError>
        ensures end { self.new.end ≡ self.old.end }
        ensures folders { IfOk result (λ _. self.new.folders.items ≡
            self.old.folders.items ++ (rest.is_path && rest_fits rest) ∷ []) }
        ensures queries { IfOk result (λ _. self.new.queries.items ≡
            self.old.queries.items ++ (if begins_query byte && rest_fits rest then rest.at ∷ [] else [])) }
        ensures room { length self.old.folders.items < vec_capacity self.old.folders →
            length self.old.queries.items < vec_capacity self.old.queries → IsOk result }
        ensures keeps_room { KeepsRoom self.old self.new }
    {
        if begins_query(byte) && rest.fits() {
            self.queries.push(rest.at)?;
        }
        self.folders.push(rest.is_path && rest.fits())?;
        Ok(())
    }

    /// Whether from a byte on it may stand behind the prefix of a folder, and the folder has a file for it.
    pub fn is_in_folder(&self, at: usize) -> bool
        ensures { result ≡ is_noted self.now at }
    {
        if at >= self.end {
            return false;
        }
        match self.folders.get(self.end - 1 - at) {
            Some(noted) => *noted,
            None => false,
        }
    }

    /// The bytes with which it may begin as a query or a fragment, from the last on.
    pub fn queries(&self) -> &[usize]
        ensures { result.now ≡ self.now.queries.items }
    {
        self.queries.as_slice()
    }
}

/// A law: each query and each fragment that fits is noted, and no other byte.
pub fn each_query_is_noted()
    ensures { AreQueries }
{}

// What stands from a byte on before a pair.
#[derive(Clone, Copy)]
struct Rest {
    at: usize,
    closed: Closed,
    piece: Piece,
    // Whether it stands behind a `/`, and is the path of a file.
    is_path: bool,
}

// The first piece of a rest: which byte ends it, whether the path has a `\`, and whether what stands behind it is the path
// of a file or none.
#[derive(Clone, Copy)]
struct Piece {
    end: usize,
    has_backslash: bool,
    has_path: bool,
}

impl Rest {
    // Nothing, before a pair at this byte.
    fn empty(end: usize) -> Rest
        ensures { result ≡ rest_empty end }
    {
        Rest {
            at: end,
            closed: Closed::none(),
            piece: Piece {
                end,
                has_backslash: false,
                has_path: true,
            },
            is_path: false,
        }
    }

    // With the byte before it, where that may stand there: else nothing fits that begins before it.
    fn with_byte_before(self, text: &[u8], before: &[SeenByte]) -> Option<Rest>
        requires bytes { text_of before.now ≡ text.now }
        requires some { 0 < self.at }
        requires rest { IsRest before.now self }
        ensures { MatchOption result
            (IsEnd before.now self.at)
            (λ rest. (rest.at + 1 ≡ self.at) × IsRest before.now rest) }
    {
        let at = self.at - 1;
        let byte = before[at].byte;
        if is_barred(before[at]) {
            return None;
        }
        let Some(closed) = self.closed.with(byte) else {
            return None;
        };
        let piece = self.piece.with(at, byte, self.is_path);
        Some(Rest {
            at,
            closed,
            piece,
            is_path: piece.begins_path(at, text),
        })
    }

    // Whether it may stand behind a name.
    fn fits(self) -> bool
        ensures { result ≡ rest_fits self }
    {
        self.closed.is_none() && !self.piece.has_backslash
    }
}

impl Piece {
    // With the byte before it, where `is_path` says whether the rest is the path of a file.
    fn with(self, at: usize, byte: u8, is_path: bool) -> Piece
        ensures { result ≡ piece_with at byte is_path self }
    {
        match byte {
            b'?' | b'#' => Piece {
                end: at,
                has_backslash: false,
                has_path: true,
            },
            b'/' => Piece {
                end: at,
                has_backslash: self.has_backslash,
                has_path: is_path,
            },
            b'\\' => Piece {
                end: self.end,
                has_backslash: true,
                has_path: self.has_path,
            },
            _ => self,
        }
    }

    // Whether it begins at a byte of a text that stands behind a `/`, and the path of a file with it.
    fn begins_path(self, at: usize, text: &[u8]) -> bool
        requires order { at ≤ self.end }
        requires within { self.end ≤ length text.now }
        ensures { result ≡ (is_behind_slash text.now at
            && (is_file_name (slice_range text.now at self.end) && self.has_path)) }
    {
        if at == 0 || text[at - 1] != b'/' || !self.has_path {
            return false;
        }
        is_file_name(&text[at..self.end])
    }
}

/// Whether a byte does not stand behind a name, or what it counts as.
pub fn is_barred(seen: SeenByte) -> bool
    ensures { result ≡ is_barred seen }
{
    is_barred_byte(seen.byte) || is_barred_byte(seen.counts)
}

fn is_barred_byte(byte: u8) -> bool
    ensures { result ≡ is_barred_byte byte }
{
    match byte {
        b'"' | b'\'' | b'`' | b'<' | b'>' => true,
        _ => is_control(byte),
    }
}

/// Whether a query or a fragment begins with a byte.
pub fn begins_query(byte: u8) -> bool
    ensures { result ≡ begins_query byte }
{
    byte == b'?' || byte == b'#'
}
