//! The bytes of a text that were given and are not yet done.
ghost use Rattle.std.specs.Prelude.{◌≡◌, ◌<◌, ◌≤◌, ◌+◌, ◌^◌, ◌++◌, [], drop, false, length, take, OnErr, OnOk};
ghost use Rattle.smap_lines.specs.Lines.{has_line_end};
ghost use Rattle.smap_piecewise.specs.FirstLine.{line_at};
ghost use Rattle.smap_piecewise.specs.Private.Given.{IsFirstLine, line_size};

use memchr::memchr;
use std::alloc::{AllocError, Global};
use std::marker::Model;

/// The first line of a text: how many bytes it has, the LF aside, and whether an LF ends it.
#[derive(Clone, Copy)]
pub struct FirstLine {
    pub bytes: usize,
    pub is_ended: bool,
}

/// Bytes that were given and are not yet done: those of a room behind the first so many, which are done; and how many of
/// them were gone through for an LF, and have none.
#[derive(Drop)]
pub struct Given {
    room: Vec<u8>,
    done: usize,
    searched: usize,
}

impl Model for Given {
    ghost use Rattle.std.specs.Prelude.{◌≡◌, ◌≤◌, ◌+◌, ℕ, List, drop, false, length, take};
    ghost use Rattle.smap_lines.specs.Lines.{has_line_end};

    ghost Value = { List ℕ };

    ghost view = { λ given. drop given.done given.room.items };

    ghost invariant = { λ given. (given.done + given.searched ≤ length given.room.items)
        × (has_line_end (take given.searched (drop given.done given.room.items)) ≡ false) };
}

impl Given {
    /// None. The call takes no memory.
    pub fn new(alloc: Global) -> Given
        ensures { result ≡ [] }
    {
        Given {
            room: Vec::new(alloc),
            done: 0,
            searched: 0,
        }
    }

    /// All of them.
    pub fn bytes(&self) -> &[u8]
        ensures { result.now ≡ self.now }
    {
        &self.room[self.done..]
    }

    /// Takes bytes behind them.
    pub fn push(&mut self, bytes: &[u8]) -> Result<(), AllocError>
        ensures pushed { OnOk result (self.new ≡ self.old ++ bytes.now) }
        ensures memory { OnErr result (self.new ≡ self.old) }
    {
        self.tidy();
        self.room.extend_from_slice(bytes)
    }

    // Moves them to the front of the room, where they are no more than those that are done: so no byte is moved twice for
    // one that is done.
    fn tidy(&mut self)
        ensures { self.new ≡ self.old }
    {
        let left = self.room.len() - self.done;
        if left > self.done {
            return;
        }
        self.room.copy_within(self.done.., 0);
        self.room.truncate(left);
        self.done = 0;
    }

    /// Lets go of the first so many, which are done.
    pub fn cut(&mut self, count: usize)
        requires { count ≤ length self.old }
        ensures { self.new ≡ drop count self.old }
    {
        self.done += count;
        self.searched = self.searched.saturating_sub(count);
    }

    /// The first line of them. Bytes are gone through once where there is no LF.
    pub fn first_line(&mut self) -> FirstLine
        ensures same { self.new ≡ self.old }
        ensures line { IsFirstLine self.old result }
    {
        let line = first_line_of(&self.room[self.done..], self.searched);
        if !line.is_ended {
            self.searched = line.bytes;
        }
        line
    }
}

/// The first line of a text, without its LF.
pub fn first_line_in(text: &[u8]) -> &[u8]
    ensures { result.now ≡ line_at text.now }
{
    let line = first_line_of(text, 0);
    &text[..line.bytes]
}

// The first line of a text, of which it is known that the first so many bytes have no LF.
fn first_line_of(text: &[u8], searched: usize) -> FirstLine
    requires within { searched ≤ length text.now }
    requires none { has_line_end (take searched text.now) ≡ false }
    ensures { IsFirstLine text.now result }
{
    match memchr(b'\n', &text[searched..]) {
        Some(place) => FirstLine {
            bytes: searched + place,
            is_ended: true,
        },
        None => FirstLine {
            bytes: text.len(),
            is_ended: false,
        },
    }
}

impl FirstLine {
    /// How many bytes it has with its LF, where it has one.
    pub fn size(self) -> usize
        requires { line_size self < 2 ^ 64 }
        ensures { result ≡ line_size self }
    {
        if self.is_ended {
            self.bytes + 1
        } else {
            self.bytes
        }
    }
}
