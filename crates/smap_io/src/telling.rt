//! Bytes told apart: those that stay, and those of control sequences.
ghost use Rattle.smap_io.specs.Private.Given.{Tells};

use crate::front::{Front, front_of};

/// What was told of some bytes.
#[derive(Clone, Copy)]
pub struct Told {
    /// How many bytes were put into the room.
    pub count: usize,
    /// How many bytes at the end are left, since there was no room, or since what follows them decides.
    pub left: usize,
    /// How many sequences are still left out.
    pub most: u64,
}

/// Puts the bytes that stay into `room`, and leaves out at most `most` sequences.
pub fn tell(bytes: &[u8], most: u64, room: &mut [u8]) -> Told
    ensures { Tells bytes.now most room.new result }
{
    let mut rest = bytes;
    let mut most = most;
    let mut count = 0;
    while count < room.len() {
        match front_of(rest, most) {
            Front::Open => break,
            Front::Byte(byte) => {
                room[count] = byte;
                count += 1;
                rest = rest.split_at(1).1;
            }
            Front::Sequence(length) => {
                most -= 1;
                rest = &rest[length..];
            }
        }
    }
    Told {
        count,
        left: rest.len(),
        most,
    }
}
