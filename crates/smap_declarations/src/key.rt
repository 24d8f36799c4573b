//! The first bytes of a name as one number, which tells most names apart.
ghost use Rattle.smap_declarations.specs.Private.Keys.{IsKey};

use crate::bytes::split_byte;

// How many bytes a key has.
pub const KEY_BYTES: usize = 8;

// A name's first bytes, the first in the highest place. A shorter name has zeros behind its last.
pub fn key_of(name: &[u8]) -> u64
    ensures { IsKey name.now result }
{
    let mut key: u64 = 0;
    let mut rest = name;
    for i in 0..KEY_BYTES {
        match split_byte(rest) {
            Some((byte, behind)) => {
                key = key * 256 + byte as u64;
                rest = behind;
            }
            None => key *= 256,
        }
    }
    key
}
