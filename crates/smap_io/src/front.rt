//! What stands at the front of bytes: a control sequence, or a byte that stays.
ghost use Rattle.std.specs.Prelude.{◌≡◌};
ghost use Rattle.smap_io.specs.Sequences.{goes_on, is_final_byte, is_intermediate_byte};
ghost use Rattle.smap_io.specs.Private.Front.{IsEnding, IsFront};

/// How many bytes a sequence may have.
pub const MOST_SEQUENCE_BYTES: usize = 128;

const ESCAPE: u8 = 0x1b;

/// What stands at the front of bytes.
#[derive(Clone, Copy)]
pub enum Front {
    /// There are none, or what may become a sequence: what follows decides.
    Open,
    /// A byte that stays.
    Byte(u8),
    /// A sequence of so many bytes, which is left out.
    Sequence(usize),
}

/// How a sequence ends.
#[derive(Clone, Copy)]
enum Ending {
    /// What follows decides.
    Open,
    /// It does not: there is none.
    Never,
    /// With the last of so many bytes.
    Behind(usize),
}

/// What stands at the front of these bytes, whatever follows them, where so many sequences are still left out.
pub fn front_of(bytes: &[u8], most: u64) -> Front
    ensures { IsFront bytes.now most result }
{
    let Some((first, behind_first)) = bytes.split_first() else {
        return Front::Open;
    };
    if *first != ESCAPE {
        return Front::Byte(*first);
    }
    let Some((second, behind)) = behind_first.split_first() else {
        return Front::Open;
    };
    if *second != b'[' {
        return Front::Byte(ESCAPE);
    }
    match ending_of(behind, MOST_SEQUENCE_BYTES - 2, false) {
        Ending::Open => Front::Open,
        Ending::Never => Front::Byte(ESCAPE),
        Ending::Behind(count) => {
            if most == 0 {
                return Front::Byte(ESCAPE);
            }
            Front::Sequence(count + 2)
        }
    }
}

// How a sequence goes on in these bytes, of which at most `most` are its own; whether an intermediate byte stands before
// them.
fn ending_of(bytes: &[u8], most: usize, is_behind_intermediate: bool) -> Ending
    ensures { IsEnding bytes.now most is_behind_intermediate result }
{
    if most == 0 {
        return Ending::Never;
    }
    let Some((byte, behind)) = bytes.split_first() else {
        return Ending::Open;
    };
    if is_final(*byte) {
        return Ending::Behind(1);
    }
    if !goes_on(is_behind_intermediate, *byte) {
        return Ending::Never;
    }
    match ending_of(behind, most - 1, is_intermediate(*byte)) {
        Ending::Open => Ending::Open,
        Ending::Never => Ending::Never,
        Ending::Behind(count) => Ending::Behind(count + 1),
    }
}

// Whether the byte may stand before the final one.
fn goes_on(is_behind_intermediate: bool, byte: u8) -> bool
    ensures { result ≡ goes_on is_behind_intermediate byte }
{
    is_intermediate(byte) || (byte >= 0x30 && byte <= 0x3f && !is_behind_intermediate)
}

fn is_intermediate(byte: u8) -> bool
    ensures { result ≡ is_intermediate_byte byte }
{
    byte >= 0x20 && byte <= 0x2f
}

fn is_final(byte: u8) -> bool
    ensures { result ≡ is_final_byte byte }
{
    byte >= 0x40 && byte <= 0x7e
}
