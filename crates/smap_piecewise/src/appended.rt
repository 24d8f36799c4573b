//! Output that grows.
ghost use Rattle.std.specs.Prelude.{◌≡◌, ◌++◌, OnErr, OnOk, map};
ghost use Rattle.std.specs.List.{concat};
ghost use Rattle.smap_lines.specs.Lines.{end_in};

use smap_lines::end_of_line;
use std::alloc::AllocError;

/// Appends pieces, one after another. Where there is no memory for all, none is there.
pub fn append_all(output: &mut Vec<u8>, pieces: &[&[u8]]) -> Result<(), AllocError>
    ensures appended { OnOk result (output.new.items
        ≡ output.old.items ++ concat (map (λ piece. piece.now) pieces.now)) }
    ensures memory { OnErr result (output.new.items ≡ output.old.items) }
{
    let len = output.len();
    for piece in pieces {
        if output.extend_from_slice(piece).is_err() {
            output.truncate(len);
            return Err(AllocError);
        }
    }
    Ok(())
}

/// Appends a line, with an LF where it has one. Where there is no memory for it, nothing is there.
pub fn append_line(output: &mut Vec<u8>, line: &[u8], is_ended: bool) -> Result<(), AllocError>
    ensures appended { OnOk result (output.new.items
        ≡ output.old.items ++ (line.now ++ end_in is_ended)) }
    ensures memory { OnErr result (output.new.items ≡ output.old.items) }
{
    let pieces = both(line, end_of_line(is_ended));
    append_all(output, &pieces)
}

// A line and its end.
fn both<'a>(line: &'a [u8], end: &'a [u8]) -> [&'a [u8]; 2]
    ensures { concat (map (λ piece. piece.now) result) ≡ line.now ++ end.now }
{
    [line, end]
}
