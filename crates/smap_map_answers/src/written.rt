//! Writing a composed map, without what is left out of it.
ghost use Rattle.std.specs.Prelude.{◌≡◌, ◌<◌, ◌++◌, ◌∷◌, [], length, option_copied, IfOk, OnOk};
ghost use Rattle.smap_record.specs.DebugId.{with_debug_id_of};
ghost use Rattle.smap_replies.specs.Outcome.{answer, reply_report};
ghost use Rattle.smap_map_answers.specs.Written.{composed_line, left_out_of};

use smap_command::WriteOptions;
use smap_compose::{Composed, LeftOut};
use smap_record::put_debug_id;
use smap_replies::Reply;
use std::alloc::{AllocError, Global};

/// What these options leave out of a composed map.
pub fn left_out_of(options: WriteOptions) -> LeftOut
    ensures { result ≡ left_out_of options }
{
    LeftOut {
        unused: options.prune,
        contents: options.no_content,
    }
}

/// The composed map as a line, with a debug id, where one is given.
pub fn written(alloc: Global, composed: Composed, id: Option<&str>) -> Result<Reply, AllocError>
    ensures { IfOk result (λ reply. reply_report reply
        ≡ answer (composed_line (option_copied id.entry) composed)) }
{
    let bytes = composed.write_owned(alloc)?;
    Ok(Reply::Bytes(line_of(alloc, bytes, id)?))
}

/// The text of a map, with a debug id as its last member, where one is given, and an LF.
pub fn line_of(alloc: Global, mut bytes: Vec<u8>, id: Option<&str>) -> Result<Vec<u8>, AllocError>
    requires { 0 < length bytes.items }
    ensures { IfOk result (λ line. line.items
        ≡ with_debug_id_of (option_copied id.entry) bytes.items ++ 10 ∷ []) }
{
    put_id(alloc, &mut bytes, id)?;
    bytes.push(b'\n')?;
    Ok(bytes)
}

// Writes a debug id, where one is given, into the text of a map.
fn put_id(alloc: Global, written: &mut Vec<u8>, id: Option<&str>) -> Result<(), AllocError>
    requires { 0 < length written.old.items }
    ensures { OnOk result (written.new.items
        ≡ with_debug_id_of (option_copied id.entry) written.old.items) }
{
    match id {
        Some(id) => put_debug_id(alloc, written, id),
        None => Ok(()),
    }
}
