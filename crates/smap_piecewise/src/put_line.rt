//! What becomes of a line, over the maps that are known.
ghost use Rattle.std.specs.Prelude.{◌≡◌, ◌++◌, IfOk, MatchOption, OnErr, OnOk, map, option_map, true};
ghost use Rattle.std.specs.List.{concat};
ghost use Rattle.smap_lines.specs.Lines.{end_in};
ghost use Rattle.smap_trace.specs.FrameOf.{frame_of};
ghost use Rattle.smap_trace.specs.FrameSeen.{parts_seen};
ghost use Rattle.smap_trace.specs.FunctionNames.{named, with_head};
ghost use Rattle.smap_trace.specs.HeadSeen.{head_seen};
ghost use Rattle.smap_trace.specs.Hiding.{hiding_seen};
ghost use Rattle.smap_trace.specs.Rewritten.{fate_at, original_in};
ghost use Rattle.smap_trace.specs.SightSeen.{original_seen, replacement_seen};
ghost use Rattle.smap_piecewise.specs.Known.{with_declared};
ghost use Rattle.smap_piecewise.specs.NamedMapSeen.{names_in, stated_in};
ghost use Rattle.smap_piecewise.specs.Private.PutLine.{IsFramePut, IsLinePut, IsUnknown};

use crate::appended::{append_all, append_line};
use crate::known::{KnownMaps, NamedMap};
use smap_lines::end_of_line;
use smap_trace::{
    Frame, HeadCut, Hiding, MOST_PRINTED_BYTES, Original, Replacement, frame, head_cut,
    name_declared_beside, original_at, print_place,
};
use std::alloc::{AllocError, Global};

/// What a line was.
#[derive(Clone, Copy)]
pub struct LineKind {
    pub is_frame: bool,
    pub is_mapped: bool,
    pub is_hidden: bool,
}

/// Appends what becomes of a line, which comes without its LF, and says what it was; `None` where it is a frame of whose URL
/// it is not known what map it has.
pub fn put_line<K: KnownMaps>(
    alloc: Global,
    maps: &mut K,
    hiding: &Hiding<'_>,
    line: &[u8],
    is_ended: bool,
    output: &mut Vec<u8>,
) -> Result<Option<LineKind>, AllocError>
    ensures same { K.known maps.new ≡ K.known maps.old }
    ensures same_declared { K.declared maps.new ≡ K.declared maps.old }
    ensures still { K.still maps.new ≡ K.still maps.old }
    ensures put { IfOk result (λ kind. MatchOption kind
        (IsUnknown (with_declared (K.known maps.old) (K.declared maps.old)) (frame_of line.now)
        output.old.items output.new.items)
        (IsLinePut (with_declared (K.known maps.old) (K.declared maps.old))
        (hiding_seen hiding.now) (record { bytes = line.now; is_ended = is_ended })
        output.old.items output.new.items)) }
    ensures memory { OnErr result (output.new.items ≡ output.old.items) }
{
    let Some(frame) = frame(line) else {
        append_line(output, line, is_ended)?;
        return Ok(Some(LineKind {
            is_frame: false,
            is_mapped: false,
            is_hidden: false,
        }));
    };
    if !maps.ask(frame.url) {
        return Ok(None);
    }
    let kind = put_named(
        alloc,
        maps.named_for(frame.url),
        hiding,
        &frame,
        line,
        is_ended,
        output,
    )?;
    Ok(Some(kind))
}

// Appends what becomes of the line of a frame whose URL has this map, with these declarations of its program, and says what
// it was.
fn put_named(
    alloc: Global,
    found: Option<NamedMap<'_>>,
    hiding: &Hiding<'_>,
    frame: &Frame<'_>,
    line: &[u8],
    is_ended: bool,
    output: &mut Vec<u8>,
) -> Result<LineKind, AllocError>
    ensures put { IfOk result (IsFramePut (fate_at (hiding_seen hiding.now)
        (named (names_in found.entry) (parts_seen frame.now))
        (original_in (parts_seen frame.now) (stated_in found.entry)))
        (record { bytes = line.now; is_ended = is_ended }) output.old.items output.new.items) }
    ensures memory { OnErr result (output.new.items ≡ output.old.items) }
{
    let original = original_in(alloc, found, frame);
    let head = named_head(alloc, found, frame);
    put_frame(original, hiding, frame, &head, line, is_ended, output)
}

// Where a frame comes from, if its URL has this map, and that an origin for it.
fn original_in<'m>(
    alloc: Global,
    found: Option<NamedMap<'m>>,
    frame: &Frame<'_>,
) -> Option<Original<'m>>
    ensures { option_map original_seen result
        ≡ original_in (parts_seen frame.now) (stated_in found.entry) }
{
    original_at(alloc, found?.map, frame.line, frame.column)
}

// What stands before the URL of a frame, with the written name of its function, where its map and the declarations of its
// program give one.
fn named_head<'a>(alloc: Global, found: Option<NamedMap<'a>>, frame: &Frame<'a>) -> HeadCut<'a>
    ensures { head_seen result ≡ (named (names_in found.entry) (parts_seen frame.now)).head }
{
    let Some(found) = found else {
        return whole_head(frame.head);
    };
    if found.declared.is_none() {
        return whole_head(frame.head);
    }
    let Some(cut) = head_cut(frame.head) else {
        return whole_head(frame.head);
    };
    let NamedMap { map, declared } = found;
    match name_declared_beside(
        alloc,
        Some(map),
        declared,
        cut.name,
        frame.line,
        frame.column,
    ) {
        Some(name) => HeadCut {
            before: cut.before,
            name,
            behind: cut.behind,
        },
        None => whole_head(frame.head),
    }
}

// What stands before a URL, as one piece.
fn whole_head(head: &[u8]) -> HeadCut<'_>
    ensures { head_seen result ≡ head.now }
{
    HeadCut {
        before: head,
        name: &[],
        behind: &[],
    }
}

// Appends what becomes of the line of a frame that comes from here, before whose URL this stands then, and says what it was.
fn put_frame(
    original: Option<Original<'_>>,
    hiding: &Hiding<'_>,
    frame: &Frame<'_>,
    head: &HeadCut<'_>,
    line: &[u8],
    is_ended: bool,
    output: &mut Vec<u8>,
) -> Result<LineKind, AllocError>
    ensures put { IfOk result (IsFramePut (fate_at (hiding_seen hiding.now)
        (with_head (head_seen head.now) (parts_seen frame.now))
        (option_map original_seen original.entry))
        (record { bytes = line.now; is_ended = is_ended }) output.old.items output.new.items) }
    ensures memory { OnErr result (output.new.items ≡ output.old.items) }
{
    if let Some(original) = original {
        if hiding.hides(original.ignored, original.name) {
            return Ok(kind_of_frame(false, true));
        }
        if let Some(name) = original.name {
            let replacement = Replacement {
                name,
                line: original.line,
                column: original.column,
            };
            put_replaced(head, &replacement, frame.tail, is_ended, output)?;
            return Ok(kind_of_frame(true, false));
        }
    }
    append_line(output, line, is_ended)?;
    Ok(kind_of_frame(false, false))
}

// That of a frame.
fn kind_of_frame(is_mapped: bool, is_hidden: bool) -> LineKind
    ensures { result ≡ record { is_frame = true; is_mapped = is_mapped; is_hidden = is_hidden } }
{
    LineKind {
        is_frame: true,
        is_mapped,
        is_hidden,
    }
}

// Appends a frame, of which this stands before the URL and this behind the column, with its original in place of its place,
// and with the end of its line.
fn put_replaced(
    head: &HeadCut<'_>,
    replacement: &Replacement<'_>,
    tail: &[u8],
    is_ended: bool,
    output: &mut Vec<u8>,
) -> Result<(), AllocError>
    ensures put { OnOk result (output.new.items ≡ output.old.items
        ++ ((head_seen head.now ++ replacement_seen replacement.now ++ tail.now)
        ++ end_in is_ended)) }
    ensures memory { OnErr result (output.new.items ≡ output.old.items) }
{
    let mut room = [0; MOST_PRINTED_BYTES];
    let pieces = pieces_of(
        *head,
        replacement.name.as_bytes(),
        print_place(replacement.line, replacement.column, &mut room),
        tail,
        end_of_line(is_ended),
    );
    append_all(output, &pieces)
}

// What a frame is joined of.
fn pieces_of<'a>(
    head: HeadCut<'a>,
    name: &'a [u8],
    place: &'a [u8],
    tail: &'a [u8],
    end: &'a [u8],
) -> [&'a [u8]; 7]
    ensures { concat (map (λ piece. piece.now) result)
        ≡ (head_seen head.entry ++ (name.now ++ place.now) ++ tail.now) ++ end.now }
{
    [head.before, head.name, head.behind, name, place, tail, end]
}
