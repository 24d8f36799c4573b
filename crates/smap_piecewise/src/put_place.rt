//! What becomes of a place, over the maps that are known.
ghost use Rattle.std.specs.Prelude.{◌≡◌, ◌≤◌, ◌++◌, IfOk, MatchOption, OnErr, is_some, length, map, option_map, slice_range, true, unwrap_or};
ghost use Rattle.std.specs.List.{concat};
ghost use Rattle.smap_pairs.specs.LinePlaces.{span_url};
ghost use Rattle.smap_anywhere.specs.NamedParts.{begin_at};
ghost use Rattle.smap_trace.specs.HeadSeen.{head_seen};
ghost use Rattle.smap_piecewise.specs.Known.{with_declared};
ghost use Rattle.smap_piecewise.specs.NamedMapSeen.{found_in, names_in};
ghost use Rattle.smap_piecewise.specs.Private.PutPlace.{IsPlacePut, IsPlaceUnknown, function_put, place_put};

use crate::appended::append_all;
use crate::known::{KnownMaps, NamedMap};
use smap_anywhere::{find_replacement, function_before, url_of};
use smap_pairs::Span;
use smap_record::ReadyMap;
use smap_trace::{HeadCut, MOST_PRINTED_BYTES, name_declared_beside, print_place};
use std::alloc::{AllocError, Global};

/// Appends what becomes of a place of a text, whose part begins at byte `from`, and says whether it is replaced; `None`
/// where it is not known what map its URL has, which is then `wanted`. In `room` a URL is put together that stands there
/// with two backslashes for one.
pub fn put_place<K: KnownMaps>(
    alloc: Global,
    maps: &mut K,
    text: &[u8],
    from: usize,
    span: &Span,
    room: &mut [u8],
    wanted: &mut Vec<u8>,
    output: &mut Vec<u8>,
) -> Result<Option<bool>, AllocError>
    requires here { from ≡ begin_at true text.now from span.now }
    requires after { from ≤ span.now.start }
    requires order { span.now.start ≤ span.now.url_end }
    requires some { span.now.url_end ≤ span.now.end }
    requires within { span.now.end ≤ length text.now }
    requires room { length text.now ≤ length room.old }
    ensures same { K.known maps.new ≡ K.known maps.old }
    ensures same_declared { K.declared maps.new ≡ K.declared maps.old }
    ensures still { K.still maps.new ≡ K.still maps.old }
    ensures room { length room.new ≡ length room.old }
    ensures put { IfOk result (λ put. MatchOption put
        (IsPlaceUnknown (with_declared (K.known maps.old) (K.declared maps.old))
        (span_url text.now span.now) wanted.new.items output.old.items output.new.items)
        (IsPlacePut (with_declared (K.known maps.old) (K.declared maps.old)) text.now from span.now
        output.old.items output.new.items)) }
    ensures memory { OnErr result (output.new.items ≡ output.old.items) }
{
    let url = url_of(text, span, room);
    if !maps.ask(url) {
        wanted.clear();
        wanted.extend_from_slice(url)?;
        return Ok(None);
    }
    let is_mapped = put_over(alloc, maps.named_for(url), text, from, span, output)?;
    Ok(Some(is_mapped))
}

// Appends what becomes of a place where its URL has this map, with these declarations of its program, and says whether it is
// replaced.
fn put_over(
    alloc: Global,
    found: Option<NamedMap<'_>>,
    text: &[u8],
    from: usize,
    span: &Span,
    output: &mut Vec<u8>,
) -> Result<bool, AllocError>
    requires here { from ≡ begin_at true text.now from span.now }
    requires after { from ≤ span.now.start }
    requires some { span.now.start ≤ span.now.end }
    requires within { span.now.end ≤ length text.now }
    ensures put { IfOk result (λ _. output.new.items ≡ output.old.items
        ++ unwrap_or (place_put (found_in found.entry) text.now from span.now)
        (slice_range text.now from span.now.end)) }
    ensures mapped { IfOk result (λ is_mapped. is_mapped
        ≡ is_some (place_put (found_in found.entry) text.now from span.now)) }
    ensures memory { OnErr result (output.new.items ≡ output.old.items) }
{
    let Some(replacement) = find_replacement(alloc, map_of(found), span) else {
        output.extend_from_slice(&text[from..span.end])?;
        return Ok(false);
    };
    let function = function_put(alloc, found, text, from, span);
    let mut room = [0; MOST_PRINTED_BYTES];
    let pieces = pieces_of(
        function,
        replacement.name.as_bytes(),
        print_place(replacement.line, replacement.column, &mut room),
    );
    append_all(output, &pieces)?;
    Ok(true)
}

// The map alone.
fn map_of<'m>(found: Option<NamedMap<'m>>) -> Option<&'m ReadyMap>
    ensures { option_map (λ map. map.now.stated) result ≡ (found_in found.entry).0 }
{
    let found = found?;
    Some(found.map)
}

// What is put for the function of the frame that a place is in, whose part begins at byte `from`: with its written name,
// where its map and the declarations of its program give one.
fn function_put<'a>(
    alloc: Global,
    found: Option<NamedMap<'a>>,
    text: &'a [u8],
    from: usize,
    span: &Span,
) -> HeadCut<'a>
    requires here { from ≡ begin_at true text.now from span.now }
    requires after { from ≤ span.now.start }
    requires within { span.now.start ≤ length text.now }
    ensures { head_seen result ≡ function_put (names_in found.entry) text.now from span.now }
{
    let stays = HeadCut {
        before: &text[from..span.start],
        name: &[],
        behind: &[],
    };
    let Some(found) = found else {
        return stays;
    };
    if found.declared.is_none() {
        return stays;
    }
    let Some(cut) = function_before(text, from, span) else {
        return stays;
    };
    let NamedMap { map, declared } = found;
    match name_declared_beside(alloc, Some(map), declared, cut.name, span.line, span.column) {
        Some(name) => HeadCut {
            before: &[],
            name,
            behind: cut.behind,
        },
        None => stays,
    }
}

// What is put where a place is replaced.
fn pieces_of<'a>(function: HeadCut<'a>, name: &'a [u8], place: &'a [u8]) -> [&'a [u8]; 5]
    ensures { concat (map (λ piece. piece.now) result)
        ≡ head_seen function.entry ++ (name.now ++ place.now) }
{
    [function.before, function.name, function.behind, name, place]
}
