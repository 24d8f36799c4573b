//! Rewriting the text on standard input: over maps that are read first, or over those that it names.
ghost use Rattle.std.specs.Prelude.{◌≡◌, false, option_copied};
ghost use Rattle.smap_command.specs.Options.{HasBytes};
ghost use Rattle.smap_replies.specs.Streams.{streams_seen};
ghost use Rattle.smap_text_answers.specs.Rewrite.{RunsRewrite};

use crate::request::TextRequest;
use crate::rewriting::rewrite_from;
use crate::trace::rewrite_trace;
use smap_codes::Code;
use smap_io::{ByteSink, ByteSource};
use smap_replies::{FileReader, report};
use std::alloc::Global;

/// Rewrites the text on standard input, and gives the exit status. Where there are files for URLs alone, and no options,
/// their maps are read before the text, and any that is refused ends it; else maps are read when the text names them. The
/// code of the first refusal is put into `first`, where that has none. The caller gives numbers of bytes that are in their
/// ranges, and devices that have not failed.
pub fn answer_rewrite<F: FileReader, R: ByteSource, W: ByteSink, E: ByteSink>(
    alloc: Global,
    request: &TextRequest<'_, '_, F>,
    input: &mut R,
    output: &mut W,
    errors: &mut E,
    first: &mut Option<Code>,
) -> u8
    requires bytes { HasBytes request.now.options.now }
    requires input_works { (R.seen input.old).failed ≡ false }
    requires output_works { (W.seen output.old).failed ≡ false }
    ensures { RunsRewrite (F.gives request.now.maps.now.files.now)
        (F.causes request.now.maps.now.files.now)
        (option_copied request.now.maps.now.base) request.now.maps.now.interval
        request.now.arguments.now request.now.hide_ignored request.now.options.now
        request.now.hint result
        (streams_seen (R.seen input.old) (W.seen output.old) (E.seen errors.old) first.old)
        (streams_seen (R.seen input.new) (W.seen output.new) (E.seen errors.new) first.new) }
{
    if request.asks_for_more() {
        return rewrite_from(alloc, request, input, output, errors, first);
    }
    let (maps, arguments) = (request.maps, request.arguments);
    let outcome = rewrite_trace(alloc, maps, arguments, request.hide_ignored, input, output);
    report(&outcome, output, errors, first)
}
