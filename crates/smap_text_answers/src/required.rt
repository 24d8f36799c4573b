//! Whether enough of the frames of a text got their places, where that is asked for.
ghost use Rattle.std.specs.Prelude.{◌≡◌, string_bytes, IfOk};
ghost use Rattle.smap_replies.specs.Streams.{sinks_seen};
ghost use Rattle.smap_text_answers.specs.Request.{request_seen};
ghost use Rattle.smap_text_answers.specs.Required.{Requires, RequiresOf, few_line, is_few, is_share_missed, lacks_any, placed};

use crate::ending::counted_text;
use crate::request::TextRequest;
use crate::storing::StoreEnd;
use smap_codes::Code;
use smap_command::Required;
use smap_io::ByteSink;
use smap_replies::{DONE, Failure, FileReader, report};
use smap_trace::{RewriteCounts, Summary};
use std::alloc::{AllocError, Global};

/// Refuses a text, which was written, where fewer of its frames, or places anywhere, got their places than are asked for,
/// and gives the status of that.
pub fn require<F: FileReader, W: ByteSink, E: ByteSink>(
    alloc: Global,
    request: &TextRequest<'_, '_, F>,
    end: &StoreEnd<RewriteCounts>,
    output: &mut W,
    errors: &mut E,
    first: &mut Option<Code>,
) -> u8
    ensures { Requires (request_seen request.now) end.now.result result
        (sinks_seen (W.seen output.old) (E.seen errors.old) first.old)
        (sinks_seen (W.seen output.new) (E.seen errors.new) first.new) }
{
    let Ok(counts) = end.result else {
        return DONE;
    };
    match request.options.required {
        Some(required) => {
            let anywhere = request.options.anywhere;
            require_of(
                alloc,
                required,
                anywhere,
                &counts.summary,
                output,
                errors,
                first,
            )
        }
        None => DONE,
    }
}

// The same, of a text that has these counts.
fn require_of<W: ByteSink, E: ByteSink>(
    alloc: Global,
    required: Required,
    anywhere: bool,
    summary: &Summary,
    output: &mut W,
    errors: &mut E,
    first: &mut Option<Code>,
) -> u8
    ensures { RequiresOf required anywhere summary.now result
        (sinks_seen (W.seen output.old) (E.seen errors.old) first.old)
        (sinks_seen (W.seen output.new) (E.seen errors.new) first.new) }
{
    if !is_few(required, summary) {
        return DONE;
    }
    let failure = match few_line(alloc, anywhere, summary) {
        Ok(line) => Failure::refusal(Code::X6, line),
        Err(_) => Failure::Memory,
    };
    report(&Err(failure), output, errors, first)
}

// Whether fewer frames got their places than are asked for.
fn is_few(required: Required, summary: &Summary) -> bool
    ensures { result ≡ is_few required summary.now }
{
    match required {
        Required::One => lacks_any(summary),
        Required::Percent(share) => is_share_missed(share, summary),
    }
}

// Whether there were frames and none of them got its place.
fn lacks_any(summary: &Summary) -> bool
    ensures { result ≡ lacks_any summary.now }
{
    summary.frames > 0 && placed(summary) == 0
}

// Whether fewer frames than so many of a hundred got their places.
fn is_share_missed(share: u32, summary: &Summary) -> bool
    ensures { result ≡ is_share_missed share summary.now }
{
    u128::from(placed(summary)) * 100 < u128::from(share) * u128::from(summary.frames)
}

// How many frames got their places: those whose lines were dropped for them too.
fn placed(summary: &Summary) -> u64
    ensures { result ≡ placed summary.now }
{
    summary.mapped.saturating_add(summary.hidden)
}

// Standard error: of how many frames, or places anywhere, how many got their places.
fn few_line(alloc: Global, anywhere: bool, summary: &Summary) -> Result<String, AllocError>
    ensures { IfOk result (λ text. string_bytes text ≡ few_line anywhere summary.now) }
{
    let (code, placed, frames) = (Code::X6.text(), placed(summary), summary.frames);
    let counted = counted_text(anywhere);
    format!(in alloc; "refused: {code} {placed} of {frames}{counted}\n")
}
