//! Printing for the user what a command comes to.
ghost use Rattle.std.specs.Prelude.{◌≡◌, false, true, OnErr, OnOk};
ghost use Rattle.smap_io.specs.Device.{Takes, TakesFront};
ghost use Rattle.smap_replies.specs.Outcome.{report_of};
ghost use Rattle.smap_replies.specs.Streams.{Ends, IsReportedTo, sinks_seen};

use crate::lines;
use crate::outcome::{FAILED, Failure, Reply};
use smap_codes::Code;
use smap_io::{ByteSink, DeviceFault, write_all};

/// Writes the text of what a command comes to to the stream that it is for and flushes that, and gives the exit status.
/// Where standard output fails, standard error says so. A failure of standard error is passed over. The caller gives a
/// standard output that has not failed where there is an answer for it. The code of a refusal is put into `first`, where
/// that has none. The call takes no memory.
pub fn report<W: ByteSink, E: ByteSink>(
    outcome: &Result<Reply, Failure>,
    output: &mut W,
    errors: &mut E,
    first: &mut Option<Code>,
) -> u8
    requires output_works { (report_of outcome.now).is_answer ≡ true
        → (W.seen output.old).failed ≡ false }
    ensures { Ends (report_of outcome.now) result
        (sinks_seen (W.seen output.old) (E.seen errors.old) first.old)
        (sinks_seen (W.seen output.new) (E.seen errors.new) first.new) }
{
    match outcome {
        Ok(reply) => match print(output, reply.bytes()) {
            Ok(()) => reply.status(),
            Err(_) => {
                print_error(errors, lines::OUTPUT_FAILED.as_bytes());
                FAILED
            }
        },
        Err(failure) => {
            print_error(errors, failure.bytes());
            *first = first.or(failure.code());
            failure.status()
        }
    }
}

// Writes the text and flushes.
fn print<W: ByteSink>(output: &mut W, text: &[u8]) -> Result<(), DeviceFault>
    ensures whole { OnOk result (Takes (W.seen output.old).taken (W.seen output.new).taken
        text.now) }
    ensures flushed { OnOk result ((W.seen output.new).flushed ≡ true) }
    ensures no_failure { OnOk result ((W.seen output.new).failed ≡ (W.seen output.old).failed) }
    ensures front { OnErr result (TakesFront (W.seen output.old).taken (W.seen output.new).taken
        text.now) }
    ensures failure { OnErr result ((W.seen output.new).failed ≡ true) }
{
    write_all(output, text)?;
    output.flush()
}

/// Prints the text for the user, and passes over a failure of the device.
pub fn print_error<E: ByteSink>(errors: &mut E, text: &[u8])
    ensures { IsReportedTo (E.seen errors.old) (E.seen errors.new) text.now }
{
    let _ = print(errors, text);
}
