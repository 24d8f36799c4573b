//! Running a command over its files and streams.
ghost use Rattle.std.specs.Prelude.{◌≡◌, false, None, Option, option_copied};
ghost use Rattle.smap_replies.specs.Files.{causes_loaded, gives_loaded};
ghost use Rattle.smap_answers.specs.Private.Place.{place_of};
ghost use Rattle.smap_answers.specs.Run.{Runs, RunsOver, RunsTold};
ghost use Rattle.smap_command.specs.Runnable.{IsRunnable, strips_ansi};
ghost use Rattle.smap_replies.specs.Streams.{streams_seen};

use crate::telling::tell;
use smap_codes::Code;
use smap_command::{Command, Direction, USUAL_INTERVAL, Url};
use smap_io::{ByteSink, ByteSource, WithoutSequences};
use smap_map_answers::{
    answer_check, answer_compose, answer_compose_all, answer_content, answer_explain, answer_fit,
    answer_generated, answer_lookup, answer_mappings, answer_positions, answer_raw, answer_show,
    answer_sources,
};
use smap_replies::{FileReader, Loaded, LoadedFiles, MapReader, report};
use smap_text_answers::{TextRequest, answer_locate, answer_rewrite};
use std::alloc::Global;

/// Runs a command over files in memory, of which the caller gives one for each path of the command, in their order; one of
/// another path counts as a file that can't be read. The command leaves no control sequences out of its input. Otherwise
/// the same as `run_reading`.
pub fn run<R: ByteSource, W: ByteSink, E: ByteSink>(
    alloc: Global,
    command: &Command,
    files: &[Loaded],
    input: &mut R,
    output: &mut W,
    errors: &mut E,
) -> u8
    requires command { IsRunnable command.now }
    requires as_it_is { strips_ansi command.now ≡ false }
    requires input_works { (R.seen input.old).failed ≡ false }
    requires output_works { (W.seen output.old).failed ≡ false }
    requires errors_work { (E.seen errors.old).failed ≡ false }
    ensures { (first : Option Code) × RunsTold (gives_loaded files.now) (causes_loaded files.now)
        false command.now result
        (streams_seen (R.seen input.old) (W.seen output.old) (E.seen errors.old) None)
        (streams_seen (R.seen input.new) (W.seen output.new) (E.seen errors.new) first) }
{
    let mut first = None;
    run_told(
        alloc,
        &LoadedFiles(files),
        command,
        false,
        input,
        output,
        errors,
        &mut first,
    )
}

/// Runs a command over the files that it names, and gives the exit status and the input again. Of several files each is let
/// go once its map is read; one that can't be read is reported before any refusal, and the first of them ends the run; but
/// `Check` reports each file by itself, and `Fit` each pair, and goes on to the next, up to a failure of standard output.
/// The code of the first refusal that is reported on standard error is put into `first`, where that has none. Where the
/// command asks for it, the control sequences of a terminal are left out of the input before anything else looks at it. The
/// caller gives a command at whose interval checkpoints may stand and whose numbers of bytes are in their ranges, and
/// devices that have not failed. With `hint` standard error is told at the end, where nothing else was said, that `rewrite`
/// mapped nothing, and which option takes the places of lines that are no frames; and why a file can't be read or is no map.
pub fn run_reading<F: FileReader, R: ByteSource, W: ByteSink, E: ByteSink>(
    alloc: Global,
    reader: &F,
    command: &Command,
    hint: bool,
    mut input: R,
    output: &mut W,
    errors: &mut E,
    first: &mut Option<Code>,
) -> (u8, R)
    requires command { IsRunnable command.now }
    requires input_works { (R.seen input).failed ≡ false }
    requires output_works { (W.seen output.old).failed ≡ false }
    requires errors_work { (E.seen errors.old).failed ≡ false }
    ensures { RunsOver (F.gives reader.now) (F.causes reader.now) hint command.now result.0
        (streams_seen (R.seen input) (W.seen output.old) (E.seen errors.old) first.old)
        (streams_seen (R.seen result.1) (W.seen output.new) (E.seen errors.new) first.new) }
{
    if !command.strips_ansi() {
        let status = run_told(
            alloc, reader, command, hint, &mut input, output, errors, first,
        );
        return (status, input);
    }
    let mut text = WithoutSequences::new(input);
    let status = run_told(
        alloc, reader, command, hint, &mut text, output, errors, first,
    );
    (status, text.into_inner())
}

// The base and the interval of the checkpoints of a command that says them itself.
fn place_of(command: &Command) -> (Option<&Url>, u32)
    ensures base { option_copied result.0 ≡ (place_of command.now).0 }
    ensures interval { result.1 ≡ (place_of command.now).1 }
{
    match command {
        Command::Check { base, interval, .. }
        | Command::Lookup { base, interval, .. }
        | Command::Rewrite { base, interval, .. } => (base.as_ref(), *interval),
        Command::Show { base, .. } | Command::Compose { base, .. } => {
            (base.as_ref(), USUAL_INTERVAL)
        }
        _ => (None, USUAL_INTERVAL),
    }
}

// Runs a command over an input as it is read, and tells behind that what is to be told of its files.
fn run_told<F: FileReader, R: ByteSource, W: ByteSink, E: ByteSink>(
    alloc: Global,
    reader: &F,
    command: &Command,
    hint: bool,
    input: &mut R,
    output: &mut W,
    errors: &mut E,
    first: &mut Option<Code>,
) -> u8
    requires command { IsRunnable command.now }
    requires input_works { (R.seen input.old).failed ≡ false }
    requires output_works { (W.seen output.old).failed ≡ false }
    requires errors_work { (E.seen errors.old).failed ≡ false }
    ensures { RunsTold (F.gives reader.now) (F.causes reader.now) hint command.now result
        (streams_seen (R.seen input.old) (W.seen output.old) (E.seen errors.old) first.old)
        (streams_seen (R.seen input.new) (W.seen output.new) (E.seen errors.new) first.new) }
{
    let status = run_over(alloc, reader, command, hint, input, output, errors, first);
    tell(alloc, reader, command, hint, status, errors);
    status
}

// Runs a command over an input as it is read.
fn run_over<F: FileReader, R: ByteSource, W: ByteSink, E: ByteSink>(
    alloc: Global,
    reader: &F,
    command: &Command,
    hint: bool,
    input: &mut R,
    output: &mut W,
    errors: &mut E,
    first: &mut Option<Code>,
) -> u8
    requires command { IsRunnable command.now }
    requires input_works { (R.seen input.old).failed ≡ false }
    requires output_works { (W.seen output.old).failed ≡ false }
    requires errors_work { (E.seen errors.old).failed ≡ false }
    ensures { Runs (F.gives reader.now) (F.causes reader.now) hint command.now result
        (streams_seen (R.seen input.old) (W.seen output.old) (E.seen errors.old) first.old)
        (streams_seen (R.seen input.new) (W.seen output.new) (E.seen errors.new) first.new) }
{
    let (base, interval) = place_of(command);
    let maps = MapReader {
        files: reader,
        base,
        interval,
    };
    let outcome = match command {
        Command::Raw {
            line,
            column,
            interval,
        } => answer_raw(alloc, input, *line, *column, *interval),
        Command::Check { path, options, .. } => {
            return answer_check(alloc, &maps, path, options, output, errors, first);
        }
        Command::Show { path, options, .. } => answer_show(alloc, reader, path, base, *options),
        Command::Lookup {
            path,
            line,
            column,
            after,
            options,
            ..
        } => answer_lookup(
            alloc,
            &maps,
            path,
            (*line, *column),
            Direction::of(*after),
            *options,
        ),
        Command::Generated(asked) => answer_generated(alloc, reader, asked),
        Command::Positions(asked) => answer_positions(alloc, reader, asked, input, output),
        Command::Mappings(asked) => answer_mappings(alloc, reader, asked, output),
        Command::Sources(asked) => answer_sources(alloc, reader, asked),
        Command::SourceContent(asked) => answer_content(alloc, reader, asked),
        Command::Rewrite {
            maps: arguments,
            hide_ignored,
            options,
            ..
        } => {
            let request = TextRequest {
                maps: &maps,
                arguments,
                hide_ignored: *hide_ignored,
                options,
                hint,
            };
            return answer_rewrite(alloc, &request, input, output, errors, first);
        }
        Command::Locate(asked) => {
            return answer_locate(alloc, reader, asked, input, output, errors, first);
        }
        Command::Compose {
            outer,
            source,
            inner,
            options,
            ..
        } => answer_compose(alloc, &maps, outer, *source, inner, *options, errors),
        Command::ComposeAll(asked) => answer_compose_all(alloc, reader, asked, errors),
        Command::Fit(asked) => {
            return answer_fit(alloc, reader, asked, output, errors, first);
        }
        Command::Explain(asked) => answer_explain(alloc, asked),
    };
    report(&outcome, output, errors, first)
}
