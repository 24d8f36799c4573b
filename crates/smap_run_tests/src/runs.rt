//! Running a command line over files in memory, and all that the run leaves.
ghost use Rattle.std.specs.Prelude.{◌≡◌, ⊤, false, IfOk};
ghost use Rattle.smap_answers.specs.Run.{IsRunnable};

use smap_answers::{FileReader, run_reading};
use smap_arguments::{Usage, parse};
use smap_command::Command;
use smap_io::{ByteSink, ByteSource, MemorySink, MemorySource, ReadFailure};
use smap_replies::UnreadCause;
use std::alloc::{AllocError, Global};

/// Files in memory: the path of each, and its text. Of two with one path the first is read.
#[derive(Clone, Copy)]
pub struct HeldFiles<'a>(pub &'a [(&'a str, &'a str)]);

impl FileReader for HeldFiles<'_> {
    ghost gives = { λ files number path result. ⊤ };

    ghost causes = { λ files path cause. ⊤ };

    fn read_file(&self, alloc: Global, _number: usize, path: &str) -> Result<Vec<u8>, ReadFailure> {
        for (held, text) in self.0 {
            if *held == path {
                return text.as_bytes().to_vec(alloc).or(Err(ReadFailure::Memory));
            }
        }
        Err(ReadFailure::Device)
    }

    fn read_regular(
        &self,
        alloc: Global,
        number: usize,
        path: &str,
    ) -> Result<Vec<u8>, ReadFailure> {
        self.read_file(alloc, number, path)
    }

    // The path says why, where it is one of these words.
    fn unread_cause(&self, path: &str) -> UnreadCause {
        match path {
            "folder" => UnreadCause::Folder,
            "shut" => UnreadCause::NoPermission,
            "broken" => UnreadCause::Other,
            _ if self.0.iter().any(|file| file.0 == path) => UnreadCause::Other,
            _ => UnreadCause::Missing,
        }
    }
}

/// How many bytes an output takes at most.
pub const MOST_TAKEN: usize = 262_144;

// How many bytes a call of a device moves at most.
const MOST_MOVED: usize = 8_192;

/// The status, and what stands on the output and on the error stream, with `|` between two.
pub fn left_text(
    alloc: Global,
    status: u8,
    output: &[u8],
    errors: &[u8],
) -> Result<String, AllocError> {
    let output = String::from_utf8_lossy(alloc, output)?;
    let errors = String::from_utf8_lossy(alloc, errors)?;
    format!(in alloc; "{status}|{output}|{errors}")
}

/// The command that the words of a command line give behind the program's name, or what is said of them.
pub fn command_of(alloc: Global, words: &[&str]) -> Result<Command, String>
    ensures { IfOk result IsRunnable }
{
    match owned(alloc, words) {
        Ok(words) => match parse(alloc, words) {
            Ok(command) => Ok(command),
            Err(Usage::Help(text) | Usage::Words(text)) => Err(text),
            Err(Usage::Memory) => Err(String::new(alloc)),
        },
        Err(_) => Err(String::new(alloc)),
    }
}

fn owned(alloc: Global, words: &[&str]) -> Result<Vec<String>, AllocError> {
    let mut owned = Vec::new(alloc);
    owned.push(String::from_str(alloc, "smap")?)?;
    for word in words {
        owned.push(String::from_str(alloc, word)?)?;
    }
    Ok(owned)
}

/// What a command line leaves over files in memory and this input, with devices that never fail.
pub fn left(
    alloc: Global,
    files: &[(&str, &str)],
    words: &[&str],
    input: &[u8],
) -> Result<String, AllocError> {
    let input = MemorySource::new(input.to_vec(alloc)?, MOST_MOVED, 0);
    let (mut output, mut errors) = (sink(alloc)?, sink(alloc)?);
    match status_of_words(alloc, files, words, input, &mut output, &mut errors) {
        Ok(status) => left_text(alloc, status, output.bytes(), errors.bytes()),
        Err(text) => left_text(alloc, 2, b"", text.as_bytes()),
    }
}

/// What a command leaves.
pub fn left_by(
    alloc: Global,
    files: &[(&str, &str)],
    command: &Command,
    input: &[u8],
) -> Result<String, AllocError>
    requires { IsRunnable command.now }
{
    let input = MemorySource::new(input.to_vec(alloc)?, MOST_MOVED, 0);
    let (mut output, mut errors) = (sink(alloc)?, sink(alloc)?);
    let status = status_of(alloc, files, command, input, &mut output, &mut errors);
    left_text(alloc, status, output.bytes(), errors.bytes())
}

// An output with room for all that a run of these tests writes.
fn sink(alloc: Global) -> Result<MemorySink, AllocError>
    ensures { IfOk result (λ sink. sink.failed ≡ false) }
{
    let room = Vec::with_capacity(alloc, MOST_TAKEN)?;
    Ok(MemorySink::new(room, MOST_MOVED, 0))
}

/// The same of a command line, or what is said of its words. A command is let go in this call alone, as that costs a proof
/// much.
pub fn status_of_words<R: ByteSource + Drop, W: ByteSink>(
    alloc: Global,
    files: &[(&str, &str)],
    words: &[&str],
    input: R,
    output: &mut W,
    errors: &mut MemorySink,
) -> Result<u8, String>
    requires input_works { (R.seen input).failed ≡ false }
    requires output_works { (W.seen output.old).failed ≡ false }
    requires errors_work { errors.old.failed ≡ false }
{
    match command_of(alloc, words) {
        Ok(command) => Ok(status_of(alloc, files, &command, input, output, errors)),
        Err(text) => Err(text),
    }
}

/// The status of a command over files in memory and devices that have not failed. All runs go by this call, as the contract
/// of the one in it is read once then.
pub fn status_of<R: ByteSource + Drop, W: ByteSink>(
    alloc: Global,
    files: &[(&str, &str)],
    command: &Command,
    input: R,
    output: &mut W,
    errors: &mut MemorySink,
) -> u8
    requires command { IsRunnable command.now }
    requires input_works { (R.seen input).failed ≡ false }
    requires output_works { (W.seen output.old).failed ≡ false }
    requires errors_work { errors.old.failed ≡ false }
{
    let (status, _) = run_reading(
        alloc,
        &HeldFiles(files),
        command,
        false,
        input,
        output,
        errors,
        &mut None,
    );
    status
}
