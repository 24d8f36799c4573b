//! Where the files come from that a command names.
ghost use Rattle.std.specs.Prelude.{◌≡◌, Err, IfErr, IfOk, Ok, ⊤};
ghost use Rattle.smap_replies.specs.Files.{MayCause, MayRead, causes_loaded, gives_loaded, has_loaded};

use smap_io::{FromStd, ReadFailure, read_all};
use smap_record::MOST_FILE_BYTES;
use std::alloc::Global;
use std::fs::{File, metadata};
use std::io;

/// A reader of the files that a command names.
pub trait FileReader {
    // What reading a file may give.
    ghost gives: { Self → MayRead };

    // Which causes may be told of a path.
    ghost causes: { Self → MayCause };

    /// The bytes of the file at this path, whose number among the paths of the command is this, from 0. Of a longer file
    /// the first 67,108,865 will do: a map file that has so many is refused for that.
    fn read_file(&self, alloc: Global, number: usize, path: &str) -> Result<Vec<u8>, ReadFailure>
        ensures read { IfOk result (λ bytes. gives self.now number path.now (Ok bytes.items)) }
        ensures failure { IfErr result (λ failure. gives self.now number path.now (Err failure)) };

    /// The same of a regular file. No device, no pipe and no folder is opened.
    fn read_regular(&self, alloc: Global, number: usize, path: &str) -> Result<Vec<u8>, ReadFailure>
        ensures read { IfOk result (λ bytes. gives self.now number path.now (Ok bytes.items)) }
        ensures failure { IfErr result (λ failure. gives self.now number path.now (Err failure)) }
    {
        self.read_file(alloc, number, path)
    }

    /// Why the file at this path, which could not be read, can't be.
    fn unread_cause(&self, path: &str) -> UnreadCause
        ensures { causes self.now path.now result };
}

/// Why a file can't be read.
#[derive(Clone, Copy)]
pub enum UnreadCause {
    /// There is no file at the path.
    Missing,
    /// The path is that of a folder.
    Folder,
    /// The file may not be read.
    NoPermission,
    /// None of these is known.
    Other,
}

/// The files of the machine, of which a contract sees neither bytes nor causes.
impl FileReader for HostRuntime {
    ghost gives = { λ rt number path result. ⊤ };

    ghost causes = { λ rt path cause. ⊤ };

    // A byte more than a map file may have shows that it is too large.
    fn read_file(&self, alloc: Global, _number: usize, path: &str) -> Result<Vec<u8>, ReadFailure> {
        match File::open(self, path) {
            Ok(file) => read_all(alloc, &mut FromStd::new(file), MOST_FILE_BYTES + 1),
            Err(error) if error.kind() == io::ErrorKind::OutOfMemory => Err(ReadFailure::Memory),
            Err(_) => Err(ReadFailure::Device),
        }
    }

    // It is asked about before it is opened.
    fn read_regular(
        &self,
        alloc: Global,
        number: usize,
        path: &str,
    ) -> Result<Vec<u8>, ReadFailure> {
        if let Ok(found) = metadata(self, path)
            && found.is_file()
        {
            return self.read_file(alloc, number, path);
        }
        Err(ReadFailure::Device)
    }

    // The file is asked about anew, and opened only where it is a regular one.
    fn unread_cause(&self, path: &str) -> UnreadCause {
        match metadata(self, path) {
            Ok(found) if found.is_dir() => UnreadCause::Folder,
            Ok(found) if found.is_file() => opening_cause(self, path),
            Ok(_) => UnreadCause::Other,
            Err(error) => cause_of(error.kind()),
        }
    }
}

// Why a regular file can't be read, which opening it may say.
fn opening_cause(rt: &HostRuntime, path: &str) -> UnreadCause {
    match File::open(rt, path) {
        Ok(_) => UnreadCause::Other,
        Err(error) => cause_of(error.kind()),
    }
}

// Why a file can't be opened.
fn cause_of(kind: io::ErrorKind) -> UnreadCause {
    match kind {
        io::ErrorKind::NotFound | io::ErrorKind::NotADirectory => UnreadCause::Missing,
        io::ErrorKind::IsADirectory => UnreadCause::Folder,
        io::ErrorKind::PermissionDenied => UnreadCause::NoPermission,
        _ => UnreadCause::Other,
    }
}

/// A file in memory.
#[derive(Drop)]
pub struct Loaded {
    /// The path, as the command has it.
    pub path: String,
    /// All of its bytes, or at least the first 67,108,865.
    pub bytes: Vec<u8>,
}

/// Files in memory, one for each path of a command, in their order.
#[derive(Clone, Copy)]
pub struct LoadedFiles<'a>(pub &'a [Loaded]);

impl FileReader for LoadedFiles<'_> {
    ghost gives = { λ files. gives_loaded files.0.now };

    ghost causes = { λ files. causes_loaded files.0.now };

    fn read_file(&self, alloc: Global, number: usize, path: &str) -> Result<Vec<u8>, ReadFailure> {
        let LoadedFiles(files) = *self;
        let Some(file) = files.get(number) else {
            return Err(ReadFailure::Device);
        };
        if file.path.as_str() == path {
            return match file.bytes.to_vec(alloc) {
                Ok(bytes) => Ok(bytes),
                Err(_) => Err(ReadFailure::Memory),
            };
        }
        Err(ReadFailure::Device)
    }

    fn unread_cause(&self, path: &str) -> UnreadCause {
        let LoadedFiles(files) = *self;
        if has_loaded(files, path) {
            UnreadCause::Other
        } else {
            UnreadCause::Missing
        }
    }
}

// Whether one of these files has the path.
fn has_loaded(files: &[Loaded], path: &str) -> bool
    ensures { result ≡ has_loaded files.now path.now }
{
    files.iter().any(|file| file.path.as_str() == path)
}
