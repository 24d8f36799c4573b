//! The files of a row: paths and texts that it has, and those of the folder that the program runs in.
ghost use Rattle.std.specs.Prelude.{⊤};

use smap_answers::{FileReader, UnreadCause};
use smap_call_rows::{Row, RowFault};
use smap_io::ReadFailure;
use std::alloc::Global;

/// The files of a row. Of two with one path the first is read.
#[derive(Drop)]
pub struct RowFiles<'a> {
    rt: &'a HostRuntime,
    held: Vec<(String, Vec<u8>)>,
}

impl<'a> RowFiles<'a> {
    /// The files of the fields from this one on: a path and its text, and so on.
    pub fn new(row: &Row<'a>, first: usize) -> Result<RowFiles<'a>, RowFault> {
        let mut held = Vec::new(row.alloc());
        for number in (first..row.count()).step_by(2) {
            let text = row.bytes(number.saturating_add(1))?;
            held.push((row.text(number)?, text))?;
        }
        Ok(RowFiles { rt: row.rt(), held })
    }
}

impl FileReader for RowFiles<'_> {
    ghost gives = { λ files number path result. ⊤ };

    ghost causes = { λ files path cause. ⊤ };

    fn read_file(&self, alloc: Global, number: usize, path: &str) -> Result<Vec<u8>, ReadFailure> {
        for (held, bytes) in &self.held {
            if held.as_str() == path {
                return bytes.to_vec(alloc).or(Err(ReadFailure::Memory));
            }
        }
        self.rt.read_file(alloc, number, path)
    }

    fn read_regular(
        &self,
        alloc: Global,
        number: usize,
        path: &str,
    ) -> Result<Vec<u8>, ReadFailure> {
        for (held, bytes) in &self.held {
            if held.as_str() == path {
                return bytes.to_vec(alloc).or(Err(ReadFailure::Memory));
            }
        }
        self.rt.read_regular(alloc, number, path)
    }

    fn unread_cause(&self, path: &str) -> UnreadCause {
        if self.held.iter().any(|file| file.0.as_str() == path) {
            return UnreadCause::Other;
        }
        self.rt.unread_cause(path)
    }
}
