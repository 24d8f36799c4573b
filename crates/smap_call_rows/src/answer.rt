//! What a row comes to: a line of fields.
use crate::escapes::push_escaped;
use crate::fault::RowFault;
use std::alloc::{AllocError, Global};
use std::fmt::Debug;

/// The fields of an answer so far, with a TAB between two.
#[derive(Drop)]
pub struct Answer {
    alloc: Global,
    line: Vec<u8>,
    count: usize,
}

impl Answer {
    /// An answer without a field.
    pub fn new(alloc: Global) -> Answer {
        Answer {
            alloc,
            line: Vec::new(alloc),
            count: 0,
        }
    }

    /// Adds a field.
    pub fn put(&mut self, bytes: &[u8]) -> Result<(), RowFault> {
        if self.count > 0 {
            self.line.push(b'\t')?;
        }
        self.count = self.count.saturating_add(1);
        push_escaped(self.alloc, &mut self.line, bytes)
    }

    /// Adds a field of text.
    pub fn put_text(&mut self, text: &str) -> Result<(), RowFault> {
        self.put(text.as_bytes())
    }

    /// Adds a field that is a number.
    pub fn put_number(&mut self, number: u64) -> Result<(), RowFault> {
        let text = format!(in self.alloc; "{number}")?;
        self.put(text.as_bytes())
    }

    /// Adds a field of what a value is shown as.
    pub(crate) fn put_debug<T: Debug>(&mut self, value: &T) -> Result<(), RowFault> {
        let text = format!(in self.alloc; "{value:?}")?;
        self.put(text.as_bytes())
    }

    /// The line, without its LF.
    pub fn into_line(self) -> Vec<u8> {
        self.line
    }
}

/// One line of these, with a TAB between two.
pub fn joined(alloc: Global, lines: &[Vec<u8>]) -> Result<Vec<u8>, AllocError> {
    let mut line = Vec::new(alloc);
    for (number, one) in lines.iter().enumerate() {
        if number > 0 {
            line.push(b'\t')?;
        }
        line.extend_from_slice(one)?;
    }
    Ok(line)
}
