//! A row as it is asked: its fields, and what they stand for.
use crate::escapes::unescaped;
use crate::fault::RowFault;
use smap_record::Url;
use smap_replies::FileReader;
use std::alloc::{AllocError, Global};

/// A field that is this stands for each of the intervals in turn.
pub const EACH: &str = "%K";

/// A row at one of the intervals.
#[derive(Drop)]
pub struct Row<'a> {
    rt: &'a HostRuntime,
    fields: Vec<&'a str>,
    interval: u32,
}

impl<'a> Row<'a> {
    /// The row on a line.
    pub fn new(rt: &'a HostRuntime, line: &'a str, interval: u32) -> Result<Row<'a>, AllocError> {
        Ok(Row {
            rt,
            fields: line.split('\t').collect(rt.alloc())?,
            interval,
        })
    }

    /// The host that files are read from.
    pub fn rt(&self) -> &'a HostRuntime {
        self.rt
    }

    /// Where what a row comes to is allocated.
    pub fn alloc(&self) -> Global {
        self.rt.alloc()
    }

    /// A field as it is written. The call is field 0.
    pub fn field(&self, number: usize) -> Result<&'a str, RowFault> {
        match self.fields.get(number) {
            Some(field) => Ok(*field),
            None => Err(RowFault::MissingField),
        }
    }

    /// How many fields there are.
    pub fn count(&self) -> usize {
        self.fields.len()
    }

    /// The bytes that a field stands for: behind an `@` those of the file at that path.
    pub fn bytes(&self, number: usize) -> Result<Vec<u8>, RowFault> {
        let field = self.field(number)?;
        match field.strip_prefix('@') {
            Some(path) => Ok(self.rt.read_file(self.alloc(), 0, path)?),
            None => unescaped(self.alloc(), field),
        }
    }

    /// The same as a text.
    pub fn text(&self, number: usize) -> Result<String, RowFault> {
        as_text(self.bytes(number)?)
    }

    /// The same, where `-` stands for no text.
    pub(crate) fn text_or_none(&self, number: usize) -> Result<Option<String>, RowFault> {
        if self.field(number)? == "-" {
            return Ok(None);
        }
        Ok(Some(self.text(number)?))
    }

    /// The URL that a field is, or none.
    pub(crate) fn url_or_none(&self, number: usize) -> Result<Option<Url>, RowFault> {
        match self.text_or_none(number)? {
            Some(text) => match Url::parse(self.alloc(), text.as_str()) {
                Ok(url) => Ok(Some(url)),
                Err(_) => Err(RowFault::BadUrl),
            },
            None => Ok(None),
        }
    }

    /// The words of a command line, with a blank between two; none where there is no such field.
    pub fn words(&self, number: usize) -> Result<Vec<String>, RowFault> {
        let mut words = Vec::new(self.alloc());
        if number < self.fields.len() {
            for word in self.field(number)?.split(' ') {
                words.push(self.word(word)?)?;
            }
        }
        Ok(words)
    }

    fn word(&self, word: &str) -> Result<String, RowFault> {
        if word == EACH {
            let interval = self.interval;
            return Ok(format!(in self.alloc(); "{interval}")?);
        }
        as_text(unescaped(self.alloc(), word)?)
    }

    /// The number that a field is, which may be that of the interval.
    pub fn number(&self, number: usize) -> Result<u32, RowFault> {
        let field = self.field(number)?;
        if field == EACH {
            return Ok(self.interval);
        }
        number_in(field)
    }
}

fn as_text(bytes: Vec<u8>) -> Result<String, RowFault> {
    String::from_utf8(bytes).map_err(|_| RowFault::NotText)
}

/// The number that a text is.
pub(crate) fn number_in(text: &str) -> Result<u32, RowFault> {
    text.parse().map_err(|_| RowFault::BadNumber)
}
