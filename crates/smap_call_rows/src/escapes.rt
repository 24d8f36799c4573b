//! Bytes as fields of a row: one line of text, in which a TAB ends a field.
//!
//! A `\` begins an escape: `\t`, `\n`, `\r`, `\\` and `\@` stand for TAB, LF, CR, `\` and `@`, `\xHH` for the byte of these
//! two digits, and `\{N}` before a byte or an escape says that the byte stands N times.
use crate::fault::RowFault;
use std::alloc::{AllocError, Global};

// What is awaited of a field that is read from its left.
#[derive(Clone, Copy)]
enum Awaited {
    Byte,
    Escape,
    FirstDigit,
    SecondDigit(u8),
    Times(usize),
}

// The bytes so far, what comes next, and how many times the next byte stands.
#[derive(Drop)]
struct Unescaping {
    bytes: Vec<u8>,
    awaited: Awaited,
    times: usize,
}

impl Unescaping {
    fn put(&mut self, byte: u8) -> Result<(), RowFault> {
        let length = self.bytes.len().saturating_add(self.times);
        self.bytes.resize(length, byte)?;
        self.awaited = Awaited::Byte;
        self.times = 1;
        Ok(())
    }

    fn take(&mut self, byte: u8) -> Result<(), RowFault> {
        match self.awaited {
            Awaited::Byte if byte == b'\\' => self.awaited = Awaited::Escape,
            Awaited::Byte => return self.put(byte),
            Awaited::Escape => return self.take_escape(byte),
            Awaited::FirstDigit => self.awaited = Awaited::SecondDigit(digit(byte)?),
            Awaited::SecondDigit(first) => {
                let second = digit(byte)?;
                return self.put(first.saturating_mul(16).saturating_add(second));
            }
            Awaited::Times(times) if byte == b'}' => {
                self.times = times;
                self.awaited = Awaited::Byte;
            }
            Awaited::Times(times) if byte.is_ascii_digit() => {
                let last = usize::from(digit(byte)?);
                self.awaited = Awaited::Times(times.saturating_mul(10).saturating_add(last));
            }
            Awaited::Times(_) => return Err(RowFault::BadEscape),
        }
        Ok(())
    }

    fn take_escape(&mut self, byte: u8) -> Result<(), RowFault> {
        match byte {
            b't' => self.put(b'\t'),
            b'n' => self.put(b'\n'),
            b'r' => self.put(b'\r'),
            b'\\' | b'@' => self.put(byte),
            b'x' => {
                self.awaited = Awaited::FirstDigit;
                Ok(())
            }
            b'{' => {
                self.awaited = Awaited::Times(0);
                Ok(())
            }
            _ => Err(RowFault::BadEscape),
        }
    }
}

fn digit(byte: u8) -> Result<u8, RowFault> {
    match byte {
        b'0'..=b'9' => Ok(byte - b'0'),
        b'A'..=b'F' => Ok(byte - b'A' + 10),
        _ => Err(RowFault::BadEscape),
    }
}

/// The bytes that a field stands for.
pub(crate) fn unescaped(alloc: Global, field: &str) -> Result<Vec<u8>, RowFault> {
    let mut read = Unescaping {
        bytes: Vec::new(alloc),
        awaited: Awaited::Byte,
        times: 1,
    };
    for byte in field.as_bytes() {
        read.take(*byte)?;
    }
    match read.awaited {
        Awaited::Byte if read.times == 1 => Ok(read.bytes),
        _ => Err(RowFault::BadEscape),
    }
}

// So many equal bytes in a row are written as one and their number.
const MANY: usize = 100;

/// Puts these bytes behind others, with escapes for what is no printed character of a line.
pub(crate) fn push_escaped(
    alloc: Global,
    line: &mut Vec<u8>,
    bytes: &[u8],
) -> Result<(), RowFault> {
    let is_text = str::from_utf8(bytes).is_ok();
    let (mut last, mut times) = (0, 0usize);
    for byte in bytes {
        if *byte != last {
            push_run(alloc, line, last, times, is_text)?;
            last = *byte;
            times = 0;
        }
        times = times.saturating_add(1);
    }
    push_run(alloc, line, last, times, is_text)
}

fn push_run(
    alloc: Global,
    line: &mut Vec<u8>,
    byte: u8,
    times: usize,
    is_text: bool,
) -> Result<(), RowFault> {
    if times < MANY {
        for _ in 0..times {
            push_byte(alloc, line, byte, is_text)?;
        }
        return Ok(());
    }
    push_times(alloc, line, times)?;
    Ok(push_byte(alloc, line, byte, is_text)?)
}

fn push_times(alloc: Global, line: &mut Vec<u8>, times: usize) -> Result<(), AllocError> {
    let number = format!(in alloc; "\\{{{times}}}")?;
    line.extend_from_slice(number.as_bytes())
}

fn push_byte(alloc: Global, line: &mut Vec<u8>, byte: u8, is_text: bool) -> Result<(), AllocError> {
    match byte {
        b'\t' => line.extend_from_slice(b"\\t"),
        b'\n' => line.extend_from_slice(b"\\n"),
        b'\r' => line.extend_from_slice(b"\\r"),
        b'\\' => line.extend_from_slice(b"\\\\"),
        0..=31 | 127 => push_digits(alloc, line, byte),
        128..=255 if !is_text => push_digits(alloc, line, byte),
        _ => Ok(line.push(byte)?),
    }
}

fn push_digits(alloc: Global, line: &mut Vec<u8>, byte: u8) -> Result<(), AllocError> {
    let digits = format!(in alloc; "\\x{byte:02X}")?;
    line.extend_from_slice(digits.as_bytes())
}
