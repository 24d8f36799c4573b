//! What is told at the end of a text.
ghost use Rattle.std.specs.Prelude.{◌≡◌, ◌++◌, codes, string_bytes, IfOk, OnErr, OnOk};
ghost use Rattle.std.specs.List.{list_any};
ghost use Rattle.std.specs.Str.{bytes_eq};
ghost use Rattle.std.specs.Str.Lines.{lines};
ghost use Rattle.smap_text_answers.specs.Told.{ReportsLines, Tells, has_told, is_told, line, told_status, told_text, nothing_told, said_by, shortage, tells, told_seen};

use smap_io::ByteSink;
use smap_replies::{DONE, FAILED, NO_MEMORY, print_error};
use std::alloc::{AllocError, Global};

// How many bytes of lines are enough.
const ENOUGH_BYTES: usize = 65_536;

/// Lines that are told at the end, each once.
#[derive(Drop)]
pub struct ToldLines {
    pub text: String,
    /// Whether memory ran out for one, or for names.
    pub is_short: bool,
}

impl ToldLines {
    /// Nothing is told. The call takes no memory.
    pub fn new(alloc: Global) -> ToldLines
        ensures { told_seen result ≡ nothing_told }
    {
        ToldLines {
            text: String::new(alloc),
            is_short: false,
        }
    }

    /// Tells a line, which is given without its LF, if it was not told before, and less than 65,536 bytes were.
    pub fn tell(&mut self, text: String)
        ensures { Tells (told_seen self.old) (line (string_bytes text)) (told_seen self.new) }
    {
        if self.is_told(&text) {
            return;
        }
        if self.put(text).is_err() {
            self.is_short = true;
        }
    }

    /// Tells a line, where there is one.
    pub fn tell_any(&mut self, text: Option<String>)
        ensures { Tells (told_seen self.old) (said_by text) (told_seen self.new) }
    {
        if let Some(text) = text {
            self.tell(text);
        }
    }

    /// Tells that memory ran out.
    pub fn tell_shortage(&mut self)
        ensures { told_seen self.new ≡ tells (told_seen self.old) shortage }
    {
        self.is_short = true;
    }

    // Whether a line was told before, or enough were.
    fn is_told(&self, text: &str) -> bool
        ensures { result ≡ is_told (told_seen self.now) text.now }
    {
        self.text.len() >= ENOUGH_BYTES || has_line(&self.text, text)
    }

    // Puts a line behind the others. Where memory runs out, nothing is changed.
    fn put(&mut self, text: String) -> Result<(), AllocError>
        ensures put { OnOk result (told_seen self.new ≡ record (told_seen self.old) {
          text = string_bytes self.old.text ++ string_bytes text ++ codes "\n";
        }) }
        ensures memory { OnErr result (told_seen self.new ≡ told_seen self.old) }
    {
        let mut text = text;
        text.push_str("\n")?;
        self.text.push_str(&text)
    }
}

// Whether a text has a line.
fn has_line(text: &str, line: &str) -> bool
    ensures { result ≡ list_any (λ other. bytes_eq other line.now) (lines text.now) }
{
    text.lines().any(|other| is_same(other, line))
}

// Whether two texts are the same.
fn is_same(one: &str, other: &str) -> bool
    ensures { result ≡ bytes_eq one.now other.now }
{
    one == other
}

/// Reports what was told, or that memory ran out, and gives the status of that.
pub fn tell_lines<E: ByteSink>(alloc: Global, told: &ToldLines, errors: &mut E) -> u8
    ensures { ReportsLines (told_seen told.now) result (E.seen errors.old) (E.seen errors.new) }
{
    if !has_told(told) {
        return DONE;
    }
    match told_text(alloc, told) {
        Ok(text) => {
            print_error(errors, text.as_bytes());
            told_status(told)
        }
        Err(_) => {
            print_error(errors, NO_MEMORY.as_bytes());
            FAILED
        }
    }
}

// Whether something was told.
fn has_told(told: &ToldLines) -> bool
    ensures { result ≡ has_told (told_seen told.now) }
{
    told.is_short || told.text.len() > 0
}

fn told_status(told: &ToldLines) -> u8
    ensures { result ≡ told_status (told_seen told.now) }
{
    if told.is_short { FAILED } else { DONE }
}

// Standard error: the lines, and behind them that memory ran out.
fn told_text(alloc: Global, told: &ToldLines) -> Result<String, AllocError>
    ensures { IfOk result (λ text. string_bytes text ≡ told_text (told_seen told.now)) }
{
    let mut text = String::from_str(alloc, &told.text)?;
    if told.is_short {
        text.push_str(NO_MEMORY)?;
    }
    Ok(text)
}
