//! Lines on a terminal: after a refusal, which word of `explain` says more; after a mistake in the arguments, that a command
//! reads its text from standard input.
ghost use Rattle.std.specs.Prelude.{◌≡◌, string_bytes, IfOk};
ghost use Rattle.smap_cli.specs.Hint.{hint_line, input_line, reads_input};

use smap_codes::Code;
use std::alloc::{AllocError, Global};

/// The line that says which word of `explain` says more of this code.
pub fn hint_line(alloc: Global, code: Code) -> Result<String, AllocError>
    ensures { IfOk result (λ text. string_bytes text ≡ hint_line code) }
{
    let label = code.label();
    format!(in alloc; "smap explain {label} says more\n")
}

/// Whether the command of this name reads its text from standard input.
pub fn reads_input(name: &str) -> bool
    ensures { result ≡ reads_input name.now }
{
    name == "rewrite" || name == "locate" || name == "positions" || name == "raw"
}

/// The line that says so.
pub fn input_line(alloc: Global, name: &str) -> Result<String, AllocError>
    ensures { IfOk result (λ text. string_bytes text ≡ input_line name.now) }
{
    format!(in alloc; "smap {name} reads its text from standard input: smap {name} .. < TEXT\n")
}
