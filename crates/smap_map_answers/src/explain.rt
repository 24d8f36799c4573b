//! Saying what a code means.
ghost use Rattle.std.specs.Prelude.{◌≡◌, option_map, string_bytes, IfOk};
ghost use Rattle.smap_map_answers.specs.Explain.{ReportsCalled, ReportsCode, no_code_text};
ghost use Rattle.smap_replies.specs.Outcome.{OrMemory, report_of};
ghost use Rattle.smap_codes.specs.Words.{codes_called};

use smap_codes::{all_codes_text, called_text};
use smap_command::Explain;
use smap_replies::{Failure, Reply};
use smap_text::shown;
use std::alloc::{AllocError, Global};

/// What the code means, or each code of that name, what usually causes it and what to do about it; without one, how all
/// codes are called.
pub fn answer_explain(alloc: Global, asked: &Explain) -> Result<Reply, Failure>
    ensures { OrMemory (ReportsCode (option_map string_bytes asked.now.code)) (report_of result) }
{
    match &asked.code {
        Some(word) => answer_word(alloc, word),
        None => Ok(Reply::Text(all_codes_text(alloc)?)),
    }
}

// What each code means that the word calls; where there is none, which there are.
fn answer_word(alloc: Global, word: &str) -> Result<Reply, Failure>
    ensures { OrMemory (ReportsCalled word.now (codes_called word.now))
        (report_of result) }
{
    match called_text(alloc, word)? {
        Some(text) => Ok(Reply::Text(text)),
        None => {
            let line = no_code_text(alloc, word)?;
            Err(Failure::Refusal { code: None, line })
        }
    }
}

// That no code is called so, and how all are called.
fn no_code_text(alloc: Global, word: &str) -> Result<String, AllocError>
    ensures { IfOk result (λ text. string_bytes text ≡ no_code_text word.now) }
{
    let (word, all) = (shown(alloc, word)?, all_codes_text(alloc)?);
    format!(in alloc; "refused: no code {word}\n{all}")
}
