//! What a word of a generated text is.
ghost use Rattle.std.specs.Prelude.{◌≡◌};
ghost use Rattle.smap_declarations.specs.Declarations.{is_behind_dot, is_declaration, is_property, is_statement, kind_of};
ghost use Rattle.smap_declarations.specs.Private.Open.{behind_next};

use crate::brackets::Behind;
use crate::bytes::behind_blanks;
use crate::functions::{is_before_body, is_given_function, is_key};
use crate::walk::Before;

/// A declaration of a name, or a property of that name.
#[derive(Clone, Copy)]
pub enum Kind {
    Declaration,
    Property,
}

// Which of both a word is that has this before it and this behind it, where it is one. The call is told what stands behind
// the end of the first bracket behind the word.
#[tactic(auto, using(crate::proofs::BracketLaws::same_next), unfolding(crate::specs::Declarations::kind_of, crate::specs::Functions::is_assigned, crate::specs::Functions::is_method))]
pub fn kind_of(before: Before, word: &[u8], behind: &[u8], next: Behind) -> Option<Kind>
    requires { next ≡ behind_next behind.now }
    ensures { result ≡ kind_of before word.now behind.now }
{
    let rest = behind_blanks(behind);
    let assigned = is_given_function(rest, next);
    let behind_dot = before.byte == b'.';
    if !behind_dot && (before.keyword.is_some() || assigned) {
        Some(Kind::Declaration)
    } else if (behind_dot && assigned)
        || is_key(before.byte, behind, rest, next)
        || (!behind_dot && !is_statement(word) && is_before_body(rest, next))
    {
        Some(Kind::Property)
    } else {
        None
    }
}

// Whether a statement begins with this word and brackets, and ends with a block; or a function that has no name does.
fn is_statement(word: &[u8]) -> bool
    ensures { result ≡ is_statement word.now }
{
    word == b"if".as_slice()
        || word == b"for".as_slice()
        || word == b"while".as_slice()
        || word == b"switch".as_slice()
        || word == b"catch".as_slice()
        || word == b"with".as_slice()
        || word == b"function".as_slice()
}
