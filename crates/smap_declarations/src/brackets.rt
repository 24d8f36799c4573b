//! What stands behind the ends of a text's round brackets.
ghost use Rattle.std.specs.Prelude.{◌≡◌, ◌∷◌, ◌==◌, [], if◌then◌else◌, IfOk, reverse};
ghost use Rattle.smap_declarations.specs.Brackets.{behind_end, first_of};
ghost use Rattle.smap_declarations.specs.Private.Open.{behind_brackets, first_or_other, others};

use crate::bytes::{behind_blanks, has_first, split_byte};
use std::alloc::{AllocError, Global};
use std::marker::Model;

/// What stands behind a bracket's end and blanks: `=>`, `{` or anything else, as where there is no end.
#[derive(Clone, Copy)]
pub enum Behind {
    Arrow,
    Body,
    Other,
}

// What stands behind brackets, the one that is asked for first at the end.
#[derive(Drop)]
pub struct Brackets {
    kinds: Vec<Behind>,
}

const _: () = prove!(size_of::<Behind>() == 1);

impl Model for Brackets {
    ghost use Rattle.std.specs.Prelude.{List, reverse};
    ghost use Rattle.smap_declarations.specs.declared.brackets.Behind.{Behind};

    ghost Value = { List Behind };

    ghost view = { λ brackets. reverse brackets.kinds.items };
}

impl Brackets {
    // No bracket.
    fn new(alloc: Global) -> Self
        ensures { result ≡ [] }
    {
        Brackets {
            kinds: Vec::new(alloc),
        }
    }

    // One more, before the others.
    fn push(&mut self, kind: Behind) -> Result<(), AllocError>
        ensures { IfOk result (λ _. self.new ≡ kind ∷ self.old) }
    {
        self.kinds.push(kind)?;
        Ok(())
    }

    // What stands behind the first, where there is one.
    #[inline(always)]
    pub fn next(&self) -> Behind
        ensures { result ≡ first_or_other self.now }
    {
        match self.kinds.last() {
            Some(kind) => *kind,
            None => Behind::Other,
        }
    }

    // Passes a byte of the text, and the first bracket where it begins there.
    #[inline(always)]
    pub fn pass(&mut self, byte: u8)
        ensures { self.new ≡ (if byte == 0x28 then others self.old else self.old) }
    {
        if byte == b'(' {
            self.pass_first();
        }
    }

    #[inline(always)]
    fn pass_first(&mut self)
        ensures { self.new ≡ others self.old }
    {
        let _ = self.kinds.pop();
    }

    // What stands behind the end of each bracket of a text. It goes from the text's end to its start, and keeps a byte for
    // each `)` whose `(` it has not met and one for each `(`: no more than the text has.
    pub fn of(alloc: Global, text: &[u8]) -> Result<Self, AllocError>
        ensures { IfOk result (λ brackets. brackets ≡ behind_brackets text.now) }
    {
        let mut ends = Brackets::new(alloc);
        let mut brackets = Brackets::new(alloc);
        for at in (0..text.len()).rev() {
            let byte = text[at];
            if byte == b')' {
                ends.push(behind_end(text.split_at(at + 1).1))?;
            } else if byte == b'(' {
                brackets.push(ends.next())?;
                ends.pass_first();
            }
        }
        Ok(brackets)
    }
}

// What stands behind a bracket that ends before this text.
#[tactic(auto, unfolding(crate::specs::Brackets::behind_end))]
fn behind_end(text: &[u8]) -> Behind
    ensures { result ≡ behind_end text.now }
{
    first_of(behind_blanks(text))
}

// What a text begins with.
#[inline(always)]
pub fn first_of(text: &[u8]) -> Behind
    ensures { result ≡ first_of text.now }
{
    match split_byte(text) {
        None => Behind::Other,
        Some((b'{', _)) => Behind::Body,
        Some((b'=', behind)) => {
            if has_first(b'>', behind) {
                Behind::Arrow
            } else {
                Behind::Other
            }
        }
        Some(_) => Behind::Other,
    }
}
