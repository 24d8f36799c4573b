//! One pass over a generated text, which finds its declarations and properties.
ghost use Rattle.std.specs.Prelude.{◌≡◌, ℕ, ◌≤◌, ◌++◌, IfOk, OnOk, length, option_map, option_to_list};
ghost use Rattle.smap_declarations.specs.Bodies.{body_end};
ghost use Rattle.smap_declarations.specs.Bytes.{behind_word, word_in};
ghost use Rattle.smap_declarations.specs.Declarations.{name_in, named_from};
ghost use Rattle.smap_declarations.specs.Limits.{most_text_bytes};
ghost use Rattle.smap_declarations.specs.Private.Found.{all_named, named_until};
ghost use Rattle.smap_declarations.specs.Private.Open.{behind_next};
ghost use Rattle.smap_declarations.specs.Private.Waiting.{AreWaiting, with_ends};
ghost use Rattle.smap_declarations.specs.Walk.{origin, start};

use crate::bodies::Bodies;
use crate::brackets::{Behind, Brackets};
use crate::bytes::{split_byte, split_word};
use crate::given::{Given, given_to};
use crate::kind::kind_of;
use crate::passing::Walk;
use crate::walk::DeclarationPlace;
use smap_record::MapFile;
use std::alloc::{AllocError, Global};

// A name where it stands in the text, and where its body ends.
#[derive(Clone, Copy)]
pub struct Found<'t> {
    pub name: &'t [u8],
    pub place: DeclarationPlace,
    pub until: DeclarationPlace,
    pub given: Given,
}

// The declarations and properties of a text, in order.
pub fn found_in<'t>(
    alloc: Global,
    text: &'t [u8],
    map: &MapFile,
) -> Result<Vec<Found<'t>>, AllocError>
    requires { length text.now ≤ most_text_bytes }
    ensures { IfOk result (λ found. all_named found.items
        ≡ named_from map.now.stated start origin text.now) }
{
    let mut brackets = Brackets::of(alloc, text)?;
    let mut found = Vec::new(alloc);
    let mut bodies = Bodies::new(alloc);
    let mut level = 0;
    let mut walk = Walk::start(text);
    while let Some((byte, behind)) = split_byte(walk.rest) {
        if walk.before.begins_word(byte) {
            let (word, after) = split_word(walk.rest);
            let next = brackets.next();
            let name = name_in(alloc, map, walk, word, after, next);
            push_if_some(&mut found, &mut bodies, level, name)?;
            walk = walk.past_word(byte, behind, word, after);
        } else {
            brackets.pass(byte);
            level = bodies.pass(level, byte, walk.place, &mut found);
            walk = walk.past_byte(byte, behind);
        }
    }
    bodies.end_all(level, walk.place, &mut found);
    Ok(found)
}

// Adds what was found, where something was, whose body has not ended, within so many braces.
#[inline(always)]
fn push_if_some<'t>(
    found: &mut Vec<Found<'t>>,
    bodies: &mut Bodies,
    level: usize,
    name: Option<Found<'t>>,
) -> Result<(), AllocError>
    requires { AreWaiting level (length found.old.items) bodies.old }
    ensures found { OnOk result ((ends : ℕ → DeclarationPlace) →
        with_ends ends bodies.new (all_named found.new.items)
        ≡ with_ends ends bodies.old (all_named found.old.items)
        ++ option_to_list (option_map (named_until (ends level)) name.entry)) }
    ensures order { OnOk result (AreWaiting level (length found.new.items) bodies.new) }
{
    if let Some(name) = name {
        bodies.push(found.len(), level)?;
        found.push(name)?;
    }
    Ok(())
}

// What is told of the word that the rest of a text begins with, where it is a declaration or a property. The call is told
// what stands behind the end of the rest's first bracket; where the body ends is not known yet.
#[inline(always)]
#[tactic(auto, using(crate::proofs::BracketLaws::same_next), unfolding(crate::specs::Declarations::name_in))]
fn name_in<'t>(
    alloc: Global,
    map: &MapFile,
    walk: Walk<'t>,
    word: &'t [u8],
    after: &'t [u8],
    next: Behind,
) -> Option<Found<'t>>
    requires word { word.now ≡ word_in walk.rest.now }
    requires after { after.now ≡ behind_word walk.rest.now }
    requires next { next ≡ behind_next walk.rest.now }
    ensures { option_map (named_until (body_end walk.entry.place walk.entry.rest.now)) result
        ≡ name_in map.now.stated walk.entry.before walk.entry.place walk.entry.rest.now }
{
    let kind = kind_of(walk.before, word, after, next)?;
    let place = walk.place;
    let given = given_to(alloc, map, place, kind);
    Some(Found {
        name: word,
        place,
        until: place,
        given,
    })
}
