//! A composition in steps: which source's map is wanted next, and what the maps that were put come to.
ghost use Rattle.std.specs.Prelude.{◌≡◌, ◌≢◌, ◌<◌, ◌^◌, ◌⊎◌, ◌++◌, None, Some, IfErr, IfOk, IfSome, IsErr, IsSome, MatchOption, OnOk, is_some, true, length, option_map, replicate, slice_get};
ghost use Rattle.smap_compose.specs.declared.refusal.ComposeRefusal.TheVariants.{Memory};
ghost use Rattle.std.specs.List.{list_any};
ghost use Rattle.std.specs.Option.{option_flatten};
ghost use Rattle.smap_c.specs.Inners.{maps_held, whole_of};
ghost use Rattle.smap_c.specs.Steps.{IsFollowed, IsNext, IsNotFollowed, IsStepRefused, after_asking, has_maps, is_turn_over};
ghost use Rattle.smap_c.specs.Steps.{is_called, is_led_by, is_wanted, leads_within, name_of_source, next_wanted};

use crate::composing::{ComposeOptions, all_composed};
use crate::handles::{Holder, InnersHandle, MapHandle};
use crate::inners::Inners;
use crate::status::{DONE, REFUSED};
use crate::texts::Text;
use crate::written::not_composed;
use smap_compose::ComposeRefusal;
use smap_record::{MapFile, SharedMap, source_name};
use std::alloc::{AllocError, Global};

// How many segments stand between the checkpoints of a map that others came to.
const INTERVAL: u32 = 64;

/// Asks for the map of the next source, from 0, of which one is wanted: that has a name, which none of the sources that
/// lead to it has, and no map in its place. Where there is none, and maps are in the places, these are composed with the
/// map, as `smap_compose_all` does; they are freed, and their sources stand behind the others from then on and are asked
/// for. Where no map is wanted any more, it returns 1, and `refusal` is 0. Else it is the number of C1 or of C2.
#[unsafe(no_mangle)]
pub extern "C" fn smap_inners_next(
    alloc: Global,
    outer: &mut MapHandle,
    inners: &mut InnersHandle,
    source: &mut u32,
    refusal: &mut u32,
) -> u32
    requires outer { IsSome outer.old.held }
    requires inners { IsSome inners.old.held }
    ensures asked { IfSome outer.old.held (λ outside. IfSome inners.old.held (λ old.
        result ≡ 0 → IfSome inners.new.held (λ new. IsNext outside old (Some source.new) new))) }
    ensures over { IfSome outer.old.held (λ outside. IfSome inners.old.held (λ old.
        result ≡ 1 → refusal.new ≡ 0 →
        IfSome inners.new.held (λ new. IsNext outside old None new))) }
    ensures refused { IfSome outer.old.held (λ outside. IfSome inners.old.held (λ old.
        result ≡ 1 → refusal.new ≢ 0 → IsStepRefused outside old refusal.new)) }
    ensures held { IsSome inners.new.held }
    ensures unreported { (result ≢ 0 → source.new ≡ source.old)
        × (result ≢ 1 → refusal.new ≡ refusal.old) }
    ensures stays { (outer.new.held ≡ outer.old.held)
        × (result ≢ 0 → (result ≢ 1) ⊎ (refusal.new ≢ 0) → inners.new.held ≡ inners.old.held) }
    ensures status { (result ≡ 0) ⊎ (result ≡ 1) ⊎ (result ≡ 3) }
{
    match inners.lend().next(alloc, outer.lend().map()) {
        Ok(Some(asked)) => {
            *source = asked;
            DONE
        }
        Ok(None) => {
            *refusal = 0;
            REFUSED
        }
        Err(why) => not_composed(why, refusal),
    }
}

/// Lends the name of source `source`, from 0, of those that have a place: where there is such a source, and it has a name.
#[unsafe(no_mangle)]
pub extern "C" fn smap_inners_name<'a>(
    outer: &'a mut MapHandle,
    inners: &'a mut InnersHandle,
    source: u32,
    name: &mut Text<'a>,
) -> u32
    requires outer { IsSome outer.old.held }
    requires inners { IsSome inners.old.held }
    ensures { IfSome outer.old.held (λ outside. IfSome inners.old.held (λ places.
        MatchOption (name_of_source (whole_of outside places) source)
        ((result ≡ 1) × (name.new ≡ name.old))
        (λ text. (result ≡ 0) × (name.new.text.now ≡ text)))) }
{
    match name_of(inners.lend().whole_of(outer.lend().map()), source) {
        Some(text) => {
            name.text = text.as_bytes();
            DONE
        }
        None => REFUSED,
    }
}

impl Inners {
    // The next source that is asked for, if there is one. Where the turn is over, the maps are composed first.
    fn next(&mut self, alloc: Global, outer: &MapFile) -> Result<Option<u32>, ComposeRefusal>
        ensures next { IfOk result (λ asked. IsNext outer.now self.old asked self.new) }
        ensures refused { IfErr result (λ why. (why ≡ Memory)
            ⊎ ((is_turn_over outer.now self.old ≡ true) × IsNotFollowed outer.now self.old why)) }
        ensures stays { IsErr result → self.new ≡ self.old }
    {
        if let Some(source) = self.ask(outer) {
            return Ok(Some(source));
        }
        if !self.has_maps() {
            return Ok(None);
        }
        self.follow(alloc, outer)?;
        Ok(self.ask(outer))
    }

    // Asks for the first source of which a map is wanted.
    fn ask(&mut self, outer: &MapFile) -> Option<u32>
        ensures asked { result ≡ next_wanted outer.now self.old }
        ensures after { self.new ≡ after_asking outer.now self.old }
    {
        let source = self.next_wanted(outer)?;
        self.asked = source + 1;
        Some(source)
    }

    // The first source that was not asked for of which a map is wanted.
    #[tactic(auto, using(crate::proofs::StepLaws::wanted_here, crate::proofs::StepLaws::wanted_behind, crate::proofs::StepLaws::wanted_nowhere))]
    fn next_wanted(&self, outer: &MapFile) -> Option<u32>
        ensures wanted { result ≡ next_wanted outer.now self.now }
        ensures within { IfSome result (λ source. source < length self.now.maps) }
    {
        let mut source = self.asked;
        while source < self.places() {
            if self.is_wanted(outer, source) {
                return Some(source);
            }
            source += 1;
        }
        None
    }

    fn is_wanted(&self, outer: &MapFile, source: u32) -> bool
        ensures { result ≡ is_wanted outer.now self.now source }
    {
        match name_of(self.whole_of(outer), source) {
            Some(name) => {
                self.is_free(source) && !is_led_by(self.whole_of(outer), &self.leads, source, name)
            }
            None => false,
        }
    }

    // Whether there are maps in the places.
    fn has_maps(&self) -> bool
        ensures { result ≡ has_maps self.now }
    {
        is_any_map(&self.maps)
    }

    // Composes the map with those in the places, and has places for the sources of what they come to.
    fn follow(&mut self, alloc: Global, outer: &MapFile) -> Result<(), ComposeRefusal>
        ensures followed { OnOk result (IsFollowed outer.now self.old self.new) }
        ensures refused { IfErr result (λ why. (why ≡ Memory)
            ⊎ IsNotFollowed outer.now self.old why) }
        ensures stays { IsErr result → self.new ≡ self.old }
    {
        let options = ComposeOptions {
            prune: false,
            no_content: false,
        };
        let composed = all_composed(alloc, self.whole_of(outer), self, &options)?;
        let whole = composed.into_map(alloc, INTERVAL)?;
        let Ok(sources) = u32::try_from(whole.sources()) else {
            return Err(ComposeRefusal::Memory);
        };
        let mut next = Inners::new(alloc, sources)?;
        next.leads = self.further_leads(alloc)?;
        next.asked = self.places();
        next.whole = Some(boxed(alloc, whole)?);
        *self = next;
        Ok(())
    }

    // By source, those that lead to the sources of what the map and those in the places come to.
    fn further_leads(&self, alloc: Global) -> Result<Vec<Option<u32>>, AllocError>
        ensures { IfOk result (λ leads. leads.items
            ≡ self.now.leads ++ leads_within 0 self.now.maps) }
    {
        let mut leads = Vec::from_slice(alloc, &self.leads)?;
        push_leads(&self.maps, &mut leads)?;
        Ok(leads)
    }
}

// A map that nothing else holds, in its box.
fn boxed(alloc: Global, map: MapFile) -> Result<Box<SharedMap>, AllocError>
    ensures { IfOk result (λ held. held.value ≡ map) }
{
    Ok(Box::new(alloc, SharedMap::new(alloc, map)?)?)
}

// Whether one of the sources that lead to this one has this name.
#[tactic(auto, using(crate::proofs::StepLaws::led_here, crate::proofs::StepLaws::led_behind, crate::proofs::StepLaws::led_by_none))]
fn is_led_by(whole: &MapFile, leads: &[Option<u32>], source: u32, name: &str) -> bool
    ensures { result ≡ is_led_by whole.now leads.now (length leads.now) source name.now }
{
    let mut at = source;
    let mut left = leads.len();
    while left > 0 {
        let Some(from) = lead_of(leads, at) else {
            return false;
        };
        if is_called(whole, from, name) {
            return true;
        }
        at = from;
        left -= 1;
    }
    false
}

// The source that leads to this one, if one does.
fn lead_of(leads: &[Option<u32>], source: u32) -> Option<u32>
    ensures { result ≡ option_flatten (slice_get leads.now source) }
{
    *leads.get(source as usize)?
}

// Whether one of these places has a map.
fn is_any_map(places: &[Option<Box<SharedMap>>]) -> bool
    ensures { result ≡ list_any is_some (maps_held places.now) }
{
    for place in places {
        if place.is_some() {
            return true;
        }
    }
    false
}

// Pushes, for each source of the maps in these places, the source whose place the map is in.
fn push_leads(
    places: &[Option<Box<SharedMap>>],
    leads: &mut Vec<Option<u32>>,
) -> Result<(), AllocError>
    requires { length places.now < 2 ^ 32 }
    ensures { OnOk result (leads.new.items
        ≡ leads.old.items ++ leads_within 0 (maps_held places.now)) }
{
    for (source, place) in places.iter().enumerate() {
        if let Some(map) = place {
            push_times(Some(source as u32), map.map().sources(), leads)?;
        }
    }
    Ok(())
}

fn push_times(lead: Option<u32>, times: u64, leads: &mut Vec<Option<u32>>) -> Result<(), AllocError>
    ensures { OnOk result (leads.new.items ≡ leads.old.items ++ replicate times lead) }
{
    for _ in 0..times {
        leads.push(lead)?;
    }
    Ok(())
}

// The text of the name of a source, where the map has both.
fn name_of(map: &MapFile, source: u32) -> Option<&str>
    ensures { option_map (λ name. name.now) result ≡ name_of_source map.now source }
{
    source_name(map.source(source))
}

// Whether a source of the map is called so.
fn is_called(map: &MapFile, source: u32, name: &str) -> bool
    ensures { result ≡ is_called name.now (name_of_source map.now source) }
{
    match name_of(map, source) {
        Some(own) => own == name,
        None => false,
    }
}
