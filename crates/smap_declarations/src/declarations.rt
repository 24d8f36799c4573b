//! The declarations of a generated text, by name and place.
ghost use Rattle.std.specs.Prelude.{◌≡◌, ℕ, ◌+◌, ◌^◌, ◌<◌, ◌≤◌, Err, List, length, option_map, IfOk, IsOkUnless, true, false};
ghost use Rattle.std.specs.List.Sorted.{IsPartitionPoint, IsPermutation};
ghost use Rattle.smap_mappings.specs.Meter.{HasRoom};
ghost use Rattle.smap_declarations.specs.Declarations.{Named, declarations_of};
ghost use Rattle.smap_declarations.specs.Frames.{Decides, IsNameOf, last_of, name_given, name_kept};
ghost use Rattle.smap_declarations.specs.Limits.{most_text_bytes};
ghost use Rattle.smap_declarations.specs.Private.Found.{all_named, named};
ghost use Rattle.smap_declarations.specs.Private.Order.{IsInOrder, is_up_to};
ghost use Rattle.smap_declarations.specs.declared.refusal.DeclarationsRefusal.TheVariants as refusals;

use crate::frames::printed;
use crate::given::Given;
use crate::key::key_of;
use crate::name_list::NameList;
use crate::naming::{Found, found_in};
use crate::order::{is_up_to, sort};
use crate::refusal::DeclarationsRefusal;
use crate::walk::DeclarationPlace;
use smap_record::{MapFile, Meter, without_mark};
use std::alloc::{AllocError, Global};
use std::marker::Model;

/// How many bytes a text has at most whose declarations are listed: 64 MiB.
pub const MOST_GENERATED_BYTES: usize = 67_108_864;

/// The declarations and properties of a generated text, with the names that its map gives them. The text itself is not kept.
#[derive(Drop)]
pub struct Declarations {
    list: NameList,
}

impl Model for Declarations {
    ghost use Rattle.std.specs.Prelude.{List};
    ghost use Rattle.smap_declarations.specs.Declarations.{Named};
    ghost use Rattle.smap_declarations.specs.Private.Order.{IsInOrder};

    ghost Value = { List Named };

    ghost view = { λ declarations. declarations.list };

    ghost invariant = { λ declarations. IsInOrder declarations.list };
}

impl Declarations {
    /// Lists those of a generated text, with what its map gives them, in one pass. There are at most as many as a quarter of
    /// the text's bytes; each takes 40 bytes, and its name as many as it has. While the text is read, 40 bytes are taken for
    /// each in their place, 16 more until its body has ended, and a byte for each round bracket. After a refusal nothing is
    /// kept.
    pub fn of_text(
        alloc: Global,
        text: &str,
        map: &MapFile,
    ) -> Result<Declarations, DeclarationsRefusal>
        ensures too_large { most_text_bytes < length text.now → result ≡ Err refusals.TooLarge }
        ensures all { IfOk result
            (IsPermutation (declarations_of map.now.stated text.now)) }
        ensures memory { length text.now ≤ most_text_bytes → IsOkUnless result refusals.Memory }
    {
        if text.len() > MOST_GENERATED_BYTES {
            return Err(DeclarationsRefusal::TooLarge);
        }
        let mut found = found_in(alloc, without_mark(text.as_bytes()), map)?;
        sort(&mut found);
        let list = listed(alloc, &found)?;
        Ok(Declarations { list })
    }

    /// How many there are.
    pub fn count(&self) -> usize
        ensures { result ≡ length self.now }
    {
        self.list.len()
    }

    /// The name of the function that has this one in the generated text, as `function_name` gives it, in a frame at this
    /// place: that which the last declaration of the function's name at the place or before it has by the map, whose
    /// declarations these are. `None` where that is a property, or its body has ended before the place, or there is none,
    /// where the map gives none, or one that can't be printed. Of fewer than 2 ^ b declarations it compares at most b; the
    /// meter has room for them. The call takes no memory.
    pub fn name_of<'a>(
        &self,
        map: &'a MapFile,
        function: &'a [u8],
        place: DeclarationPlace,
        meter: &mut Meter,
    ) -> Option<&'a [u8]>
        requires room { HasRoom meter.old }
        ensures name { (all : List Named) → IsPermutation all self.now →
            IsNameOf all map.now.stated.names function.now place
            (option_map (λ name. name.now) result) }
        ensures kept { option_map (λ name. name.now) result
            ≡ name_kept self.now map.now.stated.names function.now place }
        ensures compared { (b : ℕ) → length self.now < 2 ^ b →
            meter.new.comparisons ≤ meter.old.comparisons + b }
        ensures decoded { meter.new.segments ≡ meter.old.segments }
        ensures onward { meter.old.comparisons ≤ meter.new.comparisons }
    {
        let named = self.deciding(function, place, meter)?;
        if place.is_at_or_before(named.until) {
            name_given(map, function, named.given)
        } else {
            None
        }
    }

    // The last declaration or property of a name at a place or before it.
    fn deciding(&self, name: &[u8], place: DeclarationPlace, meter: &mut Meter) -> Option<Found<'_>>
        requires room { HasRoom meter.old }
        ensures decides { Decides self.now name.now place (option_map named result) }
        ensures last { option_map named result ≡ last_of name.now place self.now }
        ensures compared { (b : ℕ) → length self.now < 2 ^ b →
            meter.new.comparisons ≤ meter.old.comparisons + b }
        ensures decoded { meter.new.segments ≡ meter.old.segments }
        ensures onward { meter.old.comparisons ≤ meter.new.comparisons }
    {
        let end = self.end_up_to(name, place, meter);
        if end == 0 {
            return None;
        }
        let last = self.list.at(end - 1);
        if last.name == name { Some(last) } else { None }
    }

    // How many stand before this name at this place, or are of it and not behind the place. The search halves.
    fn end_up_to(&self, name: &[u8], place: DeclarationPlace, meter: &mut Meter) -> usize
        requires room { HasRoom meter.old }
        ensures within { result ≤ length self.now }
        ensures parts { IsPartitionPoint (λ named. is_up_to name.now place named ≡ true)
            (λ named. is_up_to name.now place named ≡ false) self.now result }
        ensures ordered { IsInOrder self.now }
        ensures compared { (b : ℕ) → length self.now < 2 ^ b →
            meter.new.comparisons ≤ meter.old.comparisons + b }
        ensures decoded { meter.new.segments ≡ meter.old.segments }
        ensures onward { meter.old.comparisons ≤ meter.new.comparisons }
    {
        let wanted = key_of(name);
        let mut low = 0;
        let mut high = self.list.len();
        while low < high {
            let middle = low + (high - low) / 2;
            meter.count_comparison();
            let (found, key) = self.list.keyed_at(middle);
            if is_up_to(&found, key, name, wanted, place) {
                low = middle + 1;
            } else {
                high = middle;
            }
        }
        low
    }
}

// The name that a function of this name is given.
#[inline(always)]
fn name_given<'a>(map: &'a MapFile, function: &'a [u8], given: Given) -> Option<&'a [u8]>
    ensures { option_map (λ name. name.now) result
        ≡ name_given map.now.stated.names function.now given }
{
    match given {
        Given::Nothing => None,
        Given::Own => printed(function),
        Given::Name(i) => match map.name(i) {
            Some(name) => printed(name.as_bytes()),
            None => None,
        },
    }
}

// What was found, as a list.
fn listed(alloc: Global, found: &[Found<'_>]) -> Result<NameList, AllocError>
    ensures { IfOk result (λ list. list ≡ all_named found.now) }
{
    let mut list = NameList::new(alloc);
    for name in found {
        list.push(name)?;
    }
    Ok(list)
}
