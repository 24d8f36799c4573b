//! The fresh mappings of a map that can't be those of a text, and how many original places show what the generated ones
//! show.
ghost use Rattle.std.specs.Prelude.{◌≡◌, ◌+◌, ◌<◌, ◌≤◌, ◌^◌, true, if◌then◌else◌, None, Some, IfOk};
ghost use Rattle.smap_index.specs.Parts.{joined};
ghost use Rattle.smap_fit.specs.Agreement.{is_agreeing, is_compared, is_outside};
ghost use Rattle.smap_fit.specs.First.{or_else};
ghost use Rattle.smap_fit.specs.Fit.{AllAtStarts, fit_in, fits, misfits};
ghost use Rattle.smap_fit.specs.Standing.{is_inside, is_past};

use crate::agreement::Agreement;
use crate::contents::Contents;
use crate::fresh::continues_last;
use crate::original_place::OriginalPlace;
use crate::standing::Standing;
use crate::text_lines::TextLines;
use crate::text_place::TextPlace;
use smap_record::{MapFile, Mapping};
use std::alloc::{AllocError, Global};

/// How many mappings a map has, how many of them can't be those of a generated text, and how many are borne out by it.
#[derive(Clone, Copy)]
pub struct Fit {
    pub mappings: u64,
    /// Those that stand past the text.
    pub past: u64,
    /// Those that stand inside a word of it.
    pub inside: u64,
    /// The first of those past the text.
    pub first_past: Option<Mapping>,
    /// The first of those inside a word.
    pub first_inside: Option<Mapping>,
    /// Those with an origin whose source has content.
    pub compared: u64,
    /// Those of them whose original place is past the content.
    pub outside: u64,
    /// Those of them whose original place shows the same word or the same character as the generated place.
    pub same: u64,
}

impl Fit {
    /// Whether the map can be that of the text.
    pub fn fits(self) -> bool
        ensures { result ≡ fits self }
    {
        self.past == 0 && self.inside == 0
    }

    /// How many mappings can't be those of the text.
    pub fn misfits(self) -> u64
        requires { self.past + self.inside ≤ self.mappings }
        ensures { result ≡ misfits self }
    {
        self.past + self.inside
    }

    // Counts a mapping that stands so, unless it continues the one before it.
    fn stand(&mut self, mapping: &Mapping, standing: Standing, continues: bool)
        requires { self.old.past + self.old.inside + 1 < 2 ^ 64 }
        ensures past { self.new.past ≡ self.old.past
            + (if continues then 0 else (if is_past standing then 1 else 0)) }
        ensures inside { self.new.inside ≡ self.old.inside
            + (if continues then 0 else (if is_inside standing then 1 else 0)) }
        ensures first_past { self.new.first_past ≡ or_else self.old.first_past
            (if continues then None else (if is_past standing then Some mapping.now else None)) }
        ensures first_inside { self.new.first_inside ≡ or_else self.old.first_inside
            (if continues then None else (if is_inside standing then Some mapping.now else None)) }
        ensures others { self.new ≡ record self.old {
          past = self.new.past;
          inside = self.new.inside;
          first_past = self.new.first_past;
          first_inside = self.new.first_inside;
        } }
    {
        if continues {
            return;
        }
        match standing {
            Standing::Fits => {}
            Standing::PastText => {
                self.past += 1;
                self.first_past = or_else(self.first_past, mapping);
            }
            Standing::InsideWord => {
                self.inside += 1;
                self.first_inside = or_else(self.first_inside, mapping);
            }
        }
    }

    // Counts a mapping that agrees so.
    fn compare(&mut self, agreement: Agreement)
        requires compared { self.old.compared + 1 < 2 ^ 64 }
        requires outside { self.old.outside + 1 < 2 ^ 64 }
        requires same { self.old.same + 1 < 2 ^ 64 }
        ensures compared { self.new.compared
            ≡ self.old.compared + (if is_compared agreement then 1 else 0) }
        ensures outside { self.new.outside
            ≡ self.old.outside + (if is_outside agreement then 1 else 0) }
        ensures same { self.new.same ≡ self.old.same + (if is_agreeing agreement then 1 else 0) }
        ensures others { self.new ≡ record self.old {
          compared = self.new.compared;
          outside = self.new.outside;
          same = self.new.same;
        } }
    {
        match agreement {
            Agreement::Unknown => {}
            Agreement::Outside => {
                self.compared += 1;
                self.outside += 1;
            }
            Agreement::Same => {
                self.compared += 1;
                self.same += 1;
            }
            Agreement::Other => self.compared += 1,
        }
    }
}

// The mapping that was kept, if there is one, or else this.
fn or_else(kept: Option<Mapping>, mapping: &Mapping) -> Option<Mapping>
    ensures { result ≡ or_else kept (Some mapping.now) }
{
    match kept {
        Some(kept) => Some(kept),
        None => Some(*mapping),
    }
}

/// How a map fits a generated text, whose lines end in LF, CR LF, CR, U+2028 or U+2029. A mapping that only continues the
/// one before it, on its line and from its original line, as many columns further in both, is not counted as past the text
/// or inside a word. Where each mapping stands at the first character of a word, at one of no word, or at a line's end, the
/// map fits. Of all mappings whose source has content it is counted how many show the same in both texts.
pub fn fit_of(alloc: Global, map: &MapFile, generated: &str) -> Result<Fit, AllocError>
    ensures counts { IfOk result (λ fit. fit
        ≡ fit_in generated.now map.now.stated.sources (joined map.now.stated.parts)) }
    ensures bound { IfOk result (λ fit. fit.past + fit.inside ≤ fit.mappings) }
    ensures law { AllAtStarts generated.now (joined map.now.stated.parts)
        → IfOk result (λ fit. fits fit ≡ true) }
{
    let contents = Contents::of(alloc, map)?;
    let mut fit = Fit {
        mappings: map.segments(),
        past: 0,
        inside: 0,
        first_past: None,
        first_inside: None,
        compared: 0,
        outside: 0,
        same: 0,
    };
    let text = TextLines::of(alloc, generated)?;
    let mut place = TextPlace::start(&text);
    let mut original = OriginalPlace::start(&contents);
    let mut last = None;
    for mapping in map.mappings(alloc) {
        let spot = place.spot(&text, mapping.line, mapping.column);
        let agreement = original.agreement(&contents, spot.text, mapping.origin);
        fit.stand(&mapping, spot.standing, continues_last(last, &mapping));
        fit.compare(agreement);
        last = Some(mapping);
    }
    Ok(fit)
}
