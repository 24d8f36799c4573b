//! Which source owns a place, in a walk through the mappings along a text.
ghost use Rattle.std.specs.Prelude.{◌≡◌, ◌∷◌, [], ℕ, IfSome, IfNone, All, ◌<◌, IsTrue};
ghost use Rattle.smap_index.specs.Parts.{joined};
ghost use Rattle.smap_mappings.specs.Order.{IsAtOrBefore, IsInOrder};
ghost use Rattle.smap_mappings.specs.Range.{position_at, stands_before};
ghost use Rattle.smap_mappings.specs.Within.{IsWithin};
ghost use Rattle.smap_fit.specs.Owners.{owner_at, owner_of};
ghost use Rattle.smap_fit.specs.Shares.{source_of};
ghost use Rattle.smap_fit.specs.Private.Left.{OwnsAlike, with_next};

use crate::line_ends::is_line_end;
use smap_index::JoinedMappings;
use smap_mappings::Mapping;

/// Mappings in order: the last that was passed, the next and those behind it. At first none was passed, which is as if one
/// without an origin stood before them all.
#[derive(Drop)]
pub struct Owners<'a> {
    pub last: Mapping,
    pub next: Option<Mapping>,
    pub rest: JoinedMappings<'a>,
}

impl<'a> Owners<'a> {
    pub fn new(mut mappings: JoinedMappings<'a>) -> Self
        ensures list { with_next result.next result.rest ≡ mappings.entry }
        ensures last { result.last ≡ position_at 0 0 }
        ensures done { IfNone result.next (result.rest ≡ []) }
    {
        let next = mappings.next();
        Owners {
            last: Mapping {
                line: 0,
                column: 0,
                origin: None,
            },
            next,
            rest: mappings,
        }
    }

    // Passes the mappings that stand at a position or before it.
    fn pass(&mut self, line: u64, column: u64)
        requires ordered { IsInOrder (self.old.last ∷ with_next self.old.next self.old.rest) }
        requires last { IsAtOrBefore self.old.last (position_at line column) }
        requires done { IfNone self.old.next (self.old.rest ≡ []) }
        ensures ordered { IsInOrder (self.new.last ∷ with_next self.new.next self.new.rest) }
        ensures last { IsAtOrBefore self.new.last (position_at line column) }
        ensures done { IfNone self.new.next (self.new.rest ≡ []) }
        ensures next { IfSome self.new.next (λ next.
            IsTrue (stands_before (position_at line column) next)) }
        ensures alike { OwnsAlike line column
            (self.old.last ∷ with_next self.old.next self.old.rest)
            (self.new.last ∷ with_next self.new.next self.new.rest) }
        ensures within { (sources names : ℕ) →
            All (IsWithin sources names) (self.old.last ∷ with_next self.old.next self.old.rest) →
            All (IsWithin sources names) (self.new.last ∷ with_next self.new.next self.new.rest) }
    {
        while let Some(next) = self.next {
            if is_after(&next, line, column) {
                return;
            }
            self.last = next;
            self.next = self.rest.next();
        }
    }

    /// The source that owns a character at a position.
    pub fn owner_of(&mut self, character: char, line: u64, column: u64) -> Option<u32>
        requires ordered { IsInOrder (self.old.last ∷ with_next self.old.next self.old.rest) }
        requires last { IsAtOrBefore self.old.last (position_at line column) }
        requires done { IfNone self.old.next (self.old.rest ≡ []) }
        ensures value { result
            ≡ owner_of (self.new.last ∷ with_next self.new.next self.new.rest) line column
            character }
        ensures ordered { IsInOrder (self.new.last ∷ with_next self.new.next self.new.rest) }
        ensures last { IsAtOrBefore self.new.last (position_at line column) }
        ensures done { IfNone self.new.next (self.new.rest ≡ []) }
        ensures alike { OwnsAlike line column
            (self.old.last ∷ with_next self.old.next self.old.rest)
            (self.new.last ∷ with_next self.new.next self.new.rest) }
        ensures within { (sources names : ℕ) →
            All (IsWithin sources names) (self.old.last ∷ with_next self.old.next self.old.rest) →
            All (IsWithin sources names) (self.new.last ∷ with_next self.new.next self.new.rest) }
        ensures named { (sources names : ℕ) →
            All (IsWithin sources names) (self.old.last ∷ with_next self.old.next self.old.rest) →
            IfSome result (λ source. source < sources) }
    {
        if is_line_end(character) {
            return None;
        }
        self.pass(line, column);
        self.owner(line, column)
    }

    // The source that owns a position, which the last mapping that was passed and the next stand about.
    fn owner(&self, line: u64, column: u64) -> Option<u32>
        requires ordered { IsInOrder (self.now.last ∷ with_next self.now.next self.now.rest) }
        requires last { IsAtOrBefore self.now.last (position_at line column) }
        requires done { IfNone self.now.next (self.now.rest ≡ []) }
        requires next { IfSome self.now.next (λ next.
            IsTrue (stands_before (position_at line column) next)) }
        ensures value { result
            ≡ owner_at (self.now.last ∷ with_next self.now.next self.now.rest) line column }
        ensures within { (sources names : ℕ) →
            All (IsWithin sources names) (self.now.last ∷ with_next self.now.next self.now.rest) →
            IfSome result (λ source. source < sources) }
    {
        if u64::from(self.last.line) == line {
            source_of(&self.last)
        } else {
            None
        }
    }
}

/// The source that a mapping has.
pub fn source_of(mapping: &Mapping) -> Option<u32>
    ensures { result ≡ source_of mapping.now }
{
    match mapping.origin {
        Some(origin) => Some(origin.source),
        None => None,
    }
}

// Whether a mapping stands after a position.
fn is_after(mapping: &Mapping, line: u64, column: u64) -> bool
    ensures { result ≡ stands_before (position_at line column) mapping.now }
{
    let generated = u64::from(mapping.line);
    line < generated || line == generated && column < u64::from(mapping.column)
}
