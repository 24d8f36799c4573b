//! A text that is being checked: its segments are given one by one, and then the text that was checked.
ghost use Rattle.std.specs.Prelude.{◌≡◌, ◌+◌, ◌<◌, ◌≤◌, ◌↔◌, IsOk, IfOk, IfErr, IfNone, IfSome, None, OnOk, Some, length, string_bytes};
ghost use Rattle.std.specs.List.{All};
ghost use Rattle.smap_mappings.specs.Limits.{most_text_bytes};
ghost use Rattle.smap_mappings.specs.Mappings.{mappings_of};
ghost use Rattle.smap_mappings.specs.Accepted.{IsAccepted};
ghost use Rattle.smap_mappings.specs.TextCheck.{AreOnLine, IsCheckedOn};
ghost use Rattle.smap_mappings.specs.Counts.{segment_count};
ghost use Rattle.smap_mappings.specs.Faults.{first_fault};
ghost use Rattle.smap_mappings.specs.State.{IsAfter};
ghost use Rattle.smap_mappings.specs.Within.{IsWithin};

use crate::fault::Fault;
use crate::kind::Kind;
use crate::limits::MOST_MAPPINGS_BYTES;
use crate::packed_text::PackedText;
use crate::state::State;
use crate::walk::{Walk, walk_line, walk_next};
use std::marker::Model;

/// A `mappings` text (ECMA-426, Mappings structure) that is being checked, as `PackedText::check` does at once: whoever
/// needs some of its segments goes through them meanwhile, so that the text is read once. What is given holds whether the
/// text has a fault further on or not.
#[derive(Drop)]
pub struct TextCheck {
    text: String,
    sources: u32,
    names: u32,
    walk: Walk,
}

impl Model for TextCheck {
    ghost use Rattle.std.specs.Prelude.{◌≤◌, length, string_bytes};
    ghost use Rattle.smap_mappings.specs.Limits.{most_text_bytes};
    ghost use Rattle.smap_mappings.specs.TextCheck.{TextCheckContents};
    ghost use Rattle.smap_mappings.specs.Private.Walk.{WalksUpTo};

    ghost Value = { TextCheckContents };

    ghost view = { λ c. record {
      text = string_bytes c.text;
      sources = c.sources;
      names = c.names;
      segments = c.walk.segments;
      at = c.walk.at;
    } };

    ghost invariant = { λ c. (length (string_bytes c.text) ≤ most_text_bytes)
        × WalksUpTo (string_bytes c.text) c.sources c.names c.walk };
}

impl TextCheck {
    /// Begins to check a text in which each source index is to be below `sources` and each name index below `names`. A
    /// text of more than 67,108,864 bytes is handed back. The call takes no memory.
    pub fn begin(text: String, sources: u32, names: u32) -> Result<TextCheck, String>
        ensures short { IsOk result ↔ (length (string_bytes text) ≤ most_text_bytes) }
        ensures of { IfOk result (λ checking. (checking.text ≡ string_bytes text)
            × (checking.sources ≡ sources) × (checking.names ≡ names)) }
        ensures none_so_far { IfOk result (λ checking. checking.segments ≡ 0) }
        ensures returned { IfErr result (λ e. e ≡ text) }
    {
        if text.len() > MOST_MAPPINGS_BYTES {
            return Err(text);
        }
        Ok(TextCheck {
            text,
            sources,
            names,
            walk: Walk::START,
        })
    }

    /// What the next segment has and the state after it, or `None` at the end of the text and before its first fault.
    #[inline(always)]
    pub fn next(&mut self) -> Option<(Kind, State)>
        ensures some { IfSome result (λ r. IsCheckedOn self.old r.0 self.new) }
        ensures state { IfSome result (λ r. r.1 ≡ self.new.at) }
        ensures short { IfSome result (λ r. r.1.place ≤ most_text_bytes) }
        ensures none { IfNone result (self.new ≡ self.old) }
        ensures end { IfNone result (
            first_fault self.old.text self.old.sources self.old.names ≡ None →
            self.old.segments ≡ segment_count self.old.text) }
    {
        match walk_next(self.text.as_bytes(), &self.walk, self.sources, self.names) {
            Some((kind, walk)) => {
                self.walk = walk;
                Some((kind, State::new(walk.at)))
            }
            None => None,
        }
    }

    /// Passes at most this many of the segments that follow on the line, and gives how many. The caller has been given a
    /// segment. It passes fewer where the line ends, and may where a segment follows whose reading takes longer.
    #[inline(always)]
    pub fn pass(&mut self, most: u32) -> u32
        requires some { 0 < self.old.segments }
        ensures stays { self.new
            ≡ record self.old { segments = self.old.segments + result; at = self.new.at } }
        ensures few { result ≤ most }
        ensures after { IsAfter self.new.text self.new.segments self.new.at }
        ensures line { self.new.at.line ≡ self.old.at.line }
        ensures on_line { AreOnLine self.old.text self.old.at.line
            self.old.segments self.new.segments }
    {
        let before = self.walk.segments;
        self.walk = walk_line(
            self.text.as_bytes(),
            &self.walk,
            self.sources,
            self.names,
            Some(most),
        );
        (self.walk.segments - before) as u32
    }

    /// Checks what is left, and gives the text that was checked, or its first fault and the text.
    pub fn finish(self) -> Result<PackedText, (Fault, String)>
        ensures accepted { IsOk result ↔ IsAccepted self.text self.sources self.names }
        ensures inside { IfOk result (λ packed. packed ≡ self.text) }
        ensures clean { OnOk result (first_fault self.text self.sources self.names ≡ None) }
        ensures within { OnOk result (All (IsWithin self.sources self.names)
            (mappings_of self.text)) }
        ensures faulty { IfErr result (λ e.
            first_fault self.text self.sources self.names ≡ Some e.0) }
        ensures returned { IfErr result (λ e. string_bytes e.1 ≡ self.text) }
    {
        PackedText::after(self.text, self.sources, self.names, &self.walk)
    }
}

// A check holds no list: with a further field this would not compile.
fn has_these_fields_alone(check: &TextCheck) {
    let TextCheck {
        text: _,
        sources: _,
        names: _,
        walk: _,
    } = check;
}
