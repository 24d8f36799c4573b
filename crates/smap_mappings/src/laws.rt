//! Laws over the definitions, for all bytes and numbers: a call does nothing, and its contract is the law.
ghost use Rattle.std.specs.Prelude.{◌≡◌, ◌≤◌, ◌↔◌, ℕ, ℤ, List, None, Some, false, true, length};
ghost use Rattle.std.specs.List.{All, list_any};
ghost use Rattle.smap_mappings.specs.Accepted.{IsAccepted};
ghost use Rattle.smap_mappings.specs.Canonical.{canonical_text};
ghost use Rattle.smap_mappings.specs.Encode.{list_fault};
ghost use Rattle.smap_mappings.specs.Faults.{first_fault};
ghost use Rattle.smap_mappings.specs.Limits.{most_text_bytes};
ghost use Rattle.smap_mappings.specs.Mappings.{mappings_of};
ghost use Rattle.smap_mappings.specs.Needless.{is_almost_canonical, without_line_ends};
ghost use Rattle.smap_mappings.specs.Order.{IsInOrder};
ghost use Rattle.smap_mappings.specs.Range.{is_mapping_past_limit};
ghost use Rattle.smap_mappings.specs.Segment.{fields_of, IsJoinOfSpellings};
ghost use Rattle.smap_mappings.specs.Within.{IsWithin};
ghost use Rattle.smap_mappings.specs.declared.mapping.Mapping.{Mapping};

/// The fields of a segment are the numbers of which its bytes are spellings, joined in order.
pub fn fields_are_joined_spellings()
    ensures { (bytes : List ℕ) (fields : List ℤ) →
        (fields_of bytes ≡ Some fields) ↔ IsJoinOfSpellings bytes fields }
{}

/// A text that is accepted has no fault, and its mappings keep to the limit and to the sources and names.
pub fn accepted_texts_have_no_fault()
    ensures clean { (text : List ℕ) (sources names : ℕ) → IsAccepted text sources names →
        first_fault text sources names ≡ None }
    ensures within { (text : List ℕ) (sources names : ℕ) → length text ≤ most_text_bytes →
        IsAccepted text sources names → All (IsWithin sources names) (mappings_of text) }
{}

/// A list of mappings has no fault exactly where it is in order and no number of it is past the limit; what is within
/// some numbers of sources and names is not.
pub fn lists_in_order_have_no_fault()
    ensures exact { (list : List Mapping) → (list_fault list ≡ None)
        ↔ (IsInOrder list × (list_any is_mapping_past_limit list ≡ false)) }
    ensures within { (list : List Mapping) (sources names : ℕ) → IsInOrder list →
        All (IsWithin sources names) list → list_fault list ≡ None }
{}

/// A text that is accepted, and of which no byte is needless, is the canonical text of its mappings, save for the `;` at
/// its end.
pub fn texts_without_needless_bytes_are_canonical()
    ensures { (text : List ℕ) (sources names : ℕ) → length text ≤ most_text_bytes →
        IsAccepted text sources names → is_almost_canonical text ≡ true →
        canonical_text (mappings_of text) ≡ without_line_ends text }
{}
