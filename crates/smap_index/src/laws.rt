//! Laws over the definitions, for all texts and numbers: a call does nothing, and its contract is the law.
ghost use Rattle.std.specs.Prelude.{◌≡◌, ℕ, List, [], ◌∷◌, None};
ghost use Rattle.std.specs.List.{All};
ghost use Rattle.smap_mappings.specs.Mappings.{mappings_of};
ghost use Rattle.smap_mappings.specs.Within.{IsWithin};
ghost use Rattle.smap_index.specs.Faults.{part_fault};
ghost use Rattle.smap_index.specs.Parts.{joined, whole_text};

/// The mappings of a text that is the only part, at the start, are the text's, and where they keep to some number of
/// sources and of names, the part has no fault.
pub fn one_text_is_its_mappings()
    ensures list { (text : List ℕ) → joined (whole_text text ∷ []) ≡ mappings_of text }
    ensures sound { (text : List ℕ) (sources names : ℕ) →
        All (IsWithin sources names) (mappings_of text) → part_fault (whole_text text ∷ []) ≡ None }
{}
