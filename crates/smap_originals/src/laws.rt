//! Laws over the definitions, for all lists and numbers: a call does nothing, and its contract is the law.
ghost use Rattle.std.specs.Prelude.{◌≡◌, ℕ, List, Some};
ghost use Rattle.std.specs.List.{All, Contains};
ghost use Rattle.smap_index.specs.Answer.{answer_at_or_before};
ghost use Rattle.smap_mappings.specs.Order.{IsInOrder};
ghost use Rattle.smap_mappings.specs.declared.mapping.Mapping.{Mapping};
ghost use Rattle.smap_mappings.specs.declared.mapping.Origin.{Origin};
ghost use Rattle.smap_originals.specs.Generated.{generated_next};
ghost use Rattle.smap_originals.specs.Laws.{AnswersOn, IsLastAtItsPlace};
ghost use Rattle.smap_originals.specs.declared.asked.OriginalDirection.{OriginalDirection};

/// A mapping that is found for an original place, looked up at its generated place, answers an original of the same line of
/// the same source, where no mapping behind it stands at that place.
pub fn what_is_found_answers()
    ensures { (direction : OriginalDirection) (list : List Mapping) (source line column : ℕ) →
        IsInOrder list → All
        (λ mapping. IsLastAtItsPlace list mapping →
        AnswersOn source line (answer_at_or_before list mapping.line mapping.column))
        (generated_next direction list source line column) }
{}

/// Each mapping with an original is found from its original place, in either direction.
pub fn what_has_an_original_is_found()
    ensures { (direction : OriginalDirection) (list : List Mapping) (mapping : Mapping)
        (origin : Origin) → Contains list mapping → mapping.origin ≡ Some origin →
        Contains (generated_next direction list origin.source origin.line origin.column) mapping }
{}
