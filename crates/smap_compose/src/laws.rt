//! Laws over the definitions, for all lists: a call does nothing, and its contract is the law.
ghost use Rattle.std.specs.Prelude.{◌≡◌, ◌≤◌, ◌+◌, ℕ, List, Option, length, map};
ghost use Rattle.std.specs.List.{All};
ghost use Rattle.smap_compose.specs.Composition.{Composition};
ghost use Rattle.smap_compose.specs.Follow.{CountedMappings, answer_with_origin, followed, with_origin};
ghost use Rattle.smap_compose.specs.FollowAll.{followed_all, followed_in_turn};
ghost use Rattle.smap_compose.specs.Pruned.{named_answer, pruned};
ghost use Rattle.smap_index.specs.Answer.{answer_at_or_before};
ghost use Rattle.smap_mappings.specs.Within.{IsWithin};
ghost use Rattle.smap_mappings.specs.declared.mapping.Mapping.{Mapping};
ghost use Rattle.smap_mappings.specs.declared.mapping.Origin.{Origin};

/// Of three maps, each made from what the one before it names, it doesn't matter which two are composed first: source
/// `t` of the second is source `t` after all sources of the first. The first list's indices name sources and names
/// that it has, as those of every map do.
pub fn composition_associates()
    ensures { (first second third : CountedMappings) (s t : ℕ) →
        All (IsWithin first.sources first.names) first.mappings →
        followed (followed first s second) (first.sources + t) third
        ≡ followed first s (followed second t third) }
{}

/// Composing a map with those of several of its sources at once is composing it with one after another, from the least
/// source on.
pub fn composing_all_is_composing_in_turn()
    ensures { (outer : CountedMappings) (inners : List (Option CountedMappings)) →
        length inners ≤ outer.sources →
        followed_all outer inners ≡ followed_in_turn outer 0 inners }
{}

/// Where mappings keep their places and get other origins, the same mapping answers at every generated position.
pub fn answers_keep_their_mappings()
    ensures { (origin_of : Origin → Option Origin) (list : List Mapping) (line column : ℕ) →
        answer_at_or_before (map (with_origin origin_of) list) line column
        ≡ answer_with_origin origin_of (answer_at_or_before list line column) }
{}

/// Of a map without what its mappings do not have, every look-up says the same: of the source the text of its name, its
/// content and its mark, and the name. The mappings' indices name sources and names that the map has.
pub fn pruned_maps_answer_alike()
    ensures { (whole : Composition) (line column : ℕ) →
        All (IsWithin (length whole.sources) (length whole.names)) whole.mappings →
        named_answer (pruned whole) (answer_at_or_before (pruned whole).mappings line column)
        ≡ named_answer whole (answer_at_or_before whole.mappings line column) }
{}
