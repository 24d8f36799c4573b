//! Laws over the definitions, for all files: a call does nothing, and its contract is the law.
ghost use Rattle.std.specs.Prelude.{◌≡◌, ℕ, List, [], Option, Some, None, Err, codes, is_none, is_some, option_and_then, option_map};
ghost use Rattle.serde_json.specs.Data.{Members, object};
ghost use Rattle.serde_json.specs.Find.{as_str};
ghost use Rattle.url.specs.Parts.{Parts};
ghost use Rattle.smap_mappings.specs.declared.fault.Fault.{Fault};
ghost use Rattle.smap_record.specs.Fields.{ignored_field};
ghost use Rattle.smap_record.specs.Json.{list_of, number_below, or_absent, text_or_null};
ghost use Rattle.smap_record.specs.Record.{record_of};
ghost use Rattle.smap_record.specs.declared.refusal.MapRefusal.TheVariants.{Text};
ghost use Rattle.smap_explain.specs.Explain.{IsExplained, ReportsFault};
ghost use Rattle.smap_explain.specs.Rule.{asked_key, wrong_in};
ghost use Rattle.smap_explain.specs.Sections.{count_at, field_of};
ghost use Rattle.smap_explain.specs.declared.explanation.Explanation.{Explanation};
ghost use Rattle.smap_explain.specs.declared.rule.MapKey.TheVariants as keys;

/// A file that is refused for a segment is explained by a segment of the same section with the same fault.
pub fn refused_segments_are_explained()
    ensures { (bytes : List ℕ) (base : Option Parts) (k section : ℕ) (fault : Fault)
        (explanation : Explanation) → record_of bytes base k ≡ Err (Text section fault)
        → IsExplained bytes (Text section fault) explanation →
        ReportsFault section fault explanation }
{}

/// Nothing at a key of a map is reported as wrong exactly where a map that is read states something there.
pub fn wrong_is_what_cannot_be_read()
    ensures sources { (map : Members) → is_none (wrong_in keys.Sources map)
        ≡ is_some (option_and_then (list_of text_or_null) (field_of (codes "sources") map)) }
    ensures names { (map : Members) → is_none (wrong_in keys.Names map)
        ≡ is_some (or_absent [] (list_of as_str) (field_of (codes "names") map)) }
    ensures contents { (map : Members) → is_none (wrong_in keys.SourcesContent map)
        ≡ is_some (or_absent [] (list_of text_or_null) (field_of (codes "sourcesContent") map)) }
    ensures ignored { (map : Members) → is_none (wrong_in (asked_key keys.IgnoreList map) map)
        ≡ is_some (or_absent [] (list_of (number_below (count_at (codes "sources") map)))
        (ignored_field (object map))) }
    ensures root { (map : Members) → is_none (wrong_in keys.SourceRoot map)
        ≡ is_some (or_absent None (λ value. option_map Some (as_str value))
        (field_of (codes "sourceRoot") map)) }
    ensures mappings { (map : Members) → is_none (wrong_in keys.Mappings map)
        ≡ is_some (option_and_then as_str (field_of (codes "mappings") map)) }
{}
