//! Laws over the definitions, for all texts: a call does nothing, and its contract is the law.
ghost use Rattle.std.specs.Prelude.{◌≡◌, ◌+◌, ◌++◌, ◌∷◌, ℕ, IsTrue, List, None, Option, Some, false, length, true};
ghost use Rattle.std.specs.List.{flat_map};
ghost use Rattle.smap_lines.specs.Lines.{IsWholeLines, Line, line_text};
ghost use Rattle.smap_pairs.specs.Json.{is_string_inside};
ghost use Rattle.smap_pairs.specs.Known.{IsFrameUrlWithin, UrlsKnown};
ghost use Rattle.smap_pairs.specs.StringPlaces.{AreForStrings};
ghost use Rattle.smap_record.specs.Record.{MapRecord};
ghost use Rattle.smap_trace.specs.Frame.{FrameParts};
ghost use Rattle.smap_trace.specs.FrameOf.{frame_of};
ghost use Rattle.smap_trace.specs.FunctionNames.{FunctionNames, named};
ghost use Rattle.smap_trace.specs.Hiding.{only_ignored};
ghost use Rattle.smap_trace.specs.MapsOf.{MapsByUrl, line_by};
ghost use Rattle.smap_trace.specs.Rewritten.{fate_at, line_after, original_in};
ghost use Rattle.smap_anywhere.specs.ChunkParts.{parts_in};
ghost use Rattle.smap_anywhere.specs.FramePlaces.{IsLeftToPatterns, has_file, is_from_quotable};
ghost use Rattle.smap_anywhere.specs.JsonParts.{AnyMap, AnyNames, AreFramesKnown, IsOutsideQuotedFrames};
ghost use Rattle.smap_anywhere.specs.JsonParts.{StaysString, with_marks};
ghost use Rattle.smap_anywhere.specs.MapUrls.{urls_known};
ghost use Rattle.smap_anywhere.specs.MapsSeen.{MapsSeen};
ghost use Rattle.smap_anywhere.specs.NamedParts.{by_names, named_parts_in, named_parts_text};
ghost use Rattle.smap_anywhere.specs.PartSteps.{MayBecome, MayBecomeBy};
ghost use Rattle.smap_anywhere.specs.Parts.{Part, other, part_bytes};
ghost use Rattle.smap_anywhere.specs.Renamed.{AreNames, IsRenamed};
ghost use Rattle.smap_anywhere.specs.Replaced.{parts_text};

/// A text that is cut after line ends may be rewritten in parts, whose texts are joined: each part alone is what it is in
/// the whole. So a text may be rewritten on any number of machines.
pub fn parts_are_rewritten_apart()
    ensures { (known : UrlsKnown) (maps : List ℕ → Option MapRecord) (first rest : List ℕ) →
        IsWholeLines first → parts_text maps (parts_in known (first ++ rest))
        ≡ parts_text maps (parts_in known first) ++ parts_text maps (parts_in known rest) }
{}

/// The places of a text and the bytes between them are the text: so nothing but places moves.
pub fn parts_are_the_text()
    ensures { (known : UrlsKnown) → ((line : List ℕ) → IsFrameUrlWithin known line) →
        (text : List ℕ) → flat_map part_bytes (parts_in known text) ≡ text }
{}

/// JSON stays JSON: if what stands between two quotation marks of a text is the inside of a string of JSON, what it becomes
/// is one too, whatever maps the URLs have. Exempt are a frame that is a line as a whole, and one that is a chunk as a whole
/// of a line of more than 65,536 bytes: its URL may have one of the quotation marks. So it does with any names of functions.
pub fn json_stays_json()
    ensures strings { (known : UrlsKnown) → AreForStrings known →
        (maps : List ℕ → Option MapRecord) (before inside behind : List ℕ) →
        IsTrue (is_string_inside inside) → let text = with_marks before inside behind in
        IsOutsideQuotedFrames known text (length before) →
        IsOutsideQuotedFrames known text (length before + 1 + length inside) →
        StaysString known maps before inside behind }
    ensures parts { (known : UrlsKnown) → AreForStrings known →
        (text became : List ℕ) (before inside behind : List Part) →
        parts_in known text ≡ before ++ other 34 ∷ (inside ++ other 34 ∷ behind) →
        IsTrue (is_string_inside (flat_map part_bytes inside)) → MayBecome AnyMap inside became →
        IsTrue (is_string_inside became) }
    ensures names { (known : UrlsKnown) → AreForStrings known → AreFramesKnown known →
        (text became : List ℕ) (before inside behind : List Part) →
        named_parts_in known text ≡ before ++ other 34 ∷ (inside ++ other 34 ∷ behind) →
        IsTrue (is_string_inside (flat_map part_bytes inside)) →
        MayBecomeBy by_names AnyNames inside became → IsTrue (is_string_inside became) }
    ensures known { (maps : MapsSeen) →
        AreForStrings (urls_known maps) × AreFramesKnown (urls_known maps) }
{}

/// A frame becomes anywhere what `rewrite` makes of it over the same maps, unless the name that comes in has a `"` or a `\`:
/// if an argument or a list names its URL; if a folder has a file for that, or a list without its query, and it is no
/// sentence, holds no other pair, and each byte of its query may stand behind a name; and if a pattern has one, and it is
/// one URL and no more. Any other URL is not named, and only if it breaks the second rule has it a file but by a pattern.
/// Longer lines are no frames.
pub fn frames_are_rewritten_alike()
    ensures alike { (maps : MapsSeen) (found : MapsByUrl) (line : Line) (parts : FrameParts) →
        frame_of line.bytes ≡ Some parts → has_file (urls_known maps) line.bytes parts ≡ true →
        is_from_quotable (original_in parts (found parts.url)) ≡ true →
        parts_text found (parts_in (urls_known maps) (line_text line))
        ≡ line_by found (only_ignored false) line }
    ensures others { (maps : MapsSeen) (line : List ℕ) (parts : FrameParts) →
        has_file (urls_known maps) line parts ≡ false → IsLeftToPatterns maps line parts }
{}

/// Where functions get the names that are known to be written for them, nothing else changes. A text becomes what it does
/// without them, but for names in the stead of names; and where none is known, the same. A frame becomes anywhere what
/// `rewrite` makes of it with the same names, where it does without. The parts with functions are the text, too, and those
/// of a text that is cut after line ends are those of its parts.
pub fn names_change_names_alone()
    ensures renamed { (known : UrlsKnown) → ((line : List ℕ) → IsFrameUrlWithin known line) →
        (maps : List ℕ → Option MapRecord) (names : List ℕ → Option FunctionNames) →
        AreNames names → (text : List ℕ) → IsRenamed (parts_text maps (parts_in known text))
        (named_parts_text maps names (named_parts_in known text)) }
    ensures none { (known : UrlsKnown) → ((line : List ℕ) → IsFrameUrlWithin known line) →
        (maps : List ℕ → Option MapRecord) (text : List ℕ) →
        named_parts_text maps (λ url. None) (named_parts_in known text)
        ≡ parts_text maps (parts_in known text) }
    ensures frames { (maps : MapsSeen) (found : MapsByUrl) (names : List ℕ → Option FunctionNames)
        (line : Line) (parts : FrameParts) → frame_of line.bytes ≡ Some parts →
        has_file (urls_known maps) line.bytes parts ≡ true →
        is_from_quotable (original_in parts (found parts.url)) ≡ true →
        named_parts_text found names (named_parts_in (urls_known maps) (line_text line))
        ≡ line_after line (fate_at (only_ignored false) (named (names parts.url) parts)
        (original_in parts (found parts.url))) }
    ensures text { (known : UrlsKnown) → ((line : List ℕ) → IsFrameUrlWithin known line) →
        (text : List ℕ) → flat_map part_bytes (named_parts_in known text) ≡ text }
    ensures apart { (known : UrlsKnown) (first rest : List ℕ) → IsWholeLines first →
        named_parts_in known (first ++ rest)
        ≡ named_parts_in known first ++ named_parts_in known rest }
{}
