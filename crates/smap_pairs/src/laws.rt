//! Laws over the definitions, for all texts: a call does nothing, and its contract is the law.
ghost use Rattle.std.specs.Prelude.{◌≡◌, ◌≤◌, ◌++◌, [], ℕ, IsSomeAnd, List, length, slice_get};
ghost use Rattle.std.specs.List.{All, flat_map};
ghost use Rattle.smap_lines.specs.Lines.{IsWholeLines};
ghost use Rattle.smap_pairs.specs.Apart.{AreAmong, AreApart, HasNoMark, HasNoQuotationMark};
ghost use Rattle.smap_pairs.specs.Apart.{HasWhole, IsClearOf, in_turn};
ghost use Rattle.smap_pairs.specs.Chunks.{IsCutOfLine, cut_bytes, cuts_of};
ghost use Rattle.smap_pairs.specs.Json.{InString};
ghost use Rattle.smap_pairs.specs.Known.{AllBegin, IsNowhereIn, UrlsKnown};
ghost use Rattle.smap_pairs.specs.LinePlaces.{places_in};
ghost use Rattle.smap_pairs.specs.Marks.{marks_of};
ghost use Rattle.smap_pairs.specs.Pairs.{IsPairOf};
ghost use Rattle.smap_pairs.specs.Seen.{seen_of};
ghost use Rattle.smap_pairs.specs.StringPlaces.{AreForStrings, BeginsAnew, HasFrame};
ghost use Rattle.smap_pairs.specs.StringPlaces.{IsWithoutQuotationMark, StandsBetween};
ghost use Rattle.smap_pairs.specs.VirtualLines.{line_of_byte, lines_of_strings, marks_of_strings, virtual_lines};
ghost use Rattle.smap_pairs.specs.declared.marks.Mark.{Mark};
ghost use Rattle.smap_pairs.specs.declared.pairs.Pair.{Pair};
ghost use Rattle.smap_pairs.specs.declared.seen.SeenByte.{SeenByte};
ghost use Rattle.smap_pairs.specs.declared.virtual_lines.VirtualLine.{VirtualLine};

/// Virtual lines and marks have the bytes of a line by turns: each byte is in one of them. So do lines of strings, and the
/// marks that end them, which are some of all.
pub fn lines_and_marks_are_the_line()
    ensures apart { (line : List ℕ) → AreApart 0 (length line) (marks_of (seen_of line)) }
    ensures virtual_lines { (line : List ℕ) →
        in_turn line (virtual_lines (seen_of line)) (marks_of (seen_of line)) ≡ line }
    ensures lines_of_strings { (line : List ℕ) →
        let marks = marks_of_strings 0 (marks_of (seen_of line)) in
        in_turn line (lines_of_strings (seen_of line)) marks ≡ line }
    ensures among { (marks : List Mark) → AreAmong (marks_of_strings 0 marks) marks }
{}

/// No mark has a byte of a pair, so a virtual line has the pair whole, and so has a line of a string.
pub fn pairs_are_in_one_line()
    ensures clear { (line : List ℕ) (pair : Pair) → IsPairOf line pair →
        All (IsClearOf pair.start pair.end) (marks_of (seen_of line)) }
    ensures virtual_lines { (line : List ℕ) (pair : Pair) → IsPairOf line pair →
        let lines = virtual_lines (seen_of line) in
        IsSomeAnd (slice_get lines (line_of_byte lines pair.start)) (HasWhole pair.start pair.end) }
    ensures lines_of_strings { (line : List ℕ) (pair : Pair) → IsPairOf line pair →
        let lines = lines_of_strings (seen_of line) in
        IsSomeAnd (slice_get lines (line_of_byte lines pair.start)) (HasWhole pair.start pair.end) }
{}

/// No mark ends in a virtual line: it has no quotation mark, no escape of one, and none of a line's end. A line of a string
/// has no quotation mark, either.
pub fn quotation_marks_end_lines()
    ensures virtual_lines { (line : List SeenByte) → All (HasNoMark line) (virtual_lines line) }
    ensures lines_of_strings { (line : List SeenByte) →
        All (HasNoQuotationMark line) (lines_of_strings line) }
{}

/// A later byte has a later line, or the same.
pub fn later_bytes_have_later_lines()
    ensures { (lines : List VirtualLine) (first second : ℕ) → first ≤ second →
        line_of_byte lines first ≤ line_of_byte lines second }
{}

/// The chunks of a text, and the bytes that stay, are the text, one behind the other.
pub fn chunks_are_the_text()
    ensures { (text : List ℕ) → flat_map cut_bytes (cuts_of text) ≡ text }
{}

/// Whole lines are cut as they are without the text behind them, and that as it is without them.
pub fn lines_are_cut_apart()
    ensures { (first rest : List ℕ) → IsWholeLines first →
        cuts_of (first ++ rest) ≡ cuts_of first ++ cuts_of rest }
{}

/// A chunk stands in one line: it has an LF at most as its last byte, and without that at most 65,536.
pub fn chunks_are_in_one_line()
    ensures { (text : List ℕ) → All IsCutOfLine (cuts_of text) }
{}

/// Where a line is a part of strings of JSON, each of its places begins and ends between two characters of one, and never
/// within an escape; so begins the frame of one, but with the line; and none has a quotation mark, but that of the frame
/// which the line is as a whole.
pub fn places_stay_in_strings()
    ensures between { (known : UrlsKnown) → AreForStrings known →
        (state : InString) (line : List ℕ) → BeginsAnew state line →
        All (StandsBetween state line) (places_in known line (seen_of line)) }
    ensures frames { (known : UrlsKnown) → AreForStrings known →
        (state : InString) (line : List ℕ) → All (HasFrame known state line) (places_in known line (seen_of line)) }
    ensures quotation_marks { (known : UrlsKnown) → AreForStrings known → (line : List ℕ) →
        All (IsWithoutQuotationMark known line) (places_in known line (seen_of line)) }
{}

/// A line without what all URLs begin with has no place.
pub fn urls_begin_alike()
    ensures { (known : UrlsKnown) (front line : List ℕ) → AllBegin known front →
        IsNowhereIn line front → places_in known line (seen_of line) ≡ [] }
{}
