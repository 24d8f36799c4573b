//! Laws over the definitions, for all texts: a call does nothing, and its contract is the law.
ghost use Rattle.std.specs.Prelude.{◌≡◌, ◌↔◌, ◌++◌, ℕ, List, Some};
ghost use Rattle.std.specs.Fmt.{decimal};
ghost use Rattle.smap_lines.specs.Edited.{edited};
ghost use Rattle.smap_lines.specs.Lines.{IsWholeLines, Line};
ghost use Rattle.smap_lines.specs.Numbers.{IsPrinted, decimal_number};

/// A text that is cut after line ends may be edited in parts, whose texts are joined: each part alone is what it is in
/// the whole. So a text may be edited on any number of machines.
pub fn parts_are_edited_apart()
    ensures { (becomes : Line → List ℕ) (first rest : List ℕ) → IsWholeLines first →
        edited becomes (first ++ rest) ≡ edited becomes first ++ edited becomes rest }
{}

/// The number that a text writes is the one that is printed as this text.
pub fn numbers_are_read_as_printed()
    ensures { (text : List ℕ) (n : ℕ)
        → (decimal_number text ≡ Some n) ↔ ((text ≡ decimal n) × IsPrinted n) }
{}
