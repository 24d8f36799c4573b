//! Laws over the definitions, for all texts: a call does nothing, and its contract is the law.
ghost use Rattle.std.specs.Prelude.{◌≡◌, ◌≤◌, ℕ, List, length};
ghost use Rattle.smap_io.specs.Sequences.{most_sequences, without_sequences};
ghost use Rattle.smap_io.specs.Turns.{AreTurns, Turn, pieces_text, turns_text};

/// Each text is pieces without sequences and sequences, by turns.
pub fn texts_are_pieces_and_sequences()
    ensures { (text : List ℕ) →
        (turns : List Turn) × (last : List ℕ) × AreTurns turns last ×
        (text ≡ turns_text turns last) }
{}

/// Of such a text the pieces stay, and no more.
pub fn pieces_stay()
    ensures { (turns : List Turn) (last : List ℕ) → AreTurns turns last →
        length turns ≤ most_sequences →
        without_sequences (turns_text turns last) ≡ pieces_text turns last }
{}
