//! What the bytes of a line count as.
ghost use Rattle.std.specs.Prelude.{◌≡◌, ◌<◌, [], ◌∷◌, IfSome, MatchOption, length, reverse};
ghost use Rattle.smap_pairs.specs.Signs.{first_of, signs};

use crate::seen::{NOTHING, SeenByte};

/// The first byte that counts in a part of a line, as what it counts, and what stands behind it.
pub fn next_sign(line: &[SeenByte]) -> Option<(u8, &[SeenByte])>
    ensures found { MatchOption result (signs line.now ≡ [])
        (λ found. signs line.now ≡ found.0 ∷ signs found.1.now) }
    ensures shorter { IfSome result (λ found. length found.1.now < length line.now) }
{
    let mut rest = line;
    while let Some((seen, behind)) = rest.split_first() {
        if seen.counts != NOTHING {
            return Some((seen.counts, behind));
        }
        rest = behind;
    }
    None
}

/// What the last byte counts as that counts in a part of a line.
#[tactic(auto, using(crate::proofs::BackLaws::reversed))]
pub fn last_sign(line: &[SeenByte]) -> Option<u8>
    ensures { result ≡ first_of (signs (reverse line.now)) }
{
    let mut rest = line;
    while let Some((seen, before)) = rest.split_last() {
        if seen.counts != NOTHING {
            return Some(seen.counts);
        }
        rest = before;
    }
    None
}
