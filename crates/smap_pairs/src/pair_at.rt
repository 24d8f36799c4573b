//! The pair that begins at a byte.
ghost use Rattle.std.specs.Prelude.{◌≡◌, ◌==◌, ◌≤◌, IfSome, length};
ghost use Rattle.std.specs.List.{find};
ghost use Rattle.smap_pairs.specs.Pairs.{AreInOrder};

use crate::pairs::Pair;

/// The pair that begins at a byte, of those of a line, which are in their order: found by halving.
pub fn pair_at(pairs: &[Pair], size: usize, start: usize) -> Option<Pair>
    requires { AreInOrder 0 size pairs.now }
    ensures pair { result ≡ find (λ pair. pair.start == start) pairs.now }
    ensures there { IfSome result (λ pair. pair.start ≡ start) }
    ensures within { IfSome result (λ pair. pair.start ≤ size) }
{
    let mut rest = pairs;
    loop {
        let (before, behind) = rest.split_at(rest.len() / 2);
        let Some((pair, later)) = behind.split_first() else {
            return None;
        };
        if pair.start == start {
            return Some(*pair);
        }
        rest = if start < pair.start { before } else { later };
    }
}
