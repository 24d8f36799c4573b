//! Laws over the definitions, for all texts: a call does nothing, and its contract is the law.
ghost use Rattle.std.specs.Prelude.{◌≡◌, ℕ, List, true, false};
ghost use Rattle.smap_resolve.specs.Paths.{ends_in_name, is_rooted, path_from, pieces_from, IsWithoutDetours};

/// A path that goes on from a file has no piece that is empty or `.`, and `..` only in front; from the root it has none.
pub fn paths_go_on_without_detours()
    ensures { (file text : List ℕ) → IsWithoutDetours (is_rooted file) (pieces_from file text) }
{}

/// Going on from a file by a path to another, and from there by a further path, is going on once by both.
pub fn going_on_twice_is_going_on_by_both()
    ensures { (file first second : List ℕ) →
        is_rooted first ≡ false → ends_in_name first ≡ true →
        path_from (path_from file first) second ≡ path_from file (path_from first second) }
{}
