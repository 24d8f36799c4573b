//! Laws over the definitions, for all texts: a call does nothing, and its contract is the law.
ghost use Rattle.std.specs.Prelude.{◌≡◌, ℕ, List, [], Some, is_some, true};
ghost use Rattle.smap_locations.specs.ByPattern.{IsByPattern};
ghost use Rattle.smap_locations.specs.InFolder.{IsInFolder};
ghost use Rattle.smap_locations.specs.Locations.{LocationsSeen, has_path_as_named, has_pattern_path_in_text, path_for, path_in_folders};
ghost use Rattle.smap_locations.specs.Named.{Named};
ghost use Rattle.smap_locations.specs.Patterns.{path_by_patterns};

/// What a folder has for a URL is in it: no piece of its path leads out of the folder, which is that of the longest prefix.
pub fn paths_stay_in_their_folders()
    ensures { (folders : Named) (url path : List ℕ) →
        path_in_folders folders url ≡ Some path → IsInFolder folders url path }
{}

/// What patterns give for a URL is the file of one that has the URL, or is in its folder; and none that has the URL has a
/// longer text, nor one as long with a file where that has a folder.
pub fn the_longest_pattern_decides()
    ensures { (patterns : Named) (url short path : List ℕ) →
        path_by_patterns patterns url short ≡ Some path → IsByPattern patterns url short path }
{}

/// The path that a URL has without patterns it has with them.
pub fn patterns_come_last()
    ensures { (locations : LocationsSeen) (url path : List ℕ) →
        path_for (record locations { patterns = [] }) url ≡ Some path →
        path_for locations url ≡ Some path }
{}

/// Where a URL is said to have a path, by what is named for it or by a pattern, it has one.
pub fn what_has_a_path_is_found()
    ensures named { (locations : LocationsSeen) (url : List ℕ) →
        has_path_as_named locations url ≡ true → is_some (path_for locations url) ≡ true }
    ensures by_pattern { (locations : LocationsSeen) (url : List ℕ) →
        has_pattern_path_in_text locations url ≡ true → is_some (path_for locations url) ≡ true }
{}
