//! URLs of which no file is asked for.
ghost use Rattle.std.specs.Prelude.{◌≡◌};
ghost use Rattle.smap_store.specs.Fileless.{asks_no_file, is_evaluated, is_of_eval, is_of_node};

use smap_locations::Locations;

/// Whether no file is asked for the map of a URL: it is that of a module of node's own, or the name that V8 or Firefox gives
/// to a text that was evaluated, and no file is named for exactly it.
pub fn asks_no_file(locations: &Locations, url: &[u8]) -> bool
    ensures { result ≡ asks_no_file locations.now url.now }
{
    (is_of_node(url) || is_of_eval(url) || is_evaluated(url)) && !locations.has_file(url)
}

fn is_of_node(url: &[u8]) -> bool
    ensures { result ≡ is_of_node url.now }
{
    url.starts_with(b"node:")
}

// Before the place where it was evaluated, as V8 names it.
fn is_of_eval(url: &[u8]) -> bool
    ensures { result ≡ is_of_eval url.now }
{
    url.starts_with(b"eval at ")
}

// Behind the URL and the line where it was evaluated, as Firefox names it.
fn is_evaluated(url: &[u8]) -> bool
    ensures { result ≡ is_evaluated url.now }
{
    url.ends_with(b" > eval") || url.ends_with(b" > Function")
}
