//! For which URLs maps are asked for, and where a folder has them.
ghost use Rattle.std.specs.Prelude.{◌≡◌, ◌≢◌, ◌⊎◌, None, IfOk, IsUtf8};
ghost use Rattle.smap_locations.specs.Locations.{path_for};
ghost use Rattle.smap_c.specs.Asking.{folder_path, location_status, one_folder};

use crate::handles::BytesHandle;
use crate::status::{DONE, NO_MEMORY, REFUSED};
use crate::written::hand_out;
use smap_locations::{LocationRefusal, Locations, is_folder};
use smap_piecewise::is_location;
use std::alloc::Global;

/// Whether a map may be asked for under a URL without its query and its fragment: 0 where it may be, and else 1.
#[unsafe(no_mangle)]
pub extern "C" fn smap_is_location(url: &[u8]) -> u32
    ensures { result ≡ location_status url.now }
{
    if is_location(url) { DONE } else { REFUSED }
}

/// Writes the path of the map that a folder has for a URL. Refused where it has none, where the prefix does not end in `/`,
/// and where the prefix or the folder is not UTF-8.
#[unsafe(no_mangle)]
pub extern "C" fn smap_folder_path(
    alloc: Global,
    prefix: &[u8],
    folder: &[u8],
    url: &[u8],
    path: &mut BytesHandle,
) -> u32
    ensures path { result ≡ 0 → path.new.held ≡ folder_path prefix.now folder.now url.now }
    ensures refused { result ≡ 1 → (IsUtf8 prefix.now → ⊥) ⊎ (IsUtf8 folder.now → ⊥)
        ⊎ (folder_path prefix.now folder.now url.now ≡ None) }
    ensures sound { folder_path prefix.now folder.now url.now ≡ None → result ≢ 0 }
    ensures taken { result ≡ 0 → IsUtf8 prefix.now × IsUtf8 folder.now }
    ensures stays { result ≢ 0 → path.new.held ≡ path.old.held }
    ensures status { (result ≡ 0) ⊎ (result ≡ 1) ⊎ (result ≡ 3) }
{
    let Ok(prefix) = str::from_utf8(prefix) else {
        return REFUSED;
    };
    let Ok(folder) = str::from_utf8(folder) else {
        return REFUSED;
    };
    hand_out_path(alloc, prefix, folder, url, path)
}

// The same of texts.
fn hand_out_path(
    alloc: Global,
    prefix: &str,
    folder: &str,
    url: &[u8],
    path: &mut BytesHandle,
) -> u32
    ensures path { result ≡ 0 → path.new.held ≡ folder_path prefix.now folder.now url.now }
    ensures refused { result ≡ 1 → folder_path prefix.now folder.now url.now ≡ None }
    ensures sound { folder_path prefix.now folder.now url.now ≡ None → result ≢ 0 }
    ensures stays { result ≢ 0 → path.new.held ≡ path.old.held }
    ensures status { (result ≡ 0) ⊎ (result ≡ 1) ⊎ (result ≡ 3) }
{
    if !is_folder(prefix.as_bytes()) {
        return REFUSED;
    }
    match one_folder(alloc, prefix, folder) {
        Ok(locations) => path_in(alloc, &locations, url, path),
        Err(_no_memory) => NO_MEMORY,
    }
}

// One folder for a prefix.
fn one_folder(alloc: Global, prefix: &str, folder: &str) -> Result<Locations, LocationRefusal>
    ensures { IfOk result (λ locations. locations ≡ one_folder prefix.now folder.now) }
{
    let Ok(prefix) = String::from_str(alloc, prefix) else {
        return Err(LocationRefusal::Memory);
    };
    let Ok(folder) = String::from_str(alloc, folder) else {
        return Err(LocationRefusal::Memory);
    };
    let mut locations = Locations::new(alloc);
    locations.add_folder(prefix, folder)?;
    Ok(locations)
}

// Hands out the path of the map of a URL, if it has one.
fn path_in(alloc: Global, locations: &Locations, url: &[u8], path: &mut BytesHandle) -> u32
    ensures path { result ≡ 0 → path.new.held ≡ path_for locations.now url.now }
    ensures refused { result ≡ 1 → path_for locations.now url.now ≡ None }
    ensures sound { path_for locations.now url.now ≡ None → result ≢ 0 }
    ensures stays { result ≢ 0 → path.new.held ≡ path.old.held }
    ensures status { (result ≡ 0) ⊎ (result ≡ 1) ⊎ (result ≡ 3) }
{
    match locations.path_for(alloc, url) {
        Ok(Some(found)) => hand_out(alloc, found.into_bytes(), path),
        Ok(None) => REFUSED,
        Err(_no_memory) => NO_MEMORY,
    }
}
