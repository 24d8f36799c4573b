//! Source maps for C, and for what calls C: maps are read, explained where they are refused, looked up, counted, written and
//! composed, mappings encoded, and stack traces rewritten, by the calls of the crates below. What is decided here is which
//! map a composition in steps asks for next. A map, a table of maps, a store of them, a rewriting, the inner maps of a map,
//! its originals, names of functions, a finder of URLs and bytes that are handed out stand behind handles, each a pointer
//! that owns what it leads to.
//!
//! ```text
//! if smap_map_read(alloc, bytes, base, 64, &mut map, &mut refusal) == 0 {
//!     smap_look_up(alloc, &mut map, line, column, &mut found);
//!     smap_map_free(alloc, &mut map);
//! }
//! ```
//!
//! A call returns 0 where it did what it was asked, 1 where what it was given is refused or there is nothing of that number,
//! 2 where the map of a URL is wanted, and 3 where there is not enough memory. `lib/smap.h` says of each what it asks for,
//! in C.
#![tactic(auto)]

mod asking;
mod bytes;
mod codes;
mod composing;
mod counts;
mod debug_id;
mod devices;
mod encoding;
mod fit;
mod frames;
mod handles;
mod inners;
mod lines;
mod look_up;
mod loose;
mod many;
mod mappings;
mod names;
mod originals;
mod paths;
mod piecewise;
mod place_urls;
mod read;
mod reason;
mod refusal;
mod rewriting;
mod shares;
mod sharing;
mod size;
mod spans;
mod standing;
mod status;
mod steps;
mod store;
mod store_look_up;
mod table_look_up;
mod tables;
mod texts;
mod trace;
mod version;
mod written;
