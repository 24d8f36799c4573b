//! A text rewritten piece by piece: it is given bytes of any length, gives bytes, and stops where the map of a URL is not
//! known, with all that stands before done; and goes on from there once it is. So a text is passed over once, whether it
//! comes whole or in pieces, and nobody is called back for a map. Its frames are rewritten, or its places, wherever they
//! stand.
//!
//! ```text
//! let options = TextOptions { strip: false, most_bytes, most_output };
//! let mut rewriting = Rewriting::of_frames(alloc, HiddenFrames { ignored, texts }, options);
//! rewriting.give(bytes)?;
//! rewriting.end();
//! while let Stop::Wanted = rewriting.run(alloc, &urls, &mut maps)? {
//!     maps.learn(rewriting.wanted_url())?;
//! }
//! write(rewriting.output())?;
//! ```
#![tactic(auto)]

mod appended;
mod bound;
mod frames;
mod given;
mod kept_maps;
mod known;
pub mod laws;
mod location;
mod places;
mod put_line;
mod put_place;
mod rewriting;
mod stop;
mod store_maps;
mod stripping;
mod table_urls;
mod work;

pub use kept_maps::{KeptMap, KeptMaps};
pub use known::{KnownMaps, NamedMap};
pub use location::is_location;
pub use rewriting::{HiddenFrames, Rewriting, TextOptions};
pub use stop::{GiveFault, Stop};
pub use store_maps::StoreMaps;
pub use table_urls::TableUrls;
