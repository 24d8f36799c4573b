//! What is known of URLs, within a bound: the value of each, or that it has none, as it was put last; what was longest not
//! asked for is dropped first.
//!
//! ```
//! let mut maps = Kept::new(alloc, 1_073_741_824)?;
//! maps.put(alloc, b"https://example.test/app.js", map, bytes)?;
//! let answer = maps.ask(b"https://example.test/app.js?v=2", now); // Known
//! let map = maps.peek(b"https://example.test/app.js?v=2", now);
//! ```
//!
//! What is wanted is put under its key, `maps.key_for(url)`. [`Bounded`] keeps values under texts as they are.
#![tactic(auto)]

mod answer;
mod bounded;
mod in_order;
mod kept;
pub mod laws;
mod own_urls;

pub use answer::{KeptAnswer, NoValue};
pub use bounded::Bounded;
pub use kept::Kept;
