//! Devices that show their failures: where bytes come from, and where they go.
//!
//! A [`ByteSource`] gives bytes and a [`ByteSink`] takes them, some at each call. A call moves
//! exactly the bytes that it counts; or it fails and moves none, and `failed` says so from then on.
//! So a program knows after each call what has passed, and whether a device is to blame.
//!
//! [`FromStd`] makes a device of a reader or a writer of std. [`MemorySource`] and [`MemorySink`]
//! stand in memory, and fail at a call that is chosen beforehand. [`read_all`] and [`write_all`] call
//! a device until all is done. To read a file of at most 1,000 bytes:
//!
//! ```text
//! let mut input = FromStd::new(File::open(&rt, "trace.txt")?);
//! let bytes = read_all(rt.alloc(), &mut input, 1_000)?;
//! ```
//!
//! [`WithoutSequences`] stands over a source, and is one without the control sequences by which a terminal is told of
//! colours and the like: ESC and `[`, and behind them any parameter bytes, any intermediate bytes and one final byte
//! (ECMA-48). Whoever is given bytes tells them apart by [`tell`], as far as they decide it.
#![tactic(auto)]

mod countdown;
mod device;
mod from_std;
mod front;
mod held;
pub mod laws;
mod memory_sink;
mod memory_source;
mod telling;
mod transfer;
mod without_sequences;

pub use device::{ByteSink, ByteSource, DeviceFault};
pub use from_std::FromStd;
pub use front::{Front, front_of};
pub use memory_sink::MemorySink;
pub use memory_source::MemorySource;
pub use telling::{Told, tell};
pub use transfer::{ReadFailure, read_all, write_all};
pub use without_sequences::WithoutSequences;
