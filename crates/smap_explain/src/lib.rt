//! Why a map file is refused, in facts: what stands where, and what may stand there. The sentences are made elsewhere.
#![tactic(auto)]

mod beginning;
mod build;
mod explaining;
mod explanation;
mod first_mapping;
mod found;
mod front_of_text;
mod key_facts;
mod key_place;
pub mod laws;
mod map_key_facts;
mod rule;
mod section_facts;
mod sections;
mod segment;
mod stop;

pub use beginning::begins_as;
pub use build::build_facts;
pub use explaining::explain;
pub use explanation::{
    Beginning, BuildFacts, Explanation, FoundValue, JsonStop, Key, KeyFacts, Measure, NotJsonFacts,
    PrintedPlace, Quantity, SegmentFacts,
};
pub use segment::segment_facts;
