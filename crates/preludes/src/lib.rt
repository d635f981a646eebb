// The prelude of a plain page: document 01, "Slots and rows". It carries over slotted.rs's prelude_candidates.
#![tactic(auto)]

mod search;

pub use search::{Prelude, prelude_candidates};
