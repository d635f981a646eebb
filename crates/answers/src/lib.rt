// Every answer of the reader, and what stands beside one: document 01, "Answer numbers", with the fields of the original's
// error.rs, warning.rs and options.rs. A list stands beside its answer in a table, of so many places as it can need.
#![tactic(auto)]

mod kinds;
mod notices;
mod settings;
mod tables;
mod trust;
mod values;

pub use kinds::{Bvs, Reason, Refusal};
pub use notices::{ParseWarnings, Warning, WarningKind, Warnings};
pub use settings::{Leniency, Options};
pub use tables::Table;
pub use trust::{Confidence, Evidence, Grounds, Source};
pub use values::Values;
