// The parse of a plain page's slot directory: document 01, "Slots and rows", with the answers 1, 20 and 8 to 12. It carries over slotted.rs's
// SlottedPage::parse.
//
// It departs from the original in shape: `directory` decides in small values, `locate` says all of it but the slots with no table, and `parse` alone
// puts slots and warnings into fixed tables.
#![tactic(auto)]

mod directories;
mod locations;

pub use directories::{Parsed, SlotDirectory, parse, parse_answer};
pub use locations::{Located, locate};
