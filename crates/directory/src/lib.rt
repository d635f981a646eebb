// Which slot directory a plain page has, or why none is taken: document 01, "Slots and rows". It carries over what slotted.rs's SlottedPage::parse
// and unconfirmed decide; `slotted` puts it into tables.
#![tactic(auto)]

mod verdicts;

pub use verdicts::{Decided, Listed, Unlisted, decide, decide_page, slots_at};
