// The decoding of a page: by its own scan, from a kept summary, and with a supplied bv. Document 01, "Answer numbers" and "Summary and
// replacement"; `deobfuscate` and `deobfuscate_with_bv` of the original's ap.rs. It writes `out` alone, and only when it accepts.
// Where the original has one reading, by its own scan, here that reading is the one from a summary, at the scan's: what holds of one holds of
// the other. A page is scanned after the limit and its integrity were answered, and not at all if one of them refuses it: the scan is most of a
// decoding's time.
#![tactic(auto)]

mod entries;
mod own;
mod plaintext;
mod summaries;

pub use own::{decode_page, decode_with_bv};
pub use summaries::{decode_summary, decode_summary_with_bv};
