// The slot directory of a page: document 01, "Slots and rows", the scan and the row-count test. It carries over slotted.rs's
// scanned_directory and scan_from, and verify.rs's trailer_row_count_matches.
//
// A search takes bytes and the bv to take off each, 0 for a plain page: a candidate bv is tested with no plaintext copy.
// The scan departs from the original's, which starts anew at each position: it goes once from the limit down to 0.
#![tactic(auto)]

mod counts;
mod first_look;
mod pairs;
mod scans;
mod values;

pub use counts::{page_row_count_matches, trailer_row_count_matches};
pub use pairs::has_count;
pub use scans::{Scan, scanned_directory};
pub use values::{SLOT_OFFSET_MIN, is_offset, pair_at, pair_of, pairs_in};
