// The summary of a page, eight fits and 4,080 shifted bytes: made by a scan of the page, and kept up to date where a sector is replaced.
// Document 01, "Summary and replacement", and document 02, #103: a sector comes as the disc has it, 512 bytes, the last with the trailer. The
// original's ap.rs: sector_range, scan_page. Replacement is ours. The summary stands in the caller's buffer and in an array by value, where the
// original's is made anew for each page; the counts over the page are left to the choice of bv.
#![tactic(auto)]

mod pages;
mod replacing;
mod rescan;

pub use pages::{scan_page, sector_end};
pub use replacing::replace_sector;
