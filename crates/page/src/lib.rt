// A stored page by itself: document 01, "Page, trailer, superblock". Its trailer, whether it was ever written, whether its CRC
// and trailer hold, and the fields of page 0. It carries over the original's page.rs, superblock.rs and `check_integrity` of ap.rs.
//
// It departs from them in three ways. A page is a lent slice, so every entry that needs a whole page refuses another length with
// answer 1, where the original has a type for it. A record holds its values, where the original's has accessors over raw bytes. And the
// checked superblock is a function of the page alone, where the original tests the magic in its store.
#![tactic(auto)]

mod fields;
mod integrity;
mod superblocks;
mod trailers;

pub use integrity::{check_integrity, check_written, is_unallocated};
pub use superblocks::{FormatVersion, SA_MAGIC, Superblock};
pub use trailers::{PAGE_SIZE, PageTrailer};
