// The layouts of include/lumeviqo.h for a stored page: each whole answer, written at the front of a lent buffer. A writer returns how many bytes it wrote; a
// buffer that has no room for the layout stays as it is, with 0. What stands behind the layout stays. The original has no such part.
#![tactic(auto)]

mod decodings;
mod pages;
mod summaries;
mod whole;

pub use decodings::DECODING_SIZE;
pub use pages::{SUPERBLOCK_SIZE, TRAILER_SIZE};
pub use summaries::{Replacement, SCAN_SIZE};
pub use whole::{Layout, Record, write};

// The version of the layouts and of what the C functions take: any change of one is a change of this.
pub const LAYOUT_VERSION: u32 = 4;
