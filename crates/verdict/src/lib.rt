// What is decided of a page: document 01, "Answer numbers"; the decisions of `deobfuscate`, `deobfuscate_with_bv` and `finish` in the original's ap.rs. A page
// that was written is judged by its integrity, then by the choice of bv, then by its sectors. Nothing is written here: what `out` holds follows from the
// decision, in the crate `decode`. Exactness is seen in the shifted bytes, which a lent summary's fits may not agree with.
#![tactic(auto)]

mod decisions;
mod integrity;
mod results;
mod sectors;

use answers::Warnings;
use choice::Choice;
pub use decisions::{decide, decide_supplied};
pub use integrity::let_through;
pub use results::unallocated;
use sector::Fit;

// The choice, the eight fits, the warnings in order.
#[derive(Clone, Copy)]
pub struct Decoding {
    pub choice: Choice,
    pub fits: [Fit; 8],
    pub warnings: Warnings,
}
