// Groups of candidates: document 01, "Choosing bv". What a rule takes of a group is its first
// candidate, the highest in rank, the greatest count, or the values of bv. In the original's ap.rs these are iterators over its candidates.
#![tactic(auto)]

mod figures;
mod members;
mod ranks;

pub use figures::{bvs, most};
pub use members::kept;
pub use ranks::{first, highest};

// The groups that the rules speak of. A value and no closure: the theorems on the choice name them, by `belongs`.
#[derive(Clone, Copy)]
pub enum Group {
    Verified,
    Voted,
    Only(u8),
    Others(u8),
    Rivals { bv: u8, top: u8 },
    Contest { bv: u8, top: u8 },
    Supported(u8),
}
