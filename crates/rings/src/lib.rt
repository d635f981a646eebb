// Rings: 256 counts, one for each value of a byte, read round. Sixteen are counted from the bytes of a sector, one for each class of every sixteenth byte;
// eight are made of them, each the sum of one of the lower eight and one of the upper eight, turned; and the greatest sum of eight is found for four steps
// at once. `classes` makes the modal counts of a sector of these. The original has no such part. Counts are bytes, so that sixteen are added by one
// instruction: noting a byte wraps at 256, which no class of 32 bytes reaches, and a sum stops at 255.
#![tactic(auto)]

mod folds;
mod quads;
mod tallies;

pub use folds::{double, fold};
pub use quads::{Quad, peaks};
pub use tallies::tally;
