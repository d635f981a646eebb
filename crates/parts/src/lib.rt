// The parts that the layouts of include/lumeviqo.h are made of: the answer part, fits, evidence, warnings, values of bv, slots. Each but the last is put at
// a place of a lent buffer, field by field, and returns the place behind it; `fits_lent` reads fits back. Numbers are little-endian; a place that a part does
// not use is zero: put field by field as well by `Entry`, whole or not at all by `Part`.
#![tactic(auto)]

mod entries;
mod lent;
mod tables;
#[cfg(test)]
mod tests;
mod wholes;

pub use entries::{Entry, put_answer};
pub use lent::{fits_in, fits_lent};
pub use tables::{put_entries, put_entry_list};
pub use wholes::{Part, put_all, put_list};

// How many bytes each takes. The proofs of the whole layouts hold these to the fields.
pub const ANSWER_SIZE: usize = 40;

pub const FIT_SIZE: usize = 8;

pub const GROUND_SIZE: usize = 5;

pub const WARNING_SIZE: usize = 33;

pub const BVS_SIZE: usize = 9;

pub const FITS_SIZE: usize = 8 * FIT_SIZE;

pub const SLOTS_SIZE: usize = 1024 * 2;
