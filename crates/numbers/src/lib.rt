// Numbers as bytes, written to a lent buffer at a place. A put is total: what does not fit leaves the buffer as it is. It returns the place behind what it
// wrote, so that puts follow one another with no place written down. Numbers are read from bytes by the library. The original has this in its standard library.
#![tactic(auto)]

mod bytes;
mod puts;
mod same;

pub use bytes::{copy, put_bytes, put_zeros};
pub use puts::{Number, put_low};
pub use same::all_are;
