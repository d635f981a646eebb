// Hexadecimal: the values of digits, the bytes that they spell, and the digits of bytes. Document 01, "The program". The loops over a line's characters
// neither leave early nor look a digit up, so that sixteen characters go through at a time. The original has no such part.
#![tactic(auto)]

mod reading;
mod writing;

pub use reading::{digit_pair, digit_value, digit_values, pair_up};
pub use writing::write_hex;
