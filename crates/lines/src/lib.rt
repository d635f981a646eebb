// Lines out of blocks of input, for every program that answers lines: document 01, "The program". specs/Input defines the lines of an input and what a
// program puts out for them, over any reply; proofs/Runs has the theorem, that how the input is cut into blocks makes no difference. The code is one
// pure step: `next_line` finds the next line in what is kept and in a block, and keeps what goes on in the next block. A program lends a buffer of as
// many characters as its reply depends on, so that a line of any length takes no more memory. The original has no such part.
#![tactic(auto)]

mod ends;
mod next;

pub use ends::line_end;
pub use next::{Next, Step, keep, next_line};
