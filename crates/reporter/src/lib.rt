// What the program `report` does: reads frames, one a line in hexadecimal, and writes a report line for each. Document 01, "The program". It is a library so
// that programs can run it on other inputs. Input comes in blocks of 65,536 characters. A line is answered where it stands in a block; of one that goes on
// in the next block so much is kept that a longer one is known, so that a line of any length takes no more memory. What was answered is written before
// the next block is read: no answer waits for later input.
#![tactic(auto)]

mod blocks;
mod failing;
mod running;

pub use running::run;
