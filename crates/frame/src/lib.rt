// A frame read from a line of hexadecimal: document 01, "The program". Functions on slices, with no input or output. The original has no such part.
#![tactic(auto)]

mod reading;

pub use reading::{FRAME_MOST, Frame, HEAD, LINE_ROOM, PAGE, read_frame};
