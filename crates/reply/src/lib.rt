// The reply to a line: the report on the frame that it is, or line 11. Document 01, "The program". Functions on slices, with no input or output. The original
// has no such part.
#![tactic(auto)]

mod answering;
mod writing;

pub use answering::reply_to;
pub use writing::{REPLY_MOST, REPORT_MOST, put_report};
