// The layouts of include/lumeviqo.h for a plain page's rows, written as those of `layout` are. Rows go from the page straight into the lent
// buffer: whoever calls may be short of stack.
#![tactic(auto)]

mod listings;

pub use listings::{ROW_COUNT_SIZE, ROW_SIZE, ROWS_SIZE, write_row, write_row_count, write_rows};
