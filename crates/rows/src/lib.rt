// The rows of a plain page: document 01, "A row runs from a kept live offset to the next greater one", with the answers of the parse and 16.
// It carries over slotted.rs's SlottedPage::rows().
//
// It departs from the original in shape: rows are read from the directory's far end, where it stands, with no copy and no sorting: one by its
// number, or all of them into a lent buffer.
#![tactic(auto)]

mod spans;
mod starts;

pub use spans::{
    Row, Span, end_of, is_kept, row_answer, row_at, row_bytes, row_count, row_found, row_span,
    rows_counted, start_of,
};
pub use starts::row_starts;
