// The fit of a sector: the step under which most of its bytes agree, once each is shifted by its place. Document 01,
// "Offsets, steps, fits"; the original's ap.rs: ap_offset, shifted, scan_sector, SectorFit. It departs in four points: the shifted bytes go
// into a lent buffer; a sector of more than 512 bytes, or a buffer of another length, gives a blank; a lead is a plain sum, where the
// original's saturates; a fit says how many steps tied (document 02, #106). Its scan, 256 histograms as the original's, is the plain form that `classes`
// and `quick` must equal.
#![tactic(auto)]

mod arith;
mod fits;
mod same;
mod scan;
mod search;

pub use arith::{ap_offset, shifted};
pub use fits::Fit;
pub use same::all_same;
pub use scan::{modal_count, scan_sector, write_shifted};
pub use search::table_fit;
