// A sector at once, where it is exact: all its bytes lie on the line through the first two, and one look at them gives the fit. Document 02, #104. Most
// sectors of a file are like that; any other is counted by `classes`. It must equal `sector::scan_sector` on every sector, and has that function's contract.
// The original has no such part.
#![tactic(auto)]

mod line;
mod scan;

pub use scan::scan_sector;
