// The fit of a sector by residue classes, which `quick` asks for where it is not exact. Under step k the bytes at places r, r + q, r + 2 q and so on, class
// r of q, shift by q k a place, and only q k modulo 256 counts: with sixteen classes each has sixteen different rings of counts, where there are 256 steps.
// The count of a value in two classes together is the sum of theirs, the second's turned round by a multiple of k. So each sector is counted sixteen times
// and not 256 times, and rings are added for the rest. A count that shows 255 is made again by one histogram, and a sector whose length is no multiple of
// 16 has the histograms of `sector`. It must equal `sector::scan_sector` on every sector, and has that function's contract. The original has no such part.
#![tactic(auto)]

mod counts;
mod scan;

pub use scan::scan_sector;
