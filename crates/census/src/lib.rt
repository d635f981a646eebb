// How often each value occurs among a page's shifted bytes, and the votes of its exact sectors: document 01, "Choosing bv". The fits tell which sectors are
// exact: such a sector is its first byte as often as it has bytes, and is not looked at. The bytes of any other are counted in four tables at once, since
// a count that follows itself waits for the store before it. The original counts every byte.
#![tactic(auto)]

mod pages;
mod quarters;

pub use pages::{Tally, count_page};
pub use quarters::Quarters;
