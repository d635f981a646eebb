// The functions of include/lumeviqo.h as C calls them: each calls the function of its name in the crate `lumeviqo` and promises what it promises. A crate is built
// for Rattle or for C, not for both.
#![tactic(auto)]

mod decodings;
mod directories;
mod pages;
mod summaries;

pub use decodings::{
    lumeviqo_decode, lumeviqo_decode_summary, lumeviqo_decode_supplied,
    lumeviqo_decode_supplied_summary,
};
pub use directories::{lumeviqo_parse, lumeviqo_row, lumeviqo_row_count, lumeviqo_rows};
pub use pages::{
    lumeviqo_crc32, lumeviqo_integrity, lumeviqo_superblock, lumeviqo_superblock_checked,
    lumeviqo_trailer, lumeviqo_version,
};
pub use summaries::{lumeviqo_replace, lumeviqo_scan};
