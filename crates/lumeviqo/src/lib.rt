// The reader for programs in other languages: the functions of include/lumeviqo.h. Each calls one proved function and writes its whole answer to the buffer
// `answer`, in a layout of `layout`, `parse_layout` or `row_layout`. Where that buffer is too short, or what is lent as fits is no eight fits, nothing is
// written to any buffer.
#![tactic(auto)]

mod decodings;
mod directories;
mod pages;
mod summaries;

pub use decodings::{
    lumeviqo_decode, lumeviqo_decode_summary, lumeviqo_decode_supplied,
    lumeviqo_decode_supplied_summary,
};
pub use directories::{lumeviqo_parse, lumeviqo_row, lumeviqo_row_count, lumeviqo_rows};
pub use pages::{
    lumeviqo_crc32, lumeviqo_integrity, lumeviqo_superblock, lumeviqo_superblock_checked,
    lumeviqo_trailer, lumeviqo_version,
};
pub use summaries::{lumeviqo_replace, lumeviqo_scan};
