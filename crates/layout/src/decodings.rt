// A decoding: the choice, eight fits, how many warnings, ten places for them.
ghost use Rattle.fields.specs.Fields.{Put};
ghost use Rattle.layout.specs.Layouts.{choice_fields, decoding_size, decoding_fields};
ghost use Rattle.layout.specs.Sizes.{decoding-size};

use crate::whole::Layout;
use choice::{Choice, Refused};
use numbers::{Number, put_zeros};
use parts::{
    ANSWER_SIZE, BVS_SIZE, FITS_SIZE, GROUND_SIZE, WARNING_SIZE, put_answer, put_entries,
    put_entry_list,
};
use verdict::Decoding;

const CHOICE_SIZE: usize = BVS_SIZE + 4 + 4 * GROUND_SIZE;

const DECODED_SIZE: usize = CHOICE_SIZE + FITS_SIZE + 1 + 10 * WARNING_SIZE;

pub const DECODING_SIZE: usize = ANSWER_SIZE + DECODED_SIZE;

// Beside a refusal stand its candidates, and zeros.
impl Layout for Result<Decoding, Refused> {
    ghost SIZE = { decoding_size };

    const SIZE: usize = DECODING_SIZE;

    ghost fields = { decoding_fields };

    ghost sized = { decoding-size };

    fn put(&self, out: &mut [u8], at: usize) -> usize {
        match self {
            Ok(found) => {
                let at = put_answer(out, at, None);
                let at = put_choice(out, at, found.choice);
                let at = put_entries(out, at, &found.fits);
                put_entry_list(out, at, &found.warnings)
            }
            Err(refused) => {
                let at = put_answer(out, at, Some(refused.refusal));
                let at = put_entry_list(out, at, &refused.candidates);
                put_zeros(out, at, DECODED_SIZE - BVS_SIZE)
            }
        }
    }
}

// Values of bv, then bv, source, confidence, how much evidence, four places for it.
fn put_choice(out: &mut [u8], at: usize, c: Choice) -> usize
    ensures { Put out.old at (choice_fields c) out.new result }
{
    let at = put_entry_list(out, at, &c.others);
    let at = c.bv.put(out, at);
    let at = c.source.number().put(out, at);
    let at = c.confidence.number().put(out, at);
    put_entry_list(out, at, &c.grounds)
}
