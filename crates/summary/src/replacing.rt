// The replacement of one sector of a stored page, the last with its trailer, and the summary kept up to date.
ghost use Rattle.std.specs.Prelude.{◌≡◌, ◌*◌, ◌<◌, length, set};
ghost use Rattle.lists.specs.Pieces.{over};
ghost use Rattle.sector.specs.Byte.{offset_of};
ghost use Rattle.sector.specs.Fit.{fit_of, sector_of};
ghost use Rattle.summary.specs.Page.{data_of};
ghost use Rattle.summary.specs.Replace.{Renews};

use crate::pages::check_sizes;
use crate::rescan::rescan;
use answers::Refusal;
use sector::Fit;

// `new` takes the place of a sector's 512 bytes, of sector 7 data and trailer, and the summary follows: one sector is scanned, not eight.
// What the trailer says is left to the decoding. It gives the eight fits with one place changed; a refusal changes nothing.
pub fn replace_sector(
    number: u64,
    sector: usize,
    new: &[u8],
    stored: &mut [u8],
    shifted: &mut [u8],
    fits: [Fit; 8],
) -> Result<[Fit; 8], Refusal>
    ensures { Renews number sector new.now stored.old stored.new shifted.old shifted.new fits result }
{
    check_sizes(stored, shifted)?;
    if sector > 7 || new.len() != 512 {
        return Err(Refusal::BadReplacement(sector));
    }
    Ok(put_sector(number, sector, new, stored, shifted, fits))
}

fn put_sector(
    number: u64,
    sector: usize,
    new: &[u8],
    stored: &mut [u8],
    shifted: &mut [u8],
    fits: [Fit; 8],
) -> [Fit; 8]
    requires { (sector < 8) × (length new.now ≡ 512) × (length stored.old ≡ 4096) × (length shifted.old ≡ 4080) }
    ensures value { result ≡ set fits sector (fit_of (offset_of number sector) (data_of sector new.now)) }
    ensures stored_after { stored.new ≡ over stored.old (sector * 512) new.now }
    ensures shifted_after { shifted.new ≡ over shifted.old (sector * 512) (sector_of (offset_of number sector) (data_of sector new.now)) }
{
    let start = sector * 512;
    numbers::copy(new, &mut stored[start..start + 512]);
    rescan(number, sector, 1, stored, shifted, fits)
}
