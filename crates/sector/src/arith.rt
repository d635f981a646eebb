// Byte arithmetic of the stored page, modulo 256.
ghost use Rattle.std.specs.Prelude.{◌≡◌, ◌*◌, ◌%◌};
ghost use Rattle.sector.specs.Byte.{offset_of, shifted_of};

// What every byte of a sector is shifted by, whatever its place.
pub fn ap_offset(number: u64, sector: u8) -> u8
    ensures { result ≡ offset_of number sector }
{
    let bias = (number % 16 / 2 * 4) as u8;
    ((number % 256) as u8)
        .wrapping_add(sector)
        .wrapping_sub(bias)
}

// Byte `i` of a sector, shifted under a step.
pub fn shifted(b: u8, offset: u8, i: usize, step: u8) -> u8
    ensures { result ≡ shifted_of b offset i step }
{
    let product = ((i % 256) as u8).wrapping_mul(step);
    b.wrapping_sub(offset).wrapping_sub(product)
}
