// Fits that a caller lends as bytes.
ghost use Rattle.std.specs.Prelude.{◌≡◌, ◌+◌, ◌≤◌, length};
ghost use Rattle.parts.specs.Lent.{fit_in, fits_in, is_lent, fits_lent};

use crate::{FIT_SIZE, FITS_SIZE};
use sector::Fit;

// The eight fits of 64 bytes; of any other number of bytes, eight blank ones.
pub fn fits_in(bytes: &[u8]) -> [Fit; 8]
    ensures { result ≡ fits_in bytes.now }
{
    let mut fits = Fit::blanks();
    if bytes.len() != FITS_SIZE {
        return fits;
    }
    for (s, fit) in fits.iter_mut().enumerate() {
        *fit = fit_in(bytes, FIT_SIZE * s);
    }
    fits
}

// Those, where the bytes are eight fits.
pub fn fits_lent(bytes: &[u8]) -> Option<[Fit; 8]>
    ensures { result ≡ fits_lent bytes.now }
{
    if is_lent(bytes) {
        Some(fits_in(bytes))
    } else {
        None
    }
}

// 64 bytes, and 0 or 1 wherever a fit says whether it is exact.
fn is_lent(bytes: &[u8]) -> bool
    ensures { result ≡ is_lent bytes.now }
{
    if bytes.len() != FITS_SIZE {
        return false;
    }
    for s in 0..8 {
        if 1 < bytes[FIT_SIZE * s + 5] {
            return false;
        }
    }
    true
}

#[tactic(auto, unfolding(crate::specs::Lent::fit_in))]
fn fit_in(bytes: &[u8], at: usize) -> Fit
    requires { at + 8 ≤ length bytes.now }
    ensures { result ≡ fit_in bytes.now at }
{
    Fit {
        step: bytes[at],
        peak: u16::from_le_bytes([bytes[at + 1], bytes[at + 2]]),
        runner_up: u16::from_le_bytes([bytes[at + 3], bytes[at + 4]]),
        exact: bytes[at + 5] != 0,
        tied: u16::from_le_bytes([bytes[at + 6], bytes[at + 7]]),
    }
}
