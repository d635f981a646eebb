// Folding in vectors. The sums have 300 places before the octets, so that each octet's addends stand at fixed distances before it; the
// register is four octets at the start of them, 300 places before the octets that it is to be added to.
ghost use Rattle.std.specs.Prelude.{◌≡◌, ◌+◌, ◌-◌, ◌%◌, ◌^◌, ◌≤◌, length};
ghost use Rattle.checksum.specs.Register.{register_after};
ghost use Rattle.crc.specs.Folds.{Folding, LeftOver};

use crate::wide;

// The register after 304 to 4,096 octets.
pub(crate) fn after_long(start: u32, octets: &[u8]) -> u32
    requires { (304 ≤ length octets.now) × (length octets.now ≤ 4096) }
    ensures { result ≡ register_after start octets.now }
{
    let mut sums = [0u8; 4396];
    sums[0] = low_octet(start);
    sums[1] = low_octet(start >> 8);
    sums[2] = low_octet(start >> 16);
    sums[3] = low_octet(start >> 24);
    let cut = octets.len() - 4;
    fold_up_to(&mut sums, octets, cut, start);
    let mut left = [0u8; 304];
    left_over(&mut left, &sums, octets, cut - 300);
    wide::after_medium(0, &left)
}

// Each octet that is struck out: those up to 300 before the cut.
fn fold_up_to(sums: &mut [u8; 4396], octets: &[u8], cut: usize, start: u32)
    requires { (300 ≤ cut) × (cut + 4 ≤ length octets.now) × (length octets.now ≤ 4096) × Folding start octets.now sums.old 0 }
    ensures { Folding start octets.now sums.new (cut - 300) }
{
    for j in 0..cut - 300 {
        sums[j + 300] = octets[j] ^ sums[j + 155] ^ sums[j + 117] ^ sums[j + 89] ^ sums[j];
    }
}

// The 304 octets from j on, with what is added to them.
fn left_over(left: &mut [u8; 304], sums: &[u8; 4396], octets: &[u8], j: usize)
    requires { (j + 304 ≤ length octets.now) × (length octets.now ≤ 4096) × (length left.old ≡ 304) }
    ensures { LeftOver octets.now sums.now left.new j 304 }
{
    for k in 0..304 {
        left[k] = octets[j + k]
            ^ sums[j + k + 155]
            ^ sums[j + k + 117]
            ^ sums[j + k + 89]
            ^ sums[j + k];
    }
}

fn low_octet(x: u32) -> u8
    ensures { result ≡ x % 2 ^ 8 }
{
    (x & 255) as u8
}
