// What a decoding writes.
ghost use Rattle.std.specs.Prelude.{◌≡◌, length};
ghost use Rattle.lists.specs.Bytes.{plain_of};
ghost use Rattle.decode.specs.Decode.{plain_page};

// A page that was written is accepted: the plain page is written.
pub(crate) fn deliver(bv: u8, stored: &[u8], shifted: &[u8], out: &mut [u8])
    requires { (length stored.now ≡ 4096) × (length out.old ≡ 4096) × (length shifted.now ≡ 4080) }
    ensures { out.new ≡ plain_page bv shifted.now stored.now }
{
    unshift(shifted, bv, &mut out[0..4080]);
    numbers::copy(&stored[4080..], &mut out[4080..]);
}

// The plain bytes of shifted ones.
fn unshift(shifted: &[u8], bv: u8, out: &mut [u8])
    requires { length out.old ≡ length shifted.now }
    ensures { out.new ≡ plain_of bv shifted.now }
{
    for (i, x) in out.iter_mut().enumerate() {
        *x = shifted[i].wrapping_sub(bv);
    }
}
