// The digits of bytes.
ghost use Rattle.std.specs.Prelude.{◌≡◌, ◌+◌, ◌<◌, ◌≤◌, length};
ghost use Rattle.lists.specs.Pieces.{over};
ghost use Rattle.digits.specs.Digits.{lower_digit, hexed, hexed_into, hexed_number};

// The lower-case digits of bytes, into the front of `out`, and their number; where they do not fit, nothing and 0.
pub fn write_hex(bytes: &[u8], out: &mut [u8]) -> usize
    ensures value { result ≡ hexed_number bytes.now out.old }
    ensures out_after { out.new ≡ hexed_into bytes.now out.old }
{
    let n = bytes.len();
    if out.len() / 2 < n {
        return 0;
    }
    put_digits(bytes, out);
    n + n
}

fn put_digits(bytes: &[u8], out: &mut [u8])
    requires { length bytes.now + length bytes.now ≤ length out.old }
    ensures { out.new ≡ over out.old 0 (hexed bytes.now) }
{
    for (i, b) in bytes.iter().enumerate() {
        out[i + i] = lower_digit(*b / 16);
        out[i + i + 1] = lower_digit(*b % 16);
    }
}

fn lower_digit(value: u8) -> u8
    requires { value < 16 }
    ensures { result ≡ lower_digit value }
{
    if value < 10 {
        b'0' + value
    } else {
        b'a' - 10 + value
    }
}
