// The values of digits, and the bytes that they spell.
ghost use Rattle.std.specs.Prelude.{◌≡◌, ◌+◌, ◌*◌, ◌/◌, ◌%◌, ◌≤◌, length};
ghost use Rattle.lists.specs.Pieces.{each, over};
ghost use Rattle.digits.specs.Digits.{digit_of, worst_of, worst_in, digit_values, values_into, value_pair, paired_into};

// The value of a digit in either case, or 16: the lesser of two, with no choice and so no branch. Counted from `:` the decimal digits are the last ten bytes, and
// those behind them are raised to 6, so that 10 more make 0 to 9 of a digit and at least 16 of any other character.
pub fn digit_value(c: u8) -> u8
    ensures { result ≡ digit_of c }
{
    let decimal = c.wrapping_sub(b':');
    let letter = lower_case(c).wrapping_sub(b'a');
    decimal.max(6).wrapping_add(10).min(letter.min(6) + 10)
}

// The bit of 32 set, which makes a capital its small letter.
fn lower_case(c: u8) -> u8
    ensures { result ≡ c / 64 * 64 + 32 + c % 32 }
{
    c / 64 * 64 + 32 + c % 32
}

// The values of a line's characters, into the front of `values`. The greatest tells whether all are digits. Where they do not fit, nothing and 16.
pub fn digit_values(line: &[u8], values: &mut [u8]) -> u8
    ensures value { result ≡ worst_in (length values.old) line.now }
    ensures values_after { values.new ≡ values_into line.now values.old }
{
    if values.len() < line.len() {
        return 16;
    }
    put_values(line, values)
}

fn put_values(line: &[u8], values: &mut [u8]) -> u8
    requires { length line.now ≤ length values.old }
    ensures value { result ≡ worst_of line.now }
    ensures values_after { values.new ≡ over values.old 0 (digit_values line.now) }
{
    let mut worst = 0u8;
    for (i, c) in line.iter().enumerate() {
        let value = digit_value(*c);
        values[i] = value;
        worst = worst.max(value);
    }
    worst
}

// The bytes that values spell, pair by pair, into the front of `bytes`. Where they do not fit, nothing.
pub fn pair_up(values: &[u8], bytes: &mut [u8])
    ensures { bytes.new ≡ paired_into values.now bytes.old }
{
    let n = values.len() / 2;
    if n <= bytes.len() {
        put_pairs(values, n, bytes);
    }
}

fn put_pairs(values: &[u8], n: usize, bytes: &mut [u8])
    requires { (n ≡ length values.now / 2) × (n ≤ length bytes.old) }
    ensures { bytes.new ≡ over bytes.old 0 (each (value_pair values.now) n) }
{
    for i in 0..n {
        bytes[i] = digit_pair(values[i + i], values[i + i + 1]);
    }
}

// The byte of two values. The sum of both is one load where they stand side by side, and the product leaves it whole.
pub fn digit_pair(a: u8, b: u8) -> u8
    ensures { result ≡ (a * 16 + b) % 256 }
{
    let both = u32::from(u16::from_le_bytes([a, b]));
    (both * 4097 / 256 % 256) as u8
}
