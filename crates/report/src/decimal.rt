// Bytes, texts and decimal numbers, stored in a buffer from a position on. Each function answers the position behind what it stored.
ghost use Rattle.std.specs.Prelude.{◌≡◌, [], ◌∷◌, ◌+◌, ◌-◌, ◌≤◌, ◌<◌, length, replicate};
ghost use Rattle.counting_theory.specs.WellFormed.{max_total};
ghost use Rattle.report.specs.Decimal.{digit_count, digits, decimal, padded};
ghost use Rattle.report.specs.Inside.Room.{max_digits, TextStored};

use byte_records::store::put_bytes;

// The most digits of a number that is printed.
pub const MAX_DIGITS: usize = 16;

// How often n can be divided by ten until nothing is left; 0 has one digit. std's logarithm goes by a table of powers of ten, and there
// is to be none.
pub fn digit_count(n: usize) -> usize
    requires { n ≤ max_total }
    ensures { (result ≡ digit_count n) × (1 ≤ result) × (result ≤ max_digits) }
{
    let mut rest = n / 10;
    let mut d = 1;
    while 0 < rest {
        rest /= 10;
        d += 1;
    }
    d
}

pub fn put_byte(out: &mut [u8], at: usize, byte: u8) -> usize
    requires { at < length out.old }
    ensures { TextStored out.old at (byte ∷ []) out.new result }
{
    out[at] = byte;
    at + 1
}

pub fn put_text(out: &mut [u8], at: usize, text: &str) -> usize
    requires { at + length text.now ≤ length out.old }
    ensures { TextStored out.old at text.now out.new result }
{
    put_bytes(text.as_bytes(), out, at);
    at + text.len()
}

fn put_spaces(out: &mut [u8], at: usize, count: usize) -> usize
    requires { at + count ≤ length out.old }
    ensures { TextStored out.old at (replicate count 32) out.new result }
{
    out[at..at + count].fill(b' ');
    at + count
}

// The last `count` digits of n, stored from behind.
fn put_digits(out: &mut [u8], at: usize, n: usize, count: usize) -> usize
    requires { at + count ≤ length out.old }
    ensures { TextStored out.old at (digits count n) out.new result }
{
    let mut rest = n;
    for d in (0..count).rev() {
        out[at + d] = b'0' + (rest % 10) as u8;
        rest /= 10;
    }
    at + count
}

pub fn put_number(out: &mut [u8], at: usize, n: usize) -> usize
    requires { (at + max_digits ≤ length out.old) × (n ≤ max_total) }
    ensures { TextStored out.old at (decimal n) out.new result × (result ≤ at + max_digits) }
{
    put_digits(out, at, n, digit_count(n))
}

// Padded on the left with spaces to `width` bytes.
pub fn put_padded(out: &mut [u8], at: usize, width: usize, n: usize) -> usize
    requires { (at + max_digits ≤ length out.old) × (width ≤ max_digits) × (n ≤ max_total) }
    ensures { TextStored out.old at (padded width n) out.new result × (result ≤ at + max_digits) }
{
    let count = digit_count(n);
    let p = put_spaces(out, at, width.saturating_sub(count));
    put_digits(out, p, n, count)
}
