// Where the fields that each type record begins with stand, whatever its size: kind, a zero byte, key, span and count.
ghost use Rattle.std.specs.Prelude.{◌≡◌, ℕ, ◌+◌, ◌*◌, ◌≤◌, ◌<◌, List, length};
ghost use Rattle.byte_records.specs.Number.{number_at};

use byte_records::little_endian::number;

// Where the fields begin in a record: behind those that stand before them in the format.
const ZERO_OFFSET: usize = 1;

pub const KEY_OFFSET: usize = 2;

pub const SPAN_OFFSET: usize = 4;

pub const COUNT_OFFSET: usize = 8;

// Type records of one size: how the fields of record i are read from bytes, and where they stand there.
pub trait Layout {
    const SIZE: usize;

    ghost SIZE: { ℕ };

    ghost kind: { List ℕ → ℕ → ℕ };

    ghost zero: { List ℕ → ℕ → ℕ };

    ghost key: { List ℕ → ℕ → ℕ };

    ghost span: { List ℕ → ℕ → ℕ };

    ghost count: { List ℕ → ℕ → ℕ };

    ghost long: { 16 ≤ SIZE };

    ghost kind_is: { (b : List ℕ) (i : ℕ) → kind b i ≡ number_at 1 b (SIZE * i) };

    ghost zero_is: { (b : List ℕ) (i : ℕ) → zero b i ≡ number_at 1 b (SIZE * i + 1) };

    ghost key_is: { (b : List ℕ) (i : ℕ) → key b i ≡ number_at 2 b (SIZE * i + 2) };

    ghost span_is: { (b : List ℕ) (i : ℕ) → span b i ≡ number_at 4 b (SIZE * i + 4) };

    ghost count_is: { (b : List ℕ) (i : ℕ) → count b i ≡ number_at 8 b (SIZE * i + 8) };
}

pub fn kind_at<L: Layout>(b: &[u8], i: usize) -> u8
    requires { L.SIZE * i + L.SIZE ≤ length b.now }
    ensures { result ≡ L.kind b.now i }
{
    b[L::SIZE * i]
}

pub fn zero_at<L: Layout>(b: &[u8], i: usize) -> u8
    requires { L.SIZE * i + L.SIZE ≤ length b.now }
    ensures { result ≡ L.zero b.now i }
{
    b[L::SIZE * i + ZERO_OFFSET]
}

pub fn key_at<L: Layout>(b: &[u8], i: usize) -> usize
    requires { L.SIZE * i + L.SIZE ≤ length b.now }
    ensures { result ≡ L.key b.now i }
{
    number::<2>(b, L::SIZE * i + KEY_OFFSET)
}

pub fn span_at<L: Layout>(b: &[u8], i: usize) -> usize
    requires { L.SIZE * i + L.SIZE ≤ length b.now }
    ensures { (result ≡ L.span b.now i) × (result < 4294967296) }
{
    number::<4>(b, L::SIZE * i + SPAN_OFFSET)
}

pub fn count_at<L: Layout>(b: &[u8], i: usize) -> usize
    requires { L.SIZE * i + L.SIZE ≤ length b.now }
    ensures { result ≡ L.count b.now i }
{
    number::<8>(b, L::SIZE * i + COUNT_OFFSET)
}
