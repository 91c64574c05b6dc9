// The fields of a type record.
ghost use Rattle.std.specs.Prelude.{◌≡◌, ◌<◌};
ghost use Rattle.counting_theory.specs.WellFormed.{bad_type_length};
ghost use Rattle.counting_theory.specs.Encoding.{type_size, type_kind, type_zero, type_key, type_span};
ghost use Rattle.counting_theory.specs.Inside.TypeBytes.{type_count};
ghost use Rattle.type_arena.specs.Inside.Places.{kind_is, zero_is, key_is, span_is, count_is};
ghost use Rattle.std.proofs.Common.{lit≤};
ghost use Rattle.type_arena.specs.Inside.Arena.{HasRecord};

use crate::layout;
use crate::layout::Layout;
use value_table::record;

pub const SIZE: usize = 24;

// The type records of document 01.
pub struct Full;

impl Layout for Full {
    const SIZE: usize = SIZE;

    ghost SIZE = { type_size };

    ghost kind = { type_kind };

    ghost zero = { type_zero };

    ghost key = { type_key };

    ghost span = { type_span };

    ghost count = { type_count };

    ghost long = { lit≤ tt };

    ghost kind_is = { kind_is };

    ghost zero_is = { zero_is };

    ghost key_is = { key_is };

    ghost span_is = { span_is };

    ghost count_is = { count_is };
}

// Where the lengths stand, behind the count.
pub const SHORTEST_OFFSET: usize = 16;

pub const LONGEST_OFFSET: usize = 20;

pub const FIELD: u8 = 7;

// The largest allowed arena: as many whole records as the limit on lengths has room for.
pub const LARGEST_ARENA: usize = record::MAX_LENGTH / SIZE * SIZE;

// The most that the counts of one union may total.
pub const MAX_TOTAL: usize = 1000000000000000;

pub fn kind_at(b: &[u8], i: usize) -> u8
    requires { HasRecord b.now i }
    ensures { result ≡ type_kind b.now i }
{
    layout::kind_at::<Full>(b, i)
}

pub fn zero_at(b: &[u8], i: usize) -> u8
    requires { HasRecord b.now i }
    ensures { result ≡ type_zero b.now i }
{
    layout::zero_at::<Full>(b, i)
}

pub fn key_at(b: &[u8], i: usize) -> usize
    requires { HasRecord b.now i }
    ensures { result ≡ type_key b.now i }
{
    layout::key_at::<Full>(b, i)
}

pub fn span_at(b: &[u8], i: usize) -> usize
    requires { HasRecord b.now i }
    ensures { (result ≡ type_span b.now i) × (result < 4294967296) }
{
    layout::span_at::<Full>(b, i)
}

pub fn count_at(b: &[u8], i: usize) -> usize
    requires { HasRecord b.now i }
    ensures { result ≡ type_count b.now i }
{
    layout::count_at::<Full>(b, i)
}

// A length that is no multiple of the record size, or above the limit.
pub fn bad_length(n: usize) -> bool
    ensures { result ≡ bad_type_length n }
{
    n % SIZE != 0 || record::MAX_LENGTH < n
}
