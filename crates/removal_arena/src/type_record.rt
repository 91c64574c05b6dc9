// The fields of a type record of 16 bytes, which removal alone works on.
ghost use Rattle.std.specs.Prelude.{◌≡◌};
ghost use Rattle.removal_theory.specs.WellFormed.{bad_type_length};
ghost use Rattle.removal_theory.specs.Encoding.{type_size, type_kind, type_zero, type_key, type_span};
ghost use Rattle.removal_theory.specs.Inside.TypeBytes.{type_count};
ghost use Rattle.removal_arena.specs.Inside.Places.{kind_is, zero_is, key_is, span_is, count_is};
ghost use Rattle.std.proofs.Common.{lit≤};

use type_arena::layout::Layout;
use value_table::record;

pub const SIZE: usize = 16;

// The type records of removal: a count, and nothing else, stands behind the span.
pub struct Counted;

impl Layout for Counted {
    const SIZE: usize = SIZE;

    ghost SIZE = { type_size };

    ghost kind = { type_kind };

    ghost zero = { type_zero };

    ghost key = { type_key };

    ghost span = { type_span };

    ghost count = { type_count };

    ghost long = { lit≤ tt };

    ghost kind_is = { kind_is };

    ghost zero_is = { zero_is };

    ghost key_is = { key_is };

    ghost span_is = { span_is };

    ghost count_is = { count_is };
}

// A length that is no multiple of the record size, or above the limit.
pub fn bad_length(n: usize) -> bool
    ensures { result ≡ bad_type_length n }
{
    n % SIZE != 0 || record::MAX_LENGTH < n
}
