// The first addend or field of a run of type records, its store, and the total of a union.
ghost use Rattle.std.specs.Prelude.{◌≡◌, ◌+◌, ◌^◌, ◌<◌, false, length};
ghost use Rattle.std.proofs.lemmas.List.Edits.{sets};
ghost use Rattle.counting_theory.specs.Trie.{total};
ghost use Rattle.counting_theory.specs.Label.{Counting};
ghost use Rattle.counting_theory.specs.declared.equivalence.Equivalence.{Equivalence};
ghost use Rattle.counting_theory.specs.Encoding.{type_of};
ghost use Rattle.type_arena.specs.Inside.Addend.{front, body, rest, Headed, Kept, Coded, Union};

use crate::type_record;
use crate::type_record::{count_at, span_at};
use byte_records::store::put_bytes;

// The first addend or field of x, with what stands inside it.
pub fn front_of(x: &[u8]) -> &[u8]
    requires { Headed x.now }
    ensures { result.now ≡ front x.now }
{
    &x[..type_record::SIZE * span_at(x, 0)]
}

// What stands inside the first addend or field of x.
pub fn body_of(x: &[u8]) -> &[u8]
    requires { Headed x.now }
    ensures { result.now ≡ body x.now }
{
    &x[type_record::SIZE..type_record::SIZE * span_at(x, 0)]
}

// What follows the first addend or field of x.
pub fn rest_of(x: &[u8]) -> &[u8]
    requires { Headed x.now }
    ensures { result.now ≡ rest x.now }
{
    &x[type_record::SIZE * span_at(x, 0)..]
}

// Stores src from `at` on, and moves `at` past it.
pub fn append(src: &[u8], out: &mut [u8], at: &mut usize)
    requires { at.old + length src.now < 2 ^ 64 }
    ensures { (out.new ≡ sets out.old at.old src.now)
        × (at.new ≡ at.old + length src.now) }
{
    put_bytes(src, out, *at);
    *at += src.len();
}

// Stores the first addend of x as it is, and returns what follows it.
pub fn keep<'a>(x: &'a [u8], out: &mut [u8], at: &mut usize) -> &'a [u8]
    requires { Headed x.now × (at.old + length x.now < 2 ^ 64) }
    ensures { Kept x.now out.old at.old result.now out.new at.new }
{
    append(front_of(x), out, at);
    rest_of(x)
}

// The total of a union.
pub fn union_total(a: &[u8]) -> usize
    requires { Union a.now }
    ensures { (e : Equivalence) → Coded e false a.now → result ≡ total Counting (type_of e a.now) }
{
    let mut x = a;
    let mut sum = 0;
    while !x.is_empty() {
        sum += count_at(x, 0);
        x = rest_of(x);
    }
    sum
}
