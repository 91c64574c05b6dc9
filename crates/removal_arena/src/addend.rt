// The first addend or field of a run of 16-byte type records, which removal alone works on, and its store.
ghost use Rattle.std.specs.Prelude.{◌≡◌, ◌+◌, ◌^◌, ◌<◌, length};
ghost use Rattle.removal_arena.specs.Inside.Addend.{front, body, rest, Headed, Kept};

use crate::type_record::{Counted, SIZE};
use type_arena::addend::append;
use type_arena::layout::span_at;

// The first addend or field of x, with what stands inside it.
pub fn front_of(x: &[u8]) -> &[u8]
    requires { Headed x.now }
    ensures { result.now ≡ front x.now }
{
    &x[..SIZE * span_at::<Counted>(x, 0)]
}

// What stands inside the first addend or field of x.
pub fn body_of(x: &[u8]) -> &[u8]
    requires { Headed x.now }
    ensures { result.now ≡ body x.now }
{
    &x[SIZE..SIZE * span_at::<Counted>(x, 0)]
}

// What follows the first addend or field of x.
pub fn rest_of(x: &[u8]) -> &[u8]
    requires { Headed x.now }
    ensures { result.now ≡ rest x.now }
{
    &x[SIZE * span_at::<Counted>(x, 0)..]
}

// Stores the first addend of x as it is, and returns what follows it.
pub fn keep<'a>(x: &'a [u8], out: &mut [u8], at: &mut usize) -> &'a [u8]
    requires { Headed x.now × (at.old + length x.now < 2 ^ 64) }
    ensures { Kept x.now out.old at.old result.now out.new at.new }
{
    append(front_of(x), out, at);
    rest_of(x)
}
