// What the check of a type asks of the payloads in its records, which differ with their size.
ghost use Rattle.std.specs.Prelude.{◌≡◌, ℕ, ◌+◌, ◌*◌, ◌≤◌, length, refl};
ghost use Rattle.value_table.specs.Value.{array_kind};
ghost use Rattle.counting_theory.specs.Payload.{lengths_fit, no_lengths};
ghost use Rattle.counting_theory.specs.WellFormed.{max_total};
ghost use Rattle.type_arena.specs.Inside.Payload.{payload_of};
ghost use Rattle.type_check.specs.Inside.Reading.{Reading, full};

use type_arena::layout::Layout;
use type_arena::payload::{Payload, payload_at};
use type_arena::type_record::Full;

// The longest length that an array may have.
const MAX_ELEMENTS: usize = 8192;

// A check of the type records of one layout: how it reads them, and what it asks of their payloads.
pub trait Judged {
    type Records: Layout;

    ghost reading: { Reading };

    // Whether an array's payload is that of so many arrays with so many elements in all.
    fn lengths_fit(b: &[u8], p: usize, elements: usize) -> bool
        requires { (Self.Records.SIZE * p + Self.Records.SIZE ≤ length b.now) × (1 ≤ reading.count b.now p) × (reading.count b.now p ≤ max_total) ×
            (reading.kind b.now p ≡ array_kind) }
        ensures { result ≡ reading.proper b.now p elements };

    // Whether the payload of a record that is no array has no lengths.
    fn no_lengths(b: &[u8], p: usize) -> bool
        requires { Self.Records.SIZE * p + Self.Records.SIZE ≤ length b.now }
        ensures { result ≡ reading.no_lengths b.now p };

    ghost kind_read: { Self.Records.kind ≡ reading.kind };

    ghost zero_read: { Self.Records.zero ≡ reading.zero };

    ghost key_read: { Self.Records.key ≡ reading.key };

    ghost span_read: { Self.Records.span ≡ reading.span };

    ghost count_read: { Self.Records.count ≡ reading.count };
}

// Whether an array's lengths are those of `count` arrays with so many elements in all. The bounds come before the products, which fit then.
#[tactic(auto, unfolding(type_arena::specs::Inside::Payload::payload_of))]
fn lengths_fit(a: Payload, elements: usize) -> bool
    requires { (1 ≤ a.count) × (a.count ≤ max_total) }
    ensures { result ≡ lengths_fit (payload_of a) elements }
{
    let others = a.count - 1;
    a.shortest <= a.longest
        && a.longest <= MAX_ELEMENTS
        && a.longest + others * a.shortest <= elements
        && elements <= a.shortest + others * a.longest
}

// Whether a record that is no array has no lengths.
#[tactic(auto, unfolding(type_arena::specs::Inside::Payload::payload_of))]
fn no_lengths(a: Payload) -> bool
    ensures { result ≡ no_lengths (payload_of a) }
{
    a.shortest == 0 && a.longest == 0
}

impl Judged for Full {
    type Records = Full;

    ghost reading = { full };

    ghost kind_read = { refl };

    ghost zero_read = { refl };

    ghost key_read = { refl };

    ghost span_read = { refl };

    ghost count_read = { refl };

    fn lengths_fit(b: &[u8], p: usize, elements: usize) -> bool {
        lengths_fit(payload_at(b, p), elements)
    }

    fn no_lengths(b: &[u8], p: usize) -> bool {
        no_lengths(payload_at(b, p))
    }
}
