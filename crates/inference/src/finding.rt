// Where a label stands among siblings, or would. A long key list is looked for among those that stand there before it is searched for in
// their order: that two lists differ shows at the first key that differs, and how they are ordered only where the shorter one ends.
ghost use Rattle.std.specs.Prelude.{◌≡◌, Bool, List, ℕ, ◌<◌};
ghost use Rattle.counting_theory.specs.Label.{CountingType};
ghost use Rattle.inference.specs.Inside.Inferring.{label_of_wanted, spot, StandsAt, ArenaHolds, Starts, Shown, OfShown};

use crate::key_list::KEY_SIZE;
use crate::search::{search, search_start};
use crate::wanted::Wanted;
use type_arena::type_record::span_at;

// From so many keys on a list is looked for first.
const LONG_LIST: usize = 4;

// The record among n records of siblings that has this label, which has a key list; or n. They are looked at in turn, from `from` on.
fn standing(b: &[u8], from: usize, n: usize, wanted: &Wanted<'_>) -> usize
    requires { Shown wanted.now.equivalence b.now n from }
    ensures { OfShown wanted.now.equivalence b.now n from (λ f. result < n → StandsAt (label_of_wanted wanted.now) f result) }
{
    let mut at = from;
    let mut passed = 0;
    while passed < n {
        let p = search_start(at, n);
        if wanted.is_at(b, p) {
            return p;
        }
        let span = span_at(b, p);
        at = p + span;
        passed += span;
    }
    n
}

// Where the label stands among n records of siblings (Ok), or would (Err). The one before was found at `from`.
pub fn find(b: &[u8], from: usize, n: usize, wanted: &Wanted<'_>) -> Result<usize, usize>
    requires { Shown wanted.now.equivalence b.now n from }
    ensures { OfShown wanted.now.equivalence b.now n from (λ f. result ≡ spot (label_of_wanted wanted.now) 0 f) }
{
    if KEY_SIZE * LONG_LIST <= wanted.keys.len() {
        let p = standing(b, from, n, wanted);
        if p < n {
            return Ok(p);
        }
    }
    search(b, from, n, wanted)
}
