// The search for a label among siblings in an arena.
ghost use Rattle.std.specs.Prelude.{◌≡◌, Bool, cond, List, ℕ, ◌+◌, ◌<◌, ltb};
ghost use Rattle.counting_theory.specs.Label.{CountingType};
ghost use Rattle.counting_theory.specs.Encoding.{type_span};
ghost use Rattle.type_arena.specs.Inside.Arena.{RecordIn};
ghost use Rattle.inference.specs.Inside.Inferring.{label_of_wanted, spot, ArenaHolds, Starts, Ahead, PassedTo, resumed, Shown, OfShown};

use crate::wanted::Wanted;
use std::cmp::Ordering;
use std::ops::ControlFlow;
use type_arena::type_record::span_at;

// Where a search may begin that follows one which ended at `from`.
pub fn search_start(from: usize, n: usize) -> usize
    ensures { result ≡ cond (ltb from n) from 0 }
{
    if from < n { from } else { 0 }
}

// Where the search for the next label may begin, after one was found at record p of n records of siblings: there, or behind it among
// fields, since their keys differ, if a sibling is there.
pub fn resume_at(b: &[u8], p: usize, n: usize, field: bool) -> usize
    requires { RecordIn b.now p }
    ensures { result ≡ resumed field b.now p n }
{
    if !field {
        return p;
    }
    let next = p + span_at(b, p);
    if next < n { next } else { p }
}

// Passes the siblings behind the one at p, which the label comes after, as long as the label comes after them and they have its span: where
// the next one stands is then known before the span of this one is read. Answers where the label stands or would, or up to which sibling
// they were passed.
fn pass_alike(
    b: &[u8],
    p: usize,
    n: usize,
    wanted: &Wanted<'_>,
) -> ControlFlow<Result<usize, usize>, usize>
    requires { Shown wanted.now.equivalence b.now n p × (p < n) }
    ensures { (field : Bool) (rest : ℕ) (f : CountingType) (q free : List ℕ) →
        ArenaHolds wanted.now.equivalence field b.now n rest f q free →
        Ahead (label_of_wanted wanted.now) f (p + type_span b.now p) →
        PassedTo (label_of_wanted wanted.now) f (p + type_span b.now p) result }
{
    let span = span_at(b, p);
    let mut at = p + span;
    while at < n {
        if span_at(b, at) != span {
            return ControlFlow::Continue(at);
        }
        match wanted.compare(b, at) {
            Ordering::Less => return ControlFlow::Break(Err(at)),
            Ordering::Equal => return ControlFlow::Break(Ok(at)),
            Ordering::Greater => at += span,
        }
    }
    ControlFlow::Continue(at)
}

// Where the label stands among n records of siblings (Ok), or would (Err). The search begins where the last one ended, at `from`, and
// starts again if the label comes before the sibling there.
pub fn search(b: &[u8], from: usize, n: usize, wanted: &Wanted<'_>) -> Result<usize, usize>
    requires { Shown wanted.now.equivalence b.now n from }
    ensures { OfShown wanted.now.equivalence b.now n from (λ f. result ≡ spot (label_of_wanted wanted.now) 0 f) }
{
    let mut at = search_start(from, n);
    let mut resumed = 0 < at;
    while at < n {
        match wanted.compare(b, at) {
            Ordering::Less => {
                if !resumed {
                    return Err(at);
                }
                at = 0;
            }
            Ordering::Equal => return Ok(at),
            Ordering::Greater => match pass_alike(b, at, n, wanted) {
                ControlFlow::Break(found) => return found,
                ControlFlow::Continue(next) => at = next,
            },
        }
        resumed = false;
    }
    Err(at)
}
