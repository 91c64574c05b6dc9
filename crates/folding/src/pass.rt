// The pass over a type under label: each addend and field is added under kind, where it belongs among those that stand there.
ghost use Rattle.std.specs.Prelude.{List, ◌≡◌, ℕ, ◌<◌, length};
ghost use Rattle.counting_theory.specs.Trie.{size, add};
ghost use Rattle.counting_theory.specs.Label.{Counting, CountingType};
ghost use Rattle.counting_theory.specs.declared.equivalence.Equivalence.TheVariants.{Kind as by_kind};
ghost use Rattle.counting_theory.specs.Encoding.{type_of};
ghost use Rattle.type_arena.specs.Inside.Addend.{Coded};
ghost use Rattle.inference.specs.Inside.Inferring.{ArenaHolds, Starts, split};
ghost use Rattle.folding.specs.Inside.Folding.{HeldAt, SomeHeld, HeldInside, Inside, lowest_of, start_inside, first_label, with_first, FoldedRun, FoldedFirst};

use counting_theory::equivalence::Equivalence;
use inference::placing::place;
use inference::scalar_fields::find_field;
use inference::wanted::Wanted;
use type_arena::addend::{body_of, rest_of};
use type_arena::payload::payload_at;
use type_arena::record_store::{NoRoom, store_span};
use type_arena::type_record;
use type_arena::type_record::{key_at, kind_at, span_at};
use value_table::record;

// How many records siblings have now, and a sibling at or before all that were added to.
#[derive(Clone, Copy, Debug, PartialEq, Eq)]
pub struct Folded {
    pub records: usize,
    pub low: usize,
}

// The record of the addend or field that was added last, or before the first one where a search may begin; the number of records of its
// siblings; and where a search inside it may begin.
#[derive(Clone, Copy, Debug, PartialEq, Eq)]
struct Placed {
    at: usize,
    records: usize,
    inside: usize,
}

// Where a search inside the record at which a label was found may begin: `inside`, if that is where the last search among its siblings
// ended, and something stands there.
#[tactic(auto, unfolding(crate::specs::Inside::Folding::start_inside))]
fn start_inside(same: bool, inside: usize, held: usize) -> usize
    ensures { result ≡ start_inside same inside held }
{
    if same && inside < held { inside } else { 0 }
}

// The lower of two records; the second alone, where nothing was added before.
#[tactic(auto, unfolding(crate::specs::Inside::Folding::lowest_of))]
fn lowest_of(first: bool, low: usize, p: usize) -> usize
    ensures { result ≡ lowest_of first low p }
{
    if first { p } else { low.min(p) }
}

// Where a search for a label may begin: a field is looked for by its key alone, which passes its siblings faster.
fn start_for(b: &[u8], from: usize, n: usize, key: usize, field: bool) -> usize
    requires { SomeHeld field b.now n from }
    ensures { (rest : ℕ) (f : CountingType) (q free : List ℕ) → ArenaHolds by_kind field b.now n rest f q free → Starts from f → Starts result f }
{
    if !field {
        return from;
    }
    match find_field(b, from, n, key) {
        Ok(p) | Err(p) => p,
    }
}

// Adds the first addend or field of x, with what stands inside it, to the siblings among which the last one was placed. A search for it
// begins there, and inside it where the last search inside did if the label is the same: key lists of one length ascend, so the next
// one's first key is mostly not below the last one's.
#[cycle(fold_addend_fold_run)]
fn fold_addend(
    a: &mut [u8],
    last: Placed,
    rest: usize,
    x: &[u8],
    field: bool,
) -> Result<Placed, NoRoom>
    requires { HeldInside field a.old last.records rest last.at last.inside × Coded by_kind field x.now × (0 < length x.now) }
    ensures { (f : CountingType) (q free : List ℕ) → ArenaHolds by_kind field a.old last.records rest f q free → Starts last.at f →
        Inside last.inside last.at f → FoldedFirst (with_first x.now f) (size (split (first_label x.now) f).before) q rest result a.new }
{
    let wanted = Wanted {
        kind: kind_at(x, 0),
        key: key_at(x, 0),
        keys: &[],
        equivalence: Equivalence::Kind,
    };
    let more = payload_at(x, 0);
    let start = start_for(a, last.at, last.records, wanted.key, field);
    let put = place(a, start, last.records, rest, &wanted, more)?;
    let below = body_of(x);
    if below.is_empty() {
        return Ok(Placed {
            at: put.at,
            records: put.records,
            inside: 0,
        });
    }
    let span = span_at(a, put.at);
    let inner = type_record::SIZE * put.at + type_record::SIZE;
    let behind = put.records + rest - put.at - span;
    let held = span - 1;
    let begin = start_inside(put.at == last.at, last.inside, held);
    let fields = wanted.kind == record::RECORD;
    let folded = fold_run(&mut a[inner..], begin, held, behind, below, fields)?;
    store_span(a, put.at, folded.records + 1);
    Ok(Placed {
        at: put.at,
        records: put.records + (folded.records + 1) - span,
        inside: folded.low,
    })
}

// Adds a union, or a run of fields, to n records of siblings. The first search begins at `start`.
#[cycle(fold_addend_fold_run)]
pub fn fold_run(
    a: &mut [u8],
    start: usize,
    n: usize,
    rest: usize,
    x: &[u8],
    field: bool,
) -> Result<Folded, NoRoom>
    requires { HeldAt field a.old n rest start × Coded by_kind field x.now }
    ensures { (f : CountingType) (q free : List ℕ) → ArenaHolds by_kind field a.old n rest f q free → Starts start f →
        FoldedRun (add Counting (type_of by_kind x.now) f) q rest result a.new }
{
    let mut last = Placed {
        at: start,
        records: n,
        inside: 0,
    };
    let mut low = start;
    let mut y = x;
    while !y.is_empty() {
        last = fold_addend(a, last, rest, y, field)?;
        low = lowest_of(y.len() == x.len(), low, last.at);
        y = rest_of(y);
    }
    Ok(Folded {
        records: last.records,
        low,
    })
}
