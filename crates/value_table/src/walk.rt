// The walk over the records of a table.
ghost use Rattle.std.specs.Prelude.{◌≡◌, [], ◌+◌, ◌*◌, ◌%◌, ◌≤◌, length};
ghost use Rattle.value_table.specs.Value.{record_size, max_length, max_depth, records, kind_at};
ghost use Rattle.value_table.specs.Outcome.{outcome_of};
ghost use Rattle.value_table.specs.Judged.{walk};
ghost use Rattle.value_table.specs.Inside.EarlierFields.{innermost, first_of};

use crate::faults::{Level, bucket_of, fault_at};
use crate::record::{kind_at, span_at};
use crate::{TableError, faults, record};

// The most levels: that of the messages, and one inside each open value.
const LEVELS: usize = record::MAX_DEPTH + 1;

// The levels around the next record, that of the messages first, and how many values are open.
#[derive(Clone, Copy)]
struct Walk {
    levels: [Level; LEVELS],
    depth: usize,
}

// The innermost of the levels up to `depth` that doesn't end at record i, or else the outermost.
fn innermost(levels: &[Level; LEVELS], depth: usize, i: usize) -> usize
    requires { depth ≤ max_depth }
    ensures { (result ≡ innermost levels.now depth i) × (result ≤ depth) }
{
    for d in (1..=depth).rev() {
        if levels[d].end != i {
            return d;
        }
    }
    0
}

// The first field of the value that record i opens, if it is a record.
fn first_of(table: &[u8], i: usize) -> Option<usize>
    requires { (record_size * i + record_size ≤ length table.now) × (length table.now ≤ max_length) }
    ensures { result ≡ first_of (kind_at table.now i) i }
{
    (kind_at(table, i) == record::RECORD).then_some(i + 1)
}

// Judges the records of a table of an allowed length, with keys up to `largest`.
pub fn walk_table(table: &[u8], largest: usize) -> Result<usize, TableError>
    requires { (length table.now % record_size ≡ 0) × (length table.now ≤ max_length) }
    ensures { outcome_of result ≡ walk largest table.now (records table.now) 0 [] 0 }
{
    let n = table.len() / record::SIZE;
    let mut walk = Walk {
        levels: [Level::default(); LEVELS],
        depth: 0,
    };
    walk.levels[0].end = n;
    let mut latest = [0; faults::KEY_BUCKETS];
    for i in 0..n {
        let depth = innermost(&walk.levels, walk.depth, i);
        if let Some(fault) = fault_at(table, i, &walk.levels[depth], depth + 1, largest, &latest) {
            return Err(TableError::Faulty(fault, i));
        }
        latest[bucket_of(table, i)] = i;
        walk.levels[depth].count += 1;
        walk.depth = depth;
        let span = span_at(table, i);
        if 1 < span {
            walk.depth = depth + 1;
            walk.levels[depth + 1] = Level {
                end: i + span,
                first: first_of(table, i),
                count: 0,
            };
        }
    }
    Ok(walk.levels[0].count)
}
