// The walk over the records of a type.
ghost use Rattle.std.specs.Prelude.{◌≡◌, ◌+◌, ◌-◌, ◌*◌, ◌≤◌, ◌<◌, max, length};
ghost use Rattle.value_table.specs.Value.{max_length};
ghost use Rattle.counting_theory.specs.Encoding.{type_size};
ghost use Rattle.counting_theory.specs.WellFormed.{max_total};
ghost use Rattle.report.specs.Inside.Room.{max_digits, TextStored, line_limit};
ghost use Rattle.report.specs.Report.{lines_of, program_equivalence};
ghost use Rattle.report.specs.Inside.Walk.{type_in, line_at, depth_in, whole_in, largest_from, Inside, PrintedRun, Printable};

use crate::line::{Line, share};
use type_arena::addend::union_total;
use type_arena::type_record;
use type_arena::type_record::{count_at, key_at, kind_at, span_at};
use value_table::record;

// The largest count in the first n records.
pub fn largest_count(b: &[u8], n: usize) -> usize
    requires { (type_size * n ≤ length b.now) × (length b.now ≤ max_length) }
    ensures { result ≡ largest_from b.now n 0 }
{
    let mut largest = 0;
    for i in 0..n {
        largest = largest.max(count_at(b, i));
    }
    largest
}

// What the shares of the records inside record p are against: a field's against its record's count, an addend's against its
// union's total.
fn whole_inside(b: &[u8], p: usize, end: usize) -> usize
    requires { Inside program_equivalence b.now p end }
    ensures { result ≡ whole_in program_equivalence b.now p }
{
    if kind_at(b, p) == record::RECORD {
        return count_at(b, p);
    }
    let from = type_record::SIZE * (p + 1);
    let to = type_record::SIZE * end;
    union_total(&b[from..to])
}

// A field has its record's depth.
fn depth_inside(b: &[u8], p: usize, depth: usize) -> usize
    requires { (type_size * p + type_size ≤ length b.now) × (depth ≤ max_total) }
    ensures { result ≡ depth_in b.now p depth }
{
    if kind_at(b, p) == record::RECORD {
        depth
    } else {
        depth + 1
    }
}

// What the lines of a union, or of the fields of a record, have in common: their depth, what their shares are against, and the width of
// their counts.
#[derive(Clone, Copy)]
pub struct Run {
    pub depth: usize,
    pub whole: usize,
    pub width: usize,
}

impl Run {
    // The same of the records inside record p, which end at `end`.
    fn inside(self, b: &[u8], p: usize, end: usize) -> Run
        requires inside { Inside program_equivalence b.now p end }
        requires depth { self.depth ≤ max_total }
        ensures { result ≡ record { depth = depth_in b.now p self.depth; whole = whole_in program_equivalence b.now p; width = self.width } }
    {
        Run {
            depth: depth_inside(b, p, self.depth),
            whole: whole_inside(b, p, end),
            width: self.width,
        }
    }

    // The line of record p.
    fn put_record(self, b: &[u8], p: usize, out: &mut [u8], at: usize) -> usize
        requires { Printable b.now p self.whole × (self.depth ≤ max_total) × (self.width ≤ max_digits) × (at + line_limit ≤ length out.old) }
        ensures { TextStored out.old at (line_at b.now p self.depth self.whole self.width) out.new result × (result ≤ at + line_limit) }
    {
        let count = count_at(b, p);
        let line = Line {
            depth: self.depth,
            kind: kind_at(b, p),
            key: key_at(b, p),
            width: self.width,
            count,
            share: share(count, self.whole),
        };
        line.put(out, at)
    }

    // The lines of records i to end.
    pub fn put(self, b: &[u8], i: usize, end: usize, out: &mut [u8], at: usize) -> usize
        requires { PrintedRun program_equivalence b.now i end self.depth self.whole × (self.width ≤ max_digits) × (at + line_limit * (end - i) ≤ length out.old) }
        ensures { TextStored out.old at (lines_of self.width self.depth self.whole (type_in program_equivalence b.now i end)) out.new result
            × (result ≤ at + line_limit * (end - i)) }
    {
        let mut p = i;
        let mut to = at;
        while p < end {
            let inside = self.put_record(b, p, out, to);
            let next = p + span_at(b, p);
            to = self.inside(b, p, next).put(b, p + 1, next, out, inside);
            p = next;
        }
        to
    }
}
