// One line of the report, stored at a position of a buffer. Each function answers the position behind what it stored.
ghost use Rattle.std.specs.Prelude.{◌≡◌, [], ◌∷◌, ◌++◌, ◌+◌, ◌≤◌, length};
ghost use Rattle.counting_theory.specs.WellFormed.{max_total};
ghost use Rattle.report.specs.Decimal.{decimal};
ghost use Rattle.report.specs.Inside.Room.{max_digits, TextStored, word_limit, line_limit};
ghost use Rattle.report.specs.Line.{kind_word, rounded as rounded_of, without_false_end, share as share_of, line_of};

use crate::decimal::{MAX_DIGITS, put_byte, put_number, put_padded, put_text};
use type_arena::type_record;
use value_table::record;

// The most bytes of a word.
const WORD_LIMIT: usize = 5;

// The most bytes of a line: four numbers, a word, four spaces and the line feed.
pub const LINE_LIMIT: usize = 4 * MAX_DIGITS + WORD_LIMIT + 5;

// In thousandths, to the nearest, halves up.
fn rounded(count: usize, whole: usize) -> usize
    requires { (1 ≤ whole) × (count ≤ whole) × (whole ≤ max_total) }
    ensures { (result ≡ rounded_of count whole) × (result ≤ 1000) }
{
    (2000 * count + whole) / (2 * whole)
}

// Below the whole, 1000 would mean all and 0 none.
#[tactic(auto, unfolding(crate::specs::Line::without_false_end))]
fn without_false_end(thousandths: usize) -> usize
    ensures { result ≡ without_false_end thousandths }
{
    match thousandths {
        1000 => 999,
        0 => 1,
        _ => thousandths,
    }
}

// In thousandths, 1000 only for the whole.
pub fn share(count: usize, whole: usize) -> usize
    requires { (1 ≤ whole) × (count ≤ whole) × (whole ≤ max_total) }
    ensures { (result ≡ share_of count whole) × (result ≤ 1000) }
{
    let thousandths = rounded(count, whole);
    if count < whole {
        return without_false_end(thousandths);
    }
    thousandths
}

// The word of a kind; kinds 1 to 7 have one.
fn kind_word(kind: u8) -> &'static str
    ensures { (result.now ≡ kind_word kind) × (length result.now ≤ word_limit) }
{
    match kind {
        1 => "null",
        2 => "bool",
        3 => "num",
        4 => "str",
        record::RECORD => "rec",
        record::ARRAY => "arr",
        type_record::FIELD => "field",
        _ => "",
    }
}

// A number and the byte behind it.
pub fn put_number_and(out: &mut [u8], at: usize, n: usize, byte: u8) -> usize
    requires { (at + max_digits + 1 ≤ length out.old) × (n ≤ max_total) }
    ensures { TextStored out.old at (decimal n ++ (byte ∷ [])) out.new result × (result ≤ at + max_digits + 1) }
{
    let p = put_number(out, at, n);
    put_byte(out, p, byte)
}

// What stands in the line of a type record, its count padded to `width` bytes.
#[derive(Clone, Copy)]
pub struct Line {
    pub depth: usize,
    pub kind: u8,
    pub key: usize,
    pub width: usize,
    pub count: usize,
    pub share: usize,
}

impl Line {
    // Stores the line.
    pub fn put(self, out: &mut [u8], at: usize) -> usize
        requires room { at + line_limit ≤ length out.old }
        requires depth { self.depth ≤ max_total }
        requires key { self.key ≤ max_total }
        requires width { self.width ≤ max_digits }
        requires count { self.count ≤ max_total }
        requires share { self.share ≤ max_total }
        ensures { TextStored out.old at (line_of self.depth self.kind self.key self.width self.count self.share) out.new result × (result ≤ at + line_limit) }
    {
        let word = put_number_and(out, at, self.depth, b' ');
        let behind_word = put_text(out, word, kind_word(self.kind));
        let second = put_byte(out, behind_word, b' ');
        let third = put_number_and(out, second, self.key, b' ');
        let behind_count = put_padded(out, third, self.width, self.count);
        let last = put_byte(out, behind_count, b' ');
        put_number_and(out, last, self.share, b'\n')
    }
}
