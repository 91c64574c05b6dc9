// One value of a text: its record, and where it ends or opens.
ghost use Rattle.std.specs.Prelude.{◌≡◌, false, List, ℕ, ◌+◌, ◌*◌, ◌/◌, ◌≤◌, ◌<◌, length};
ghost use Rattle.value_table.specs.Value.{record_size, max_length, max_depth};
ghost use Rattle.json_theory.specs.Grammar.{is_space};
ghost use Rattle.json_theory.specs.Reader.{depth as depth_of, written};
ghost use Rattle.json_theory.specs.Parts.{start};
ghost use Rattle.json_theory.specs.Steps.{Stack, State};
ghost use Rattle.json_theory.specs.Inside.Scanning.{byte_at, PlaceIn};
ghost use Rattle.text_reader.specs.Inside.Progress.{kind_started, AwaitsValue, Ready};
ghost use Rattle.text_reader.specs.Inside.Laid.{TableHolds};
ghost use Rattle.text_reader.specs.Inside.Items.{kind_number, kind_or_none, ValuePlace, BegunIs, ValueIs};

use crate::fault::{Faulty, TextFault};
use json_items::item::scalar_end;
use json_tokens::scan::byte_at;
use value_table::record;
use value_table::record_store::store_value;

// The kinds of values, by the numbers that their records have.
#[derive(Clone, Copy, PartialEq, Eq)]
enum Kind {
    Null = 1,
    Boolean = 2,
    Number = 3,
    String = 4,
    Record = 5,
    Array = 6,
}

// A value that has begun: a scalar and its end; or an array or object, where its content begins and whether it is an object.
#[derive(Clone, Copy)]
pub enum Begun {
    Scalar(usize),
    Opened { from: usize, object: bool },
}

// The kind of the value that a byte begins.
fn kind_of(c: u8) -> Option<Kind>
    ensures { kind_or_none result ≡ kind_started (start c) }
{
    match c {
        0x22 => Some(Kind::String),
        0x2D | 0x30..=0x39 => Some(Kind::Number),
        0x5B => Some(Kind::Array),
        0x66 | 0x74 => Some(Kind::Boolean),
        0x6E => Some(Kind::Null),
        0x7B => Some(Kind::Record),
        _ => None,
    }
}

// The value of this kind whose first byte, at `at`, is c.
fn begin(text: &[u8], at: usize, c: u8, kind: Kind) -> Result<Begun, Faulty>
    requires at_in_bounds { (at < length text.now) × (length text.now ≤ max_length) × (c ≡ byte_at text.now at) }
    requires kind_value { kind_number kind ≡ kind_started (start c) }
    ensures value_place { ValuePlace text.now at result }
    ensures by_index { (key : ℕ) (around : Stack) → BegunIs text.now (start c) (at + 1) key around result }
{
    match kind {
        Kind::Array => Ok(Begun::Opened {
            from: at + 1,
            object: false,
        }),
        Kind::Record => Ok(Begun::Opened {
            from: at + 1,
            object: true,
        }),
        _ => {
            let end = scalar_end(text, at, c)?;
            Ok(Begun::Scalar(end))
        }
    }
}

// The value at `at`, as record `count` of the table with this key, inside `depth` others.
pub fn value_at(
    text: &[u8],
    table: &mut [u8],
    at: usize,
    key: usize,
    count: usize,
    depth: usize,
) -> Result<Begun, Faulty>
    requires { PlaceIn text.now at × (length table.old ≤ max_length) × (record_size * count ≤ length table.old) × (depth ≤ max_depth) }
    ensures value_place { ValuePlace text.now at result }
    ensures by_index { (book : List ℕ) (σ : State) (around : Stack) → AwaitsValue σ key around → is_space (byte_at text.now at) ≡ false →
        Ready text.now σ at → depth_of around ≡ depth → written around ≡ count → TableHolds table.old around →
        ValueIs text.now book table.new (length table.old / record_size) σ at key around result }
{
    let c = byte_at(text, at);
    let Some(kind) = kind_of(c) else {
        return Err(TextFault::Grammar.at(at));
    };
    if depth == record::MAX_DEPTH {
        return Err(TextFault::Deep.at(at));
    }
    if table.len() / record::SIZE == count {
        return Err(TextFault::Full.at(at));
    }
    store_value(table, count, kind as u8, key);
    begin(text, at, c, kind)
}
