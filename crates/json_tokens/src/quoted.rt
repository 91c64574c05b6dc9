// Strings: RFC 8259 with UTF-8 by RFC 3629.
ghost use Rattle.std.specs.Prelude.{◌≡◌, ◌≤◌};
ghost use Rattle.json_theory.specs.Grammar.{quote};
ghost use Rattle.json_theory.specs.Parts.{plain, escape, hexes4, next_in_string};
ghost use Rattle.json_theory.specs.Inside.Scanning.{byte_at, PlaceIn, RunTo};
ghost use Rattle.json_tokens.specs.Inside.Tokens.{is_plain, ScanIs, CharIs, QuotedIs};

use crate::scan::{BadByte, byte_at, run_end};
use crate::tails::{highest, is_tail, lowest, tail_fits, width, within};

// Where the closing quote of a string is, and whether an escape came before it.
#[derive(Clone, Copy, Debug, PartialEq, Eq)]
pub struct Quoted {
    pub quote: usize,
    pub escaped: bool,
}

// Four hexadecimal digits.
fn hex_end(text: &[u8], from: usize) -> Result<usize, BadByte>
    requires { PlaceIn text.now from }
    ensures { ScanIs next_in_string text.now hexes4 from plain result }
{
    for at in from..from + 4 {
        if !byte_at(text, at).is_ascii_hexdigit() {
            return Err(BadByte { at });
        }
    }
    Ok(from + 4)
}

// An escape after its backslash.
fn escape_end(text: &[u8], from: usize) -> Result<usize, BadByte>
    requires { PlaceIn text.now from }
    ensures { ScanIs next_in_string text.now escape from plain result }
{
    match byte_at(text, from) {
        b'u' => hex_end(text, from + 1),
        b'"' | b'\\' | b'/' | b'b' | b'f' | b'n' | b'r' | b't' => Ok(from + 1),
        _ => Err(BadByte { at: from }),
    }
}

// A character whose lead byte, at `from`, is c, byte by byte.
fn tail_end(text: &[u8], from: usize, c: u8) -> Result<usize, BadByte>
    requires { PlaceIn text.now from × (c ≡ byte_at text.now from) × (0xC2 ≤ c) × (c ≤ 0xF4) }
    ensures { CharIs text.now from result }
{
    if !within(lowest(c), byte_at(text, from + 1), highest(c)) {
        return Err(BadByte { at: from + 1 });
    }
    let end = from + width(c);
    for at in from + 2..end {
        if !is_tail(byte_at(text, at)) {
            return Err(BadByte { at });
        }
    }
    Ok(end)
}

// A character whose lead byte, at `from`, is c: by one test of its tail, or byte by byte to the fault.
fn lead_end(text: &[u8], from: usize, c: u8) -> Result<usize, BadByte>
    requires { PlaceIn text.now from × (c ≡ byte_at text.now from) × (0xC2 ≤ c) × (c ≤ 0xF4) }
    ensures { CharIs text.now from result }
{
    if tail_fits(text, from, c) {
        Ok(from + width(c))
    } else {
        tail_end(text, from, c)
    }
}

// One character of a string that is no closing quote.
fn character_end(text: &[u8], at: usize, c: u8) -> Result<usize, BadByte>
    requires { PlaceIn text.now at × (c ≡ byte_at text.now at) × (c ≡ quote → ⊥) }
    ensures { CharIs text.now at result }
{
    match c {
        b'\\' => escape_end(text, at + 1),
        0x20..=0x7F => Ok(at + 1),
        0xC2..=0xF4 => lead_end(text, at, c),
        _ => Err(BadByte { at }),
    }
}

fn is_plain(c: u8) -> bool
    ensures { result ≡ is_plain c }
{
    c != b'"' && c != b'\\' && matches!(c, 0x20..=0x7F)
}

// The first byte from `from` that is no plain character of one byte, or the end.
fn plain_end(text: &[u8], from: usize) -> usize
    requires { PlaceIn text.now from }
    ensures { RunTo is_plain text.now from result }
{
    run_end(text, from, is_plain)
}

// A string after its opening quote.
pub fn string_end(text: &[u8], from: usize) -> Result<Quoted, BadByte>
    requires { PlaceIn text.now from }
    ensures { QuotedIs text.now from result }
{
    let mut quote = plain_end(text, from);
    let mut escaped = false;
    loop {
        let c = byte_at(text, quote);
        if c == b'"' {
            return Ok(Quoted { quote, escaped });
        }
        quote = character_end(text, quote, c)?;
        escaped |= c == b'\\';
    }
}
