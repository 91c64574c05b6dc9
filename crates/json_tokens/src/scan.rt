// Tokens of the text: each function goes from the left over one and says where it ends, or which byte is the fault.
ghost use Rattle.std.specs.Prelude.{◌≡◌, false, [], ◌≤◌, ◌+◌, length};
ghost use Rattle.json_theory.specs.Grammar.{is_space};
ghost use Rattle.json_theory.specs.Parts.{go, is_digit, NumberPart, minus, e, number, start, next_in_number};
ghost use Rattle.json_theory.specs.Inside.Scanning.{byte_at, PlaceIn, RunTo};
ghost use Rattle.json_tokens.specs.Inside.Tokens.{after_int, after_frac, after_sign, no_more, PartTo, PartIs, BehindIs, NumberIs};
ghost use Rattle.json_tokens.specs.Inside.Tokens.{RunEnds, DigitsIs, next_letter, ScanIs};

// The byte with which a text cannot go on.
#[derive(Clone, Copy, Debug, PartialEq, Eq)]
pub struct BadByte {
    pub at: usize,
}

// The byte at `at`; 0, which no token goes on with, at the end.
pub fn byte_at(text: &[u8], at: usize) -> u8
    ensures { result ≡ byte_at text.now at }
{
    text.get(at).copied().unwrap_or(0)
}

// The first byte from `from` that is not in the run, or the end.
pub fn run_end<F: Fn(u8) -> bool>(text: &[u8], from: usize, in_run: F) -> usize
    requires start { from ≤ length text.now }
    requires callable { F.IsAlwaysCallable in_run }
    ensures { RunEnds (F.post in_run) text.now from result }
{
    match text[from..].iter().position(|c| !in_run(*c)) {
        Some(length) => from + length,
        None => text.len(),
    }
}

pub fn is_space(c: u8) -> bool
    ensures { result ≡ is_space c }
{
    // arms of their own become one test of a bit
    match c {
        b' ' => true,
        b'\t' => true,
        b'\n' => true,
        b'\r' => true,
        _ => false,
    }
}

// The first byte from `from` that is no white space, or the end.
pub fn space_end(text: &[u8], from: usize) -> usize
    requires { PlaceIn text.now from }
    ensures { RunTo is_space text.now from result }
{
    run_end(text, from, is_space)
}

fn is_digit(c: u8) -> bool
    ensures { result ≡ is_digit c }
{
    c.is_ascii_digit()
}

// One digit or more.
fn some_digits(text: &[u8], from: usize) -> Result<usize, BadByte>
    requires { from ≤ length text.now }
    ensures { DigitsIs text.now from result }
{
    let end = run_end(text, from, is_digit);
    if end == from {
        Err(BadByte { at: from })
    } else {
        Ok(end)
    }
}

// The sign of an exponent, or nothing.
fn sign_end(text: &[u8], from: usize) -> usize
    ensures { PartTo after_sign text.now e from result false }
{
    match byte_at(text, from) {
        b'+' | b'-' => from + 1,
        _ => from,
    }
}

// An exponent, or nothing.
fn exponent_end(text: &[u8], from: usize) -> Result<usize, BadByte>
    ensures { BehindIs after_frac no_more text.now from result }
{
    match byte_at(text, from) {
        b'e' | b'E' => some_digits(text, sign_end(text, from + 1)),
        _ => Ok(from),
    }
}

// A point and digits, or nothing.
fn fraction_end(text: &[u8], from: usize) -> Result<usize, BadByte>
    ensures { BehindIs after_int after_frac text.now from result }
{
    match byte_at(text, from) {
        b'.' => some_digits(text, from + 1),
        _ => Ok(from),
    }
}

// An int: a 0, or digits that begin with another one.
fn int_end(text: &[u8], from: usize) -> Result<usize, BadByte>
    ensures behind_minus { PartIs after_int text.now minus from result }
    ensures first { (a : NumberPart) → next_in_number minus (byte_at text.now from) ≡ go a → PartIs after_int text.now a (from + 1) result }
{
    match byte_at(text, from) {
        b'0' => Ok(from + 1),
        b'1'..=b'9' => Ok(run_end(text, from + 1, is_digit)),
        _ => Err(BadByte { at: from }),
    }
}

// A number up to its fraction or exponent; its first byte is known to begin one.
fn signed_end(text: &[u8], from: usize) -> Result<usize, BadByte>
    requires { PlaceIn text.now from }
    ensures { (a : NumberPart) → start (byte_at text.now from) ≡ number a → PartIs after_int text.now a (from + 1) result }
{
    if byte_at(text, from) == b'-' {
        int_end(text, from + 1)
    } else {
        int_end(text, from)
    }
}

// A number, whose first byte is at `from`.
pub fn number_end(text: &[u8], from: usize) -> Result<usize, BadByte>
    requires { PlaceIn text.now from }
    ensures { (a : NumberPart) → start (byte_at text.now from) ≡ number a → NumberIs text.now a (from + 1) result }
{
    let int = signed_end(text, from)?;
    let fraction = fraction_end(text, int)?;
    exponent_end(text, fraction)
}

// A word of the grammar.
pub fn word_end(text: &[u8], from: usize, word: &[u8]) -> Result<usize, BadByte>
    requires { PlaceIn text.now from × (length word.now ≤ 8) }
    ensures { ScanIs next_letter text.now word.now from [] result }
{
    for (k, letter) in word.iter().enumerate() {
        if byte_at(text, from + k) != *letter {
            return Err(BadByte { at: from + k });
        }
    }
    Ok(from + word.len())
}
