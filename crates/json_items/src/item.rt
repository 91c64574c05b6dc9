// The key and the scalar of an item, as the reading of the text meets them.
ghost use Rattle.std.specs.Prelude.{◌≡◌, ℕ, ◌+◌};
ghost use Rattle.json_theory.specs.Parts.{start, plain};
ghost use Rattle.json_theory.specs.Steps.{Stack, after, in_string};
ghost use Rattle.json_theory.specs.Inside.Scanning.{byte_at, PlaceIn};
ghost use Rattle.json_items.specs.declared.item.KeyError.TheVariants.{Faulty};
ghost use Rattle.json_items.specs.Inside.Items.{ReadsTo, ScalarIs, NamedIs, ColonIs};

use json_tokens::quoted::{Quoted, string_end};
use json_tokens::scan::{BadByte, byte_at, number_end, space_end, word_end};
use key_book::book::Book;

// A listed key: its number, and the place of its closing quote.
#[derive(Clone, Copy, Debug, PartialEq, Eq)]
pub struct Named {
    pub key: usize,
    pub quote: usize,
}

// Where a key turns out to be unlisted, or faulty.
#[derive(Clone, Copy, Debug, PartialEq, Eq)]
pub enum KeyError {
    Unlisted(usize),
    Faulty(usize),
}

impl From<BadByte> for KeyError {
    ghost from_gives = { λ bad error. error ≡ Faulty bad.at };

    fn from(bad: BadByte) -> KeyError {
        KeyError::Faulty(bad.at)
    }
}

// A key behind its opening quote.
pub fn key_end(text: &[u8], book: &Book, from: usize) -> Result<Named, KeyError>
    requires { PlaceIn text.now from }
    ensures { NamedIs text.now book.now from result }
{
    let Quoted { quote, escaped } = string_end(text, from)?;
    if escaped {
        return Err(KeyError::Unlisted(quote));
    }
    match book.find(text, from, quote) {
        Some(key) => Ok(Named { key, quote }),
        None => Err(KeyError::Unlisted(quote)),
    }
}

// A string behind its opening quote, with its closing quote.
fn text_end(text: &[u8], from: usize) -> Result<usize, BadByte>
    requires { PlaceIn text.now from }
    ensures { (around : Stack) → ReadsTo text.now (in_string plain around) from (after around) result }
{
    Ok(string_end(text, from)?.quote + 1)
}

// A scalar whose first byte, at `at`, is c.
pub fn scalar_end(text: &[u8], at: usize, c: u8) -> Result<usize, BadByte>
    requires { PlaceIn text.now at × (c ≡ byte_at text.now at) }
    ensures { (key : ℕ) (around : Stack) → ScalarIs text.now (at + 1) (start c) key around result }
{
    match c {
        b'"' => text_end(text, at + 1),
        b'f' => word_end(text, at + 1, b"alse"),
        b'n' => word_end(text, at + 1, b"ull"),
        b't' => word_end(text, at + 1, b"rue"),
        _ => number_end(text, at),
    }
}

// The colon behind a key, with the white space around it.
pub fn colon_end(text: &[u8], from: usize) -> Result<usize, BadByte>
    requires { PlaceIn text.now from }
    ensures { (key : ℕ) (around : Stack) → ColonIs text.now key around from result }
{
    let at = space_end(text, from);
    if byte_at(text, at) == b':' {
        Ok(space_end(text, at + 1))
    } else {
        Err(BadByte { at })
    }
}
