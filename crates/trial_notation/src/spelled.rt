// How a line writes a text or a key book: by its own characters, with %hh for the byte of two hexadecimal digits.
ghost use Rattle.std.specs.Prelude.{◌<◌};

// The bytes of a book's record.
const KEY: usize = 32;

// The number of a hexadecimal digit, and 0 for anything else.
fn digit(c: Option<&u8>) -> u8
    ensures { result < 16 }
{
    match c {
        Some(c @ b'0'..=b'9') => *c - b'0',
        Some(c @ b'a'..=b'f') => *c - b'a' + 10,
        _ => 0,
    }
}

// Stores what a text spells from a place on. Returns the place behind it.
pub fn put_spelled(bytes: &mut [u8], start: usize, text: &[u8]) -> usize {
    let mut at = start;
    let mut rest = text.iter();
    while let Some(c) = rest.next() {
        let byte = match c {
            b'%' => 16 * digit(rest.next()) + digit(rest.next()),
            _ => *c,
        };
        if let Some(place) = bytes.get_mut(at) {
            *place = byte;
        }
        at = at.wrapping_add(1);
    }
    at
}

// Stores a book, in which a comma stands behind each key. Returns its length.
pub fn put_book(bytes: &mut [u8], keys: &[u8]) -> usize {
    let mut at: usize = 0;
    for key in keys.split_inclusive(|c| *c == b',') {
        if let Some(key) = key.strip_suffix(b",") {
            put_spelled(bytes, at, key);
            at = at.wrapping_add(KEY);
        }
    }
    at
}
