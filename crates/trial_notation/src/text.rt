// Parts of a text, and the numbers in it.

// A part of a text, empty if there is none.
pub fn part(text: &[u8], from: usize, end: usize) -> &[u8] {
    text.get(from..end).unwrap_or(b"")
}

pub fn byte_at(text: &[u8], i: usize) -> u8 {
    text.get(i).copied().unwrap_or(0)
}

// What stands before the first of these characters, and what stands behind it and the space that follows it; both ends are the text's where
// there is none.
pub fn cut(text: &[u8], c: u8) -> (&[u8], &[u8]) {
    match text.iter().position(|x| *x == c) {
        Some(at) => (&text[..at], part(text, at + 2, text.len())),
        None => (text, b""),
    }
}

// Word k of a text, empty if there is none.
pub fn word(text: &[u8], k: usize) -> &[u8] {
    text.split(|c| *c == b' ').nth(k).unwrap_or(b"")
}

// The number written so far, after one more character.
pub fn read_digit(number: u64, c: u8) -> u64 {
    match c {
        b'0'..=b'9' => number.wrapping_mul(10).wrapping_add((c - b'0') as u64),
        _ => 0,
    }
}

// The number that is word k of a text, or another one if there is no such word.
pub fn number_or(text: &[u8], k: usize, other: usize) -> usize {
    let digits = word(text, k);
    if digits.is_empty() {
        return other;
    }
    let mut number = 0;
    for c in digits {
        number = read_digit(number, *c);
    }
    number as usize
}
