// The bytes behind a lead byte of UTF-8, by RFC 3629's table, tested without a branch for each.
ghost use Rattle.std.specs.Prelude.{◌≡◌, true, ◌≤◌};
ghost use Rattle.json_theory.specs.Rx.{within};
ghost use Rattle.json_theory.specs.Inside.Scanning.{PlaceIn};
ghost use Rattle.json_tokens.specs.Inside.Tokens.{lowest_behind, highest_behind, width_of, TailFits};

// The lowest byte behind the lead byte `c`: the characters that fewer bytes spell are left out.
pub fn lowest(c: u8) -> u8
    ensures { (result ≡ lowest_behind c) × (0x80 ≤ result) }
{
    match c {
        0xE0 => 0xA0,
        0xF0 => 0x90,
        _ => 0x80,
    }
}

// The highest byte behind the lead byte `c`: the surrogates are left out, and what lies above 10FFFF.
pub fn highest(c: u8) -> u8
    ensures { result ≡ highest_behind c }
{
    match c {
        0xED => 0x9F,
        0xF4 => 0x8F,
        _ => 0xBF,
    }
}

// How many bytes a character has by its lead byte.
pub fn width(c: u8) -> usize
    ensures { (result ≡ width_of c) × (2 ≤ result) × (result ≤ 4) }
{
    match c {
        0x00..=0xDF => 2,
        0xE0..=0xEF => 3,
        _ => 4,
    }
}

// Whether x is from `low` to `high`.
pub fn within(low: u8, x: u8, high: u8) -> bool
    ensures { result ≡ within low high x }
{
    low <= x && x <= high
}

// Whether x may be the third or the fourth byte of a character.
pub fn is_tail(x: u8) -> bool
    ensures { result ≡ within 0x80 0xBF x }
{
    within(0x80, x, 0xBF)
}

// Whether the bytes behind a lead byte c, at `from`, are those that it asks for. Near the end of the text it may say no.
pub fn tail_fits(text: &[u8], from: usize, c: u8) -> bool
    requires { PlaceIn text.now from }
    ensures { result ≡ true → TailFits text.now from c }
{
    if text.len() < from + 4 {
        return false;
    }
    let second = within(lowest(c), text[from + 1], highest(c));
    let third = (c < 0xE0) | is_tail(text[from + 2]);
    let fourth = (c < 0xF0) | is_tail(text[from + 3]);
    second & third & fourth
}
