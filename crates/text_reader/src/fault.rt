// The faults of a text.
ghost use Rattle.std.specs.Prelude.{◌≡◌};
ghost use Rattle.text_reader.specs.Answer.{number_of_text_fault};
ghost use Rattle.text_reader.specs.Faults.{bad_byte, bad_key};

use json_items::item::KeyError;
use json_tokens::scan::BadByte;

// What is wrong with a text: a byte with which it cannot go on, a key that is not listed, comes again or is one too many, a value that is
// too deep, or one for which the table has no room.
#[derive(Clone, Copy, Debug, PartialEq, Eq)]
pub enum TextFault {
    Grammar,
    Unlisted,
    Repeated,
    Fields,
    Deep,
    Full,
}

impl TextFault {
    // This fault at a byte.
    pub fn at(self, at: usize) -> Faulty
        ensures { result ≡ record { why = self; at = at } }
    {
        Faulty { why: self, at }
    }

    // The refusal number.
    pub fn number(self) -> u64
        ensures { result ≡ number_of_text_fault self }
    {
        match self {
            TextFault::Grammar => 12,
            TextFault::Unlisted => 13,
            TextFault::Repeated => 6,
            TextFault::Fields => 15,
            TextFault::Deep => 7,
            TextFault::Full => 11,
        }
    }
}

// A fault, and its byte.
#[derive(Clone, Copy, Debug, PartialEq, Eq)]
pub struct Faulty {
    pub why: TextFault,
    pub at: usize,
}

impl From<BadByte> for Faulty {
    ghost from_gives = { λ bad faulty. faulty ≡ bad_byte bad };

    fn from(bad: BadByte) -> Faulty {
        TextFault::Grammar.at(bad.at)
    }
}

impl From<KeyError> for Faulty {
    ghost from_gives = { λ error faulty. faulty ≡ bad_key error };

    fn from(error: KeyError) -> Faulty {
        match error {
            KeyError::Unlisted(at) => TextFault::Unlisted.at(at),
            KeyError::Faulty(at) => TextFault::Grammar.at(at),
        }
    }
}
