// Well-formedness of a type in 16-byte records, which removal alone works on.
#![tactic(auto)]

pub mod pair;

ghost use Rattle.std.specs.Prelude.{◌≡◌, false, length, refl};
ghost use Rattle.counting_theory.specs.declared.equivalence.Equivalence.{Equivalence};
ghost use Rattle.removal_theory.specs.WellFormed.{bad_type_length, well_formed};
ghost use Rattle.removal_check.specs.Inside.Reading.{counts_alone};

use counting_theory::equivalence::Equivalence;
use removal_arena::type_record::Counted;
use type_check::check_records;
use type_check::judged::Judged;

// The check of 16-byte records: counts have no lengths.
pub struct Counts;

impl Judged for Counts {
    type Records = Counted;

    ghost reading = { counts_alone };

    ghost kind_read = { refl };

    ghost zero_read = { refl };

    ghost key_read = { refl };

    ghost span_read = { refl };

    ghost count_read = { refl };

    fn lengths_fit(_b: &[u8], _p: usize, _elements: usize) -> bool {
        true
    }

    fn no_lengths(_b: &[u8], _p: usize) -> bool {
        true
    }
}

// Whether the bytes of an allowed length are a well-formed type.
pub fn well_formed(bytes: &[u8], equivalence: Equivalence) -> bool
    requires { bad_type_length (length bytes.now) ≡ false }
    ensures { result ≡ well_formed equivalence bytes.now }
{
    check_records::<Counts>(bytes, equivalence)
}
