// The equivalences, and the numbers by which the calls take them.
ghost use Rattle.std.specs.Prelude.{◌≡◌};
ghost use Rattle.counting_theory.specs.Answers.{IsEquivalence};

// Which values are of one class: all of a kind, or, of records, those with the same keys.
#[derive(Clone, Copy, Debug, PartialEq, Eq)]
pub enum Equivalence {
    Kind,
    Label,
}

// A number that no equivalence has.
#[derive(Clone, Copy, Debug, PartialEq, Eq)]
pub struct UnknownEquivalence;

impl TryFrom<u64> for Equivalence {
    type Error = UnknownEquivalence;

    ghost try_from_gives = { λ number result. IsEquivalence number result };

    fn try_from(number: u64) -> Result<Equivalence, UnknownEquivalence> {
        match number {
            0 => Ok(Equivalence::Kind),
            1 => Ok(Equivalence::Label),
            _ => Err(UnknownEquivalence),
        }
    }
}
