// Why a call that writes or judges a type is refused, and that as three numbers.
#![tactic(auto)]

ghost use Rattle.std.specs.Prelude.{◌≡◌};
ghost use Rattle.value_table.specs.Outcome.{outcome_of_answer};
ghost use Rattle.answers.specs.declared.Refusal.TheVariants.{Equivalence as UnknownNumber, Room};
ghost use Rattle.answers.specs.Outcomes.{refusal_of, refusal_of_table};

use counting_theory::equivalence::UnknownEquivalence;
use type_arena::record_store::NoRoom;
use value_table::{Answer, Fault, TableError, fault_number};

// Why a call is refused: a length, an unknown equivalence, a fault and the record of the table that has it, a malformed first (or only) or
// second type, a total above the limit, a part that is not in the whole, or no room in the arena.
#[derive(Clone, Copy, Debug, PartialEq, Eq)]
pub enum Refusal {
    Length,
    Equivalence,
    Table(Fault, usize),
    First,
    Second,
    Total,
    NotPart,
    Room,
}

impl From<UnknownEquivalence> for Refusal {
    ghost from_gives = { λ _ why. why ≡ UnknownNumber };

    fn from(_error: UnknownEquivalence) -> Refusal {
        Refusal::Equivalence
    }
}

impl From<TableError> for Refusal {
    ghost from_gives = { λ error why. why ≡ refusal_of_table error };

    fn from(error: TableError) -> Refusal {
        match error {
            TableError::Length => Refusal::Length,
            TableError::Faulty(fault, place) => Refusal::Table(fault, place),
        }
    }
}

impl From<NoRoom> for Refusal {
    ghost from_gives = { λ _ why. why ≡ Room };

    fn from(_error: NoRoom) -> Refusal {
        Refusal::Room
    }
}

impl From<Refusal> for Answer {
    ghost from_gives = { λ why answer. outcome_of_answer answer ≡ refusal_of why };

    fn from(why: Refusal) -> Answer {
        match why {
            Refusal::Length => Answer::refused(1, 0),
            Refusal::Equivalence => Answer::refused(2, 0),
            Refusal::Table(fault, place) => Answer::refused(fault_number(fault), place),
            Refusal::First => Answer::refused(8, 0),
            Refusal::Second => Answer::refused(9, 0),
            Refusal::Total => Answer::refused(10, 0),
            Refusal::NotPart => Answer::refused(16, 0),
            Refusal::Room => Answer::refused(11, 0),
        }
    }
}
