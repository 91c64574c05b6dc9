// The lower library: judges value tables.
#![tactic(auto)]

mod faults;
pub mod record;
pub mod record_store;
mod walk;

ghost use Rattle.std.specs.Prelude.{◌≡◌};
ghost use Rattle.value_table.specs.Outcome.{accepted, refused, number_of_fault, refusal_of, outcome_of, outcome_of_answer, Answers};
ghost use Rattle.value_table.specs.Judged.{judged, judged_up_to};

// What is wrong with a record of a table.
#[derive(Clone, Copy, Debug, PartialEq, Eq)]
pub enum Fault {
    Kind,
    Span,
    Key,
    Large,
    Repeat,
    Fields,
    Depth,
}

// Why call 1 refuses a table: its length, or a fault and the record that has it.
#[derive(Clone, Copy, Debug, PartialEq, Eq)]
pub enum TableError {
    Length,
    Faulty(Fault, usize),
}

// An answer as three numbers: refusal number, place, count.
#[repr(C)]
#[derive(Clone, Copy, Debug, PartialEq, Eq)]
pub struct Answer {
    pub number: u64,
    pub place: u64,
    pub count: u64,
}

impl Answer {
    // The answer of a call that was accepted.
    pub fn accepted(count: usize) -> Answer
        ensures { outcome_of_answer result ≡ accepted count }
    {
        Answer {
            number: 0,
            place: 0,
            count: count as u64,
        }
    }

    // The answer of a call that was refused.
    pub fn refused(number: u64, place: usize) -> Answer
        ensures { outcome_of_answer result ≡ refused number place }
    {
        Answer {
            number,
            place: place as u64,
            count: 0,
        }
    }
}

// Judges a table whose fields have keys up to `largest`, and counts its messages.
pub fn judge_up_to(table: &[u8], largest: usize) -> Result<usize, TableError>
    ensures { outcome_of result ≡ judged_up_to largest table.now }
{
    if record::bad_length(table.len()) {
        return Err(TableError::Length);
    }
    walk::walk_table(table, largest)
}

// Call 1: judges a table, and counts its messages.
#[tactic(auto, unfolding(crate::specs::Judged::judged))]
pub fn judge(table: &[u8]) -> Result<usize, TableError>
    ensures { outcome_of result ≡ judged table.now }
{
    judge_up_to(table, record::MAX_KEY)
}

// The refusal number of documents 01 and 02.
pub fn fault_number(fault: Fault) -> u64
    ensures { result ≡ number_of_fault fault }
{
    match fault {
        Fault::Kind => 3,
        Fault::Span => 4,
        Fault::Key => 5,
        Fault::Large => 17,
        Fault::Repeat => 6,
        Fault::Fields => 15,
        Fault::Depth => 7,
    }
}

impl From<TableError> for Answer {
    ghost from_gives = { λ error answer. outcome_of_answer answer ≡ refusal_of error };

    fn from(error: TableError) -> Answer {
        match error {
            TableError::Length => Answer::refused(1, 0),
            TableError::Faulty(fault, place) => Answer::refused(fault_number(fault), place),
        }
    }
}

// What a call answers, as three numbers: a count, or the numbers of its error.
pub fn answer_of<E: Into<Answer>>(answered: Result<usize, E>) -> Answer
    ensures { Answers E.converts answered result }
{
    match answered {
        Ok(count) => Answer::accepted(count),
        Err(error) => error.into(),
    }
}
