// Trials of the calls that write a type: each builds what the call is given, and prints the answer, how many bytes behind the type and in
// the working buffer are not zero, and the type.
#![tactic(auto)]

pub mod entries;
pub mod pairs;
pub mod singles;

use trial_notation::text::number_or;

// One trial: the call by its number, the equivalence that it is tried under, what stands before the colon of its line, and what behind it.
#[derive(Clone, Copy)]
pub struct Trial<'a> {
    pub call: u8,
    pub equivalence: u64,
    pub head: &'a [u8],
    pub records: &'a [u8],
}

impl<'a> Trial<'a> {
    // The length that is word k of the head, or another one if it names none.
    pub fn length(&self, k: usize, other: usize) -> usize {
        number_or(self.head, k, other)
    }
}
