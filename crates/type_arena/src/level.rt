// The level at which a run of records stands in a type.
ghost use Rattle.std.specs.Prelude.{◌≡◌, ◌≤◌, if◌then◌else◌};
ghost use Rattle.type_arena.specs.Inside.Runs.{inside_of, whole_level};

use counting_theory::equivalence::Equivalence;
use value_table::record;

// What a run of records is: the levels of addends left, whether it is a run of fields, and the equivalence.
#[derive(Clone, Copy)]
pub struct Level {
    pub left: usize,
    pub field: bool,
    pub equivalence: Equivalence,
}

impl Level {
    // The level of a whole type.
    pub fn whole(equivalence: Equivalence) -> Level
        ensures { result ≡ whole_level equivalence }
    {
        Level {
            left: record::MAX_DEPTH,
            field: false,
            equivalence,
        }
    }

    // What stands inside a record of this kind.
    pub fn inside(self, kind: u8) -> Level
        requires { (if self.field then 0 else 1) ≤ self.left }
        ensures { result ≡ inside_of self kind }
    {
        if self.field {
            return Level {
                field: false,
                ..self
            };
        }
        Level {
            left: self.left - 1,
            field: kind == record::RECORD,
            ..self
        }
    }
}
