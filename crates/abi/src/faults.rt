// A fault as the table of SPEC 8.3 gives it: its number and its line, 0 where no line is meant.
// It takes a fault and gives the two; the promises are the model's `fault_number` and `fault_line`.
ghost use Rattle.std.specs.Prelude.{◌≡◌};
ghost use Rattle.model.specs.Faults.{fault_number, fault_line};

use model::Fault;

// A fault's number and line.
// Kept: 0 for no line, since the structs for C and the refusal line have it so (SPEC 8.3).
#[derive(Clone, Copy, Debug, PartialEq, Eq, Hash)]
pub struct FaultNumbers {
    pub number: u32,
    pub line: u32,
}

impl From<Fault> for FaultNumbers {
    ghost from_gives = { λ f n. n ≡ record { number = fault_number f; line = fault_line f } };

    fn from(fault: Fault) -> FaultNumbers {
        match fault {
            Fault::ShortTable => FaultNumbers { number: 1, line: 0 },
            Fault::LongSheet => FaultNumbers { number: 2, line: 0 },
            Fault::BadForm(line) => FaultNumbers { number: 3, line },
            Fault::OutOfRange(line) => FaultNumbers { number: 4, line },
            Fault::BadStage(line) => FaultNumbers { number: 5, line },
            Fault::RepeatedEdge(line) => FaultNumbers { number: 6, line },
            Fault::Circular => FaultNumbers { number: 7, line: 0 },
            Fault::ShortOutput => FaultNumbers { number: 8, line: 0 },
        }
    }
}
