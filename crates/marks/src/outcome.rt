// How a write that can fail ends, and rows of such ends for tests and simulations.
ghost use Rattle.std.specs.Prelude.{◌≡◌, ◌<◌, ◌≤◌, map, length, MatchOption};
ghost use Rattle.std.specs.List.{slice_get};
ghost use Rattle.marks.specs.Outcomes.{ends, stands, lands, next_outcome, rest_of_row};
ghost use Rattle.marks.specs.Rows.{coming};

pub use crate::row::Row;
use std::array;

#[derive(Clone, Copy, PartialEq, Eq, Debug)]
pub enum Outcome {
    // What is written stands.
    Stands,
    // The write fails, and what was there stays.
    FailsOld,
    // The write fails, and what was to be written stands all the same.
    FailsNew,
}

impl Outcome {
    // The write is answered with yes.
    pub fn stands(self) -> bool
        ensures { result ≡ stands self }
    {
        match self {
            Outcome::Stands => true,
            Outcome::FailsOld | Outcome::FailsNew => false,
        }
    }

    // What was to be written is there afterwards.
    pub fn lands(self) -> bool
        ensures { result ≡ lands self }
    {
        match self {
            Outcome::Stands | Outcome::FailsNew => true,
            Outcome::FailsOld => false,
        }
    }
}

impl Row {
    // A row of up to 64 outcomes.
    pub fn new(outcomes: &[Outcome]) -> Option<Row>
        ensures { MatchOption result (64 < length outcomes.now) (λ row. (length outcomes.now ≤ 64) × (coming row ≡ map ends outcomes.now)) }
    {
        if outcomes.len() > 64 {
            return None;
        }
        Some(Row {
            cells: array::from_fn(
                |i| -> Option<Outcome>
                    ensures { result ≡ slice_get outcomes.entry.now i }
                { outcomes.get(i).copied() },
            ),
            next: 0,
        })
    }

    // Takes the next outcome off the row.
    pub fn take(&mut self) -> Outcome
        ensures answer { result ≡ next_outcome (coming self.old) }
        ensures row { coming self.new ≡ rest_of_row (coming self.old) }
    {
        let Some(Some(outcome)) = self.cells.get(self.next) else {
            return Outcome::Stands;
        };
        let outcome = *outcome;
        self.next += 1;
        outcome
    }
}
