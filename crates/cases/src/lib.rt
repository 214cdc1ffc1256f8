// Worked cases: proved of the definitions in one table, and run through the code.
#![tactic(auto)]

ghost use Rattle.cases.specs.Four.{PoolOfFour};
ghost use Rattle.cases.specs.Sealed.{WorkedSeals};
ghost use Rattle.cases.specs.Worked.{WorkedCases};

#[cfg(test)]
mod tests;

// The table holds.
pub fn worked_cases()
    ensures { WorkedCases }
{}

// A pool to which the promise applies is there.
pub fn pool_of_four()
    ensures { PoolOfFour }
{}

// So do the steps of a verification.
pub fn worked_seals()
    ensures { WorkedSeals }
{}
