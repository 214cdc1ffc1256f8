// Runs of the stores of marks, as a box and its host would make them.
#![tactic(auto)]

#[cfg(test)]
mod runs;
