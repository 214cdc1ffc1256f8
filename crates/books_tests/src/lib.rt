// Runs of the shipped book, as its users would make them.
#![tactic(auto)]

#[cfg(test)]
mod runs;
