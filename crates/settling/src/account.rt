// What a box keeps for one account.
use docket::Docket;

#[derive(Clone, Copy)]
pub struct Account {
    // The number of the docket that settles next, 1 at first.
    pub next: u64,
    // Dockets that wait, of the numbers next to next + 3: a docket of number n lies in cell n mod 4.
    pub cells: [Option<Docket>; 4],
}
