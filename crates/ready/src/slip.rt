// The slip.

// The right to have a docket's countersign text released, once: it is neither copied nor dropped, only released or
// withheld.
pub struct Slip {
    // The box that made it.
    pub(crate) maker: u8,
    // The docket's account and number.
    pub(crate) account: u8,
    pub(crate) number: u64,
}
