// The box as a value.
ghost use Rattle.std.specs.Prelude.{◌≤◌};

use crate::faults::BoxFault;
use settling::Accounts;

// A cold box: a validator that keeps the whole book and settles certified dockets, and does not countersign.
#[derive(Drop)]
pub struct ColdBox<B, C> {
    // The pool's number.
    pub(crate) pool: u32,
    // Its own number among the pool's boxes.
    pub(crate) number: u8,
    // How many boxes the pool has.
    pub(crate) boxes: u8,
    // How many countersigns a certificate needs.
    pub(crate) needed: u8,
    pub(crate) book: B,
    pub(crate) checker: C,
    pub(crate) accounts: Accounts,
    ghost few: { boxes ≤ 13 },
}

// A setup that was refused: why, and the book and the checker as they were.
#[derive(Drop)]
pub struct SetUpRefused<B, C> {
    pub fault: BoxFault,
    pub book: B,
    pub checker: C,
}
