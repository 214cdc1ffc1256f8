// What every refusal names: the layer that refuses, the cause and a place in what was judged.
#![tactic(auto)]

ghost use Rattle.std.specs.Prelude.{◌≡◌};
ghost use Rattle.refusals.specs.Cause.{cause_number, IsNumbered};
ghost use Rattle.refusals.specs.Reading.{Reading, outermost};

use std::fmt;
use thiserror::Error;

#[cfg(test)]
mod tests;

// A part of the product that judges something of its own.
#[derive(Clone, Copy, PartialEq, Eq, Debug)]
pub enum Layer {
    Docket,
    Certificate,
    Book,
    Store,
    Checker,
    Box,
}

// Printed by hand, as the cause and the refusal below: the derive would make errors of them, which they are not.
impl fmt::Display for Layer {
    fn fmt<W: fmt::Write>(&self, f: &mut fmt::Formatter<W>) -> fmt::Result {
        f.write_str(match self {
            Layer::Docket => "docket",
            Layer::Certificate => "certificate",
            Layer::Book => "book",
            Layer::Store => "store",
            Layer::Checker => "checker",
            Layer::Box => "box",
        })
    }
}

// Why something is refused. Users are told the number.
#[derive(Clone, Copy, PartialEq, Eq, PartialOrd, Ord, Debug)]
pub enum Cause {
    Malformed = 1,
    AnotherPool,
    YardSeal,
    BelowNext,
    AboveNext,
    OtherMarked,
    NotCovered,
    TooFewEntries,
    BadSeal,
    TooFarAhead,
    AlreadyWaiting,
    OtherWaiting,
    OtherOwner,
    WriteFailed,
    NotMarked,
    OutOfRange,
    Overfull,
    Layout,
    ShortBuffer,
}

// The cause's number.
impl From<Cause> for u8 {
    ghost from_gives = { λ cause number. number ≡ cause_number cause };

    fn from(cause: Cause) -> u8 {
        cause as u8
    }
}

// A number that no cause has.
#[derive(Clone, Copy, PartialEq, Eq, Debug, Error)]
#[error("no refusal has number {0}")]
pub struct UnknownCause(pub u8);

// The cause of a number.
impl TryFrom<u8> for Cause {
    type Error = UnknownCause;

    ghost try_from_gives = { IsNumbered };

    fn try_from(number: u8) -> Result<Cause, UnknownCause> {
        match number {
            1 => Ok(Cause::Malformed),
            2 => Ok(Cause::AnotherPool),
            3 => Ok(Cause::YardSeal),
            4 => Ok(Cause::BelowNext),
            5 => Ok(Cause::AboveNext),
            6 => Ok(Cause::OtherMarked),
            7 => Ok(Cause::NotCovered),
            8 => Ok(Cause::TooFewEntries),
            9 => Ok(Cause::BadSeal),
            10 => Ok(Cause::TooFarAhead),
            11 => Ok(Cause::AlreadyWaiting),
            12 => Ok(Cause::OtherWaiting),
            13 => Ok(Cause::OtherOwner),
            14 => Ok(Cause::WriteFailed),
            15 => Ok(Cause::NotMarked),
            16 => Ok(Cause::OutOfRange),
            17 => Ok(Cause::Overfull),
            18 => Ok(Cause::Layout),
            19 => Ok(Cause::ShortBuffer),
            _ => Err(UnknownCause(number)),
        }
    }
}

impl fmt::Display for Cause {
    fn fmt<W: fmt::Write>(&self, f: &mut fmt::Formatter<W>) -> fmt::Result {
        f.write_str(match self {
            Cause::Malformed => "malformed",
            Cause::AnotherPool => "another pool",
            Cause::YardSeal => "the yard's seal is not good",
            Cause::BelowNext => "the number is below the account's next",
            Cause::AboveNext => "the number is above the account's next",
            Cause::OtherMarked =>
                "the mark has a greater number, or this number and another docket",
            Cause::NotCovered => "a line is not covered",
            Cause::TooFewEntries => "too few countersigns",
            Cause::BadSeal => "a seal is not good",
            Cause::TooFarAhead => "the number is more than three above the account's next",
            Cause::AlreadyWaiting => "this docket waits already",
            Cause::OtherWaiting => "another docket of this number waits",
            Cause::OtherOwner => "the store has another owner",
            Cause::WriteFailed => "the write failed",
            Cause::NotMarked => "the slip is not of this box, or has no mark",
            Cause::OutOfRange => "a box number or a count of faulty boxes out of range",
            Cause::Overfull => "the sum of the balances is above 2^40",
            Cause::Layout => "wrong length or layout",
            Cause::ShortBuffer => "the buffer is too short",
        })
    }
}

// A refusal as one layer tells it. The place is counted from the start of what that layer judged.
#[derive(Clone, Copy, PartialEq, Eq, Debug)]
pub struct Refusal {
    pub layer: Layer,
    pub cause: Cause,
    pub place: usize,
}

impl Refusal {
    // The number under which it is told.
    pub fn number(&self) -> u8
        ensures { result ≡ cause_number self.now.cause }
    {
        u8::from(self.cause)
    }
}

impl fmt::Display for Refusal {
    fn fmt<W: fmt::Write>(&self, f: &mut fmt::Formatter<W>) -> fmt::Result {
        write!(
            f,
            "{}: refusal {} at {}, {}",
            self.layer,
            self.number(),
            self.place,
            self.cause
        )
    }
}

// A fault of one layer. Its reading says which refusals it stands for, layer by layer.
pub trait Fault {
    ghost reading: { Self → Reading };

    // What the outermost layer refuses.
    fn refusal(&self) -> Refusal
        ensures { result ≡ outermost (reading self.now) };
}
