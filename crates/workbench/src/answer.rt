// What is told of a certificate that a box was handed.
use refusals::Cause;
use std::fmt;

// A type of its own and no Result, since it prints itself.
#[derive(Clone, Copy, PartialEq, Eq, Debug)]
pub enum Answer {
    // It was taken, and so many dockets settled.
    Settled(u32),
    // It was refused.
    Refused(Cause),
}

// By hand: the derive would make an error of it, which it is not.
impl fmt::Display for Answer {
    fn fmt<W: fmt::Write>(&self, f: &mut fmt::Formatter<W>) -> fmt::Result {
        match self {
            Answer::Settled(count) => write!(f, "S {count}"),
            Answer::Refused(cause) => write!(f, "R {}", u8::from(*cause)),
        }
    }
}
