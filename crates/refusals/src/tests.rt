// The printed text of each refusal, which no contract states.
use crate::{Cause, Layer, Refusal, UnknownCause};
use std::test::Fail;

#[test]
fn printed(rt: HostRuntime) -> Result<(), Fail> {
    let table = [
        (1, "malformed"),
        (2, "another pool"),
        (3, "the yard's seal is not good"),
        (4, "the number is below the account's next"),
        (5, "the number is above the account's next"),
        (
            6,
            "the mark has a greater number, or this number and another docket",
        ),
        (7, "a line is not covered"),
        (8, "too few countersigns"),
        (9, "a seal is not good"),
        (10, "the number is more than three above the account's next"),
        (11, "this docket waits already"),
        (12, "another docket of this number waits"),
        (13, "the store has another owner"),
        (14, "the write failed"),
        (15, "the slip is not of this box, or has no mark"),
        (16, "a box number or a count of faulty boxes out of range"),
        (17, "the sum of the balances is above 2^40"),
        (18, "wrong length or layout"),
        (19, "the buffer is too short"),
    ];
    for (number, text) in table {
        let refusal = Refusal {
            layer: Layer::Box,
            cause: Cause::try_from(number)?,
            place: 4,
        };
        let printed = format!(in rt.alloc(); "{refusal}")?;
        let expected = format!(in rt.alloc(); "box: refusal {number} at 4, {text}")?;
        assert_eq!(rt; printed.as_str(), expected.as_str());
    }
    Ok(())
}

#[test]
fn unknown(rt: HostRuntime) {
    for number in [0, 20, 255] {
        assert!(rt; Cause::try_from(number) == Err(UnknownCause(number)));
    }
}
