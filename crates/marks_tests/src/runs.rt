// Tables of marks written and read, and of bytes that are a sheet or none.
ghost use Rattle.std.specs.Prelude.{◌≡◌};

use docket::Docket;
use marks::{MarkStore, Outcome, TableStore};
use refusals::Fault;
use sheet::Sheet;
use std::process::Abort;
use std::test::Fail;

// A docket of the account with this number.
fn docket(account: u8, number: u64) -> Docket
    ensures { (result.pool ≡ 7) × (result.account ≡ account) × (result.count ≡ 1) × (result.number ≡ number) }
{
    Docket {
        pool: 7,
        account,
        count: 1,
        number,
        lines: [[1; 16], [0; 16], [0; 16], [0; 16]],
    }
}

// Each account's docket of this number is written, and stands or not.
fn write<S: MarkStore>(rt: &impl Abort, store: &mut S, expected: &[(u8, u64, bool)]) {
    for (account, number, stands) in expected {
        assert_eq!(rt; store.write(&docket(*account, *number)), *stands);
    }
}

// Each account's mark has this number, or there is none and the buffer stays as it was.
fn marks_are<S: MarkStore>(rt: &impl Abort, store: &S, expected: &[(u8, Option<u64>)]) {
    for (account, number) in expected {
        let mut out = [9; 80];
        assert_eq!(rt; store.read(*account, &mut out), number.is_some());
        let bytes = match *number {
            Some(number) => docket(*account, number).to_bytes(),
            None => [9; 80],
        };
        assert!(rt; out == bytes);
    }
}

#[test]
fn outcomes_of_writes(rt: HostRuntime) -> Result<(), Fail> {
    let row = [Outcome::Stands, Outcome::FailsOld, Outcome::FailsNew];
    let mut store = TableStore::new(3, &row)?;
    assert_eq!(rt; store.owner(), 3);
    marks_are(&rt, &store, &[(0, None), (5, None), (63, None)]);
    write(&rt, &mut store, &[(5, 1, true), (5, 2, false)]);
    marks_are(&rt, &store, &[(5, Some(1))]);
    write(
        &rt,
        &mut store,
        &[(64, 1, false), (255, 1, false), (5, 0, false)],
    );
    write(&rt, &mut store, &[(5, 3, false)]);
    marks_are(&rt, &store, &[(4, None), (5, Some(3)), (6, None)]);
    write(
        &rt,
        &mut store,
        &[(63, 9, true), (0, 1 << 40, true), (5, 4, true)],
    );
    marks_are(
        &rt,
        &store,
        &[
            (0, Some(1 << 40)),
            (5, Some(4)),
            (63, Some(9)),
            (64, None),
            (255, None),
        ],
    );
    Ok(())
}

#[test]
fn the_longest_row(rt: HostRuntime) -> Result<(), Fail> {
    let mut store = TableStore::new(0, &[Outcome::FailsOld; 64])?;
    // here and below a loop's numbers are those of dockets and accounts, or turns; none indexes anything
    for _ in 0..64 {
        write(&rt, &mut store, &[(1, 1, false)]);
    }
    marks_are(&rt, &store, &[(1, None)]);
    write(&rt, &mut store, &[(1, 2, true)]);
    marks_are(&rt, &store, &[(1, Some(2))]);
    let Err(fault) = TableStore::new(0, &[Outcome::Stands; 65]) else {
        return Err(Fail::new("a row of 65"));
    };
    // the number, as users are told it, here and below
    assert_eq!(rt; fault.refusal().number(), 18);
    Ok(())
}

// A sheet with one record, and one byte changed.
fn lay(bytes: &mut [u8; 65537], at: u16, value: u8) {
    bytes[3] = 1;
    bytes[16..96].copy_from_slice(&docket(5, 1).to_bytes());
    bytes[usize::from(at)] = value;
}

// The first bytes are a sheet, or are refused and stay as they were.
fn judged(rt: &impl Abort, bytes: &mut [u8; 65537], len: usize, laid: bool) {
    let before = *bytes;
    let len = len.min(65537);
    match Sheet::open(&mut bytes[0..len]) {
        Ok(_) => assert!(rt; laid),
        Err(fault) => {
            assert!(rt; !laid);
            assert_eq!(rt; fault.refusal().number(), 18);
        }
    }
    assert!(rt; *bytes == before);
}

#[test]
fn layouts(rt: HostRuntime) {
    let expected = [
        // lengths
        (5215, 0, 0, false),
        (5216, 0, 0, true),
        (65536, 0, 0, true),
        (65537, 0, 0, false),
        // owner and reserved bytes
        (5216, 0, 255, true),
        (5216, 1, 1, false),
        (5216, 4, 1, false),
        (5216, 15, 128, false),
        // counts: no record, one more, one past the end, far past the end
        (5216, 3, 0, false),
        (5216, 3, 2, false),
        (5216, 3, 66, false),
        (65536, 2, 255, false),
        // the record: another pool, another account, no account, a reserved byte
        (5216, 16, 200, true),
        (5216, 20, 63, true),
        (5216, 20, 64, false),
        (5216, 23, 1, false),
        // behind the record
        (5216, 96, 1, false),
        (5216, 5215, 1, false),
        (65536, 65535, 1, false),
    ];
    for (len, at, value, laid) in expected {
        let mut bytes = [0; 65537];
        lay(&mut bytes, at, value);
        judged(&rt, &mut bytes, len, laid);
    }
}

#[test]
fn the_smallest_sheet(rt: HostRuntime) -> Result<(), Fail> {
    let mut bytes = [0; 5216];
    bytes[0] = 9;
    {
        let mut sheet = Sheet::open(&mut bytes)?;
        assert_eq!(rt; sheet.owner(), 9);
        marks_are(
            &rt,
            &sheet,
            &[(0, None), (63, None), (64, None), (255, None)],
        );
        write(
            &rt,
            &mut sheet,
            &[(64, 1, false), (255, 1, false), (0, 0, false)],
        );
        for round in 1..4 {
            for account in 0..64 {
                write(&rt, &mut sheet, &[(account, round, true)]);
            }
        }
        write(&rt, &mut sheet, &[(7, 4, true)]);
        marks_are(&rt, &sheet, &[(0, Some(3)), (7, Some(4)), (63, Some(3))]);
    }
    assert_eq!(rt; (bytes[2], bytes[3]), (0, 65));
    let sheet = Sheet::open(&mut bytes)?;
    assert_eq!(rt; sheet.owner(), 9);
    marks_are(
        &rt,
        &sheet,
        &[(0, Some(3)), (7, Some(4)), (63, Some(3)), (64, None)],
    );
    Ok(())
}

// The account's dockets of these numbers are written to the sheet that lies in the bytes.
fn fill<const N: usize>(
    rt: &impl Abort,
    bytes: &mut [u8; N],
    account: u8,
    first: u64,
    last: u64,
) -> Result<(), Fail> {
    let mut sheet = Sheet::open(bytes)?;
    for number in first..=last {
        write(rt, &mut sheet, &[(account, number, true)]);
    }
    marks_are(rt, &sheet, &[(account, Some(last))]);
    Ok(())
}

// What a sheet of owner 9 with these three records holds.
fn lay_three(bytes: &mut [u8; 5216], first: Docket, second: Docket, third: Docket) {
    bytes[0] = 9;
    bytes[3] = 3;
    bytes[16..96].copy_from_slice(&first.to_bytes());
    bytes[96..176].copy_from_slice(&second.to_bytes());
    bytes[176..256].copy_from_slice(&third.to_bytes());
}

// Compacting drops what has a later record, keeps the order of the rest, and zeros what is freed.
#[test]
fn bytes_of_a_sheet(rt: HostRuntime) -> Result<(), Fail> {
    let mut bytes = [0; 5216];
    bytes[0] = 9;
    for (account, first, last) in [(6, 1, 1), (5, 1, 2)] {
        fill(&rt, &mut bytes, account, first, last)?;
    }
    let mut expected = [0; 5216];
    lay_three(&mut expected, docket(6, 1), docket(5, 1), docket(5, 2));
    assert!(rt; bytes == expected);
    for (first, middle, last) in [(3, 64, 65), (66, 127, 128)] {
        fill(&rt, &mut bytes, 5, first, last)?;
        lay_three(
            &mut expected,
            docket(6, 1),
            docket(5, middle),
            docket(5, last),
        );
        assert!(rt; bytes == expected);
    }
    Ok(())
}

#[test]
fn the_largest_sheet(rt: HostRuntime) -> Result<(), Fail> {
    let mut bytes = [0; 65536];
    for (first, last, count) in [
        (1, 255, [0, 255]),
        (256, 256, [1, 0]),
        (257, 819, [3, 51]),
        (820, 820, [0, 2]),
        (821, 1637, [3, 51]),
        (1638, 1638, [0, 2]),
    ] {
        fill(&rt, &mut bytes, 63, first, last)?;
        assert_eq!(rt; [bytes[2], bytes[3]], count);
    }
    Ok(())
}
