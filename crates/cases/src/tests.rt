// The same cases through the code, with what the code alone can show: printed faults and reports.
use book::{Book, PalletBook};
use books::{BallotQuestion, PairAnswer, PairQuestion, ship};
use certificate::{Certificate, CertificateFault, Signer};
use docket::{Docket, DocketFault};
use refusals::Cause;
use seals::{Checker, Roll};
use settlement::{BoxFault, ColdBox};
use std::test::Fail;
use workbench::bench::{BenchDocket, one_pallet, opening_balances, roll};
use workbench::stream::hand_in;
use workbench::{Answer, Trusting};

// A docket of one pallet from account 0 to 1, with this count of lines and this number.
fn with(count: u8, number: u64) -> Docket {
    Docket {
        count,
        number,
        ..one_pallet(0, 1)
    }
}

// The docket's certificate by the first boxes, two or three (a count would want a bound), whose roll entries start at `first`.
fn certify(
    docket: &Docket,
    three: bool,
    first: u8,
    out: &mut [u8; 128],
) -> Result<usize, CertificateFault> {
    let signers = [
        Signer { number: 0, size: 2 },
        Signer { number: 1, size: 2 },
        Signer { number: 2, size: 2 },
    ];
    let seals = [0, first, 0, first.wrapping_add(1), 0, first.wrapping_add(2)];
    if three {
        Certificate::write(4, docket, &signers, &seals, out)
    } else {
        Certificate::write(4, docket, &signers[0..2], &seals[0..4], out)
    }
}

#[test]
fn dockets(rt: HostRuntime) {
    let short = [0u8; 79];
    assert!(rt; Docket::read(&short) == Err(DocketFault::Malformed(79)));
    let table = [
        (with(0, 1), Some(5)),
        (with(5, 1), Some(5)),
        (with(4, 1), None),
        (with(1, 0), Some(8)),
        (with(1, (1 << 40) + 1), Some(8)),
        (with(1, 1 << 40), None),
    ];
    for (docket, place) in table {
        let read = Docket::read(&docket.to_bytes());
        match place {
            Some(place) => assert!(rt; read == Err(DocketFault::Malformed(place))),
            None => assert!(rt; read == Ok(docket)),
        }
    }
}

#[test]
fn certificates(rt: HostRuntime) -> Result<(), Fail> {
    let mut bytes = [0u8; 128];
    let length = certify(&BenchDocket::P.docket(), true, 0, &mut bytes)?;
    assert_eq!(rt; length, 114);
    let certificate = Certificate::read(4, &bytes[0..114])?;
    for (entry, place) in certificate.entries().iter().zip([108, 110, 112].iter()) {
        assert_eq!(rt; entry.place, *place);
    }
    assert_eq!(rt; certificate.entries().len(), 3);
    Ok(())
}

// What a box answers to the certificates of an order, and the balances of accounts 0 to 2 after them.
#[derive(Clone, Copy, PartialEq, Eq, Debug)]
struct Outcome {
    answers: [Option<Answer>; 3],
    balances: [Option<u64>; 3],
}

// Hands certificates of the bench's dockets to a fresh box of its pool, in an order; fewer than three may come.
fn play<B: Book<Question = u8, Answer = Option<u64>> + Drop, C: Checker + Drop>(
    book: B,
    checker: C,
    order: [Option<BenchDocket>; 3],
) -> Result<Outcome, Fail> {
    let Ok(mut cold) = ColdBox::set_up(7, 0, 1, book, checker) else {
        return Err(Fail::new("set up"));
    };
    let mut answers = [None; 3];
    for (slot, name) in answers.iter_mut().zip(order) {
        let Some(name) = name else {
            break;
        };
        let mut bytes = [0u8; 128];
        certify(&name.docket(), true, 3 * name as u8, &mut bytes)?;
        *slot = Some(hand_in(&mut cold, &bytes[0..114]));
    }
    Ok(Outcome {
        answers,
        balances: [0, 1, 2].map(|account| cold.ask(account)),
    })
}

#[test]
fn orders(rt: HostRuntime) -> Result<(), Fail> {
    let s0 = Some(Answer::Settled(0));
    let s1 = Some(Answer::Settled(1));
    let s2 = Some(Answer::Settled(2));
    let back = [Some(1), Some(0), Some(1)];
    let on = [Some(1), Some(1), Some(0)];
    let [p, q, r] = [BenchDocket::P, BenchDocket::Q, BenchDocket::R].map(Some);
    let table = [
        ([p, q, None], [s1, s1, None], back),
        ([q, p, None], [s0, s2, None], back),
        ([r, q, p], [s1, s1, s1], on),
        ([q, p, r], [s0, s2, s1], on),
    ];
    let bytes = roll();
    for (order, answers, balances) in table {
        let book = PalletBook::new(opening_balances())?;
        let checker = Roll::open(&bytes)?;
        let seen = play(book, checker, order)?;
        assert_eq!(rt; seen, Outcome { answers, balances });
    }
    Ok(())
}

// A box of the bench's pool that finds every seal good. Each crate of tests sets up its own: shared, it would be a public
// call of the workbench.
fn trusting_box() -> Result<ColdBox<PalletBook, Trusting>, Fail> {
    let book = PalletBook::new(opening_balances())?;
    ColdBox::set_up(7, 0, 1, book, Trusting).map_err(|_| Fail::new("set up"))
}

// The answer of a box that refuses under this number, as users are told it.
fn refused(number: u8) -> Result<Answer, Fail> {
    Ok(Answer::Refused(Cause::try_from(number)?))
}

#[test]
fn window(rt: HostRuntime) -> Result<(), Fail> {
    let mut cold = trusting_box()?;
    let table = [
        (with(1, 5), true, refused(10)?),
        (with(1, 4), true, Answer::Settled(0)),
        (with(1, 4), true, refused(11)?),
        (with(2, 4), true, refused(12)?),
        (with(1, 1), false, refused(8)?),
        (with(1, 1), true, Answer::Settled(1)),
        (with(1, 1), true, refused(4)?),
        (with(5, 2), true, refused(1)?),
    ];
    for (docket, three, answer) in table {
        let mut bytes = [0u8; 128];
        let length = certify(&docket, three, 0, &mut bytes).unwrap_or(0);
        assert!(rt; length <= 128);
        assert_eq!(rt; hand_in(&mut cold, &bytes[0..length]), answer);
    }
    let mut out = [9u8; 80];
    assert!(rt; cold.waiting(0, 4, &mut out));
    assert!(rt; out == with(1, 4).to_bytes());
    assert!(rt; !cold.waiting(0, 5, &mut out) && !cold.waiting(64, 4, &mut out));
    assert!(rt; out == with(1, 4).to_bytes());
    assert_eq!(rt; cold.next_number(0), Some(2));
    assert_eq!(rt; cold.next_number(63), Some(1));
    assert_eq!(rt; cold.next_number(64), None);
    Ok(())
}

#[test]
fn printed(rt: HostRuntime) -> Result<(), Fail> {
    let mut cold = trusting_box()?;
    let mut bytes = [0u8; 128];
    certify(&BenchDocket::P.docket(), true, 0, &mut bytes)?;
    bytes[28 + 5] = 5;
    let Err(fault) = cold.take(&bytes[0..114]) else {
        return Err(Fail::new("five lines"));
    };
    let text = format!(in rt.alloc(); "{fault}")?;
    assert_eq!(rt;
        text.as_str(),
        "box: refusal 1 at 0, malformed; certificate: refusal 1 at 28, malformed; docket: refusal 1 at 5, malformed"
    );
    Ok(())
}

// A line that votes on a topic. The books' tests have their own, as they stand on the books alone.
fn vote(topic: u8, choice: u8) -> [u8; 16] {
    [2, topic, choice, 0, 0, 0, 0, 0, 0, 0, 0, 0, 0, 0, 0, 0]
}

// The same box over the shipped book: pallets and votes in one docket, and a vote twice that is never covered.
#[test]
fn shipped(rt: HostRuntime) -> Result<(), Fail> {
    let Ok(mut cold) = ColdBox::set_up(7, 0, 1, ship(opening_balances(), 5)?, Trusting) else {
        return Err(Fail::new("set up"));
    };
    let mut four = one_pallet(0, 1);
    four.count = 4;
    four.lines[1] = vote(3, 2);
    four.lines[2] = vote(4, 0);
    four.lines[3] = vote(5, 1);
    let mut twice = with(1, 2);
    twice.lines[0] = vote(3, 1);
    let mut back = one_pallet(1, 0);
    back.count = 2;
    back.lines[1] = vote(3, 2);
    for (docket, answer) in [(twice, 0), (back, 0), (four, 2)] {
        let mut bytes = [0u8; 128];
        certify(&docket, true, 0, &mut bytes)?;
        assert_eq!(rt; hand_in(&mut cold, &bytes[0..114]), Answer::Settled(answer));
    }
    let mut out = [0u8; 80];
    assert!(rt; cold.waiting(0, 2, &mut out) && out == twice.to_bytes());
    assert!(rt; cold.ask(PairQuestion::First(0)) == PairAnswer::First(Some(1)));
    assert!(rt;
        cold.ask(PairQuestion::Second(BallotQuestion {
            topic: 3,
            choice: 2,
        })) == PairAnswer::Second(Some(2))
    );
    Ok(())
}
