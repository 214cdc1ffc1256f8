// Tables of lines given in and of questions asked.
ghost use Rattle.std.specs.Prelude.{◌≡◌, [], ◌∷◌};

use book::Book;
use books::{BallotQuestion, PairAnswer, PairQuestion, ShippedBook, ship};
use refusals::Fault;
use std::process::Abort;
use std::test::Fail;

// A line that gives pallets to a receiver.
fn pallets(receiver: u8, amount: u8) -> [u8; 16]
    ensures { result ≡ 1 ∷ receiver ∷ 0 ∷ 0 ∷ 0 ∷ 0 ∷ 0 ∷ 0 ∷ 0 ∷ 0 ∷ 0 ∷ 0 ∷ 0 ∷ 0 ∷ 0 ∷ amount ∷ [] }
{
    [1, receiver, 0, 0, 0, 0, 0, 0, 0, 0, 0, 0, 0, 0, 0, amount]
}

// A line that votes on a topic.
fn vote(topic: u8, choice: u8) -> [u8; 16]
    ensures { result ≡ 2 ∷ topic ∷ choice ∷ 0 ∷ 0 ∷ 0 ∷ 0 ∷ 0 ∷ 0 ∷ 0 ∷ 0 ∷ 0 ∷ 0 ∷ 0 ∷ 0 ∷ 0 ∷ [] }
{
    [2, topic, choice, 0, 0, 0, 0, 0, 0, 0, 0, 0, 0, 0, 0, 0]
}

// A line that gives a pallet to account 1, or has another kind.
fn other(kind: u8) -> [u8; 16]
    ensures { result ≡ kind ∷ 1 ∷ 0 ∷ 0 ∷ 0 ∷ 0 ∷ 0 ∷ 0 ∷ 0 ∷ 0 ∷ 0 ∷ 0 ∷ 0 ∷ 0 ∷ 0 ∷ 1 ∷ [] }
{
    [kind, 1, 0, 0, 0, 0, 0, 0, 0, 0, 0, 0, 0, 0, 0, 1]
}

// Each account gives in its line, and the book makes it or not.
fn make(rt: &impl Abort, book: &mut ShippedBook, expected: &[(u8, [u8; 16], bool)]) {
    for (account, line, valid) in expected {
        assert_eq!(rt; book.apply(*account, line), *valid);
    }
}

// Each account has this balance, or none.
fn balances_are(rt: &impl Abort, book: &ShippedBook, expected: &[(u8, Option<u64>)]) {
    for (account, balance) in expected {
        assert_eq!(rt;
            book.ask(PairQuestion::First(*account)),
            PairAnswer::First(*balance)
        );
    }
}

// Each topic and choice has this count, or none.
fn votes_are(rt: &impl Abort, book: &ShippedBook, expected: &[(u8, u8, Option<u8>)]) {
    for (topic, choice, count) in expected {
        let question = BallotQuestion {
            topic: *topic,
            choice: *choice,
        };
        assert_eq!(rt;
            book.ask(PairQuestion::Second(question)),
            PairAnswer::Second(*count)
        );
    }
}

#[test]
fn pallets_and_ballots_in_one_docket(rt: HostRuntime) -> Result<(), Fail> {
    let mut book = ship([10; 64], 4)?;
    make(
        &rt,
        &mut book,
        &[
            (0, pallets(1, 3), true),
            (0, vote(2, 1), true),
            (0, pallets(63, 7), true),
            (0, vote(15, 3), true),
        ],
    );
    balances_are(
        &rt,
        &book,
        &[(0, Some(0)), (1, Some(13)), (63, Some(17)), (64, None)],
    );
    votes_are(
        &rt,
        &book,
        &[
            (2, 1, Some(1)),
            (15, 3, Some(1)),
            (15, 2, Some(0)),
            (16, 0, None),
            (0, 4, None),
        ],
    );
    Ok(())
}

#[test]
fn one_vote_on_a_topic(rt: HostRuntime) -> Result<(), Fail> {
    let mut book = ship([0; 64], 9)?;
    make(
        &rt,
        &mut book,
        &[
            (5, vote(7, 2), true),
            (5, vote(7, 2), false),
            (5, vote(7, 3), false),
            (5, vote(8, 2), true),
            (6, vote(7, 2), true),
            (63, vote(7, 2), true),
            (64, vote(7, 2), false),
            (255, vote(7, 2), false),
        ],
    );
    votes_are(&rt, &book, &[(7, 2, Some(3)), (7, 3, Some(0))]);
    Ok(())
}

#[test]
fn the_last_allowed_line(rt: HostRuntime) -> Result<(), Fail> {
    let mut book = ship([10; 64], 2)?;
    make(
        &rt,
        &mut book,
        &[
            (0, pallets(1, 11), false),
            (0, pallets(1, 1), true),
            (0, vote(0, 0), true),
            (0, vote(1, 0), false),
            (1, vote(1, 0), true),
        ],
    );
    book.back();
    make(&rt, &mut book, &[(0, vote(1, 0), true)]);
    book.keep();
    make(
        &rt,
        &mut book,
        &[(0, vote(2, 0), true), (0, vote(3, 0), false)],
    );
    book.back();
    make(
        &rt,
        &mut book,
        &[(0, vote(1, 0), false), (0, vote(3, 0), true)],
    );
    book.reset();
    make(
        &rt,
        &mut book,
        &[(0, vote(1, 0), true), (0, vote(3, 0), true)],
    );
    let mut shut = ship([10; 64], 0)?;
    make(
        &rt,
        &mut shut,
        &[(0, pallets(1, 1), false), (63, vote(0, 0), false)],
    );
    Ok(())
}

#[test]
fn lines_of_no_known_form(rt: HostRuntime) -> Result<(), Fail> {
    let mut book = ship([10; 64], 65535)?;
    make(
        &rt,
        &mut book,
        &[
            (0, other(0), false),
            (0, other(2), false),
            (0, other(3), false),
            (0, other(255), false),
            (0, vote(16, 0), false),
            (0, vote(0, 4), false),
            (0, pallets(64, 1), false),
            (0, pallets(0, 1), false),
            (64, other(1), false),
            (63, other(1), true),
        ],
    );
    for (kind, known) in [(0, false), (1, true), (2, true), (3, false)] {
        assert_eq!(rt; ShippedBook::lists(kind), known);
    }
    Ok(())
}

#[test]
fn too_many_pallets(rt: HostRuntime) -> Result<(), Fail> {
    let Err(fault) = ship([1 << 35; 64], 1) else {
        return Err(Fail::new("set up"));
    };
    assert_eq!(rt; fault.refusal().number(), 17);
    Ok(())
}
