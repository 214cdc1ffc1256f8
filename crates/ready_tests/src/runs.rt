// Countersigning, power cuts and slips, as their users would see them.
use crate::{give_up, release_both, take_cold};
use book::{Book, PalletBook};
use certificate::{Certificate, Signer};
use docket::Docket;
use marks::{MarkStore, Outcome, TableStore};
use ready::ReadyBox;
use refusals::Fault;
use seals::countersign_text;
use settlement::{BoxFault, ColdBox};
use sheet::Sheet;
use std::process::Abort;
use std::test::Fail;
use workbench::Trusting;
use workbench::bench::{one_pallet, only_docket, opening_balances};

// A cold box of the bench's pool.
fn cold_box(number: u8, faulty: u8) -> Result<ColdBox<PalletBook, Trusting>, Fail> {
    let book = PalletBook::new(opening_balances())?;
    ColdBox::set_up(7, number, faulty, book, Trusting).map_err(|_| Fail::new("set up"))
}

// What a box answers to a docket: none where it makes a slip, which is withheld, else the refusal's number, as users are
// told it, and its place.
fn answer_to<S: MarkStore>(
    ready: &mut ReadyBox<PalletBook, Trusting, S>,
    docket: &Docket,
) -> Option<(u8, usize)> {
    match ready.countersign(&docket.to_bytes(), &[]) {
        Ok(slip) => {
            give_up(ready, slip);
            None
        }
        Err(fault) => {
            let refusal = fault.refusal();
            Some((refusal.number(), refusal.place))
        }
    }
}

// A box beside a store whose first write ends so is asked for P, and then, at once or after a restart, for S and for P.
fn ask_again(outcome: Outcome, restarts: bool) -> Result<[Option<(u8, usize)>; 3], Fail> {
    let p = one_pallet(0, 1);
    let s = one_pallet(0, 2);
    let store = TableStore::new(0, &[outcome])?;
    let mut ready = ReadyBox::join(cold_box(0, 1)?, store);
    let first = answer_to(&mut ready, &p);
    if restarts {
        let (cold, store) = ready.restart();
        ready = ReadyBox::join(cold, store);
    }
    Ok([first, answer_to(&mut ready, &s), answer_to(&mut ready, &p)])
}

#[test]
fn marks_outlive_a_restart(rt: HostRuntime) -> Result<(), Fail> {
    let table = [
        (Outcome::Stands, None, None, Some((6, 0))),
        (Outcome::FailsNew, Some((14, 0)), None, Some((6, 0))),
        (Outcome::FailsOld, Some((14, 0)), Some((6, 0)), None),
    ];
    for (outcome, first, then_p, then_s) in table {
        assert!(rt; ask_again(outcome, true)? == [first, then_s, then_p]);
        assert!(rt; ask_again(outcome, false)? == [first, then_s, then_p]);
    }
    Ok(())
}

#[test]
fn cover(rt: HostRuntime) -> Result<(), Fail> {
    let store = TableStore::new(0, &[])?;
    let mut ready = ReadyBox::join(cold_box(0, 1)?, store);
    assert!(rt; answer_to(&mut ready, &only_docket(0, 1, 2)) == Some((7, 0)));
    assert!(rt; answer_to(&mut ready, &one_pallet(0, 1)).is_none());
    assert!(rt; ready.ask(0) == Some(1));
    Ok(())
}

// Whose store it is, and whose slip.
#[test]
fn slips(rt: HostRuntime) -> Result<(), Fail> {
    let p = one_pallet(0, 1).to_bytes();
    let mut out = [9u8; 82];
    let mut ready = ReadyBox::join(cold_box(2, 1)?, TableStore::new(2, &[])?);
    let mut other = ReadyBox::join(cold_box(3, 1)?, TableStore::new(3, &[])?);
    let mut strange = ReadyBox::join(cold_box(3, 1)?, TableStore::new(2, &[])?);
    let refused = match strange.countersign(&p, &[]) {
        Ok(slip) => {
            give_up(&mut strange, slip);
            Ok(())
        }
        Err(fault) => Err(fault),
    };
    assert!(rt; refused == Err(BoxFault::OtherOwner));
    let slips = match (ready.countersign(&p, &[]), ready.countersign(&p, &[])) {
        (Ok(first), Ok(second)) => release_both(&mut ready, first, second, &mut out),
        (Ok(slip), Err(fault)) | (Err(fault), Ok(slip)) => {
            give_up(&mut ready, slip);
            (Err(fault), Err(fault))
        }
        (Err(fault), Err(_)) => (Err(fault), Err(fault)),
    };
    assert!(rt; slips == (Ok(()), Ok(())));
    assert!(rt; out == countersign_text(2, &p));
    let moved = match ready.countersign(&p, &[]) {
        Ok(slip) => other.release(slip, &mut out),
        Err(fault) => Err(fault),
    };
    assert!(rt; moved == Err(BoxFault::NotMarked));
    assert!(rt; out == countersign_text(2, &p));
    Ok(())
}

// Box 0 over a sheet in the host's bytes answers to a docket, and is gone.
fn answer_over(host: &mut [u8; 5216], docket: &Docket) -> Result<Option<(u8, usize)>, Fail> {
    let sheet = Sheet::open(host)?;
    let mut ready = ReadyBox::join(cold_box(0, 1)?, sheet);
    Ok(answer_to(&mut ready, docket))
}

#[test]
fn marks_outlive_the_box(rt: HostRuntime) -> Result<(), Fail> {
    let mut host = [0u8; 5216];
    assert!(rt; answer_over(&mut host, &one_pallet(0, 1))?.is_none());
    assert!(rt; answer_over(&mut host, &one_pallet(0, 2))? == Some((6, 0)));
    assert!(rt; answer_over(&mut host, &one_pallet(0, 1))?.is_none());
    assert!(rt; answer_over(&mut host, &one_pallet(2, 1))?.is_none());
    Ok(())
}

// The certificate of a docket by the first nine boxes, with seals of one byte.
fn certify(rt: &impl Abort, docket: &Docket, out: &mut [u8; 165]) -> Result<(), Fail> {
    let signers = [0, 1, 2, 3, 4, 5, 6, 7, 8].map(|number| Signer { number, size: 1 });
    assert_eq!(rt;
        Certificate::write(13, docket, &signers, &[0; 9], out)?,
        165
    );
    Ok(())
}

// One of four dockets of which each passes on the pallet that the one before brings: from account 0 to 8, from 8 to 9
// and so on. The index is a place in that chain, as the orders are written; cases with names would be no plainer.
fn link(index: u8) -> Docket {
    match index {
        0 => one_pallet(0, 8),
        1 => one_pallet(8, 9),
        2 => one_pallet(9, 10),
        _ => one_pallet(10, 11),
    }
}

// Box `number` of thirteen countersigns the first, and then, cold again, takes the certificates of all four in an
// order of its own: all settle.
fn settles_all(rt: &impl Abort, number: u8, order: &[u8; 4]) -> Result<(), Fail> {
    let mut text = [0u8; 82];
    let mut ready = ReadyBox::join(cold_box(number, 4)?, TableStore::new(number, &[])?);
    let slip = ready.countersign(&link(0).to_bytes(), &[])?;
    ready.release(slip, &mut text)?;
    assert!(rt; text == countersign_text(number, &link(0).to_bytes()));
    let (mut cold, _store) = ready.restart();
    let mut settled: u32 = 0;
    for index in order {
        let mut bytes = [0u8; 165];
        certify(rt, &link(*index), &mut bytes)?;
        settled = settled.wrapping_add(take_cold(&mut cold, &bytes)?);
    }
    assert_eq!(rt; settled, 4);
    assert!(rt; cold.ask(0) == Some(0) && cold.ask(8) == Some(0) && cold.ask(11) == Some(1));
    Ok(())
}

#[test]
fn thirteen_boxes(rt: HostRuntime) -> Result<(), Fail> {
    let orders = [
        [0, 1, 2, 3],
        [0, 1, 3, 2],
        [0, 2, 1, 3],
        [0, 2, 3, 1],
        [0, 3, 1, 2],
        [0, 3, 2, 1],
        [1, 0, 2, 3],
        [1, 2, 3, 0],
        [2, 1, 3, 0],
        [2, 3, 0, 1],
        [3, 0, 1, 2],
        [3, 1, 2, 0],
        [3, 2, 1, 0],
    ];
    for (number, order) in orders.iter().enumerate() {
        settles_all(&rt, number as u8, order)?;
    }
    Ok(())
}
