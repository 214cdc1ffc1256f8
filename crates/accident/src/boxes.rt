// What the program does with a box: setting it up, cutting its power, and asking it to countersign.
ghost use Rattle.std.specs.Prelude.{◌≡◌, ◌&&◌, length, replicate, is_ok, IfOk, Some, None, nat_le, nat_lt};
ghost use Rattle.ready.specs.Seen.{slip_of};

use crate::dockets::{Offer, opening, seal_over};
use crate::telling::{tell_deed, tell_refusal};
use anyhow::anyhow;
use book::{Book, PalletBook};
use marks::{MarkStore, Outcome, TableStore};
use ready::{ReadyBox, Slip};
use seals::Checker;
use settlement::ColdBox;

// What a box reports: the balances of accounts 0 to 2, and the next number of account 0.
#[derive(Clone, Copy, PartialEq, Eq)]
pub struct Report {
    pub balances: [Option<u64>; 3],
    pub next: Option<u64>,
}

// The countersigns that a yard gathers for an offer: the index of each box's seal in the roll.
#[derive(Clone, Copy)]
pub struct Votes<'a> {
    pub offer: Offer,
    pub roll: &'a [u8],
    pub seals: [Option<u8>; 4],
}

impl<'a> Votes<'a> {
    ghost use Rattle.accident.specs.Story.{counted_in, with_seals};

    pub fn new(offer: Offer, roll: &'a [u8]) -> Votes<'a>
        ensures offer { result.offer ≡ offer }
        ensures roll { result.roll.now ≡ roll.now }
        ensures seals { result.seals ≡ replicate 4 None }
    {
        Votes {
            offer,
            roll,
            seals: [None; 4],
        }
    }

    // Puts down the seal of one of boxes 0 to 3.
    fn gather(&mut self, number: u8, seal: u8)
        ensures { self.new ≡ with_seals self.old (counted_in self.old.seals number (Some seal)) }
    {
        let at = usize::from(number);
        if at < 4 {
            self.seals[at] = Some(seal);
        }
    }
}

// One of the four boxes: a ready box of the pool, and its number there.
#[derive(Drop)]
pub struct NumberedBox<C> {
    pub number: u8,
    pub ready: ReadyBox<PalletBook, C, TableStore>,
}

impl<C: Checker> NumberedBox<C> {
    ghost use Rattle.accident.specs.Story.{stand_of, checker_of, started, restarted, text_for, votes_after, report_of, IsAt, WasAsked, HasTaken, voted_by};

    // A box beside an unmarked store whose writes end so.
    pub fn set_up(number: u8, checker: C, row: &[Outcome]) -> anyhow::Result<NumberedBox<C>>
    where
        C: Drop,
        ensures at { IfOk result (IsAt number (started number row.now) checker) }
        ensures made { is_ok result ≡ (nat_le (length row.now) 64 && nat_lt number 4) }
    {
        let book = opening();
        let Ok(store) = TableStore::new(number, row) else {
            return Err(anyhow!("the row was refused"));
        };
        let Ok(cold) = ColdBox::set_up(7, number, 1, book, checker) else {
            return Err(anyhow!("the box was refused"));
        };
        Ok(NumberedBox {
            number,
            ready: ReadyBox::join(cold, store),
        })
    }

    // Power is cut and comes back: the box restarts, and joins its store again.
    pub fn come_back(self) -> NumberedBox<C>
        ensures number { result.number ≡ self.number }
        ensures stand { stand_of result ≡ restarted (stand_of self) }
        ensures store { result.ready.store ≡ self.ready.store }
        ensures checker { checker_of result ≡ checker_of self }
    {
        let NumberedBox { number, ready } = self;
        let (cold, store) = ready.restart();
        NumberedBox {
            number,
            ready: ReadyBox::join(cold, store),
        }
    }

    // Releases a slip, and gathers the countersign.
    pub fn give_out(
        &mut self,
        rt: &HostRuntime,
        slip: Slip,
        votes: &mut Votes,
    ) -> anyhow::Result<()>
        ensures unchanged { self.new ≡ self.old }
        ensures votes { votes.new ≡ votes_after self.old.number votes.old (text_for (stand_of self.old) (slip_of slip)) }
    {
        let mut text = [0u8; 82];
        if let Err(fault) = self.ready.release(slip, &mut text) {
            return tell_refusal(rt, self.number, fault);
        }
        let Some(seal) = seal_over(votes.roll, self.number, &text) else {
            return Err(anyhow!("a text that nobody has sealed"));
        };
        votes.gather(self.number, seal);
        tell_deed(rt, self.number, "countersigns", votes.offer.name)
    }

    // Asks the box to countersign a docket, and to release the countersign at once.
    pub fn ask_for(&mut self, rt: &HostRuntime, votes: &mut Votes) -> anyhow::Result<()>
        ensures asked { WasAsked C.good votes.old.offer self.old self.new }
        ensures votes { votes.new ≡ voted_by C.good self.old votes.old }
    {
        let seal = [0, votes.offer.seal];
        match self
            .ready
            .countersign(&votes.offer.docket.to_bytes(), &seal)
        {
            Ok(slip) => self.give_out(rt, slip, votes),
            Err(fault) => tell_refusal(rt, self.number, fault),
        }
    }

    // The box takes a certificate, and reports.
    pub fn hand_in(&mut self, rt: &HostRuntime, certificate: &[u8]) -> anyhow::Result<Report>
        ensures took { HasTaken C.good certificate.now self.old self.new }
        ensures report { IfOk result (λ p. p ≡ report_of (stand_of self.new)) }
    {
        let number = self.number;
        match self.ready.take(certificate) {
            Ok(count) => println!(rt; "  box {number}: settles {count}")?,
            Err(fault) => tell_refusal(rt, number, fault)?,
        }
        Ok(Report {
            balances: [0, 1, 2].map(|account| self.ready.ask(account)),
            next: self.ready.next_number(0),
        })
    }
}
