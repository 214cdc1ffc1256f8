// The pallet book: 64 balances whose sum never changes.
ghost use Rattle.std.specs.Prelude.{◌≡◌, ℕ, ◌^◌, ◌≤◌, List, IfSome, sum};
ghost use Rattle.book.specs.Fault.{book_reading};
ghost use Rattle.book.specs.Pallets.{balance, transfer, pallet_kinds, pallet_valid, pallet_next, pallet_answer, set_up, transfer_in};
ghost use Rattle.std.specs.Result.{result_map_both};
ghost use Rattle.book.specs.Law.{after};
ghost use Rattle.book.specs.Transfers.{either_order};
ghost use Rattle.std.proofs.Common.{rules};

use crate::{Book, BookFault};

// The accounts are 0 to 63.
pub const LAST_ACCOUNT: u8 = 63;

// The greatest sum of balances, and the greatest amount of one line.
const MOST: u64 = 1 << 40;

// The kind of a transfer's line. It stays a byte and no variant of an enum: each book has its own kinds, and a new book
// may bring more.
const TRANSFER: u8 = 1;

// What a transfer's line says.
#[derive(Clone, Copy)]
struct Transfer {
    receiver: u8,
    amount: u64,
}

// The balances at the opening, those kept and the current ones. A struct of kept and current that all books share would
// be no plainer: each book's keep, back and reset would still be a line of its own.
#[derive(Drop)]
pub struct PalletBook {
    opening: [u64; 64],
    kept: [u64; 64],
    current: [u64; 64],
    ghost bounded: { sum opening ≤ 2 ^ 40 },
    ghost keeps: { sum kept ≡ sum opening },
    ghost stands: { sum current ≡ sum opening },
}

// The sum, in a number wide enough for any 64 balances. A loop: the library's `sum` took about three times as long.
fn sum_of(balances: &[u64; 64]) -> u128
    ensures { result ≡ sum balances.now }
{
    let mut total: u128 = 0;
    for balance in balances {
        total += u128::from(*balance);
    }
    total
}

// Takes a line apart; none where its form is not that of a transfer. An Option is enough, as no caller learns why.
fn transfer_in(line: &[u8; 16]) -> Option<Transfer>
    ensures says { result ≡ transfer_in line.now }
    ensures known { IfSome result (λ t. t.receiver ≤ 63) }
{
    let [TRANSFER, receiver, 0, 0, 0, 0, 0, 0, a, b, c, d, e, f, g, h] = *line else {
        return None;
    };
    let amount = u64::from_be_bytes([a, b, c, d, e, f, g, h]);
    if receiver > LAST_ACCOUNT || amount == 0 || amount > MOST {
        return None;
    }
    Some(Transfer { receiver, amount })
}

// Takes the amount from the issuer, whose balance covers it, and gives it to the receiver.
#[tactic(auto, using(crate::proofs::Transfers::balance_sum, crate::proofs::Transfers::debit_shrinks))]
fn carry_out(balances: &mut [u64; 64], issuer: u8, order: Transfer)
    requires accounts { (issuer ≤ 63) × (order.receiver ≤ 63) }
    requires covers { order.amount ≤ balance balances.old issuer }
    requires bounded { sum balances.old ≤ 2 ^ 40 }
    ensures { balances.new ≡ transfer balances.old issuer order.receiver order.amount }
{
    balances[issuer as usize] -= order.amount;
    balances[order.receiver as usize] += order.amount;
}

impl PalletBook {
    // Refuses balances whose sum is above 2^40.
    pub fn new(balances: [u64; 64]) -> Result<PalletBook, BookFault>
        ensures { result_map_both (λ b. record { opening = b.opening; kept = b.kept; current = b.current }) book_reading result ≡ set_up balances }
    {
        if sum_of(&balances) > u128::from(MOST) {
            return Err(BookFault::Overfull);
        }
        Ok(PalletBook {
            opening: balances,
            kept: balances,
            current: balances,
        })
    }

    // The sum of the balances, which is always that of the opening.
    pub fn total(&self) -> u64
        ensures current { result ≡ sum self.now.current }
        ensures opening { result ≡ sum self.now.opening }
        ensures bounded { result ≤ 2 ^ 40 }
    {
        sum_of(&self.current) as u64
    }
}

impl Book for PalletBook {
    type Question = u8;

    type Answer = Option<u64>;

    ghost State = { List ℕ };

    ghost opening = { λ b. b.opening };

    ghost kept = { λ b. b.kept };

    ghost current = { λ b. b.current };

    ghost listed = { pallet_kinds };

    ghost valid = { pallet_valid };

    ghost next = { pallet_next };

    ghost answer = { pallet_answer };

    ghost kinds = { Prim.search rules };

    // transfers of two issuers commute in any state, reached or not
    ghost independence = { λ b before m n reached apart. either_order (after pallet_next b.opening before) m n apart };

    fn lists(kind: u8) -> bool {
        kind == TRANSFER
    }

    #[tactic(auto, using(crate::proofs::Transfers::transfer_sum))]
    fn apply(&mut self, account: u8, line: &[u8; 16]) -> bool {
        let Some(order) = transfer_in(line) else {
            return false;
        };
        if account > LAST_ACCOUNT || order.receiver == account {
            return false;
        }
        if self.current[account as usize] < order.amount {
            return false;
        }
        carry_out(&mut self.current, account, order);
        true
    }

    fn keep(&mut self) {
        self.kept = self.current;
    }

    fn back(&mut self) {
        self.current = self.kept;
    }

    fn reset(&mut self) {
        self.kept = self.opening;
        self.current = self.opening;
    }

    fn ask(&self, question: u8) -> Option<u64> {
        self.current.get(question as usize).copied()
    }
}
